//! Journals that are audited: what is told of each, and the status.
use super::*;
use crate::calls::plain;
use apx_device::{Keeper, MemoryFolder, MemoryKeeper, MemoryOut, MemorySpools, MemoryVault};
use std::alloc::Global;
use std::process::Abort;
use std::test::Fail;

/// Counts the words of in.txt in two partitions, a line to a window.
pub(crate) const COUNTED: &str =
    r#"{"operators":[{"name":"read","class":"lines","properties":{"file":"in.txt","perWindow":1}},{"name":"split","class":"words"},{"name":"tally","class":"count","attributes":{"PARTITIONS":2}},{"name":"out","class":"store"}],"streams":[{"name":"s1","source":{"operatorName":"read","portName":"output"},"sinks":[{"operatorName":"split","portName":"input"}]},{"name":"s2","source":{"operatorName":"split","portName":"output"},"sinks":[{"operatorName":"tally","portName":"input"}]},{"name":"s3","source":{"operatorName":"tally","portName":"output"},"sinks":[{"operatorName":"out","portName":"input"}]}]}"#;

/// A run over six lines, with a checkpoint each second window, and a third partition of `tally` from window 5 on.
const SPLIT: &str =
    "0 start 0 0 1\n0 finish 0 0 1\n0 start 1 0 1\n0 finish 1 0 1\n0 start 2 0 1\n0 finish 2 0 1\n0 start 2 1 1\n0 finish 2 1 1\n0 start 3 0 1\n0 write 1\n0 finish 3 0 1\n0 start 0 0 2\n0 finish 0 0 2\n0 start 1 0 2\n0 finish 1 0 2\n0 start 2 0 2\n0 finish 2 0 2\n0 start 2 1 2\n0 finish 2 1 2\n0 start 3 0 2\n0 write 2\n0 finish 3 0 2\n0 save 0 0 2\n0 save 1 0 2\n0 save 2 0 2\n0 save 2 1 2\n0 save 3 0 2\n0 advance 3 0 2\n0 advance 2 0 2\n0 advance 2 1 2\n0 advance 1 0 2\n0 advance 0 0 2\n0 commit 2\n0 start 0 0 3\n0 finish 0 0 3\n0 start 1 0 3\n0 finish 1 0 3\n0 start 2 0 3\n0 finish 2 0 3\n0 start 2 1 3\n0 finish 2 1 3\n0 start 3 0 3\n0 write 3\n0 finish 3 0 3\n0 start 0 0 4\n0 finish 0 0 4\n0 start 1 0 4\n0 finish 1 0 4\n0 start 2 0 4\n0 finish 2 0 4\n0 start 2 1 4\n0 finish 2 1 4\n0 start 3 0 4\n0 write 4\n0 finish 3 0 4\n0 save 0 0 4\n0 save 1 0 4\n0 save 2 0 4\n0 save 2 1 4\n0 save 3 0 4\n0 advance 3 0 4\n0 advance 2 0 4\n0 advance 2 1 4\n0 advance 1 0 4\n0 advance 0 0 4\n0 commit 4\n0 repartition 0\n0 start 0 0 5\n0 finish 0 0 5\n0 start 1 0 5\n0 finish 1 0 5\n0 start 2 0 5\n0 finish 2 0 5\n0 start 2 1 5\n0 finish 2 1 5\n0 start 2 2 5\n0 finish 2 2 5\n0 start 3 0 5\n0 write 5\n0 finish 3 0 5\n0 start 0 0 6\n0 finish 0 0 6\n0 start 1 0 6\n0 finish 1 0 6\n0 start 2 0 6\n0 finish 2 0 6\n0 start 2 1 6\n0 finish 2 1 6\n0 start 2 2 6\n0 finish 2 2 6\n0 start 3 0 6\n0 write 6\n0 finish 3 0 6\n0 save 0 0 6\n0 save 1 0 6\n0 save 2 0 6\n0 save 2 1 6\n0 save 2 2 6\n0 save 3 0 6\n0 advance 3 0 6\n0 advance 2 0 6\n0 advance 2 1 6\n0 advance 2 2 6\n0 advance 1 0 6\n0 advance 0 0 6\n0 commit 6\n0 end\n";

/// Expects this of the audit of a journal, with the words `audit app.json` and others, over an input and a script: the
/// status, and what both outputs have got. Nothing is stored.
fn expect_audit(
    rt: &impl Abort,
    alloc: Global,
    given: &[&str],
    files: &[(&str, &str)],
    status: u8,
    told: (&str, &str),
) -> Result<(), Fail> {
    let mut folder = MemoryFolder::new(alloc);
    folder.add(alloc, "app.json", COUNTED.as_bytes().to_vec(alloc)?)?;
    for (name, text) in files {
        folder.add(alloc, name, text.as_bytes().to_vec(alloc)?)?;
    }
    let mut words = Vec::new(alloc);
    words.push(String::from_str(alloc, "audit")?)?;
    words.push(String::from_str(alloc, "app.json")?)?;
    for word in given {
        words.push(String::from_str(alloc, word)?)?;
    }
    let devices = Devices {
        keeper: MemoryKeeper::new(alloc),
        vault: MemoryVault::new(alloc),
        spools: MemorySpools::new(alloc),
    };
    let (mut out, mut err) = (MemoryOut::new(alloc), MemoryOut::new(alloc));
    let Ended {
        status: found,
        end: _,
        devices,
        journal: _,
        shown: _,
        spool: _,
    } = plain(alloc, &words, &mut folder, devices, &mut out, &mut err);
    let Devices {
        keeper,
        vault: _,
        spools: _,
    } = devices;
    assert_eq!(rt; std::str::from_utf8(out.written())?, told.0);
    assert_eq!(rt; std::str::from_utf8(err.written())?, told.1);
    assert_eq!(rt; found, status);
    assert_eq!(rt; keeper.last(), 0);
    Ok(())
}

#[test]
fn a_journal_is_legal_or_its_first_refused_line_is_told(rt: HostRuntime) -> Result<(), Fail> {
    for (input, journal, status, out, err) in [
        ("", "0 end\n", 0, "legal 1 ended\n", ""),
        ("a b\na\nc a\n", "", 0, "legal 0 open\n", ""),
        ("a b\na\nc a\n", "0 start 0 0 1\n", 0, "legal 1 open\n", ""),
        (
            "a\n",
            "0 start 0 0 1\n0 fault 13\n",
            0,
            "legal 2 fault\n",
            "",
        ),
        (
            "a b\na\nc a\n",
            "0 write 1\n",
            16,
            "",
            "apex: journal line 1 refused: J2\n",
        ),
        (
            "a b\na\nc a\n",
            "0 start 00 0 1\n",
            16,
            "",
            "apex: journal line 1 refused: J1\n",
        ),
        (
            "a\n",
            "7 start 0 0 1\n8 finish 0 0 1\n",
            16,
            "",
            "apex: journal line 2 refused: J2\n",
        ),
    ] {
        let files = [("in.txt", input), ("journal", journal)];
        expect_audit(&rt, rt.alloc(), &["journal"], &files, status, (out, err))?;
    }
    Ok(())
}

#[test]
fn a_repartitioned_run_is_told_as_ended(rt: HostRuntime) -> Result<(), Fail> {
    let files = [
        ("in.txt", "a\nb\nc\na\nb\nc\n"),
        ("script", "repartition 4 3 tally\n"),
        ("journal", SPLIT),
    ];
    let given = ["journal", "--script", "script", "--checkpoint", "2"];
    expect_audit(
        &rt,
        rt.alloc(),
        &given,
        &files,
        0,
        ("legal 107 ended\n", ""),
    )?;
    let refused = ("", "apex: journal line 67 refused: J2\n");
    expect_audit(
        &rt,
        rt.alloc(),
        &["journal", "--checkpoint", "2"],
        &files,
        16,
        refused,
    )
}

#[test]
fn a_journal_is_read_last(rt: HostRuntime) -> Result<(), Fail> {
    let given = ["journal", "--script", "script"];
    for (input, script, status, err) in [
        (
            "",
            "kill done 1 0 tally\n",
            7,
            "apex: script line 1 refused: S4\n",
        ),
        ("a\n", "kill done 1 0 tally\n", 3, "apex: no file journal\n"),
    ] {
        let files = [("in.txt", input), ("script", script)];
        expect_audit(&rt, rt.alloc(), &given, &files, status, ("", err))?;
    }
    Ok(())
}
