//! Runs whose journal is printed, and what an audit of that says.
ghost use Rattle.std.specs.Prelude.{IsTrue};

use super::*;
use crate::calls::plain;
use crate::journals::COUNTED;
use apx_device::{
    FailingKeeper, Keeper, MemoryFolder, MemoryKeeper, MemoryOut, MemorySpools, MemoryVault,
};
use std::alloc::Global;
use std::test::Fail;

/// Six lines.
const SIX: &str = "a\nb\nc\na\nb\nc\n";

/// What a call left: its status, what both outputs have got, and how many windows are stored.
#[derive(Drop)]
struct Left {
    status: u8,
    out: Vec<u8>,
    err: Vec<u8>,
    stored: u32,
}

/// What these words leave over an input, a script and a journal, with a keeper and an output.
fn leave<K: Keeper + Drop>(
    alloc: Global,
    given: &[&str],
    files: &[(&str, &[u8])],
    keeper: K,
    mut out: MemoryOut,
) -> Result<Left, Fail>
    requires { IsTrue (K.sound keeper) }
{
    let mut folder = MemoryFolder::new(alloc);
    folder.add(alloc, "app.json", COUNTED.as_bytes().to_vec(alloc)?)?;
    for (name, text) in files {
        folder.add(alloc, name, text.to_vec(alloc)?)?;
    }
    let mut words = Vec::new(alloc);
    for word in given {
        words.push(String::from_str(alloc, word)?)?;
    }
    let devices = Devices {
        keeper,
        vault: MemoryVault::new(alloc),
        spools: MemorySpools::new(alloc),
    };
    let mut err = MemoryOut::new(alloc);
    let ended = plain(alloc, &words, &mut folder, devices, &mut out, &mut err);
    Ok(Left {
        status: ended.status,
        out: Vec::from_slice(alloc, out.written())?,
        err: Vec::from_slice(alloc, err.written())?,
        stored: ended.devices.keeper.last(),
    })
}

/// What these words leave over devices in memory.
fn left_in_memory(alloc: Global, given: &[&str], files: &[(&str, &[u8])]) -> Result<Left, Fail> {
    let keeper = MemoryKeeper::new(alloc);
    leave(alloc, given, files, keeper, MemoryOut::new(alloc))
}

#[test]
fn what_is_traced_is_audited_as_ended(rt: HostRuntime) -> Result<(), Fail> {
    let alloc = rt.alloc();
    for (script, order) in [
        ("", "0"),
        ("repartition 4 3 tally\n", "0"),
        ("repartition 4 3 tally\nkill staged 5 2 tally\n", "7"),
        ("kill written 3 0 out\n", "18446744073709551615"),
    ] {
        let (input, script) = (SIX.as_bytes(), script.as_bytes());
        let files = [("in.txt", input), ("script", script)];
        let given = [
            "trace",
            "app.json",
            "--script",
            "script",
            "--checkpoint",
            "2",
            "--order",
            order,
        ];
        let traced = left_in_memory(alloc, &given, &files)?;
        assert_eq!(rt; (traced.status, traced.stored), (0, 6));
        assert!(rt; traced.err.starts_with(b"windows 6\nrows 6\n"));
        let files = [
            ("in.txt", input),
            ("script", script),
            ("journal", traced.out.as_slice()),
        ];
        let given = [
            "audit",
            "app.json",
            "journal",
            "--script",
            "script",
            "--checkpoint",
            "2",
        ];
        let audited = left_in_memory(alloc, &given, &files)?;
        assert_eq!(rt; std::str::from_utf8(&audited.err)?, "");
        assert!(rt; audited.out.starts_with(b"legal "));
        assert!(rt; audited.out.ends_with(b" ended\n"));
    }
    Ok(())
}

#[test]
fn a_run_of_no_window_has_one_entry(rt: HostRuntime) -> Result<(), Fail> {
    let traced = left_in_memory(rt.alloc(), &["trace", "app.json"], &[("in.txt", b"")])?;
    assert_eq!(rt; std::str::from_utf8(&traced.out)?, "0 end\n");
    assert_eq!(rt;
        std::str::from_utf8(&traced.err)?,
        "windows 0\nrows 0\nstarts 0\nwrites 0\nsaves 0\nkills 0\nrepartitions 0\ncommitted 0\n"
    );
    Ok(())
}

#[test]
fn a_store_that_fails_to_count_leaves_no_journal(rt: HostRuntime) -> Result<(), Fail> {
    let alloc = rt.alloc();
    let keeper = FailingKeeper::new(MemoryKeeper::new(alloc), [8].to_vec(alloc)?, false);
    let files = [("in.txt", SIX.as_bytes())];
    let out = MemoryOut::new(alloc);
    let traced = leave(alloc, &["trace", "app.json"], &files, keeper, out)?;
    assert_eq!(rt;
        std::str::from_utf8(&traced.err)?,
        "apex: sink store failed\n"
    );
    assert_eq!(rt; (traced.status, traced.out.len(), traced.stored), (9, 0, 6));
    Ok(())
}

#[test]
fn an_output_that_fails_has_no_journal_and_no_report(rt: HostRuntime) -> Result<(), Fail> {
    let alloc = rt.alloc();
    let files = [("in.txt", SIX.as_bytes())];
    let out = MemoryOut::failing(alloc, [1].to_vec(alloc)?);
    let given = ["trace", "app.json"];
    let traced = leave(alloc, &given, &files, MemoryKeeper::new(alloc), out)?;
    assert_eq!(rt;
        (traced.status, traced.out.len(), traced.err.len()),
        (12, 0, 0)
    );
    assert_eq!(rt; traced.stored, 6);
    Ok(())
}
