//! Runs through the core: what is reported, and what a failing device leaves.
ghost use Rattle.std.specs.Prelude.{IsTrue};

use super::*;
use crate::calls::plain;
use apx_device::{
    FailingKeeper, FailingSpools, FailingVault, GivenVault, Keeper, MemoryFolder, MemoryKeeper,
    MemoryOut, MemorySpools, MemoryVault, Spools, Vault,
};
use std::alloc::{AllocError, Global};
use std::process::Abort;
use std::test::Fail;

/// Counts the words of in.txt in two partitions, a line to a window.
pub(crate) const SINGLE: &str =
    r#"{"operators":[{"name":"read","class":"lines","properties":{"file":"in.txt","perWindow":1}},{"name":"split","class":"words"},{"name":"tally","class":"count","attributes":{"PARTITIONS":2}},{"name":"out","class":"store"}],"streams":[{"name":"s1","source":{"operatorName":"read","portName":"output"},"sinks":[{"operatorName":"split","portName":"input"}]},{"name":"s2","source":{"operatorName":"split","portName":"output"},"sinks":[{"operatorName":"tally","portName":"input"}]},{"name":"s3","source":{"operatorName":"tally","portName":"output"},"sinks":[{"operatorName":"out","portName":"input"}]}]}"#;

/// Six lines.
pub(crate) const SIX: &str = "a\nb\nc\na\nb\nc\n";

/// What the six windows print.
pub(crate) const SIX_TEXT: &str =
    "window 1 4294967296000000000 1\na\t1\nwindow 2 4294967296000000001 1\nb\t1\nwindow 3 4294967296000000002 1\nc\t1\nwindow 4 4294967296000000003 1\na\t2\nwindow 5 4294967296000000004 1\nb\t2\nwindow 6 4294967296000000005 1\nc\t2\n";

/// What a run left behind: its status, both outputs, how many windows are stored, and how many entries its journal has.
#[derive(Drop)]
struct Left {
    status: u8,
    out: Vec<u8>,
    err: Vec<u8>,
    stored: u32,
    entries: usize,
    shown: bool,
    spool: bool,
}

/// How many entries a history has.
fn entries(history: &History) -> usize {
    match history {
        History::Nothing => 0,
        History::Core(journal) => journal.journal().entries().len(),
    }
}

/// What a run with these words, input and script over these devices leaves.
fn run_over<K: Keeper + Drop, V: Vault + Drop, P: Spools + Drop>(
    alloc: Global,
    given: &[&str],
    input: &str,
    script: &str,
    devices: Devices<K, V, P>,
) -> Result<Left, Fail>
    requires sound { IsTrue (K.sound devices.keeper) }
    requires vault_sound { IsTrue (V.sound devices.vault) }
{
    let mut files = MemoryFolder::new(alloc);
    files.add(alloc, "app.json", SINGLE.as_bytes().to_vec(alloc)?)?;
    files.add(alloc, "in.txt", input.as_bytes().to_vec(alloc)?)?;
    files.add(alloc, "script.txt", script.as_bytes().to_vec(alloc)?)?;
    let mut words = Vec::new(alloc);
    for word in given {
        words.push(String::from_str(alloc, word)?)?;
    }
    let (mut out, mut err) = (MemoryOut::new(alloc), MemoryOut::new(alloc));
    let ended = plain(alloc, &words, &mut files, devices, &mut out, &mut err);
    Ok(Left {
        status: ended.status,
        out: Vec::from_slice(alloc, out.written())?,
        err: Vec::from_slice(alloc, err.written())?,
        stored: ended.devices.keeper.last(),
        entries: entries(&ended.journal),
        shown: ended.shown.is_some(),
        spool: ended.spool.is_some(),
    })
}

/// Devices in memory.
pub(crate) fn memory(alloc: Global) -> Devices<MemoryKeeper, MemoryVault, MemorySpools> {
    Devices {
        keeper: MemoryKeeper::new(alloc),
        vault: MemoryVault::new(alloc),
        spools: MemorySpools::new(alloc),
    }
}

fn expect(rt: &impl Abort, left: &Left, status: u8, out: &str, err: &str) {
    assert_eq!(rt; std::str::from_utf8(left.err.as_slice()).unwrap_or(""), err);
    assert_eq!(rt; left.out.as_slice(), out.as_bytes());
    assert_eq!(rt; left.status, status);
}

#[test]
fn a_run_is_reported(rt: HostRuntime) -> Result<(), Fail> {
    let alloc = rt.alloc();
    let left = run_over(alloc, &["sim", "app.json"], "", "", memory(alloc))?;
    let none =
        "windows 0\nrows 0\nstarts 0\nwrites 0\nsaves 0\nkills 0\nrepartitions 0\ncommitted 0\n";
    expect(&rt, &left, 0, "", none);
    assert_eq!(rt; left.entries, 1);
    for order in ["0", "1", "7"] {
        let words = ["sim", "app.json", "--checkpoint", "2", "--order", order];
        let left = run_over(alloc, &words, SIX, "", memory(alloc))?;
        let report =
            "windows 6\nrows 6\nstarts 30\nwrites 6\nsaves 15\nkills 0\nrepartitions 0\ncommitted 6\n";
        expect(&rt, &left, 0, SIX_TEXT, report);
    }
    Ok(())
}

#[test]
fn each_failing_device_has_its_status(rt: HostRuntime) -> Result<(), Fail> {
    let alloc = rt.alloc();
    let words = ["sim", "app.json", "--checkpoint", "2"];
    let devices = Devices {
        keeper: MemoryKeeper::new(alloc),
        vault: FailingVault::new(MemoryVault::new(alloc), [1].to_vec(alloc)?),
        spools: MemorySpools::new(alloc),
    };
    let left = run_over(alloc, &words, SIX, "", devices)?;
    expect(&rt, &left, 8, "", "apex: checkpoint store failed\n");
    let devices = Devices {
        keeper: FailingKeeper::new(MemoryKeeper::new(alloc), [2].to_vec(alloc)?, false),
        vault: MemoryVault::new(alloc),
        spools: MemorySpools::new(alloc),
    };
    let left = run_over(alloc, &words, SIX, "", devices)?;
    expect(&rt, &left, 9, "", "apex: sink store failed\n");
    assert_eq!(rt; left.stored, 1);
    let devices = Devices {
        keeper: MemoryKeeper::new(alloc),
        vault: MemoryVault::new(alloc),
        spools: FailingSpools::new(alloc, [1].to_vec(alloc)?, Vec::new(alloc), Vec::new(alloc)),
    };
    let left = run_over(alloc, &words, SIX, "", devices)?;
    expect(&rt, &left, 10, "", "apex: spool failed\n");
    assert_eq!(rt; left.entries, 0);
    assert!(rt; !left.spool);
    Ok(())
}

#[test]
fn a_spool_that_fails_hands_out_how(rt: HostRuntime) -> Result<(), Fail> {
    let alloc = rt.alloc();
    let long = "a b c d e f g h i j k l m n o p q r s t u v w x y z\n";
    let words = ["sim", "app.json", "--block", "1040", "--keep", "1"];
    let mut input = String::new(alloc);
    for _ in 0..3 {
        input.push_str(long)?;
    }
    let devices = Devices {
        keeper: MemoryKeeper::new(alloc),
        vault: MemoryVault::new(alloc),
        spools: FailingSpools::new(alloc, Vec::new(alloc), [1].to_vec(alloc)?, Vec::new(alloc)),
    };
    let left = run_over(alloc, &words, input.as_str(), "", devices)?;
    expect(&rt, &left, 10, "", "apex: spool failed\n");
    assert!(rt; left.spool);
    Ok(())
}

/// What `gen` with this number and size prints.
fn generated(alloc: Global, number: &str, size: &str) -> Result<Left, Fail> {
    run_over(alloc, &["gen", number, size], "", "", memory(alloc))
}

/// Whether a text has this line.
fn has_line(text: &str, wanted: &str) -> bool {
    for line in text.lines() {
        if line == wanted {
            return true;
        }
    }
    false
}

/// Expects each of these lines in a report.
pub(crate) fn expect_lines(rt: &impl Abort, report: &[u8], lines: &[&str]) {
    let report = std::str::from_utf8(report).unwrap_or("");
    for line in lines {
        assert!(rt; has_line(report, line));
    }
}

#[test]
fn kills_and_repartitions_change_no_row(rt: HostRuntime) -> Result<(), Fail> {
    let alloc = rt.alloc();
    let rows: [(&str, &[&str]); 5] = [
        ("kill before 5 0 tally\n", &["kills 1", "repartitions 0"]),
        ("kill staged 5 0 tally\n", &["kills 1", "repartitions 0"]),
        ("kill done 5 0 tally\n", &["kills 1", "repartitions 0"]),
        ("kill written 3 0 out\n", &["kills 1", "repartitions 0"]),
        (
            "repartition 4 3 tally\n",
            &["starts 32", "saves 16", "kills 0", "repartitions 1"],
        ),
    ];
    for (script, lines) in rows {
        let words = [
            "sim",
            "app.json",
            "--script",
            "script.txt",
            "--checkpoint",
            "2",
        ];
        let left = run_over(alloc, &words, SIX, script, memory(alloc))?;
        assert_eq!(rt; left.status, 0);
        assert_eq!(rt; left.out.as_slice(), SIX_TEXT.as_bytes());
        expect_lines(
            &rt,
            &left.err,
            &["windows 6", "rows 6", "writes 6", "committed 6"],
        );
        expect_lines(&rt, &left.err, lines);
    }
    Ok(())
}

#[test]
fn bytes_that_spell_no_state_are_shown(rt: HostRuntime) -> Result<(), Fail> {
    let alloc = rt.alloc();
    let words = [
        "sim",
        "app.json",
        "--checkpoint",
        "1",
        "--script",
        "script.txt",
    ];
    let devices = Devices {
        keeper: MemoryKeeper::new(alloc),
        vault: GivenVault::new([7].to_vec(alloc)?),
        spools: MemorySpools::new(alloc),
    };
    let left = run_over(alloc, &words, SIX, "kill done 6 0 tally\n", devices)?;
    expect(&rt, &left, 11, "", "apex: checkpoint damaged\n");
    assert!(rt; left.shown);
    Ok(())
}

#[test]
fn no_run_begins_over_a_store_with_more_windows(rt: HostRuntime) -> Result<(), Fail> {
    let alloc = rt.alloc();
    let mut keeper = MemoryKeeper::new(alloc);
    keeper.commit(1, &[])?;
    let devices = Devices {
        keeper,
        vault: MemoryVault::new(alloc),
        spools: MemorySpools::new(alloc),
    };
    let left = run_over(alloc, &["sim", "app.json"], "", "", devices)?;
    expect(&rt, &left, 13, "", "apex: out of memory\n");
    assert_eq!(rt; left.entries, 0);
    assert_eq!(rt; left.stored, 1);
    Ok(())
}

#[test]
fn an_example_is_run_and_reported(rt: HostRuntime) -> Result<(), Fail> {
    let left = generated(rt.alloc(), "7", "80")?;
    assert_eq!(rt; left.status, 0);
    assert_eq!(rt; left.err.len(), 0);
    let lines = [
        "windows 8",
        "writes 8",
        "kills 2",
        "repartitions 1",
        "committed 8",
    ];
    expect_lines(&rt, &left.out, &lines);
    let left = generated(rt.alloc(), "7", "70")?;
    expect_lines(
        &rt,
        &left.out,
        &["windows 7", "kills 0", "repartitions 0", "committed 4"],
    );
    Ok(())
}
