//! Runs by worker threads: what they print is what one thread prints.
ghost use Rattle.std.specs.Prelude.{IsTrue};

use super::*;
use apx_device::{
    FailingKeeper, Keeper, MemoryFolder, MemoryKeeper, MemoryOut, MemorySpools, MemoryVault, NoGate,
};
use std::alloc::Global;
use std::sync::Wait;
use std::test::Fail;
use std::thread::Threads;

/// Counts the words of in.txt in four partitions, ten lines to a window.
const ORDINARY: &str = r#"{"operators": [
  {"name": "read", "class": "lines", "properties": {"file": "in.txt", "perWindow": 10}},
  {"name": "split", "class": "words"},
  {"name": "tally", "class": "count", "attributes": {"PARTITIONS": 4}},
  {"name": "out", "class": "store"}],
 "streams": [
  {"name": "s1", "source": {"operatorName": "read", "portName": "output"},
   "sinks": [{"operatorName": "split", "portName": "input"}]},
  {"name": "s2", "source": {"operatorName": "split", "portName": "output"},
   "sinks": [{"operatorName": "tally", "portName": "input"}]},
  {"name": "s3", "source": {"operatorName": "tally", "portName": "output"},
   "sinks": [{"operatorName": "out", "portName": "input"}]}]}"#;

/// What a call left: its status, what both outputs have got, how many windows are stored, how many entries its journal has,
/// and the greatest number of a worker in it.
#[derive(Drop)]
struct Left {
    status: u8,
    out: Vec<u8>,
    err: Vec<u8>,
    stored: u32,
    entries: usize,
    greatest: u8,
}

/// How many entries a history has, and the greatest number of a worker in it.
fn counted(history: &History) -> (usize, u8) {
    match history {
        History::Nothing => (0, 0),
        History::Core(journal) => {
            let mut greatest = 0;
            for entry in journal.journal().entries() {
                greatest = greatest.max(entry.worker);
            }
            (journal.journal().entries().len(), greatest)
        }
    }
}

/// What these words leave over an application, an input and a script, with a keeper.
fn leaves_with<R: Threads + Wait + Sync, K: Keeper + Drop + Send>(
    rt: &R,
    alloc: Global,
    given: &[&str],
    files: &[(&str, &str)],
    keeper: K,
) -> Result<Left, Fail>
    requires { IsTrue (K.sound keeper) }
{
    let mut folder = MemoryFolder::new(alloc);
    for (name, text) in files {
        folder.add(alloc, name, Vec::from_slice(alloc, text.as_bytes())?)?;
    }
    let mut words = Vec::new(alloc);
    for word in given {
        words.push(String::from_str(alloc, word)?)?;
    }
    let devices = Devices {
        keeper,
        vault: MemoryVault::new(alloc),
        spools: MemorySpools::new(alloc),
    };
    let (mut out, mut err) = (MemoryOut::new(alloc), MemoryOut::new(alloc));
    let ended = apex_main(
        rt,
        alloc,
        &words,
        &mut folder,
        &NoGate,
        devices,
        &mut out,
        &mut err,
    );
    let (entries, greatest) = counted(&ended.journal);
    Ok(Left {
        status: ended.status,
        out: Vec::from_slice(alloc, out.written())?,
        err: Vec::from_slice(alloc, err.written())?,
        stored: ended.devices.keeper.last(),
        entries,
        greatest,
    })
}

/// What these words leave over devices in memory.
fn leaves<R: Threads + Wait + Sync>(
    rt: &R,
    alloc: Global,
    given: &[&str],
    files: &[(&str, &str)],
) -> Result<Left, Fail> {
    leaves_with(rt, alloc, given, files, MemoryKeeper::new(alloc))
}

#[test]
fn workers_print_what_one_thread_prints(rt: HostRuntime) -> Result<(), Fail> {
    let alloc = rt.alloc();
    for (script, lines) in [
        ("", "kills 0\nrepartitions 0\n"),
        ("kill staged 5 0 tally\n", "kills 1\nrepartitions 0\n"),
        (
            "kill written 3 0 out\nrepartition 4 3 tally\nkill done 5 2 tally\n",
            "kills 2\nrepartitions 1\n",
        ),
    ] {
        let files = [
            ("app.json", runs::SINGLE),
            ("in.txt", runs::SIX),
            ("script", script),
        ];
        for threads in ["1", "2", "4", "16"] {
            let given = [
                "run",
                "app.json",
                "--script",
                "script",
                "--checkpoint",
                "2",
                "--threads",
                threads,
            ];
            let left = leaves(&rt, alloc, &given, &files)?;
            assert_eq!(rt; (left.status, left.stored), (0, 6));
            assert_eq!(rt; std::str::from_utf8(&left.out)?, runs::SIX_TEXT);
            let report = std::str::from_utf8(&left.err)?;
            assert!(rt; report.starts_with("windows 6\nrows 6\n"));
            assert!(rt; report.contains(lines));
            assert!(rt; report.ends_with("committed 6\n"));
            assert!(rt; left.greatest < 16);
        }
    }
    Ok(())
}

#[test]
fn two_windows_of_words_are_counted_by_workers(rt: HostRuntime) -> Result<(), Fail> {
    let alloc = rt.alloc();
    let files = [
        ("app.json", tests::WORDS_COUNTED),
        ("in.txt", "a b\na\nc a\n"),
    ];
    for words in [&["mean", "app.json"][..], &["run", "app.json"][..]] {
        let left = leaves(&rt, alloc, words, &files)?;
        assert_eq!(rt; left.status, 0);
        assert_eq!(rt;
            std::str::from_utf8(&left.out)?,
            "window 1 4294967296000000000 2\na\t2\nb\t1\nwindow 2 4294967296000000001 2\na\t3\nc\t1\n"
        );
    }
    let left = leaves(
        &rt,
        alloc,
        &["run", "app.json"],
        &[("app.json", tests::WORDS_COUNTED), ("in.txt", "")],
    )?;
    assert_eq!(rt; (left.status, left.out.len(), left.entries), (0, 0, 1));
    Ok(())
}

#[test]
fn workers_and_one_thread_print_two_hundred_windows(rt: HostRuntime) -> Result<(), Fail> {
    let alloc = rt.alloc();
    let mut input = String::new(alloc);
    for line in 1..2001u32 {
        let text = format!(in alloc; "the quick w{}\n", line % 10)?;
        input.push_str(&text)?;
    }
    let files = [("app.json", ORDINARY), ("in.txt", input.as_str())];
    let simulated = leaves(&rt, alloc, &["sim", "app.json"], &files)?;
    let done = leaves(&rt, alloc, &["run", "app.json"], &files)?;
    assert_eq!(rt; (simulated.status, done.status), (0, 0));
    assert_eq!(rt; (simulated.stored, done.stored), (200, 200));
    assert!(rt; done.out.as_slice() == simulated.out.as_slice());
    let report =
        "windows 200\nrows 2400\nstarts 1400\nwrites 200\nsaves 21\nkills 0\nrepartitions 0\ncommitted 180\n";
    assert_eq!(rt; std::str::from_utf8(&simulated.err)?, report);
    assert_eq!(rt; std::str::from_utf8(&done.err)?, report);
    assert_eq!(rt; simulated.greatest, 0);
    assert!(rt; done.greatest < 4);
    Ok(())
}

#[test]
fn what_is_refused_of_one_thread_is_refused_of_workers(rt: HostRuntime) -> Result<(), Fail> {
    let alloc = rt.alloc();
    let files = [
        ("app.json", runs::SINGLE),
        ("in.txt", runs::SIX),
        ("script", "kill staged 5 2 tally\n"),
    ];
    for (given, status, err) in [
        (
            &["run", "app.json", "--threads", "17"][..],
            1,
            "apex: not a command\n",
        ),
        (
            &["run", "app.json", "--threads", "0"][..],
            1,
            "apex: not a command\n",
        ),
        (
            &["run", "app.json", "--order", "1"][..],
            1,
            "apex: not a command\n",
        ),
        (&["run", "no.json"][..], 3, "apex: no file no.json\n"),
        (
            &["run", "app.json", "--script", "script"][..],
            7,
            "apex: script line 1 refused: S9\n",
        ),
    ] {
        let left = leaves(&rt, alloc, given, &files)?;
        assert_eq!(rt; std::str::from_utf8(&left.err)?, err);
        assert_eq!(rt;
            (left.status, left.out.len(), left.stored, left.entries),
            (status, 0, 0, 0)
        );
    }
    Ok(())
}

#[test]
fn a_store_that_fails_stops_all_workers(rt: HostRuntime) -> Result<(), Fail> {
    let alloc = rt.alloc();
    let keeper = FailingKeeper::new(MemoryKeeper::new(alloc), [2].to_vec(alloc)?, false);
    let files = [("app.json", runs::SINGLE), ("in.txt", runs::SIX)];
    let left = leaves_with(&rt, alloc, &["run", "app.json"], &files, keeper)?;
    assert_eq!(rt;
        std::str::from_utf8(&left.err)?,
        "apex: sink store failed\n"
    );
    assert_eq!(rt; (left.status, left.out.len(), left.stored), (9, 0, 1));
    Ok(())
}
