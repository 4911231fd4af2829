//! Each call of each device of a run fails in turn, until a run meets no failure.
//!
//! The run counts six lines in two partitions, each line a window, with a checkpoint after each second window and one block of a
//! list in memory. Its script makes three partitions of the two, and kills one of these while it has a window open.
use crate::failing::{Device, run_failing};
use crate::runs::{Left, text};
use crate::spools::PickedSpools;
use apx_history::Event;
use std::alloc::Global;
use std::process::Abort;
use std::test::Fail;

const WORDS: [&str; 8] = [
    "sim",
    "app.json",
    "--checkpoint",
    "2",
    "--keep",
    "1",
    "--script",
    "script.txt",
];

/// What the six windows store, five bytes each.
const STORED: &str = "a=1 |b=1 |c=1 |a=2 |b=2 |c=2 |";

/// What they print.
const PRINTED: &str =
    "window 1 4294967296000000000 1\na\t1\nwindow 2 4294967296000000001 1\nb\t1\nwindow 3 4294967296000000002 1\nc\t1\nwindow 4 4294967296000000003 1\na\t2\nwindow 5 4294967296000000004 1\nb\t2\nwindow 6 4294967296000000005 1\nc\t2\n";

/// The report of the whole run.
const REPORT: &str =
    "windows 6\nrows 6\nstarts 33\nwrites 6\nsaves 16\nkills 1\nrepartitions 1\ncommitted 6\n";

/// No device of the run is called more often than that.
const MANY: u64 = 1000;

/// Expects a run that met no failure.
fn expect_whole(rt: &impl Abort, left: &Left<PickedSpools>) {
    assert_eq!(rt; text(&left.err), REPORT);
    assert_eq!(rt; text(&left.out), PRINTED);
    assert_eq!(rt; text(&left.stored), STORED);
    assert_eq!(rt; (left.status, left.last), (0, Some(Event::End)));
}

/// Expects a run that stopped with this status and this line: what is stored is the first windows of the one pass, and nothing is
/// printed unless all was stored.
fn expect_stopped(rt: &impl Abort, left: &Left<PickedSpools>, status: u8, line: &str) {
    assert_eq!(rt; text(&left.err), line);
    assert_eq!(rt; left.status, status);
    assert!(rt; STORED.as_bytes().starts_with(&left.stored) && left.stored.len() % 5 == 0);
    assert!(rt; left.shown.is_none());
    match left.last {
        None => assert_eq!(rt; (left.stored.len(), left.out.len()), (0, 0)),
        Some(Event::End) => {
            assert_eq!(rt; text(&left.stored), STORED);
            assert!(rt; PRINTED.as_bytes().starts_with(&left.out));
        }
        Some(event) => {
            assert_eq!(rt; event, Event::Fault { status });
            assert_eq!(rt; left.out.len(), 0);
        }
    }
}

/// Whether a call of the device may fail once printing has begun.
fn may_print(device: Device) -> bool {
    matches!(
        device,
        Device::Keeper { stores_first: _ } | Device::Out | Device::Err
    )
}

/// Lets each call of a device fail in turn, and expects each run to stop with this status and this line. How many failed.
fn fail_each(
    rt: &impl Abort,
    alloc: Global,
    device: Device,
    status: u8,
    line: &str,
) -> Result<u64, Fail> {
    for call in 1..MANY {
        let left = run_failing(alloc, &WORDS, device, call)?;
        if !left.has_failed {
            expect_whole(rt, &left);
            return Ok(call - 1);
        }
        expect_stopped(rt, &left, status, line);
        assert!(rt; may_print(device) || left.last != Some(Event::End));
        assert_eq!(rt;
            left.has_spool_fault,
            matches!(device, Device::Puts(_) | Device::Fetches(_))
        );
    }
    Err("a run meets a failure each time")?
}

#[test]
fn each_read_fails(rt: HostRuntime) -> Result<(), Fail> {
    let alloc = rt.alloc();
    for (call, line) in [
        (1, "apex: cannot read app.json\n"),
        (2, "apex: cannot read in.txt\n"),
        (3, "apex: cannot read script.txt\n"),
    ] {
        let left = run_failing(alloc, &WORDS, Device::Folder, call)?;
        expect_stopped(&rt, &left, 2, line);
        assert_eq!(rt; left.last, None);
    }
    let left = run_failing(alloc, &WORDS, Device::Folder, 4)?;
    expect_whole(&rt, &left);
    Ok(())
}

#[test]
fn each_call_of_the_sinks_store_fails(rt: HostRuntime) -> Result<(), Fail> {
    let alloc = rt.alloc();
    let line = "apex: sink store failed\n";
    for stores_first in [false, true] {
        let device = Device::Keeper { stores_first };
        // Six windows are stored, and read again.
        assert_eq!(rt; fail_each(&rt, alloc, device, 9, line)?, 12);
        for stored in 0..6u8 {
            let left = run_failing(alloc, &WORDS, device, u64::from(stored) + 1)?;
            assert_eq!(rt;
                left.stored.len(),
                5 * (usize::from(stored) + usize::from(stores_first))
            );
            assert_eq!(rt; left.last, Some(Event::Fault { status: 9 }));
        }
    }
    Ok(())
}

#[test]
fn each_call_of_the_checkpoint_store_fails(rt: HostRuntime) -> Result<(), Fail> {
    let line = "apex: checkpoint store failed\n";
    let failed = fail_each(&rt, rt.alloc(), Device::Vault, 8, line)?;
    // Each save, and those of three new partitions; two states are read for the repartition, and two for the kill; three commits.
    assert_eq!(rt; failed, 16 + 3 + 2 + 2 + 3);
    Ok(())
}

#[test]
fn each_spool_that_is_asked_for_fails(rt: HostRuntime) -> Result<(), Fail> {
    let line = "apex: spool failed\n";
    let failed = fail_each(&rt, rt.alloc(), Device::Maker, 10, line)?;
    // One for each partition at the start, for each new one, and for each that is killed.
    assert_eq!(rt; failed, 5 + 3 + 2);
    Ok(())
}

#[test]
fn each_call_of_each_spool_fails(rt: HostRuntime) -> Result<(), Fail> {
    let alloc = rt.alloc();
    let line = "apex: spool failed\n";
    let (mut puts, mut fetches) = (0u64, 0u64);
    let whole = run_failing(alloc, &WORDS, Device::Maker, MANY)?;
    for spool in 1..=whole.spools.made() {
        puts = puts.saturating_add(fail_each(&rt, alloc, Device::Puts(spool), 10, line)?);
        fetches = fetches.saturating_add(fail_each(&rt, alloc, Device::Fetches(spool), 10, line)?);
    }
    assert_eq!(rt; (puts, fetches), (19, 11));
    Ok(())
}

#[test]
fn each_write_fails(rt: HostRuntime) -> Result<(), Fail> {
    let alloc = rt.alloc();
    // Each window's rows are one piece, and the report is one.
    for (device, pieces) in [(Device::Out, 6), (Device::Err, 1)] {
        assert_eq!(rt; fail_each(&rt, alloc, device, 12, "")?, pieces);
    }
    let left = run_failing(alloc, &WORDS, Device::Out, 1)?;
    assert_eq!(rt; (left.out.len(), left.last), (0, Some(Event::End)));
    let left = run_failing(alloc, &WORDS, Device::Err, 1)?;
    assert_eq!(rt; text(&left.out), PRINTED);
    Ok(())
}
