// A log on a disk in memory: its bytes, what it opens to, and what a stop at any call leaves.
ghost use Rattle.std.specs.Prelude.{◌<◌, IfOk};
ghost use Rattle.apx_tuple.specs.Size.{size_by};
ghost use Rattle.apx_tuple.specs.Tuple.{tuple_key};

use super::*;
use apx_device::Keeper;
use apx_disk::{LogRefusal, MemoryDisk};
use apx_tuple::{Key, Tuple};
use std::alloc::Global;
use std::process::Abort;
use std::test::Fail;

// The bytes of a log with one window, whose one row is the key `a` with the value 1.
const ONE_WINDOW: [u8; 25] = [
    1, 0, 0, 0, 19, 0, 0, 0, 1, 0, 0, 0, 1, 0, 1, 97, 0, 0, 0, 0, 0, 0, 0, 1, 0,
];

// One row, whose value is the window's number.
fn one_row(alloc: Global, window: u32) -> Result<Vec<Tuple>, Fail>
    ensures { IfOk result (λ rows. size_by tuple_key rows.items < 100) }
{
    let mut rows = Vec::new(alloc);
    rows.push(Tuple {
        key: Key::of(alloc, b"a")?,
        value: i64::from(window),
    })?;
    Ok(rows)
}

// A new log.
fn new_log(alloc: Global) -> Option<SinkLog<MemoryDisk>> {
    match SinkLog::open(alloc, MemoryDisk::new(alloc, Vec::new(alloc))) {
        Ok(log) => Some(log),
        Err((_disk, _refusal)) => None,
    }
}

#[test]
fn a_window_is_a_record(rt: HostRuntime) -> Result<(), Fail> {
    let alloc = rt.alloc();
    let rows = one_row(alloc, 1)?;
    let mut log = new_log(alloc).ok_or(LogRefusal::Disk)?;
    if log.sound() && log.last() == 0 {
        log.commit(1, &rows)?;
    }
    if log.sound() && log.last() == 1 {
        assert!(rt; log.rows(alloc, 1)? == rows);
    }
    assert!(rt; log.sound() && log.last() == 1 && log.faults() == 0);
    let disk = log.close();
    assert_eq!(rt; disk.bytes(), ONE_WINDOW.as_slice());
    Ok(())
}

// How many windows a log with these bytes opens to, or why it doesn't open.
fn opened(alloc: Global, bytes: &[u8]) -> Result<Result<u32, LogRefusal>, Fail> {
    let disk = MemoryDisk::new(alloc, bytes.to_vec(alloc)?);
    match SinkLog::open(alloc, disk) {
        Ok(log) => Ok(Ok(log.last())),
        Err((_disk, refusal)) => Ok(Err(refusal)),
    }
}

#[test]
fn a_log_opens_up_to_its_closed_gate(rt: HostRuntime) -> Result<(), Fail> {
    let alloc = rt.alloc();
    let mut file = ONE_WINDOW.to_vec(alloc)?;
    assert!(rt; opened(alloc, &file)? == Ok(1));
    file[24] = 1;
    assert!(rt; opened(alloc, &file)? == Ok(1));
    file.push(0)?;
    assert!(rt; opened(alloc, &file)? == Err(LogRefusal::Damaged { at: 24 }));
    // A body of another window, and one with a byte left over.
    let mut file = ONE_WINDOW.to_vec(alloc)?;
    file[8] = 2;
    assert!(rt; opened(alloc, &file)? == Err(LogRefusal::Damaged { at: 0 }));
    file[8] = 1;
    file[12] = 0;
    assert!(rt; opened(alloc, &file)? == Err(LogRefusal::Damaged { at: 0 }));
    Ok(())
}

// Opens the log of a disk and commits six windows, up to the first call that fails: how many were told, and the disk.
fn six_windows(alloc: Global, disk: MemoryDisk) -> Result<(u32, MemoryDisk), Fail> {
    let mut log = match SinkLog::open(alloc, disk) {
        Ok(log) => log,
        Err((disk, _refusal)) => return Ok((0, disk)),
    };
    let mut told = 0;
    for window in 1..=6 {
        let rows = one_row(alloc, window)?;
        if !log.sound() || log.last() != window - 1 {
            break;
        }
        if log.commit(window, &rows).is_ok() {
            told = window;
        }
    }
    Ok((told, log.close()))
}

// Whether a log has so many windows, each with the row that it was given.
fn has_windows(alloc: Global, log: &mut SinkLog<MemoryDisk>, count: u32) -> Result<bool, Fail> {
    if log.last() != count {
        return Ok(false);
    }
    for window in 1..=count {
        if !log.sound() || window > log.last() {
            return Ok(false);
        }
        if log.rows(alloc, window)? != one_row(alloc, window)? {
            return Ok(false);
        }
    }
    Ok(true)
}

// That the file opens to the told windows, or to these and the next one.
fn expect_told(rt: &impl Abort, alloc: Global, file: &[u8], told: u32) -> Result<(), Fail> {
    let disk = MemoryDisk::new(alloc, file.to_vec(alloc)?);
    let Ok(mut log) = SinkLog::open(alloc, disk) else {
        assert!(rt; false);
        return Ok(());
    };
    let is_told = has_windows(alloc, &mut log, told)?;
    let is_next = told < 6 && has_windows(alloc, &mut log, told + 1)?;
    assert!(rt; is_told || is_next);
    Ok(())
}

#[test]
fn a_stop_at_any_call_leaves_what_was_told(rt: HostRuntime) -> Result<(), Fail> {
    let alloc = rt.alloc();
    for calls in 0..40 {
        let disk = MemoryDisk::stopping(alloc, Vec::new(alloc), calls);
        let (told, disk) = six_windows(alloc, disk)?;
        expect_told(&rt, alloc, disk.bytes(), told)?;
        // A crash that tears the last change, with closed gates, open ones, and other bytes.
        for fill in 0..3 {
            let disk = MemoryDisk::stopping(alloc, Vec::new(alloc), calls);
            let (_, disk) = six_windows(alloc, disk)?;
            let torn = disk.crash(fill)?;
            expect_told(&rt, alloc, torn.bytes(), told)?;
        }
        if calls >= 30 {
            assert_eq!(rt; told, 6);
        }
    }
    Ok(())
}
