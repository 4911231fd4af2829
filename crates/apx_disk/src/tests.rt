// Each call of the disk in memory, and a list of records that a stop at any call leaves readable.
use super::*;
use std::alloc::{AllocError, Global};
use std::process::Abort;
use std::test::Fail;

#[test]
fn a_disk_gives_what_was_written(rt: HostRuntime) -> Result<(), Fail> {
    let alloc = rt.alloc();
    let mut disk = MemoryDisk::new(alloc, b"abc".to_vec(alloc)?);
    let read = disk.read(alloc, 1, 2)?;
    assert_eq!(rt; read.as_slice(), b"bc".as_slice());
    disk.write_at(2, b"xy")?;
    assert_eq!(rt; disk.len(), Ok(4));
    assert_eq!(rt; disk.bytes(), b"abxy".as_slice());
    disk.cut(0)?;
    disk.sync()?;
    assert_eq!(rt; disk.bytes(), b"".as_slice());
    assert!(rt; disk.faults() == 0 && !disk.has_failed());
    Ok(())
}

#[test]
fn calls_of_a_disk_fail_by_number(rt: HostRuntime) -> Result<(), Fail> {
    let alloc = rt.alloc();
    let mut disk = MemoryDisk::failing(alloc, b"abc".to_vec(alloc)?, [1, 3].to_vec(alloc)?);
    assert_eq!(rt; disk.cut(0), Err(DiskRefusal::Failed));
    assert_eq!(rt; disk.write_at(0, b"x"), Ok(()));
    assert_eq!(rt; disk.sync(), Err(DiskRefusal::Failed));
    assert_eq!(rt; disk.bytes(), b"xbc".as_slice());
    assert!(rt; disk.faults() == 2 && disk.has_failed());
    Ok(())
}

#[test]
fn a_disk_stops_for_good(rt: HostRuntime) -> Result<(), Fail> {
    let alloc = rt.alloc();
    let mut disk = MemoryDisk::stopping(alloc, b"abc".to_vec(alloc)?, 1);
    assert_eq!(rt; disk.write_at(0, b"x"), Ok(()));
    assert_eq!(rt; disk.write_at(0, b"y"), Err(DiskRefusal::Failed));
    assert_eq!(rt; disk.len(), Err(DiskRefusal::Failed));
    assert_eq!(rt; disk.bytes(), b"xbc".as_slice());
    Ok(())
}

#[test]
fn a_crash_tears_what_was_not_synced(rt: HostRuntime) -> Result<(), Fail> {
    let alloc = rt.alloc();
    let mut disk = MemoryDisk::new(alloc, b"abc".to_vec(alloc)?);
    disk.write_at(1, b"wxyz")?;
    let left = disk.crash(7)?;
    assert_eq!(rt; left.bytes(), [97, 7, 7, 7, 7].as_slice());

    let mut disk = MemoryDisk::new(alloc, b"abc".to_vec(alloc)?);
    disk.cut(1)?;
    let left = disk.crash(7)?;
    assert_eq!(rt; left.bytes(), [97, 7, 7].as_slice());

    let mut disk = MemoryDisk::new(alloc, b"abc".to_vec(alloc)?);
    disk.write_at(1, b"x")?;
    disk.sync()?;
    let left = disk.crash(7)?;
    assert_eq!(rt; left.bytes(), b"axc".as_slice());
    Ok(())
}

// The records of a disk in memory with these bytes, or why it isn't opened.
fn opened(alloc: Global, bytes: &[u8]) -> Result<Result<Vec<Record>, LogRefusal>, AllocError> {
    let disk = MemoryDisk::new(alloc, bytes.to_vec(alloc)?);
    match Records::open(alloc, disk) {
        Ok((_list, records)) => Ok(Ok(records)),
        Err((_disk, refusal)) => Ok(Err(refusal)),
    }
}

#[test]
fn records_are_read_up_to_the_closed_gate(rt: HostRuntime) -> Result<(), Fail> {
    let alloc = rt.alloc();
    let one = [1, 0, 0, 0, 2, 8, 9];
    let mut file = one.to_vec(alloc)?;
    file.push(0)?;
    let mut records = Vec::new(alloc);
    records.push(Record {
        gate: 0,
        body: [8, 9].to_vec(alloc)?,
    })?;
    assert!(rt; opened(alloc, &file)? == Ok(records));
    // A last byte 1 with nothing behind it is a closed gate, and with a byte behind it an open one.
    file[7] = 1;
    assert!(rt; opened(alloc, &file)?.is_ok_and(|records| records.len() == 1));
    file.push(0)?;
    assert!(rt; opened(alloc, &file)? == Err(LogRefusal::Damaged { at: 7 }));
    assert!(rt; opened(alloc, &[])?.is_ok_and(|records| records.is_empty()));
    Ok(())
}

// The list of a new disk.
fn new_list(alloc: Global) -> Option<Records<MemoryDisk>> {
    match Records::open(alloc, MemoryDisk::new(alloc, Vec::new(alloc))) {
        Ok((records, _read)) => Some(records),
        Err((_disk, _refusal)) => None,
    }
}

#[test]
fn a_record_is_added_behind_the_closed_gate(rt: HostRuntime) -> Result<(), Fail> {
    let alloc = rt.alloc();
    let mut records = new_list(alloc).ok_or(DiskRefusal::Failed)?;
    if records.is_sound() {
        records.add(&[8, 9])?;
    }
    assert!(rt; records.is_sound() && records.faults() == 0);
    let disk = records.close();
    assert_eq!(rt; disk.bytes(), [1, 0, 0, 0, 2, 8, 9, 0].as_slice());
    Ok(())
}

// Opens the list of a disk and adds six records, up to the first call that fails: how many were told, and the disk.
fn six_records(alloc: Global, disk: MemoryDisk) -> (usize, MemoryDisk) {
    let (mut records, _) = match Records::open(alloc, disk) {
        Ok(opened) => opened,
        Err((disk, _refusal)) => return (0, disk),
    };
    let mut told = 0;
    for body in 0..6u8 {
        if !records.is_sound() {
            break;
        }
        if records.add(&[body, body]).is_ok() {
            told = usize::from(body) + 1;
        }
    }
    (told, records.close())
}

// That the file has as many records as were told, or one more, each with the body that it was given.
fn expect_told(rt: &impl Abort, alloc: Global, file: &[u8], told: usize) -> Result<(), Fail> {
    let Ok(records) = opened(alloc, file)? else {
        assert!(rt; false);
        return Ok(());
    };
    assert!(rt; records.len() == told || (records.len() > told && records.len() - told == 1));
    let mut body = 0u8;
    for record in &records {
        assert!(rt; body < 6 && record.body.as_slice() == [body, body].as_slice());
        body = body.saturating_add(1);
    }
    Ok(())
}

#[test]
fn a_stop_at_any_call_leaves_what_was_told(rt: HostRuntime) -> Result<(), Fail> {
    let alloc = rt.alloc();
    for calls in 0..40 {
        let disk = MemoryDisk::stopping(alloc, Vec::new(alloc), calls);
        let (told, disk) = six_records(alloc, disk);
        expect_told(&rt, alloc, disk.bytes(), told)?;
        // A crash that tears the last change, with closed gates, open ones, and other bytes.
        for fill in 0..3 {
            let disk = MemoryDisk::stopping(alloc, Vec::new(alloc), calls);
            let (told, disk) = six_records(alloc, disk);
            let left = disk.crash(fill)?;
            expect_told(&rt, alloc, left.bytes(), told)?;
        }
        if calls >= 30 {
            assert_eq!(rt; told, 6);
        }
    }
    Ok(())
}

#[test]
fn a_record_is_four_calls(rt: HostRuntime) -> Result<(), Fail> {
    let alloc = rt.alloc();
    // Four calls open a new list.
    for told in 0..6u64 {
        let calls = 8 + 4 * told;
        let disk = MemoryDisk::stopping(alloc, Vec::new(alloc), calls - 1);
        let (before, _) = six_records(alloc, disk);
        let disk = MemoryDisk::stopping(alloc, Vec::new(alloc), calls);
        let (after, _) = six_records(alloc, disk);
        assert_eq!(rt; (before as u64, after as u64), (told, told + 1));
    }
    Ok(())
}

#[test]
fn a_file_is_read_in_pieces(rt: HostRuntime) -> Result<(), Fail> {
    let alloc = rt.alloc();
    // A record of 2 MiB: its file has six bytes more.
    let mut file = [1, 0, 32, 0, 0].to_vec(alloc)?;
    file.resize(2_097_157, 7)?;
    file.push(0)?;
    // A sync, the length, three pieces, the gate, a sync.
    for (calls, opens) in [(6, false), (7, true)] {
        let disk = MemoryDisk::stopping(alloc, file.to_vec(alloc)?, calls);
        assert_eq!(rt; Records::open(alloc, disk).is_ok(), opens);
    }
    Ok(())
}
