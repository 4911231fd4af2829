// A log on a disk in memory: its bytes, what it opens to, and what a stop at any call leaves.
ghost use Rattle.std.specs.Prelude.{IsTrue};

use super::*;
use apx_device::{MemoryVault, SaveId, Vault, VaultRefusal};
use apx_disk::{LogRefusal, MemoryDisk};
use std::alloc::{AllocError, Global};
use std::process::Abort;
use std::test::Fail;

// The bytes of a log with one put and one drop.
const ONE_OF_EACH: [u8; 29] = [
    1, 0, 0, 0, 13, 1, 0, 2, 0, 0, 0, 0, 1, 0, 0, 0, 4, 120, 1, 0, 0, 0, 5, 2, 0, 0, 0, 4, 0,
];

// The state `a` 2 in the older spelling of a checkpoint.
const OLDER: [u8; 15] = [0, 0, 0, 1, 0, 1, 97, 0, 0, 0, 0, 0, 0, 0, 2];

// It in the newer one, with nothing on its ports.
const NEWER: [u8; 25] = [
    255, 2, 0, 0, 0, 1, 0, 1, 97, 0, 0, 0, 0, 0, 0, 0, 2, 0, 0, 0, 0, 0, 0, 0, 0,
];

// The id of a state after a window.
fn after(window: u32) -> SaveId {
    SaveId {
        op: 2,
        boundary: 0,
        part: 1,
        window,
    }
}

// The log of a disk with these bytes.
fn opened(
    alloc: Global,
    bytes: &[u8],
) -> Result<Result<VaultLog<MemoryDisk>, LogRefusal>, AllocError> {
    let disk = MemoryDisk::new(alloc, bytes.to_vec(alloc)?);
    match VaultLog::open(alloc, disk) {
        Ok(log) => Ok(Ok(log)),
        Err((_disk, refusal)) => Ok(Err(refusal)),
    }
}

#[test]
fn a_put_and_a_drop_are_records(rt: HostRuntime) -> Result<(), Fail> {
    let alloc = rt.alloc();
    let mut log = opened(alloc, &[])??;
    if log.sound() {
        log.put(after(4), b"x")?;
    }
    if log.sound() {
        log.drop_below(4)?;
    }
    if log.sound() {
        assert_eq!(rt; log.get(alloc, after(4))?.as_slice(), b"x".as_slice());
    }
    assert!(rt; log.holds(after(4)) && !log.holds(after(5)));
    assert_eq!(rt; log.faults(), 0);
    let disk = log.close();
    assert_eq!(rt; disk.bytes(), ONE_OF_EACH.as_slice());
    Ok(())
}

#[test]
fn an_upgrade_leaves_what_spells_no_state(rt: HostRuntime) -> Result<(), Fail> {
    let alloc = rt.alloc();
    let mut log = opened(alloc, &[])??;
    if log.sound() {
        log.put(after(4), &OLDER)?;
    }
    if log.sound() {
        log.put(after(5), &[7])?;
    }
    if log.sound() {
        log.put(after(6), &OLDER)?;
    }
    if log.sound() {
        assert_eq!(rt; log.upgrade()?, 2);
    }
    if log.sound() {
        assert_eq!(rt; log.upgrade()?, 0);
    }
    if log.sound() {
        assert_eq!(rt; log.get(alloc, after(4))?.as_slice(), NEWER.as_slice());
        assert_eq!(rt; log.get(alloc, after(5))?.as_slice(), [7].as_slice());
    }
    Ok(())
}

#[test]
fn a_log_opens_up_to_its_closed_gate(rt: HostRuntime) -> Result<(), Fail> {
    let alloc = rt.alloc();
    let mut file = ONE_OF_EACH.to_vec(alloc)?;
    let log = opened(alloc, &file)??;
    assert!(rt; log.holds(after(4)));
    file[28] = 1;
    let log = opened(alloc, &file)??;
    assert!(rt; log.holds(after(4)));
    file.push(0)?;
    assert!(rt; opened(alloc, &file)?.err() == Some(LogRefusal::Damaged { at: 28 }));
    // A body that is neither a put nor a drop, and a drop with a byte left over.
    let mut file = ONE_OF_EACH.to_vec(alloc)?;
    file[5] = 3;
    assert!(rt; opened(alloc, &file)?.err() == Some(LogRefusal::Damaged { at: 0 }));
    file[5] = 2;
    assert!(rt; opened(alloc, &file)?.err() == Some(LogRefusal::Damaged { at: 0 }));
    Ok(())
}

// The n-th of six puts and two drops.
fn change<V: Vault>(vault: &mut V, number: u32) -> Result<(), VaultRefusal>
    requires { IsTrue (V.sound vault.old) }
{
    match number {
        0 => vault.put(after(1), b"a"),
        1 => vault.put(after(2), b"b"),
        2 => vault.put(after(1), b"c"),
        3 => vault.drop_below(2),
        4 => vault.put(after(3), b"d"),
        5 => vault.put(after(2), b"e"),
        6 => vault.put(after(4), b"f"),
        _ => vault.drop_below(4),
    }
}

// Whether a vault has what so many of the changes make.
fn has_changes<V: Vault>(alloc: Global, vault: &mut V, count: u32) -> Result<bool, VaultRefusal> {
    let mut wanted = MemoryVault::new(alloc);
    for number in 0..count {
        change(&mut wanted, number)?;
    }
    for window in 1..5 {
        if !vault.sound() {
            return Ok(false);
        }
        let found = vault.get(alloc, after(window))?;
        if found != wanted.get(alloc, after(window))? {
            return Ok(false);
        }
    }
    Ok(true)
}

// Opens the log of a disk and makes the changes, up to the first call that fails: how many were told, and the disk.
fn eight_changes(alloc: Global, disk: MemoryDisk) -> (u32, MemoryDisk) {
    let mut log = match VaultLog::open(alloc, disk) {
        Ok(log) => log,
        Err((disk, _refusal)) => return (0, disk),
    };
    let mut told = 0;
    for number in 0..8 {
        if !log.sound() {
            break;
        }
        if change(&mut log, number).is_ok() {
            told = number + 1;
        }
    }
    (told, log.close())
}

// That the file opens to what the told changes make, or these and the next one.
fn expect_told(rt: &impl Abort, alloc: Global, file: &[u8], told: u32) -> Result<(), Fail> {
    let mut log = opened(alloc, file)??;
    let is_told = has_changes(alloc, &mut log, told)?;
    let is_next = told < 8 && has_changes(alloc, &mut log, told + 1)?;
    assert!(rt; is_told || is_next);
    Ok(())
}

#[test]
fn a_stop_at_any_call_leaves_what_was_told(rt: HostRuntime) -> Result<(), Fail> {
    let alloc = rt.alloc();
    for calls in 0..44 {
        let disk = MemoryDisk::stopping(alloc, Vec::new(alloc), calls);
        let (told, disk) = eight_changes(alloc, disk);
        expect_told(&rt, alloc, disk.bytes(), told)?;
        // A crash that tears the last change, with closed gates, open ones, and other bytes.
        for fill in 0..3 {
            let disk = MemoryDisk::stopping(alloc, Vec::new(alloc), calls);
            let (_, disk) = eight_changes(alloc, disk);
            let torn = disk.crash(fill)?;
            expect_told(&rt, alloc, torn.bytes(), told)?;
        }
        if calls >= 40 {
            assert_eq!(rt; told, 8);
        }
    }
    Ok(())
}
