// Each call of the devices in memory, with ample memory, and each failing call by its number.
ghost use Rattle.std.specs.Prelude.{◌<◌, IfOk};
ghost use Rattle.apx_tuple.specs.Size.{size_by};
ghost use Rattle.apx_tuple.specs.Tuple.{tuple_key};

use super::*;
use apx_tuple::{Key, Tuple};
use std::alloc::{AllocError, Global};
use std::process::Abort;
use std::test::Fail;

// A folder with one file of three bytes.
fn folder(alloc: Global) -> Result<MemoryFolder, AllocError> {
    let mut folder = MemoryFolder::new(alloc);
    folder.add(alloc, "in.txt", [1, 2, 3].to_vec(alloc)?)?;
    Ok(folder)
}

// Two tuples of one window.
fn two_rows(alloc: Global) -> Result<Vec<Tuple>, Fail>
    ensures { IfOk result (λ rows. size_by tuple_key rows.items < 100) }
{
    let mut rows = Vec::new(alloc);
    rows.push(Tuple {
        key: Key::of(alloc, b"a")?,
        value: 2,
    })?;
    rows.push(Tuple {
        key: Key::of(alloc, b"b")?,
        value: -1,
    })?;
    Ok(rows)
}

fn expect_read<F: Folder>(
    rt: &impl Abort,
    alloc: Global,
    folder: &mut F,
    limit: usize,
    read: bool,
) {
    match folder.read(alloc, "in.txt", limit) {
        Ok(bytes) => assert!(rt; read && bytes.as_slice() == [1, 2, 3].as_slice()),
        Err(refusal) => assert!(rt; !read && refusal == ReadRefusal::TooLong),
    }
}

#[test]
fn a_file_is_read_up_to_its_limit(rt: HostRuntime) -> Result<(), Fail> {
    let alloc = rt.alloc();
    let mut folder = folder(alloc)?;
    expect_read(&rt, alloc, &mut folder, 3, true);
    expect_read(&rt, alloc, &mut folder, 2, false);
    assert_eq!(rt;
        folder.read(alloc, "out.txt", 3).err(),
        Some(ReadRefusal::Absent)
    );
    assert_eq!(rt; folder.faults(), 0);
    Ok(())
}

#[test]
fn a_file_takes_the_place_of_one_of_its_name(rt: HostRuntime) -> Result<(), Fail> {
    let alloc = rt.alloc();
    let mut folder = folder(alloc)?;
    folder.add(alloc, "in.txt", [4, 5].to_vec(alloc)?)?;
    assert_eq!(rt;
        folder.read(alloc, "in.txt", 3)?.as_slice(),
        [4, 5].as_slice()
    );
    Ok(())
}

#[test]
fn the_first_read_fails_alone(rt: HostRuntime) -> Result<(), Fail> {
    let alloc = rt.alloc();
    let mut folder = FailingFolder::new(folder(alloc)?, [1].to_vec(alloc)?);
    assert_eq!(rt;
        folder.read(alloc, "in.txt", 3).err(),
        Some(ReadRefusal::Failed)
    );
    assert_eq!(rt; folder.faults(), 1);
    expect_read(&rt, alloc, &mut folder, 3, true);
    assert_eq!(rt; folder.faults(), 1);
    Ok(())
}

#[test]
fn an_output_gets_what_was_written(rt: HostRuntime) -> Result<(), Fail> {
    let mut out = MemoryOut::new(rt.alloc());
    assert_eq!(rt; out.write(b"ab"), Ok(2));
    assert_eq!(rt; out.write(b"c"), Ok(1));
    assert_eq!(rt; out.written(), b"abc".as_slice());
    assert_eq!(rt; out.faults(), 0);
    Ok(())
}

#[test]
fn the_first_write_fails_and_takes_nothing(rt: HostRuntime) -> Result<(), Fail> {
    let alloc = rt.alloc();
    let mut out = MemoryOut::failing(alloc, [1].to_vec(alloc)?);
    assert_eq!(rt; out.write(b"ab"), Err(Failed));
    assert_eq!(rt; out.write(b"c"), Ok(1));
    assert_eq!(rt; out.written(), b"c".as_slice());
    assert_eq!(rt; out.faults(), 1);
    Ok(())
}

#[test]
fn a_window_is_read_back(rt: HostRuntime) -> Result<(), Fail> {
    let alloc = rt.alloc();
    let rows = two_rows(alloc)?;
    let mut keeper = MemoryKeeper::new(alloc);
    keeper.commit(1, &[])?;
    keeper.commit(2, &rows)?;
    assert_eq!(rt; keeper.last(), 2);
    assert_eq!(rt; keeper.rows(alloc, 1)?.len(), 0);
    assert!(rt; keeper.rows(alloc, 2)? == rows);
    assert!(rt; keeper.sound() && keeper.faults() == 0);
    Ok(())
}

// A keeper whose second commit fails, and the windows that are then stored.
fn expect_one_commit(
    rt: &impl Abort,
    alloc: Global,
    stores_first: bool,
    left: u32,
) -> Result<(), Fail> {
    let keeper = MemoryKeeper::new(alloc);
    let mut keeper = FailingKeeper::new(keeper, [2].to_vec(alloc)?, stores_first);
    keeper.commit(1, &[])?;
    assert_eq!(rt; keeper.commit(2, &[]), Err(KeepRefusal::Failed));
    assert_eq!(rt; keeper.last(), left);
    assert!(rt; keeper.sound() && keeper.faults() == 1);
    Ok(())
}

#[test]
fn the_second_commit_fails_unstored_or_stored(rt: HostRuntime) -> Result<(), Fail> {
    expect_one_commit(&rt, rt.alloc(), false, 1)?;
    expect_one_commit(&rt, rt.alloc(), true, 2)
}

#[test]
fn a_piece_is_fetched_until_it_is_forgotten(rt: HostRuntime) -> Result<(), Fail> {
    let alloc = rt.alloc();
    let mut maker = MemorySpools::new(alloc);
    let mut spool = maker.fresh()?;
    spool.put(7, b"ab")?;
    spool.put(8, b"c")?;
    assert_eq!(rt; spool.fetch(alloc, 7)?.as_slice(), b"ab".as_slice());
    spool.forget(7);
    assert_eq!(rt; spool.fetch(alloc, 8)?.as_slice(), b"c".as_slice());
    assert_eq!(rt; maker.faults(), 0);
    Ok(())
}

#[test]
fn makers_and_spools_fail_by_number(rt: HostRuntime) -> Result<(), Fail> {
    let alloc = rt.alloc();
    let (calls, puts, fetches) = ([1].to_vec(alloc)?, [2].to_vec(alloc)?, [1].to_vec(alloc)?);
    let mut maker = FailingSpools::new(alloc, calls, puts, fetches);
    assert_eq!(rt; maker.fresh().err(), Some(SpoolsRefusal::Failed));
    assert_eq!(rt; maker.faults(), 1);
    let mut spool = maker.fresh()?;
    spool.put(0, b"ab")?;
    assert!(rt; matches!(spool.put(1, b"c"), Err(SpoolRefusal::Fault(_))));
    assert!(rt; matches!(spool.fetch(alloc, 0), Err(SpoolRefusal::Fault(_))));
    assert_eq!(rt; spool.fetch(alloc, 0)?.as_slice(), b"ab".as_slice());
    Ok(())
}

// The id of a state after a window.
fn save_id(op: u16, window: u32) -> SaveId {
    SaveId {
        op,
        boundary: 0,
        part: 0,
        window,
    }
}

#[test]
fn a_state_is_kept_until_it_is_dropped(rt: HostRuntime) -> Result<(), Fail> {
    let alloc = rt.alloc();
    let mut vault = MemoryVault::new(alloc);
    vault.put(save_id(1, 2), b"a")?;
    vault.put(save_id(1, 4), b"bc")?;
    vault.put(save_id(0, 4), b"d")?;
    vault.put(save_id(1, 2), b"e")?;
    assert_eq!(rt;
        vault.get(alloc, save_id(1, 2))?.as_slice(),
        b"e".as_slice()
    );
    vault.drop_below(4)?;
    assert_eq!(rt; vault.get(alloc, save_id(1, 2))?.len(), 0);
    assert_eq!(rt;
        vault.get(alloc, save_id(1, 4))?.as_slice(),
        b"bc".as_slice()
    );
    assert_eq!(rt;
        vault.get(alloc, save_id(0, 4))?.as_slice(),
        b"d".as_slice()
    );
    assert!(rt; vault.sound() && vault.faults() == 0);
    Ok(())
}

#[test]
fn calls_of_a_vault_fail_by_number(rt: HostRuntime) -> Result<(), Fail> {
    let alloc = rt.alloc();
    let calls = [2, 4, 5].to_vec(alloc)?;
    let mut vault = FailingVault::new(MemoryVault::new(alloc), calls);
    vault.put(save_id(1, 2), b"a")?;
    assert_eq!(rt; vault.put(save_id(1, 2), b"b"), Err(VaultRefusal::Failed));
    assert_eq!(rt;
        vault.get(alloc, save_id(1, 2))?.as_slice(),
        b"a".as_slice()
    );
    assert_eq!(rt;
        vault.get(alloc, save_id(1, 2)).err(),
        Some(VaultRefusal::Failed)
    );
    assert_eq!(rt; vault.drop_below(4), Err(VaultRefusal::Failed));
    assert_eq!(rt;
        vault.get(alloc, save_id(1, 2))?.as_slice(),
        b"a".as_slice()
    );
    vault.drop_below(4)?;
    assert_eq!(rt; vault.get(alloc, save_id(1, 2))?.len(), 0);
    assert!(rt; vault.sound() && vault.faults() == 3);
    Ok(())
}

#[test]
fn untelling_devices_answer_by_what_they_were_given(rt: HostRuntime) -> Result<(), Fail> {
    let alloc = rt.alloc();
    let mut contents = Vec::new(alloc);
    contents.push(b"first".to_vec(alloc)?)?;
    contents.push(b"second".to_vec(alloc)?)?;
    let mut folder = ListedFolder::new(contents);
    assert_eq!(rt; folder.read(alloc, "a", 5)?.as_slice(), b"first".as_slice());
    assert_eq!(rt;
        folder.read(alloc, "a", 5).err(),
        Some(ReadRefusal::TooLong)
    );
    assert_eq!(rt; folder.read(alloc, "a", 5).err(), Some(ReadRefusal::Absent));
    assert_eq!(rt; folder.faults(), 0);

    let mut vault = GivenVault::new(b"given".to_vec(alloc)?);
    vault.put(save_id(1, 2), b"kept")?;
    vault.drop_below(4)?;
    assert_eq!(rt;
        vault.get(alloc, save_id(1, 2))?.as_slice(),
        b"given".as_slice()
    );
    assert!(rt; vault.sound() && vault.faults() == 0);

    let mut maker = WrongSpools::new(alloc, 1, b"wrong".to_vec(alloc)?);
    let mut spool = maker.fresh()?;
    spool.put(0, b"right")?;
    spool.put(1, b"right")?;
    assert_eq!(rt; spool.fetch(alloc, 0)?.as_slice(), b"right".as_slice());
    assert_eq!(rt; spool.fetch(alloc, 1)?.as_slice(), b"wrong".as_slice());
    spool.forget(0);
    assert_eq!(rt; maker.faults(), 0);
    Ok(())
}

#[test]
fn reads_and_commits_of_a_keeper_fail_by_number(rt: HostRuntime) -> Result<(), Fail> {
    let alloc = rt.alloc();
    let rows = two_rows(alloc)?;
    let calls = [2].to_vec(alloc)?;
    let mut keeper = FailingKeeper::new(MemoryKeeper::new(alloc), calls, false);
    keeper.commit(1, &rows)?;
    assert_eq!(rt; keeper.rows(alloc, 1).err(), Some(KeepRefusal::Failed));
    assert!(rt; keeper.rows(alloc, 1)? == rows);
    Ok(())
}

#[test]
fn rows_are_ten_bytes_beside_their_keys(rt: HostRuntime) -> Result<(), Fail> {
    let alloc = rt.alloc();
    let rows = two_rows(alloc)?;
    let mut bytes = Vec::new(alloc);
    append_rows(&rows, &mut bytes)?;
    let spelled = [
        0, 1, 97, 0, 0, 0, 0, 0, 0, 0, 2, 0, 1, 98, 255, 255, 255, 255, 255, 255, 255, 255,
    ];
    assert_eq!(rt; bytes.as_slice(), spelled.as_slice());
    assert!(rt; read_rows(alloc, 2, &bytes)? == Some(rows));
    assert!(rt; read_rows(alloc, 1, &bytes)?.is_none());
    assert!(rt; read_rows(alloc, 3, &bytes)?.is_none());
    Ok(())
}

#[test]
fn a_gate_lets_a_worker_pass() {
    NoGate.pass(PassKind::Claimed, 1, 0, 4);
    NoGate.pass(PassKind::Ready, 1, 0, 4);
}
