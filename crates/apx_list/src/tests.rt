// The blocks of one window of two keys of 1,024 bytes, in blocks of at most 1040 bytes.
ghost use Rattle.std.specs.Prelude.{◌≡◌, ◌<◌, ◌≤◌, ℕ, List, None, length, IfOk};
ghost use Rattle.apx_list.specs.Plan.{IsPlan};
ghost use Rattle.apx_list.specs.Block.{AllSpell};
ghost use Rattle.apx_list.specs.Cut.{numbered};
ghost use Rattle.apx_list.specs.Listed.{next_number};

use super::*;
use apx_device::{FailingSpool, FailingSpools, MemorySpool, Spool, Spools, WrongSpools};
use apx_tuple::{Bag, Key, Tuple};
use std::alloc::{AllocError, Global};
use std::process::Abort;
use std::test::Fail;

const PLAN: CutPlan = CutPlan {
    base: 1_000_000_000,
    every: 60,
    windows: 2,
    size: 1040,
};

// A name that tells no blocks.
#[derive(Drop)]
struct Untold;

impl Naming for Untold {
    ghost named = { λ _. None };
}

// Two keys of 1,024 bytes, each of one letter.
fn long_keys(alloc: Global) -> Result<Bag, Fail> {
    let mut tuples = Vec::new(alloc);
    for letter in [b'a', b'b'] {
        tuples.push(Tuple {
            key: Key::of(alloc, &[letter; 1024])?,
            value: 1,
        })?;
    }
    Ok(Bag::of(tuples)?)
}

#[test]
fn a_window_is_cut_into_four_blocks(rt: HostRuntime) -> Result<(), Fail> {
    let alloc = rt.alloc();
    let blocks = cut(alloc, &PLAN, 1, &long_keys(alloc)?)?;
    assert_eq!(rt; blocks.len(), 4);
    for (index, len) in [14, 1039, 1039, 9].iter().enumerate() {
        let block = &blocks[index];
        assert_eq!(rt; block.bytes.len(), *len);
        assert_eq!(rt; block.index as usize, index);
        assert_eq!(rt; block.last, index == 3);
        assert_eq!(rt; block.window, 1);
    }
    Ok(())
}

// The bytes of the first window with the tuples `a` 2 and `b` 1.
const SMALL: [u8; 55] = [
    5, 0x3b, 0x9a, 0xca, 0x00, // Reset
    2, 0x3b, 0x9a, 0xca, 0x00, 0, 0, 0, 0, // Begin
    1, 0, 0, 0, 0x61, 0, 1, 0x61, 0, 0, 0, 0, 0, 0, 0, 2, // a 2
    1, 0, 0, 0, 0x62, 0, 1, 0x62, 0, 0, 0, 0, 0, 0, 0, 1, // b 1
    3, 0x3b, 0x9a, 0xca, 0x00, 0, 0, 0, 0, // End
];

// A bag of keys of one letter.
fn short_keys(alloc: Global, tuples: &[(u8, i64)]) -> Result<Bag, Fail> {
    let mut bag = Vec::new(alloc);
    for (letter, value) in tuples {
        bag.push(Tuple {
            key: Key::of(alloc, &[*letter])?,
            value: *value,
        })?;
    }
    Ok(Bag::of(bag)?)
}

#[test]
fn a_small_window_is_one_block_of_these_bytes(rt: HostRuntime) -> Result<(), Fail> {
    let alloc = rt.alloc();
    let blocks = cut(
        alloc,
        &PLAN,
        1,
        &short_keys(alloc, &[(b'b', 1), (b'a', 2)])?,
    )?;
    assert_eq!(rt; blocks.len(), 1);
    assert!(rt; blocks[0].last && blocks[0].index == 0);
    assert_eq!(rt; blocks[0].bytes.as_slice(), SMALL.as_slice());
    Ok(())
}

// The tuples that a part owns of blocks that spell what they say.
fn owned_tuples(
    alloc: Global,
    plan: CutPlan,
    blocks: &[Block],
    n: u8,
    i: u8,
) -> Result<Vec<Tuple>, AllocError>
    requires spell { AllSpell plan blocks.now }
    requires low { 1 ≤ n }
    requires high { n ≤ 8 }
{
    let mut tuples = Vec::new(alloc);
    for block in blocks {
        owned_payloads(alloc, block, n, i, &mut tuples)?;
    }
    Ok(tuples)
}

#[test]
fn a_part_reads_the_tuples_that_it_owns(rt: HostRuntime) -> Result<(), Fail> {
    let alloc = rt.alloc();
    let letters = [(b'a', 1), (b'b', 2), (b'c', 3), (b'd', 4)];
    let blocks = cut(alloc, &PLAN, 1, &short_keys(alloc, &letters)?)?;
    for (n, i, want) in [
        (1, 0, [1, 2, 3, 4].as_slice()),
        (3, 0, [3, 4].as_slice()),
        (3, 1, [1].as_slice()),
        (3, 2, [2].as_slice()),
        (8, 0, [].as_slice()),
        (8, 4, [4].as_slice()),
    ] {
        let mut values = Vec::new(alloc);
        for tuple in &owned_tuples(alloc, PLAN, &blocks, n, i)? {
            values.push(tuple.value)?;
        }
        assert!(rt; values.as_slice() == want, "part {i} of {n}");
    }
    Ok(())
}

// The tuples of blocks that spell what they say.
fn all_tuples(alloc: Global, plan: CutPlan, blocks: &[Block]) -> Result<Vec<Tuple>, AllocError>
    requires { AllSpell plan blocks.now }
{
    let mut tuples = Vec::new(alloc);
    for block in blocks {
        payloads(alloc, block, &mut tuples)?;
    }
    Ok(tuples)
}

#[test]
fn the_blocks_give_their_tuples_back(rt: HostRuntime) -> Result<(), Fail> {
    let alloc = rt.alloc();
    let bag = long_keys(alloc)?;
    let blocks = cut(alloc, &PLAN, 1, &bag)?;
    let tuples = all_tuples(alloc, PLAN, &blocks)?;
    assert!(rt; tuples.as_slice() == bag.tuples());
    Ok(())
}

// A list of the first window's blocks.
fn filled<S: Spool + Drop>(
    alloc: Global,
    plan: CutPlan,
    blocks: Vec<Block>,
    spool: S,
) -> Result<DataList<S, Untold>, AllocError>
    requires plan { IsPlan plan }
    requires windows { 1 ≤ plan.windows }
    requires some { 0 < length blocks.items }
    requires window { (pieces : List (List ℕ)) × (blocks.items ≡ numbered 1 (length pieces) 0 pieces) }
    requires spell { AllSpell plan blocks.items }
    ensures { IfOk result (λ list. list ≡
        record { name = record {}; plan = plan; floor = 0; top = 1; first = 0; blocks = blocks.items }) }
{
    let mut list = DataList::new(alloc, Untold, plan, 0, spool);
    for block in blocks {
        list.append(block)?;
    }
    Ok(list)
}

// A list of the blocks of 14, 1,039, 1,039 and 9 bytes.
fn four_blocks<S: Spool + Drop>(
    rt: &impl Abort,
    alloc: Global,
    spool: S,
) -> Result<DataList<S, Untold>, Fail>
    ensures first { IfOk result (λ list. list.first ≡ 0) }
    ensures next { IfOk result (λ list. next_number list ≡ 4) }
{
    let blocks = cut(alloc, &PLAN, 1, &long_keys(alloc)?)?;
    assert_eq!(rt; blocks.len(), 4);
    Ok(filled(alloc, PLAN, blocks, spool)?)
}

// Reads a block of the first window, which has this many bytes.
fn expect_block<S: Spool + Drop>(
    rt: &impl Abort,
    list: &mut DataList<S, Untold>,
    place: u64,
    len: usize,
) -> Result<(), Fail>
    requires first { list.old.first ≡ 0 }
    requires next { next_number list.old ≡ 4 }
    requires there { place < 4 }
    ensures { list.new ≡ list.old }
{
    match list.read(place)? {
        Read::Block(block) => {
            assert!(rt; block.window == 1 && u64::from(block.index) == place);
            assert!(rt; block.last == (place == 3) && block.bytes.len() == len);
        }
        Read::NotYet => assert!(rt; false, "block {place} isn't there"),
    }
    Ok(())
}

// Reads all blocks, and what comes behind them.
fn expect_all<S: Spool + Drop>(rt: &impl Abort, list: &mut DataList<S, Untold>) -> Result<(), Fail>
    requires first { list.old.first ≡ 0 }
    requires next { next_number list.old ≡ 4 }
    ensures { list.new ≡ list.old }
{
    expect_block(rt, list, 0, 14)?;
    expect_block(rt, list, 1, 1039)?;
    expect_block(rt, list, 2, 1039)?;
    expect_block(rt, list, 3, 9)?;
    assert!(rt; matches!(list.read(4)?, Read::NotYet));
    Ok(())
}

#[test]
fn a_list_gives_its_blocks_until_they_are_purged(rt: HostRuntime) -> Result<(), Fail> {
    let alloc = rt.alloc();
    let mut list = four_blocks(&rt, alloc, MemorySpool::new(alloc))?;
    assert_eq!(rt; list.start(1), Some(0));
    assert_eq!(rt; list.floor(), 0);
    assert_eq!(rt; list.top(), 1);
    assert_eq!(rt; list.next(), 4);
    expect_all(&rt, &mut list)?;
    list.spill(1)?;
    expect_all(&rt, &mut list)?;
    list.spill(0)?;
    expect_all(&rt, &mut list)?;
    list.purge(1);
    assert_eq!(rt; list.floor(), 1);
    assert_eq!(rt; list.start(1), None);
    assert_eq!(rt; list.start(2), Some(4));
    assert_eq!(rt; list.start(3), None);
    assert!(rt; matches!(list.read(4)?, Read::NotYet));
    Ok(())
}

// A spool whose puts and fetches with these numbers fail.
fn failing(alloc: Global, puts: &[u64], fetches: &[u64]) -> Result<FailingSpool, Fail> {
    let puts = puts.to_vec(alloc)?;
    let fetches = fetches.to_vec(alloc)?;
    Ok(FailingSpools::new(alloc, Vec::new(alloc), puts, fetches).fresh()?)
}

#[test]
fn a_fault_of_the_spool_leaves_the_list(rt: HostRuntime) -> Result<(), Fail> {
    let alloc = rt.alloc();
    let mut list = four_blocks(&rt, alloc, failing(alloc, &[2], &[1])?)?;
    assert!(rt; matches!(list.spill(1), Err(ListFault::Fault(_))));
    // block 0 was put before the spool failed, and the first fetch fails
    assert!(rt; matches!(list.read(0), Err(ListFault::Fault(_))));
    expect_all(&rt, &mut list)?;
    list.spill(1)?;
    expect_all(&rt, &mut list)
}

#[test]
fn one_fetch_serves_the_readers_that_follow(rt: HostRuntime) -> Result<(), Fail> {
    let alloc = rt.alloc();
    let mut list = four_blocks(&rt, alloc, failing(alloc, &[], &[2])?)?;
    list.spill(0)?;
    expect_block(&rt, &mut list, 1, 1039)?;
    expect_block(&rt, &mut list, 1, 1039)?;
    expect_block(&rt, &mut list, 1, 1039)?;
    // the second fetch
    assert!(rt; matches!(list.read(0), Err(ListFault::Fault(_))));
    expect_block(&rt, &mut list, 1, 1039)?;
    expect_all(&rt, &mut list)
}

// The fault of block 1, for which the spool gave one byte.
fn expect_damaged<F: Drop>(rt: &impl Abort, fault: ListFault<F>) {
    match fault {
        ListFault::Damaged {
            number,
            window,
            index,
            last,
            bytes,
        } => {
            assert!(rt; number == 1 && window == 1 && index == 1 && !last);
            assert!(rt; bytes.as_slice() == [7].as_slice());
        }
        ListFault::Fault(_fault) => assert!(rt; false, "the spool failed"),
        ListFault::Memory => assert!(rt; false, "out of memory"),
    }
}

#[test]
fn bytes_that_spell_no_such_block_are_told(rt: HostRuntime) -> Result<(), Fail> {
    let alloc = rt.alloc();
    let wrong = [7].as_slice().to_vec(alloc)?;
    let mut list = four_blocks(&rt, alloc, WrongSpools::new(alloc, 1, wrong).fresh()?)?;
    list.spill(1)?;
    expect_block(&rt, &mut list, 0, 14)?;
    match list.read(1) {
        Ok(_read) => assert!(rt; false, "block 1 isn't damaged"),
        Err(fault) => expect_damaged(&rt, fault),
    }
    expect_block(&rt, &mut list, 2, 1039)
}

#[test]
fn a_shared_block_is_equal(rt: HostRuntime) -> Result<(), Fail> {
    let alloc = rt.alloc();
    let blocks = cut(alloc, &PLAN, 2, &Bag::new(alloc))?;
    assert_eq!(rt; blocks.len(), 1);
    let shared = blocks[0].share()?;
    assert!(rt; shared.last && shared.index == 0 && shared.window == 2);
    // Begin, End and EndOfStream of the run's last window
    assert_eq!(rt; shared.bytes.len(), 19);
    assert!(rt; shared.bytes == blocks[0].bytes);
    Ok(())
}
