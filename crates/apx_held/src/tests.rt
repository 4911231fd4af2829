//! What is kept for one partition, through a window and its end, and for a machine with several.
ghost use Rattle.std.specs.Prelude.{◌≡◌, ◌≤◌, ◌∷◌, [], IfOk};
ghost use Rattle.apx_list.specs.Plan.{IsPlan};
ghost use Rattle.apx_machine.specs.Sample.{sample};
ghost use Rattle.apx_held.specs.Begun.{first_holding};

use crate::begin;
use crate::contents::Contents;
use crate::group::Group;
use crate::held::Held;
use apx_device::{MemorySpool, MemorySpools};
use apx_list::{CutPlan, cut};
use apx_machine::{Machine, Operator, Plan};
use apx_tuple::{Bag, Key, Progress, Tuple};
use std::alloc::{AllocError, Global};
use std::test::Fail;

const PLAN: CutPlan = CutPlan {
    base: 1_000_000_000,
    every: 60,
    windows: 2,
    size: 1040,
};

/// What is kept for one operator of one partition that has nothing behind it.
fn first(alloc: Global, plan: CutPlan) -> Result<Contents<MemorySpool>, AllocError>
    requires { IsPlan plan }
    ensures { IfOk result (λ c. c ≡ (first_holding plan ∷ []) ∷ []) }
{
    let spool = MemorySpool::new(alloc);
    let mut parts = Vec::new(alloc);
    parts.push(Held::new(alloc, plan, 0, Progress::new(alloc), spool))?;
    let mut groups = Vec::new(alloc);
    groups.push(Group::of(parts))?;
    Ok(Contents::of(groups))
}

/// Two keys of 1,024 bytes, each of one letter: they make four blocks.
fn long_keys(alloc: Global) -> Result<Bag, Fail> {
    let mut tuples = Vec::new(alloc);
    for letter in [b'a', b'b'] {
        tuples.push(Tuple {
            key: Key::of(alloc, &[letter; 1024])?,
            value: 1,
        })?;
    }
    Ok(Bag::of(tuples)?)
}

#[test]
fn a_window_is_lent_until_it_is_dropped(rt: HostRuntime) -> Result<(), Fail> {
    let alloc = rt.alloc();
    let mut contents = first(alloc, PLAN)?;
    assert_eq!(rt; contents.len(), 1);
    assert_eq!(rt; contents.parts(0), 1);
    let progress = contents.take(0, 0);
    let blocks = cut(alloc, &PLAN, 1, &long_keys(alloc)?)?;
    contents.bring(0, 0, progress, blocks)?;
    contents.spill(0, 0, 1)?;
    let lists = contents.lend(alloc, 0, 1)?;
    assert_eq!(rt; lists.len(), 1);
    assert_eq!(rt; lists[0].len(), 4);
    for (index, block) in lists[0].iter().enumerate() {
        assert!(rt;
            block.window == 1 && block.index as usize == index && block.last == (index == 3)
        );
    }
    let bytes = contents.spelled(alloc, 0, 0)?;
    assert_eq!(rt;
        bytes.as_slice(),
        [255, 2, 0, 0, 0, 0, 0, 0, 0, 0, 0, 0, 0, 0].as_slice()
    );
    contents.purge(0, 0, 1);
    assert_eq!(rt; contents.len(), 1);
    Ok(())
}

/// An operator.
fn operator(
    alloc: Global,
    sources: &[u16],
    under: &[u16],
    first: u8,
) -> Result<Operator, AllocError>
    ensures { IfOk result (λ o. o ≡ record { sources = sources.now; under = under.now; first = first }) }
{
    let sources = Vec::from_slice(alloc, sources)?;
    let under = Vec::from_slice(alloc, under)?;
    Ok(Operator::new(sources, under, first))
}

/// A chain of three operators, of which the middle one has two partitions: four windows, and a checkpoint after each second.
fn chain(alloc: Global) -> Result<Plan, AllocError>
    ensures { IfOk result (λ p. p ≡ sample) }
{
    let mut operators = Vec::new(alloc);
    operators.push(operator(alloc, &[], &[1, 2], 1)?)?;
    operators.push(operator(alloc, &[0], &[2], 2)?)?;
    operators.push(operator(alloc, &[1], &[], 1)?)?;
    Ok(Plan::new(4, 2, 2, operators, Vec::new(alloc)))
}

#[test]
fn operators_begin_with_their_partitions_and_go_on_with_others(
    rt: HostRuntime,
) -> Result<(), Fail> {
    let alloc = rt.alloc();
    let machine = Machine::new(alloc, chain(alloc)?, 0)?;
    let mut spools = MemorySpools::new(alloc);
    let mut contents = begin(alloc, &machine, PLAN, &mut spools)?;
    assert_eq!(rt; contents.len(), 3);
    assert_eq!(rt; contents.parts(0), 1);
    assert_eq!(rt; contents.parts(1), 2);
    let spool = MemorySpool::new(alloc);
    let held = Held::new(alloc, PLAN, 2, Progress::new(alloc), spool);
    contents.put(1, 1, held);
    assert_eq!(rt; contents.parts(1), 2);
    let spool = MemorySpool::new(alloc);
    let mut parts = Vec::new(alloc);
    parts.push(Held::new(alloc, PLAN, 2, Progress::new(alloc), spool))?;
    contents.renew(1, parts);
    assert_eq!(rt; contents.len(), 3);
    assert_eq!(rt; contents.parts(1), 1);
    Ok(())
}
