//! The tuples of blocks that a partition owns.
ghost use Rattle.std.specs.Prelude.{◌≡◌, ◌≤◌, ◌++◌, List, map, OnOk};
ghost use Rattle.std.specs.List.{flat_map};
ghost use Rattle.apx_tuple.specs.declared.tuple.Tuple.{Tuple};
ghost use Rattle.apx_list.specs.declared.plan.CutPlan.{CutPlan};
ghost use Rattle.apx_rules.specs.Parts.{cut_bag};
ghost use Rattle.apx_part.specs.Spelled.{AreSpelled, AreListed};

use apx_list::{Block, owned_payloads};
use apx_tuple::Tuple;
use std::alloc::{AllocError, Global};

/// Appends the tuples of some blocks whose keys partition `i` of `n` owns, in order.
fn append_blocks(
    alloc: Global,
    blocks: &[Block],
    n: u8,
    i: u8,
    into: &mut Vec<Tuple>,
) -> Result<(), AllocError>
    requires spelled { (plan : CutPlan) × (tuples : List Tuple) × AreSpelled plan blocks.now tuples }
    requires low { 1 ≤ n }
    requires high { n ≤ 8 }
    ensures { (plan : CutPlan) (tuples : List Tuple) → AreSpelled plan blocks.now tuples →
        OnOk result (into.new.items ≡ into.old.items ++ cut_bag n i tuples) }
{
    for block in blocks {
        owned_payloads(alloc, block, n, i, into)?;
    }
    Ok(())
}

/// Appends the tuples of lists of blocks whose keys partition `i` of `n` owns, list after list.
pub(crate) fn append_lists(
    alloc: Global,
    lists: &[Vec<Block>],
    n: u8,
    i: u8,
    into: &mut Vec<Tuple>,
) -> Result<(), AllocError>
    requires listed { (plan : CutPlan) × (bags : List (List Tuple)) × AreListed plan (map (λ list. list.items) lists.now) bags }
    requires low { 1 ≤ n }
    requires high { n ≤ 8 }
    ensures { (plan : CutPlan) (bags : List (List Tuple)) → AreListed plan (map (λ list. list.items) lists.now) bags →
        OnOk result (into.new.items ≡ into.old.items ++ cut_bag n i (flat_map (λ bag. bag) bags)) }
{
    for list in lists {
        append_blocks(alloc, list, n, i, into)?;
    }
    Ok(())
}
