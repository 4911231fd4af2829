//! What comes on a port of an operator, gathered.
ghost use Rattle.std.specs.Prelude.{◌≡◌, ◌≤◌, ◌<◌, ◌⊎◌, ◌++◌, [], List, length, map, cond, IfOk, ⊤};
ghost use Rattle.std.specs.Bool.{MatchBool};
ghost use Rattle.apx_tuple.specs.declared.tuple.Tuple.{Tuple};
ghost use Rattle.apx_tuple.specs.Kind.{has_right};
ghost use Rattle.apx_tuple.specs.Size.{IsLarge};
ghost use Rattle.apx_tuple.specs.Tuple.{tuple_key, bag_of};
ghost use Rattle.apx_list.specs.declared.plan.CutPlan.{CutPlan};
ghost use Rattle.apx_pass.specs.Graph.{node_at};
ghost use Rattle.apx_rules.specs.Parts.{cut_bag, merge_bags};
ghost use Rattle.apx_shares.specs.Given.{unify_of};
ghost use Rattle.apx_part.specs.Gathered.{kept_by, is_chosen};
ghost use Rattle.apx_part.specs.Made.{IsLargePort};
ghost use Rattle.apx_part.specs.Spelled.{AreListed};

use crate::payload::append_lists;
use apx_dag::{Dag, Node, Role};
use apx_list::Block;
use apx_split::{cut_bag, keep_best};
use apx_tuple::{Bag, Kind, Short};
use std::alloc::Global;

/// Whether the outputs of the partitions of the operator are chosen from once more, as those of `top`.
fn is_chosen(node: &Node) -> bool
    ensures { result ≡ is_chosen node.now.role }
{
    matches!(node.role, Role::Inner(Kind::Top { .. }))
}

/// What is kept of all that the partitions of the operator gave.
#[tactic(auto, unfolding(crate::specs::Gathered::kept_by))]
fn keep(alloc: Global, node: &Node, all: Bag) -> Result<Bag, Short>
    ensures ok { IfOk result (λ bag. bag ≡ kept_by node.now.role all) }
    ensures large { result ≡ Err Short.Large → IsLarge tuple_key (kept_by node.now.role all) }
{
    match &node.role {
        Role::Inner(kind) => keep_best(alloc, kind, all),
        _ => Ok(all),
    }
}

/// What the partitions of an operator gave, as one bag, from the blocks of each.
///
/// `Large` comes only where all that they gave is too large, or what is kept of it.
pub(crate) fn unified(
    alloc: Global,
    dag: &Dag,
    source: u16,
    lists: &[Vec<Block>],
) -> Result<Bag, Short>
    requires source { source < length dag.now }
    requires listed { (plan : CutPlan) × (bags : List (List Tuple)) × AreListed plan (map (λ list. list.items) lists.now) bags }
    ensures ok { (plan : CutPlan) (bags : List (List Tuple)) → AreListed plan (map (λ list. list.items) lists.now) bags →
        IfOk result (λ bag. bag ≡ unify_of (node_at dag.now source).role bags) }
    ensures large { (plan : CutPlan) (bags : List (List Tuple)) → AreListed plan (map (λ list. list.items) lists.now) bags →
        result ≡ Err Short.Large →
        IsLarge tuple_key (merge_bags bags) ⊎ IsLarge tuple_key (unify_of (node_at dag.now source).role bags) }
{
    let mut tuples = Vec::new(alloc);
    append_lists(alloc, lists, 1, 0, &mut tuples)?;
    let all = Bag::of(tuples)?;
    keep(alloc, dag.node(source), all)
}

/// The tuples of two bags as one bag.
fn joined(before: Bag, owned: Bag) -> Result<Bag, Short>
    ensures ok { IfOk result (λ bag. bag ≡ bag_of (before ++ owned)) }
    ensures large { result ≡ Err Short.Large → IsLarge tuple_key (bag_of (before ++ owned)) }
{
    let mut tuples = before.into_tuples();
    tuples.append(&mut owned.into_tuples())?;
    Bag::of(tuples)
}

/// The tuples that were gathered, and those of a chosen output that partition `i` of `n` owns.
fn gather_chosen(
    alloc: Global,
    dag: &Dag,
    source: u16,
    lists: &[Vec<Block>],
    n: u8,
    i: u8,
    before: Bag,
) -> Result<Bag, Short>
    requires source { source < length dag.now }
    requires listed { (plan : CutPlan) × (bags : List (List Tuple)) × AreListed plan (map (λ list. list.items) lists.now) bags }
    requires low { 1 ≤ n }
    requires high { n ≤ 8 }
    requires there { i < n }
    ensures ok { (plan : CutPlan) (bags : List (List Tuple)) → AreListed plan (map (λ list. list.items) lists.now) bags →
        IfOk result (λ bag. bag ≡ bag_of (before ++ cut_bag n i (unify_of (node_at dag.now source).role bags))) }
    ensures large { (plan : CutPlan) (bags : List (List Tuple)) → AreListed plan (map (λ list. list.items) lists.now) bags →
        result ≡ Err Short.Large → IsLargePort (node_at dag.now source).role n i before bags }
{
    let all = unified(alloc, dag, source, lists)?;
    let owned = cut_bag(alloc, &all, n, i)?;
    joined(before, owned)
}

/// The tuples that were gathered, and those of all partitions of an operator that partition `i` of `n` owns.
fn gather_owned(
    alloc: Global,
    lists: &[Vec<Block>],
    n: u8,
    i: u8,
    before: Bag,
) -> Result<Bag, Short>
    requires listed { (plan : CutPlan) × (bags : List (List Tuple)) × AreListed plan (map (λ list. list.items) lists.now) bags }
    requires low { 1 ≤ n }
    requires high { n ≤ 8 }
    ensures ok { (plan : CutPlan) (bags : List (List Tuple)) → AreListed plan (map (λ list. list.items) lists.now) bags →
        IfOk result (λ bag. bag ≡ bag_of (before ++ cut_bag n i (merge_bags bags))) }
    ensures large { (plan : CutPlan) (bags : List (List Tuple)) → AreListed plan (map (λ list. list.items) lists.now) bags →
        result ≡ Err Short.Large → IsLarge tuple_key (bag_of (before ++ cut_bag n i (merge_bags bags))) }
{
    let mut tuples = before.into_tuples();
    append_lists(alloc, lists, n, i, &mut tuples)?;
    Bag::of(tuples)
}

/// What was gathered on a port with what comes on it in a window, from the blocks of all partitions of the source.
///
/// `Large` comes only where what comes of the source is too large, or what is gathered.
pub(crate) fn gather_port(
    alloc: Global,
    dag: &Dag,
    source: u16,
    lists: &[Vec<Block>],
    n: u8,
    i: u8,
    before: Bag,
) -> Result<Bag, Short>
    requires source { source < length dag.now }
    requires listed { (plan : CutPlan) × (bags : List (List Tuple)) × AreListed plan (map (λ list. list.items) lists.now) bags }
    requires low { 1 ≤ n }
    requires high { n ≤ 8 }
    requires there { i < n }
    ensures ok { (plan : CutPlan) (bags : List (List Tuple)) → AreListed plan (map (λ list. list.items) lists.now) bags →
        IfOk result (λ bag. bag ≡ bag_of (before ++ cut_bag n i (unify_of (node_at dag.now source).role bags))) }
    ensures large { (plan : CutPlan) (bags : List (List Tuple)) → AreListed plan (map (λ list. list.items) lists.now) bags →
        result ≡ Err Short.Large → IsLargePort (node_at dag.now source).role n i before bags }
{
    if is_chosen(dag.node(source)) {
        return gather_chosen(alloc, dag, source, lists, n, i, before);
    }
    gather_owned(alloc, lists, n, i, before)
}

/// The same for the right port, where the kind has one.
pub(crate) fn gather_right(
    alloc: Global,
    dag: &Dag,
    node: &Node,
    kind: &Kind,
    lists: &[Vec<Block>],
    n: u8,
    i: u8,
    before: Bag,
) -> Result<Bag, Short>
    requires listed { (plan : CutPlan) × (bags : List (List Tuple)) × AreListed plan (map (λ list. list.items) lists.now) bags }
    requires source { MatchBool (has_right kind.now) (node.now.right < length dag.now) ⊤ }
    requires low { 1 ≤ n }
    requires high { n ≤ 8 }
    requires there { i < n }
    ensures ok { (plan : CutPlan) (bags : List (List Tuple)) → AreListed plan (map (λ list. list.items) lists.now) bags →
        IfOk result (λ bag. bag ≡ bag_of (before ++ cut_bag n i (cond (has_right kind.now) (unify_of (node_at dag.now node.now.right).role bags) []))) }
    ensures large { (plan : CutPlan) (bags : List (List Tuple)) → AreListed plan (map (λ list. list.items) lists.now) bags →
        result ≡ Err Short.Large → IsLargePort (node_at dag.now node.now.right).role n i before bags }
{
    if kind.has_right() {
        return gather_port(alloc, dag, node.right, lists, n, i, before);
    }
    before.tuples();
    Ok(before)
}
