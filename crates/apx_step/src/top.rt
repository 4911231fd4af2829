//! The tuples with the greatest values.
ghost use Rattle.std.specs.Prelude.{◌≡◌, ◌≤◌, Some, IfOk, length, map, take, refl};
ghost use Rattle.std.specs.Bool.{OnTrue};
ghost use Rattle.std.specs.Cmp.{on_total, partial_equiv_from_equiv, eq_by_cmp_equiv, partial_order_from_total};
ghost use Rattle.std.specs.Ordering.{is_eq, int_cmp};
ghost use Rattle.apx_tuple.specs.Size.{IsLarge};
ghost use Rattle.apx_tuple.specs.Tuple.{tuple_key, key_order};
ghost use Rattle.apx_rules.specs.Step.{rank_order, top_of};
ghost use Rattle.apx_order.specs.Sorted.{sorted, with_member, IsAscending};
ghost use Rattle.apx_rules.specs.Ranks.{rank_order-total};
ghost use Rattle.apx_step.specs.Places.{place, tuples_ranked};

use crate::rules::emit;
use apx_tuple::{Bag, Short, Tuple};
use std::alloc::{AllocError, Global};
use std::cmp::Ordering;

/// Up to how many tuples a scan keeps in their order.
const FEW: usize = 64;

/// A tuple, ordered by value from the greatest down, and then by key.
#[derive(Drop)]
struct Ranked<'a>(&'a Tuple);

impl<'a> PartialEq for Ranked<'a> {
    ghost eq = { λ x y. is_eq (rank_order x.0.now y.0.now) };

    ghost laws = { partial_equiv_from_equiv (eq_by_cmp_equiv (on_total (λ r. r.0.now) rank_order-total)) };

    fn eq(&self, other: &Self) -> bool {
        rank(self.0, other.0).is_eq()
    }
}

impl<'a> Eq for Ranked<'a> {
    ghost laws = { eq_by_cmp_equiv (on_total (λ r. r.0.now) rank_order-total) };
}

impl<'a> PartialOrd for Ranked<'a> {
    ghost partial_cmp = { λ x y. Some (rank_order x.0.now y.0.now) };

    ghost laws = { partial_order_from_total (on_total (λ r. r.0.now) rank_order-total) };

    fn partial_cmp(&self, other: &Self) -> Option<Ordering> {
        Some(self.cmp(other))
    }
}

impl<'a> Ord for Ranked<'a> {
    ghost cmp = { λ x y. rank_order x.0.now y.0.now };

    ghost total = { on_total (λ r. r.0.now) rank_order-total };

    ghost matches_partial_cmp = { λ x y. refl };

    ghost matches_eq = { λ x y. refl };

    fn cmp(&self, other: &Self) -> Ordering {
        rank(self.0, other.0)
    }
}

/// How the tuples rank: by value from the greatest down, and then by key.
fn rank(left: &Tuple, right: &Tuple) -> Ordering
    ensures { result ≡ rank_order left.now right.now }
{
    match right.value.cmp(&left.value) {
        Ordering::Equal => left.key.cmp(&right.key),
        unequal => unequal,
    }
}

/// The tuples by rank, the first in rank first.
fn by_rank<'a>(alloc: Global, bag: &'a Bag) -> Result<Vec<Ranked<'a>>, AllocError>
    ensures { IfOk result (λ ranked. tuples_ranked ranked.items ≡ sorted rank_order bag.now) }
{
    let mut ranked = Vec::new(alloc);
    for tuple in bag.tuples() {
        ranked.push(Ranked(tuple))?;
    }
    ranked.sort()?;
    Ok(ranked)
}

/// The tuples that were ranked.
fn copied(alloc: Global, ranked: &[Ranked<'_>]) -> Result<Vec<Tuple>, AllocError>
    ensures { IfOk result (λ tuples. tuples.items ≡ tuples_ranked ranked.now) }
{
    let mut tuples = Vec::new(alloc);
    for place in ranked {
        let tuple = place.0;
        emit(&tuple.key, tuple.value, &mut tuples)?;
    }
    Ok(tuples)
}

/// Whether the tuple isn't among the first `k`, since `k` others rank before it.
fn is_behind(k: usize, tuple: &Tuple, first: &[Ranked<'_>]) -> bool
    requires ascends { IsAscending rank_order (tuples_ranked first.now) }
    requires few { length first.now ≤ k }
    ensures { OnTrue result (take k (with_member rank_order tuple.now (tuples_ranked first.now)) ≡ tuples_ranked first.now) }
{
    match first {
        [.., last] => first.len() == k && rank(tuple, last.0).is_gt(),
        [] => false,
    }
}

/// How many of the tuples rank before this one, up to the first that doesn't.
fn place_of(tuple: &Tuple, first: &[Ranked<'_>]) -> usize
    ensures { result ≡ place rank_order tuple.now (tuples_ranked first.now) }
{
    let mut place = 0;
    for ranked in first {
        if !rank(tuple, ranked.0).is_gt() {
            break;
        }
        place += 1;
    }
    place
}

/// The first `k` with one tuple more.
fn with_tuple<'a>(
    k: usize,
    tuple: &'a Tuple,
    mut first: Vec<Ranked<'a>>,
) -> Result<Vec<Ranked<'a>>, AllocError>
    requires ascends { IsAscending rank_order (tuples_ranked first.items) }
    requires few { length first.items ≤ k }
    ensures { IfOk result (λ firsts.
        tuples_ranked firsts.items ≡ take k (with_member rank_order tuple.now (tuples_ranked first.entry.items))) }
{
    if is_behind(k, tuple, &first) {
        return Ok(first);
    }
    let place = place_of(tuple, &first);
    first.insert(place, Ranked(tuple))?;
    first.truncate(k);
    Ok(first)
}

/// The `k` tuples that rank first, the first in rank first, by one scan that keeps these in their order.
fn scanned<'a>(alloc: Global, k: usize, tuples: &'a [Tuple]) -> Result<Vec<Ranked<'a>>, AllocError>
    ensures { IfOk result (λ first. tuples_ranked first.items ≡ take k (sorted rank_order tuples.now)) }
{
    let mut first = Vec::new(alloc);
    for tuple in tuples {
        first = with_tuple(k, tuple, first)?;
    }
    Ok(first)
}

/// The `k` tuples that rank first, the first in rank first. All are sorted only where many are wanted.
fn first_by_rank<'a>(alloc: Global, k: usize, bag: &'a Bag) -> Result<Vec<Ranked<'a>>, AllocError>
    ensures { IfOk result (λ first. tuples_ranked first.items ≡ take k (sorted rank_order bag.now)) }
{
    if k <= FEW {
        return scanned(alloc, k, bag.tuples());
    }
    let mut first = by_rank(alloc, bag)?;
    first.truncate(k);
    Ok(first)
}

/// The `k` tuples that rank first.
///
/// `Large` comes only where these are too large for a bag.
pub(crate) fn top(alloc: Global, k: u32, bag: &Bag) -> Result<Bag, Short>
    ensures ok { IfOk result (λ rows. rows ≡ top_of k bag.now) }
    ensures large { result ≡ Err Short.Large → IsLarge tuple_key (top_of k bag.now) }
{
    let first = first_by_rank(alloc, k as usize, bag)?;
    Bag::of(copied(alloc, &first)?)
}
