// The fold of `top`: it keeps the tuples that rank first of those that came.
ghost use Rattle.std.specs.Prelude.{◌≡◌, ◌≤◌, ◌++◌, [], ◌∷◌, List, length, take, OnOk};
ghost use Rattle.std.specs.Bool.{OnTrue};
ghost use Rattle.apx_order.specs.Sorted.{sorted, with_member};
ghost use Rattle.apx_tuple.specs.declared.tuple.Tuple.{Tuple};
ghost use Rattle.apx_rules.specs.Parts.{cut_bag};
ghost use Rattle.apx_rules.specs.Step.{rank_order};
ghost use Rattle.apx_step.specs.Places.{place};
ghost use Rattle.apx_fold.specs.Ranked.{AreRanked};

use crate::folding::Folding;
use crate::share::Share;
use apx_tuple::{Bag, Short, State, Tuple};
use std::alloc::{AllocError, Global};
use std::cmp::Ordering;

/// The fold of `top`: it keeps the `k` tuples that rank first of those that it took.
#[derive(Drop)]
pub struct Best {
    /// How many are kept at most.
    k: u32,
    /// Which keys the partition owns.
    share: Share,
    /// Where tuples lie.
    alloc: Global,
    /// The first `k`, the first in rank first.
    first: Vec<Tuple>,
    /// They are in the order of their ranks.
    ghost ranked: { AreRanked first.items },
    /// There are no more than `k`.
    ghost few: { length first.items ≤ k },
}

impl Best {
    ghost use Rattle.apx_tuple.specs.declared.kind.Kind.TheVariants.{Top};
    ghost use Rattle.apx_fold.specs.Folds.{best_part, best_stands};

    /// The fold of no tuples.
    pub(crate) fn new(alloc: Global, k: u32, share: Share) -> Best
        ensures part { best_part result ≡ record { kind = Top k; n = share.n; i = share.i } }
        ensures stands { best_stands result [] [] }
    {
        Best {
            k,
            share,
            alloc,
            first: Vec::new(alloc),
        }
    }
}

impl Folding for Best {
    ghost use Rattle.apx_fold.specs.Folds.{best_part, best_stands};

    ghost part = { best_part };

    ghost stands = { best_stands };

    fn take(&mut self, port: u8, tuples: &[Tuple]) -> Result<(), Short> {
        if port == 0 {
            consider_owned(self.k as usize, &self.share, tuples, &mut self.first)?;
        }
        Ok(())
    }

    fn take_all(&mut self, port: u8, tuples: Vec<Tuple>) -> Result<(), Short> {
        if port == 0 {
            consider_owned(self.k as usize, &self.share, &tuples, &mut self.first)?;
        }
        Ok(())
    }

    fn end(self, _window: u32, _state: &State) -> Result<(State, Bag), Short> {
        let rows = Bag::of(self.first)?;
        Ok((State::new(self.alloc), rows))
    }

    fn end_by_value(self, _window: u32, _state: State) -> Result<(State, Bag), Short> {
        let rows = Bag::of(self.first)?;
        Ok((State::new(self.alloc), rows))
    }

    fn end_unsorted(self, _window: u32, _state: State) -> Result<(State, Vec<Tuple>), Short> {
        Ok((State::new(self.alloc), self.first))
    }
}

/// How tuples rank: by value from the greatest down, and then by key.
fn rank(left: &Tuple, right: &Tuple) -> Ordering
    ensures { result ≡ rank_order left.now right.now }
{
    match right.value.cmp(&left.value) {
        Ordering::Equal => left.key.cmp(&right.key),
        unequal => unequal,
    }
}

/// Keeps the tuples that the partition owns among the first `k`, where they rank so.
fn consider_owned(
    k: usize,
    share: &Share,
    tuples: &[Tuple],
    first: &mut Vec<Tuple>,
) -> Result<(), AllocError>
    requires ranked { AreRanked first.old.items }
    requires few { length first.old.items ≤ k }
    ensures ranked { AreRanked first.new.items }
    ensures few { length first.new.items ≤ k }
    ensures first { OnOk result ((before : List Tuple) → first.old.items ≡ take k (sorted rank_order before) →
        first.new.items ≡ take k (sorted rank_order (before ++ cut_bag share.now.n share.now.i tuples.now))) }
{
    for tuple in tuples {
        consider_if_owned(k, share, tuple, first)?;
    }
    Ok(())
}

/// Keeps a tuple that the partition owns among the first `k`, where it ranks so.
fn consider_if_owned(
    k: usize,
    share: &Share,
    tuple: &Tuple,
    first: &mut Vec<Tuple>,
) -> Result<(), AllocError>
    requires ranked { AreRanked first.old.items }
    requires few { length first.old.items ≤ k }
    ensures ranked { AreRanked first.new.items }
    ensures few { length first.new.items ≤ k }
    ensures first { OnOk result ((before : List Tuple) → first.old.items ≡ take k (sorted rank_order before) →
        first.new.items ≡ take k (sorted rank_order (before ++ cut_bag share.now.n share.now.i (tuple.now ∷ [])))) }
{
    if !share.owns(&tuple.key) {
        return Ok(());
    }
    consider(k, tuple, first)
}

/// Keeps the tuple among the first `k`, where it ranks so.
fn consider(k: usize, tuple: &Tuple, first: &mut Vec<Tuple>) -> Result<(), AllocError>
    requires ranked { AreRanked first.old.items }
    requires few { length first.old.items ≤ k }
    ensures ranked { AreRanked first.new.items }
    ensures few { length first.new.items ≤ k }
    ensures first { OnOk result (first.new.items ≡ take k (with_member rank_order tuple.now first.old.items)) }
{
    if is_behind(k, tuple, first) {
        return Ok(());
    }
    let place = place_of(tuple, first);
    let copied = tuple.copy()?;
    first.insert(place, copied)?;
    first.truncate(k);
    Ok(())
}

/// Whether the tuple isn't among the first `k`, since `k` others rank before it.
fn is_behind(k: usize, tuple: &Tuple, first: &[Tuple]) -> bool
    requires { AreRanked first.now }
    ensures { OnTrue result (take k (with_member rank_order tuple.now first.now) ≡ first.now) }
{
    match first {
        [.., last] => first.len() == k && rank(tuple, last).is_gt(),
        [] => false,
    }
}

/// How many of the tuples rank before this one, up to the first that doesn't.
fn place_of(tuple: &Tuple, first: &[Tuple]) -> usize
    ensures { result ≡ place rank_order tuple.now first.now }
{
    let mut place = 0;
    for other in first {
        if !rank(tuple, other).is_gt() {
            break;
        }
        place += 1;
    }
    place
}
