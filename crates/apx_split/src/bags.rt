//! Bags: what a partition owns, and what partitions give together.
ghost use Rattle.std.specs.Prelude.{◌≡◌, ◌≢◌, ℕ, ◌==◌, ◌≤◌, ◌<◌, ◌⊎◌, List, [], ◌∷◌, ◌++◌, cond, IfOk, OnOk};
ghost use Rattle.apx_codec.specs.KeyNumber.{owner_of};
ghost use Rattle.apx_tuple.specs.declared.tuple.Tuple.{Tuple};
ghost use Rattle.apx_tuple.specs.Size.{IsLarge};
ghost use Rattle.apx_tuple.specs.State.{Pair};
ghost use Rattle.apx_tuple.specs.Tuple.{tuple_key, IsBag};
ghost use Rattle.apx_rules.specs.Parts.{cut_bag, merge_bags, of_parts, step_part, unify};
ghost use Rattle.apx_rules.specs.Step.{step};
ghost use Rattle.apx_split.specs.Kept.{kept_of};

use apx_codec::owner;
use apx_step::step_in_place;
use apx_tuple::{Bag, Kind, Short, State, Tuple};
use std::alloc::{AllocError, Global};

/// Adds a copy of the tuple, where partition `i` of `n` owns its key.
fn add_owned(tuple: &Tuple, n: u8, i: u8, owned: &mut Vec<Tuple>) -> Result<(), AllocError>
    requires low { 1 ≤ n }
    requires high { n ≤ 8 }
    ensures { OnOk result (owned.new.items ≡ owned.old.items ++ cond (owner_of n tuple.now.key == i) (tuple.now ∷ []) []) }
{
    if owner(n, tuple.key.bytes()) != i {
        return Ok(());
    }
    owned.push(tuple.copy()?)?;
    Ok(())
}

/// The tuples of the bag whose keys partition `i` of `n` owns, in their order.
#[tactic(auto, using(crate::proofs::Keeping::owned_more))]
fn owned(alloc: Global, bag: &Bag, n: u8, i: u8) -> Result<Vec<Tuple>, AllocError>
    requires low { 1 ≤ n }
    requires high { n ≤ 8 }
    ensures tuples { IfOk result (λ tuples. tuples.items ≡ cut_bag n i bag.now) }
    ensures bag { IsBag bag.now }
{
    let mut owned = Vec::new(alloc);
    for tuple in bag.tuples() {
        add_owned(tuple, n, i, &mut owned)?;
    }
    Ok(owned)
}

/// The bag of the tuples whose keys partition `i` of `n` owns; it is never too large.
pub fn cut_bag(alloc: Global, bag: &Bag, n: u8, i: u8) -> Result<Bag, Short>
    requires low { 1 ≤ n }
    requires high { n ≤ 8 }
    requires there { i < n }
    ensures cut { IfOk result (λ cut. cut ≡ cut_bag n i bag.now) }
    ensures never { result ≢ Err Short.Large }
{
    Bag::from_ascending(owned(alloc, bag, n, i)?)
}

/// Of the outputs of all partitions of an operator, put together: `top` keeps the first `k`, and another kind all.
///
/// `Large` comes only where what is kept is too large.
#[tactic(auto, unfolding(crate::specs::Kept::kept_of, apx_rules::specs::Step::step))]
pub fn keep_best(alloc: Global, kind: &Kind, all: Bag) -> Result<Bag, Short>
    ensures ok { IfOk result (λ bag. bag ≡ kept_of kind.now all) }
    ensures large { result ≡ Err Short.Large → IsLarge tuple_key (kept_of kind.now all) }
{
    match *kind {
        Kind::Top { .. } => {
            let state = State::new(alloc);
            let none = Bag::new(alloc);
            let (_, best) = step_in_place(alloc, kind, 1, state, &all, &none)?;
            Ok(best)
        }
        _ => Ok(all),
    }
}

/// The outputs of an operator's partitions as one; `top` keeps the first `k` of them.
///
/// `Large` comes only where the outputs together are too large, or what is kept of them. They are dropped on a refusal.
pub fn unify(alloc: Global, kind: &Kind, parts: Vec<Bag>) -> Result<Bag, Short>
    ensures ok { IfOk result (λ bag. bag ≡ unify kind.now parts.items) }
    ensures whole { (n window : ℕ) (state : List Pair) (left right : List Tuple) → 1 ≤ n →
        parts.items ≡ of_parts n (λ i. (step_part n i kind.now window state left right).rows) →
        IfOk result (λ bag. bag ≡ (step kind.now window state left right).rows) }
    ensures large { result ≡ Err Short.Large → IsLarge tuple_key (merge_bags parts.items) ⊎ IsLarge tuple_key (unify kind.now parts.items) }
{
    let all = Bag::merge(alloc, parts)?;
    keep_best(alloc, kind, all)
}
