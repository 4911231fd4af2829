//! States: what a partition owns, and the states of partitions as one.
ghost use Rattle.std.specs.Prelude.{◌≡◌, ◌≢◌, ℕ, ◌==◌, ◌≤◌, ◌<◌, ◌++◌, List, None, true, cond, IfOk, OnOk};
ghost use Rattle.std.specs.List.Sorted.{IsStrictlySortedBy};
ghost use Rattle.std.specs.Map.{keys_of};
ghost use Rattle.apx_codec.specs.KeyNumber.{owner_of};
ghost use Rattle.apx_order.specs.Sorted.{sorted, with_member, IsAscending};
ghost use Rattle.apx_tuple.specs.Size.{IsLarge};
ghost use Rattle.apx_tuple.specs.State.{Pair, pair_key, value_at, IsState};
ghost use Rattle.apx_tuple.specs.Tuple.{key_order};
ghost use Rattle.apx_rules.specs.Parts.{cut_state, merge_states, of_parts, pair_order};
ghost use Rattle.apx_split.specs.Kept.{AreOnce};

use apx_codec::owner;
use apx_tuple::{Key, Short, State};
use std::alloc::Global;

/// Keeps a value for a key for which nothing is kept.
#[tactic(auto, using(crate::proofs::Joining::with_entry_member))]
fn add_pair(into: &mut State, key: &Key, value: i64) -> Result<(), Short>
    requires { value_at into.old key.now ≡ None }
    ensures ok { OnOk result (into.new ≡ with_member pair_order (key.now, value) into.old) }
    ensures large { result ≡ Err Short.Large → IsLarge pair_key (with_member pair_order (key.now, value) into.old) }
{
    into.set(key.copy()?, value)
}

/// Keeps the value, where partition `i` of `n` owns the key, for which nothing is kept then.
fn add_owned(into: &mut State, key: &Key, value: i64, n: u8, i: u8) -> Result<(), Short>
    requires low { 1 ≤ n }
    requires high { n ≤ 8 }
    requires absent { (owner_of n key.now == i) ≡ true → value_at into.old key.now ≡ None }
    ensures ok { OnOk result (into.new
        ≡ cond (owner_of n key.now == i) (with_member pair_order (key.now, value) into.old) into.old) }
    ensures large { result ≡ Err Short.Large →
        ((owner_of n key.now == i) ≡ true) × IsLarge pair_key (with_member pair_order (key.now, value) into.old) }
{
    if owner(n, key.bytes()) != i {
        return Ok(());
    }
    add_pair(into, key, value)
}

/// Keeps all pairs of a state, whose keys are others than those that are kept.
fn add_state(into: &mut State, part: &State) -> Result<(), Short>
    requires once { AreOnce (into.old ++ part.now) }
    requires ordered { IsAscending pair_order into.old }
    ensures ok { OnOk result (into.new ≡ sorted pair_order (into.old ++ part.now)) }
    ensures large { result ≡ Err Short.Large → IsLarge pair_key (sorted pair_order (into.old ++ part.now)) }
{
    for (key, value) in part.pairs() {
        add_pair(into, key, value)?;
    }
    Ok(())
}

/// The state of the pairs whose keys partition `i` of `n` owns; it is never too large.
pub fn split_state(alloc: Global, state: &State, n: u8, i: u8) -> Result<State, Short>
    requires low { 1 ≤ n }
    requires high { n ≤ 8 }
    requires there { i < n }
    ensures cut { IfOk result (λ cut. cut ≡ cut_state n i state.now) }
    ensures never { result ≢ Err Short.Large }
{
    let mut owned = State::new(alloc);
    for (key, value) in state.pairs() {
        add_owned(&mut owned, key, value, n, i)?;
    }
    Ok(owned)
}

/// The states of partitions as one, where no key stands in two of them.
///
/// The cuts of a state give that state. `Large` comes only where the state is too large. The parts are dropped on a refusal.
pub fn merge_states(alloc: Global, parts: Vec<State>) -> Result<State, Short>
    requires { AreOnce (merge_states parts.items) }
    ensures ok { IfOk result (λ state. state ≡ merge_states parts.items) }
    ensures whole { (n : ℕ) (state : List Pair) → 1 ≤ n → IsStrictlySortedBy key_order (keys_of state) →
        parts.items ≡ of_parts n (λ i. cut_state n i state) → IfOk result (λ merged. merged ≡ state) }
    ensures large { result ≡ Err Short.Large → IsLarge pair_key (merge_states parts.items) }
{
    let mut merged = State::new(alloc);
    for part in &parts {
        add_state(&mut merged, part)?;
    }
    Ok(merged)
}
