//! The walk over the keys that came.
ghost use Rattle.std.specs.Prelude.{◌≡◌, cond, IfOk, OnOk};
ghost use Rattle.std.specs.Ordering.{is_eq, is_gt};
ghost use Rattle.std.specs.Option.{option_copied};
ghost use Rattle.std.specs.Map.{keys_of};
ghost use Rattle.std.specs.List.Sorted.{IsStrictlySortedBy};
ghost use Rattle.apx_tuple.specs.Size.{IsLarge};
ghost use Rattle.apx_tuple.specs.State.{pair_key, value_at};
ghost use Rattle.apx_tuple.specs.Tuple.{key_order};
ghost use Rattle.apx_step.specs.Walk.{first_key, group_of, past_group, put, walked, emitted_of};

use crate::rules::apply;
use apx_tuple::{Bag, Key, Kind, Short, State, Tuple};
use std::alloc::Global;
use std::cmp::Ordering;

/// The least key that is left, if any.
fn first_key<'a>(lefts: &'a [Tuple], rights: &'a [Tuple]) -> Option<&'a Key>
    ensures { option_copied result ≡ first_key lefts.now rights.now }
{
    match (lefts.first(), rights.first()) {
        (Some(left), Some(right)) => Some(lesser(&left.key, &right.key)),
        (Some(left), None) => Some(&left.key),
        (None, Some(right)) => Some(&right.key),
        (None, None) => None,
    }
}

/// The lesser of two keys.
fn lesser<'a>(left: &'a Key, right: &'a Key) -> &'a Key
    ensures { result.now ≡ cond (is_gt (key_order left.now right.now)) right.now left.now }
{
    match left.cmp(right) {
        Ordering::Greater => right,
        _ => left,
    }
}

/// Whether the tuple has the key.
fn has_key(tuple: &Tuple, key: &Key) -> bool
    ensures { result ≡ is_eq (key_order key.now tuple.now.key) }
{
    key.cmp(&tuple.key).is_eq()
}

/// The tuples with the key that come first, and those from the first other one on.
fn split_group<'a>(key: &Key, tuples: &'a [Tuple]) -> (&'a [Tuple], &'a [Tuple])
    ensures group { result.0.now ≡ group_of key.now tuples.now }
    ensures rest { result.1.now ≡ past_group key.now tuples.now }
{
    let mut len = 0;
    for tuple in tuples {
        if !has_key(tuple, key) {
            break;
        }
        len += 1;
    }
    tuples.split_at(len)
}

/// Keeps the key's new entry, where it has one that isn't its old one.
fn keep_entry(
    state: &mut State,
    key: &Key,
    old: Option<i64>,
    entry: Option<i64>,
) -> Result<(), Short>
    requires ascends { IsStrictlySortedBy key_order (keys_of state.old) }
    requires kept { old ≡ value_at state.old key.now }
    ensures ok { OnOk result (state.new ≡ put entry key.now state.old) }
    ensures large { result ≡ Err Short.Large → IsLarge pair_key (put entry key.now state.old) }
{
    if entry == old {
        return Ok(());
    }
    match entry {
        Some(value) => state.set(key.copy()?, value),
        None => Ok(()),
    }
}

/// Walks over the keys that came, from the least on: what is kept then, and what was emitted.
///
/// `Large` comes only where what is kept then is too large for a state.
pub(crate) fn walk(
    alloc: Global,
    kind: &Kind,
    start: State,
    left: &Bag,
    right: &Bag,
) -> Result<(State, Vec<Tuple>), Short>
    requires { IsStrictlySortedBy key_order (keys_of start) }
    ensures state { IfOk result (λ r. r.0 ≡ walked kind.now start left.now right.now) }
    ensures emitted { IfOk result (λ r. r.1.items ≡ emitted_of kind.now start left.now right.now) }
    ensures large { result ≡ Err Short.Large → IsLarge pair_key (walked kind.now start left.now right.now) }
{
    let mut state = start;
    let mut emitted = Vec::new(alloc);
    let mut lefts = left.tuples();
    let mut rights = right.tuples();
    while let Some(key) = first_key(lefts, rights) {
        let (left_group, left_rest) = split_group(key, lefts);
        let (right_group, right_rest) = split_group(key, rights);
        let old = state.get(key);
        let entry = apply(alloc, kind, key, old, left_group, right_group, &mut emitted)?;
        keep_entry(&mut state, key, old, entry)?;
        lefts = left_rest;
        rights = right_rest;
    }
    Ok((state, emitted))
}
