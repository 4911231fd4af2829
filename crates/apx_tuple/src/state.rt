//! States: what an operator keeps from window to window.
ghost use Rattle.std.specs.Prelude.{◌≡◌, ℤ, ◌<◌, ◌==◌, [], length, IfOk, OnOk, OnErr};
ghost use Rattle.std.specs.Bool.{OnFalse, OnTrue};
ghost use Rattle.std.specs.BTreeMap.{IsFromIterResult};
ghost use Rattle.std.specs.Iterator.{YieldsFirstBy, item_count};
ghost use Rattle.std.specs.List.Sorted.{IsStrictlySortedBy};
ghost use Rattle.std.specs.Map.{keys_of};
ghost use Rattle.apx_tuple.specs.Size.{size_by, IsLarge};
ghost use Rattle.apx_tuple.specs.State.{pair_key, value_at, with_entry, without_entry, IsState};
ghost use Rattle.apx_tuple.specs.Tuple.{key_order};

use crate::key::Key;
use crate::refusal::Short;
use crate::size::{BESIDE_KEY, LARGE, pairs_size};
use std::alloc::{AllocError, Global};
use std::collections::{BTreeMap, btree_map};
use std::marker::Model;

/// A number kept for each of some keys; its size stays below 4294967232.
///
/// ```
/// let mut state = State::new(alloc);
/// state.set(Key::of(alloc, b"b")?, 2)?;
/// ```
#[derive(Debug, Drop)]
pub struct State {
    /// The number under each key.
    entries: BTreeMap<Key, i64>,
    /// Over the keys, their length and 10.
    size: u64,
}

impl Model for State {
    ghost use Rattle.std.specs.Prelude.{◌≡◌, List};
    ghost use Rattle.apx_tuple.specs.State.{Pair, pair_key, IsState};
    ghost use Rattle.apx_tuple.specs.Size.{size_by};

    ghost Value = { List Pair };

    ghost view = { λ s. s.entries.entries };

    ghost invariant = { λ s. (s.size ≡ size_by pair_key s.entries.entries) × IsState s.entries.entries };
}

impl State {
    /// The state in which nothing is kept.
    pub fn new(alloc: Global) -> State
        ensures { result ≡ [] }
    {
        State {
            entries: BTreeMap::new(alloc),
            size: 0,
        }
    }

    /// The state of these pairs, whose keys ascend already, each once: in one walk, with no look-up.
    ///
    /// `Large` comes exactly where they are too large for a state. They are dropped on a refusal.
    pub fn from_ascending(alloc: Global, pairs: Vec<(Key, i64)>) -> Result<State, Short>
        requires { IsStrictlySortedBy key_order (keys_of pairs.items) }
        ensures ok { IfOk result (λ state. state ≡ pairs.items) }
        ensures small { OnOk result (size_by pair_key pairs.items < 4294967232) }
        ensures large { result ≡ Err Short.Large → IsLarge pair_key pairs.items }
        ensures refused { IsLarge pair_key pairs.items → result ≡ Err Short.Large }
    {
        let Some(size) = pairs_size(pairs.as_slice()) else {
            return Err(Short::Large);
        };
        Ok(State {
            entries: collected(alloc, pairs)?,
            size,
        })
    }

    /// How many keys there are.
    pub fn len(&self) -> usize
        ensures len { result ≡ length self.now }
        ensures state { IsState self.now }
    {
        self.entries.len()
    }

    /// Over the keys, their length and 10. No key is looked at.
    pub fn size(&self) -> u64
        ensures size { result ≡ size_by pair_key self.now }
        ensures state { IsState self.now }
    {
        self.size
    }

    /// Whether nothing is kept.
    pub fn is_empty(&self) -> bool
        ensures { result ≡ (length self.now == 0) }
    {
        self.entries.len() == 0
    }

    /// What is kept for the key; None exactly where nothing is.
    pub fn get(&self, key: &Key) -> Option<i64>
        ensures { result ≡ value_at self.now key.now }
    {
        self.entries.get(key).copied()
    }

    /// Keeps the value for the key, in place of what was kept for it.
    ///
    /// `Large` comes only where the state with it would be too large.
    pub fn set(&mut self, key: Key, value: i64) -> Result<(), Short>
        ensures ok { OnOk result (self.new ≡ with_entry self.old key value) }
        ensures small { OnOk result (size_by pair_key (with_entry self.old key value) < 4294967232) }
        ensures large { result ≡ Err Short.Large → IsLarge pair_key (with_entry self.old key value) }
        ensures err { OnErr result (self.new ≡ self.old) }
    {
        if self.outgrows(&key) {
            return Err(Short::Large);
        }
        let more = key.bytes().len() as u64 + BESIDE_KEY;
        if self.entries.insert(key, value)?.is_none() {
            self.size += more;
        }
        Ok(())
    }

    /// Keeps for the key what the rule makes of what was kept for it, which a look-up finds once: what was kept,
    /// and what is kept from then on.
    ///
    /// `Large` comes only where the state with an entry for the key would be too large.
    pub fn change<F: FnOnce(Option<i64>) -> i64>(
        &mut self,
        key: &Key,
        rule: F,
    ) -> Result<(Option<i64>, i64), Short>
        requires { F.IsAlwaysCallable rule }
        ensures before { IfOk result (λ r. r.0 ≡ value_at self.old key.now) }
        ensures after { IfOk result (λ r. F.post rule (value_at self.old key.now) r.1) }
        ensures ok { IfOk result (λ r. self.new ≡ with_entry self.old key.now r.1) }
        ensures small { IfOk result (λ r. size_by pair_key (with_entry self.old key.now r.1) < 4294967232) }
        ensures large { result ≡ Err Short.Large → (value : ℤ) → IsLarge pair_key (with_entry self.old key.now value) }
        ensures err { OnErr result (self.new ≡ self.old) }
    {
        if let Some(kept) = self.entries.get_mut(key) {
            let before = *kept;
            let after = rule(Some(before));
            *kept = after;
            return Ok((Some(before), after));
        }
        if self.outgrows(key) {
            return Err(Short::Large);
        }
        let own = key.copy()?;
        let more = key.bytes().len() as u64 + BESIDE_KEY;
        let after = rule(None);
        self.entries.insert(own, after)?;
        self.size += more;
        Ok((None, after))
    }

    /// Whether the state with an entry for the key would be too large.
    fn outgrows(&self, key: &Key) -> bool
        ensures large { OnTrue result ((value : ℤ) → IsLarge pair_key (with_entry self.now key.now value)) }
        ensures small { OnFalse result ((value : ℤ) → size_by pair_key (with_entry self.now key.now value) < 4294967232) }
    {
        let more = key.bytes().len() as u64 + BESIDE_KEY;
        if self.size + more < LARGE {
            return false;
        }
        match self.entries.get(key) {
            Some(_) => false,
            None => true,
        }
    }

    /// Keeps nothing for the key any more.
    pub fn remove(&mut self, key: &Key)
        ensures { self.new ≡ without_entry self.old key.now }
    {
        let less = key.bytes().len() as u64 + BESIDE_KEY;
        if self.entries.remove(key).is_some() {
            self.size -= less;
        }
    }

    /// A state with the same pairs.
    pub fn copy(&self) -> Result<State, AllocError>
        ensures { IfOk result (λ state. state ≡ self.now) }
    {
        Ok(State {
            entries: self.entries.clone()?,
            size: self.size,
        })
    }

    /// The pairs, in the keys' order.
    pub fn pairs(&self) -> Pairs<'_>
        ensures pairs { result ≡ self.now }
        ensures state { IsState self.now }
    {
        Pairs {
            pairs: self.entries.iter(),
        }
    }
}

/// The pairs as a map. Of pairs that ascend a run is found, and no key is looked up.
fn collected(alloc: Global, pairs: Vec<(Key, i64)>) -> Result<BTreeMap<Key, i64>, AllocError>
    ensures { IfOk result (IsFromIterResult key_order pairs.items) }
{
    pairs.into_iter().collect(alloc)
}

/// The pairs of a state that are left, in the keys' order.
#[derive(Drop)]
pub struct Pairs<'a> {
    /// The pairs that are left.
    pairs: btree_map::Iter<'a, Key, i64>,
}

impl<'a> Model for Pairs<'a> {
    ghost use Rattle.std.specs.Prelude.{List};
    ghost use Rattle.apx_tuple.specs.State.{Pair};

    ghost Value = { List Pair };

    ghost view = { λ p. p.pairs };
}

impl<'a> Iterator for Pairs<'a> {
    type Item = (&'a Key, i64);

    ghost next_gives = { YieldsFirstBy (λ p. (p.0.now, p.1)) (λ s. s) };

    ghost remaining = { item_count (λ s. s) };

    fn next(&mut self) -> Option<(&'a Key, i64)> {
        let (key, value) = self.pairs.next()?;
        Some((key, *value))
    }
}
