// Which keys a partition owns.
ghost use Rattle.std.specs.Prelude.{◌≡◌, ◌==◌, ◌≤◌, ◌<◌, ◌++◌, [], ◌∷◌, IfOk, OnOk};
ghost use Rattle.apx_codec.specs.KeyNumber.{owner_of};
ghost use Rattle.apx_rules.specs.Parts.{cut_bag, cut_state};

use apx_codec::owner;
use apx_tuple::{Key, Short, State, Tuple};
use std::alloc::{AllocError, Global};

/// Partition `i` of `n` of an operator, which owns some of the keys.
#[derive(Clone, Copy, Debug)]
pub struct Share {
    /// How many partitions there are.
    n: u8,
    /// The number of this one, from 0.
    i: u8,
    /// There is a partition.
    ghost low: { 1 ≤ n },
    /// There are at most as many as an operator may have.
    ghost high: { n ≤ 8 },
    /// This one is one of them.
    ghost there: { i < n },
}

impl Share {
    /// Partition `i` of `n`.
    pub(crate) fn of(n: u8, i: u8) -> Share
        requires low { 1 ≤ n }
        requires high { n ≤ 8 }
        requires there { i < n }
        ensures n { result.n ≡ n }
        ensures i { result.i ≡ i }
    {
        Share { n, i }
    }

    /// Whether it owns the key. The only partition owns all keys.
    pub(crate) fn owns(&self, key: &Key) -> bool
        ensures { result ≡ (owner_of self.now.n key.now == self.now.i) }
    {
        self.n == 1 || owner(self.n, key.bytes()) == self.i
    }

    /// Adds a copy of the tuple, where it owns its key.
    fn add_copy(&self, tuple: &Tuple, into: &mut Vec<Tuple>) -> Result<(), AllocError>
        ensures { OnOk result (into.new.items ≡ into.old.items ++ cut_bag self.now.n self.now.i (tuple.now ∷ [])) }
    {
        if self.owns(&tuple.key) {
            into.push(tuple.copy()?)?;
        }
        Ok(())
    }

    /// Adds copies of the tuples that it owns.
    pub(crate) fn copy_owned(
        &self,
        tuples: &[Tuple],
        into: &mut Vec<Tuple>,
    ) -> Result<(), AllocError>
        ensures { OnOk result (into.new.items ≡ into.old.items ++ cut_bag self.now.n self.now.i tuples.now) }
    {
        for tuple in tuples {
            self.add_copy(tuple, into)?;
        }
        Ok(())
    }

    /// Adds the tuples that it owns, and drops the others.
    pub(crate) fn move_owned(
        &self,
        mut tuples: Vec<Tuple>,
        into: &mut Vec<Tuple>,
    ) -> Result<(), AllocError>
        ensures { OnOk result (into.new.items ≡ into.old.items ++ cut_bag self.now.n self.now.i tuples.items) }
    {
        tuples.retain(|tuple| self.owns(&tuple.key));
        into.append(&mut tuples)
    }

    /// Adds the pair, where it owns its key.
    fn add_pair(&self, key: &Key, value: i64, into: &mut Vec<(Key, i64)>) -> Result<(), AllocError>
        ensures { OnOk result (into.new.items ≡ into.old.items ++ cut_state self.now.n self.now.i ((key.now, value) ∷ [])) }
    {
        if self.owns(key) {
            into.push((key.copy()?, value))?;
        }
        Ok(())
    }

    /// What it owns of a state.
    pub(crate) fn cut(&self, alloc: Global, state: &State) -> Result<State, AllocError>
        ensures { IfOk result (λ owned. owned ≡ cut_state self.now.n self.now.i state.now) }
    {
        let mut pairs = Vec::new(alloc);
        for (key, value) in state.pairs() {
            self.add_pair(key, value, &mut pairs)?;
        }
        match State::from_ascending(alloc, pairs) {
            Ok(owned) => Ok(owned),
            Err(Short::Memory) => Err(AllocError),
            Err(Short::Large) => unreachable!(),
        }
    }
}
