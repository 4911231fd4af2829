//! What is kept for the partitions of one operator.
ghost use Rattle.std.specs.Prelude.{◌≡◌, ℕ, Bool, List, ◌<◌, ◌≤◌, [], ◌∷◌, ◌++◌, map, Some, None, length, get_or, set, IsSome, IfOk, IfErr, OnOk};
ghost use Rattle.apx_tuple.specs.Progress.{progress_size};
ghost use Rattle.apx_list.specs.Kept.{IsOfSpool};
ghost use Rattle.apx_held.specs.Holding.{Holding, no_holding, taken, brought, dropped, IsSpelled, AreNext};
ghost use Rattle.apx_held.specs.Lent.{IsLent, AreLent, CanLend, IsUnlent};

use crate::fault::LendFault;
use crate::held::Held;
use apx_device::Spool;
use apx_list::{Block, ListFault};
use apx_tuple::Progress;
use std::alloc::{AllocError, Global};
use std::marker::Model;

/// What is kept for the partitions of an operator.
#[derive(Drop)]
pub(crate) struct Group<S: Spool + Drop> {
    /// By their numbers.
    parts: Vec<Held<S>>,
}

impl<S: Spool + Drop> Model for Group<S> {
    ghost use Rattle.std.specs.Prelude.{List};
    ghost use Rattle.apx_held.specs.Holding.{Holding};

    ghost Value = { List Holding };

    ghost view = { λ g. g.parts.items };
}

impl<S: Spool + Drop> Group<S> {
    /// What is kept for these partitions.
    pub(crate) fn of(parts: Vec<Held<S>>) -> Group<S>
        ensures { result ≡ parts.items }
    {
        Group { parts }
    }

    /// How many partitions there are.
    pub(crate) fn len(&self) -> usize
        ensures { result ≡ length self.now }
    {
        self.parts.len()
    }

    /// Something else is kept for a partition.
    pub(crate) fn put(&mut self, part: usize, held: Held<S>)
        requires { part < length self.old }
        ensures { self.new ≡ set self.old part held }
    {
        self.parts[part] = held;
    }

    /// Takes a partition's progress out.
    pub(crate) fn take(&mut self, part: usize) -> Progress
        requires there { part < length self.old }
        requires home { IsSome (get_or self.old part no_holding).state }
        ensures state { (get_or self.old part no_holding).state ≡ Some result }
        ensures out { self.new ≡ set self.old part (taken (get_or self.old part no_holding)) }
        ensures small { progress_size result < 4294967232 }
    {
        let it = &mut self.parts[part];
        it.take()
    }

    /// Takes a progress in, and blocks behind those of the list.
    pub(crate) fn bring(
        &mut self,
        part: usize,
        state: Progress,
        blocks: Vec<Block>,
    ) -> Result<(), AllocError>
        requires there { part < length self.old }
        requires small { progress_size state < 4294967232 }
        requires next { AreNext (get_or self.old part no_holding).list blocks.items }
        ensures { OnOk result (self.new ≡ set self.old part (brought state blocks.items (get_or self.old part no_holding))) }
    {
        let it = &mut self.parts[part];
        it.bring(state, blocks)
    }

    /// The bytes of a partition's progress.
    pub(crate) fn spelled(&self, alloc: Global, part: usize) -> Result<Vec<u8>, AllocError>
        requires there { part < length self.now }
        requires home { IsSome (get_or self.now part no_holding).state }
        ensures spelled { IfOk result (λ bytes. IsSpelled (get_or self.now part no_holding) bytes.items) }
        ensures small { IfOk result (λ bytes. length bytes.items < 4294967280) }
    {
        let it = &self.parts[part];
        it.spelled(alloc)
    }

    /// Moves all blocks of a partition but the newest `keep` to its spool.
    pub(crate) fn spill(&mut self, part: usize, keep: usize) -> Result<(), ListFault<S::Fault>>
        requires { part < length self.old }
        ensures same { self.new ≡ self.old }
        ensures cause { IfErr result IsOfSpool }
    {
        let it = &mut self.parts[part];
        it.spill(keep)
    }

    /// Drops a partition's blocks of the windows up to one.
    pub(crate) fn purge(&mut self, part: usize, to: u32)
        requires there { part < length self.old }
        requires floor { (get_or self.old part no_holding).list.floor ≤ to }
        requires top { to ≤ (get_or self.old part no_holding).list.top }
        ensures { self.new ≡ set self.old part (dropped to (get_or self.old part no_holding)) }
    {
        let it = &mut self.parts[part];
        it.purge(to);
    }

    /// The blocks of a window of a partition.
    pub(crate) fn lend(
        &mut self,
        alloc: Global,
        part: usize,
        window: u32,
    ) -> Result<Vec<Block>, LendFault<S::Fault>>
        requires there { part < length self.old }
        requires window { CanLend window (get_or self.old part no_holding).list }
        requires few { window ≤ 20000 }
        ensures lent { IfOk result (λ blocks. IsLent S.tells window (get_or self.old part no_holding).list blocks.items) }
        ensures unlent { IfErr result (IsUnlent S.tells self.old) }
        ensures same { self.new ≡ self.old }
    {
        let it = &mut self.parts[part];
        match it.lend(alloc, window) {
            Ok(blocks) => Ok(blocks),
            Err(fault) => Err(LendFault { part, fault }),
        }
    }
}

// One list more, of a partition.
fn add<F: Drop>(
    lists: &mut Vec<Vec<Block>>,
    part: usize,
    blocks: Vec<Block>,
) -> Result<(), LendFault<F>>
    ensures items { OnOk result
        (map (λ list. list.items) lists.new.items ≡ map (λ list. list.items) lists.old.items ++ blocks.items ∷ []) }
    ensures unlent { (tells : Bool) (group : List Holding) → part < length group → IfErr result (IsUnlent tells group) }
{
    match lists.push(blocks) {
        Ok(()) => Ok(()),
        Err(_) => Err(LendFault {
            part,
            fault: ListFault::Memory,
        }),
    }
}

/// The blocks of a window of each partition of an operator, in the order of their numbers.
pub(crate) fn lend_all<S: Spool + Drop>(
    alloc: Global,
    group: &mut Group<S>,
    window: u32,
) -> Result<Vec<Vec<Block>>, LendFault<S::Fault>>
    requires windows { (i : ℕ) → i < length group.old → CanLend window (get_or group.old i no_holding).list }
    requires few { window ≤ 20000 }
    ensures lent { IfOk result (λ lists. AreLent S.tells window group.old (map (λ list. list.items) lists.items)) }
    ensures unlent { IfErr result (IsUnlent S.tells group.old) }
    ensures same { group.new ≡ group.old }
{
    let mut lists = Vec::new(alloc);
    for part in 0..group.len() {
        let blocks = group.lend(alloc, part, window)?;
        add(&mut lists, part, blocks)?;
    }
    Ok(lists)
}
