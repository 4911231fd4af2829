//! What is kept for the partitions of all operators.
ghost use Rattle.std.specs.Prelude.{◌≡◌, ℕ, ◌<◌, ◌≤◌, Some, None, [], length, map, get_or, set, IsSome, IfOk, IfErr, OnOk};
ghost use Rattle.apx_tuple.specs.Progress.{progress_size};
ghost use Rattle.apx_list.specs.Kept.{IsOfSpool};
ghost use Rattle.apx_held.specs.Holding.{Holding, holding, put_holding, IsHeld, taken, brought, dropped, IsSpelled, AreNext};
ghost use Rattle.apx_held.specs.Lent.{AreLent, CanLend, IsUnlent};

use crate::fault::LendFault;
use crate::group::{Group, lend_all};
use crate::held::Held;
use apx_device::Spool;
use apx_list::{Block, ListFault};
use apx_tuple::Progress;
use std::alloc::{AllocError, Global};
use std::marker::Model;

/// What a core keeps for each partition: its progress, unless a claim has it, and its list of blocks.
#[derive(Drop)]
pub struct Contents<S: Spool + Drop> {
    /// Of each operator, by their numbers.
    groups: Vec<Group<S>>,
}

impl<S: Spool + Drop> Model for Contents<S> {
    ghost use Rattle.std.specs.Prelude.{List};
    ghost use Rattle.apx_held.specs.Holding.{Holding};

    ghost Value = { List (List Holding) };

    ghost view = { λ c. c.groups.items };
}

impl<S: Spool + Drop> Contents<S> {
    /// What is kept for these operators.
    pub(crate) fn of(groups: Vec<Group<S>>) -> Contents<S>
        ensures { result ≡ groups.items }
    {
        Contents { groups }
    }

    /// How many operators there are.
    pub fn len(&self) -> usize
        ensures { result ≡ length self.now }
    {
        self.groups.len()
    }

    /// How many partitions an operator has.
    pub fn parts(&self, op: usize) -> usize
        requires { op < length self.now }
        ensures { result ≡ length (get_or self.now op []) }
    {
        let group = &self.groups[op];
        group.len()
    }

    /// Takes the progress of a partition out, for a claim.
    pub fn take(&mut self, op: usize, part: usize) -> Progress
        requires there { IsHeld self.old op part }
        requires home { IsSome (holding self.old op part).state }
        ensures state { (holding self.old op part).state ≡ Some result }
        ensures out { self.new ≡ put_holding self.old op part (taken (holding self.old op part)) }
        ensures small { progress_size result < 4294967232 }
    {
        let group = &mut self.groups[op];
        group.take(part)
    }

    /// Takes the next progress of a partition in, and the blocks of its window. Of the sink there are none. Where memory is
    /// wanting, nothing is promised of what is kept for the partition.
    pub fn bring(
        &mut self,
        op: usize,
        part: usize,
        state: Progress,
        blocks: Vec<Block>,
    ) -> Result<(), AllocError>
        requires there { IsHeld self.old op part }
        requires small { progress_size state < 4294967232 }
        requires next { AreNext (holding self.old op part).list blocks.items }
        ensures { OnOk result (self.new ≡ put_holding self.old op part (brought state blocks.items (holding self.old op part))) }
    {
        let group = &mut self.groups[op];
        group.bring(part, state, blocks)
    }

    /// The bytes of the progress of a partition.
    pub fn spelled(&self, alloc: Global, op: usize, part: usize) -> Result<Vec<u8>, AllocError>
        requires there { IsHeld self.now op part }
        requires home { IsSome (holding self.now op part).state }
        ensures spelled { IfOk result (λ bytes. IsSpelled (holding self.now op part) bytes.items) }
        ensures small { IfOk result (λ bytes. length bytes.items < 4294967280) }
    {
        let group = &self.groups[op];
        group.spelled(alloc, part)
    }

    /// Moves all blocks of a partition but the newest `keep` to its spool. What is kept stays, also where the spool fails: the
    /// fault is the spool's, or want of memory.
    pub fn spill(&mut self, op: usize, part: usize, keep: usize) -> Result<(), ListFault<S::Fault>>
        requires { IsHeld self.old op part }
        ensures same { self.new ≡ self.old }
        ensures cause { IfErr result IsOfSpool }
    {
        let group = &mut self.groups[op];
        group.spill(part, keep)
    }

    /// Drops the blocks of a partition of the windows up to one.
    pub fn purge(&mut self, op: usize, part: usize, to: u32)
        requires there { IsHeld self.old op part }
        requires floor { (holding self.old op part).list.floor ≤ to }
        requires top { to ≤ (holding self.old op part).list.top }
        ensures { self.new ≡ put_holding self.old op part (dropped to (holding self.old op part)) }
    {
        let group = &mut self.groups[op];
        group.purge(part, to);
    }

    /// Something else is kept for a partition.
    pub fn put(&mut self, op: usize, part: usize, held: Held<S>)
        requires { IsHeld self.old op part }
        ensures { self.new ≡ put_holding self.old op part held }
    {
        let group = &mut self.groups[op];
        group.put(part, held);
    }

    /// An operator goes on with other partitions.
    pub fn renew(&mut self, op: usize, parts: Vec<Held<S>>)
        requires { op < length self.old }
        ensures { self.new ≡ set self.old op parts.items }
    {
        self.groups[op] = Group::of(parts);
    }

    /// The blocks of a window of each partition of an operator, in the order of their numbers.
    pub fn lend(
        &mut self,
        alloc: Global,
        op: usize,
        window: u32,
    ) -> Result<Vec<Vec<Block>>, LendFault<S::Fault>>
        requires there { op < length self.old }
        requires windows { (i : ℕ) → i < length (get_or self.old op []) → CanLend window (holding self.old op i).list }
        requires few { window ≤ 20000 }
        ensures lent { IfOk result (λ lists. AreLent S.tells window (get_or self.old op []) (map (λ list. list.items) lists.items)) }
        ensures unlent { IfErr result (IsUnlent S.tells (get_or self.old op [])) }
        ensures same { self.new ≡ self.old }
    {
        let group = &mut self.groups[op];
        lend_all(alloc, group, window)
    }
}
