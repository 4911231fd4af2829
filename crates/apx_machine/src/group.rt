//! One operator with its partitions.
ghost use Rattle.std.specs.Prelude.{◌≡◌, ℕ, ◌<◌, ◌||◌, Bool, cond, [], ◌∷◌, length, get_or, set, replicate, IfOk, OnOk, OnErr};
ghost use Rattle.apx_history.specs.Plan.{kills as kills_at};
ghost use Rattle.apx_history.specs.State.{fresh, map_from};
ghost use Rattle.apx_history.specs.Effects.{saves, trimmed, back};
ghost use Rattle.apx_machine.specs.Changed.{changed, part_of, with_part, gone_back_if};

use crate::conditions::kills;
use crate::partition::{Change, Partition};
use apx_history::Line;
use std::alloc::{AllocError, Global};
use std::marker::Model;

/// An operator of a machine: the boundary of its epoch, and its partitions.
#[derive(Debug, Drop)]
pub(crate) struct Group {
    /// The boundary of its epoch.
    boundary: u32,
    /// Its partitions, by their numbers.
    parts: Vec<Partition>,
}

impl Model for Group {
    ghost use Rattle.apx_history.specs.State.{Oper};

    ghost Value = { Oper };

    ghost view = { λ g. record { boundary = g.boundary; parts = g.parts.items } };
}

impl Group {
    /// An operator that begins an epoch behind a window, with so many partitions.
    pub(crate) fn fresh(
        alloc: Global,
        boundary: u32,
        count: u8,
        window: u32,
    ) -> Result<Group, AllocError>
        ensures { IfOk result (λ g. g ≡ record { boundary = boundary; parts = replicate count (fresh window) }) }
    {
        let mut parts = Vec::new(alloc);
        for done in 0..count {
            parts.push(Partition::fresh(alloc, window)?)?;
        }
        Ok(Group { boundary, parts })
    }

    /// The boundary of its epoch.
    pub fn boundary(&self) -> u32
        ensures { result ≡ self.now.boundary }
    {
        self.boundary
    }

    /// How many partitions it has.
    pub fn len(&self) -> usize
        ensures { result ≡ length self.now.parts }
    {
        self.parts.len()
    }

    /// A partition.
    pub fn part(&self, part: usize) -> &Partition
        requires { part < length self.now.parts }
        ensures { result.now ≡ get_or self.now.parts part (fresh 0) }
    {
        &self.parts[part]
    }

    /// A partition changes.
    pub(crate) fn change(&mut self, part: usize, change: Change)
        requires { part < length self.old.parts }
        ensures { self.new ≡ with_part self.old part (changed change (part_of self.old part)) }
    {
        let it = &mut self.parts[part];
        it.change(change);
    }

    /// A partition's state after a window is saved.
    pub(crate) fn save(&mut self, part: usize, window: u32) -> Result<(), AllocError>
        requires { part < length self.old.parts }
        ensures ok { OnOk result (self.new ≡ with_part self.old part (saves window (part_of self.old part))) }
        ensures err { OnErr result (self.new ≡ self.old) }
    {
        let it = &mut self.parts[part];
        it.save(window)?;
        Ok(())
    }

    /// What its partitions saved below a window is dropped.
    pub(crate) fn trim(&mut self, window: u32)
        ensures { self.new ≡ record { boundary = self.old.boundary; parts = map_from 0 (λ i. trimmed window) self.old.parts } }
    {
        for part in 0..self.parts.len() {
            let it = &mut self.parts[part];
            it.trim(window);
        }
    }

    /// Its partitions in the tree of a line go back to their recovery checkpoints: that which the line names as one of
    /// operator `op`, or all where `under` is set.
    pub(crate) fn go_back(&mut self, line: Line, op: usize, under: bool)
        ensures { self.new ≡ gone_back_if line op under self.old }
    {
        for part in 0..self.parts.len() {
            if kills(line, op, part) || under {
                let it = &mut self.parts[part];
                it.go_back();
            }
        }
    }
}
