//! What an event changes.
ghost use Rattle.std.specs.Prelude.{◌≡◌, ℕ, ◌<◌, ◌≤◌, Bool, true, false, cond, length, get_or, set, replicate, IfOk, IsOk, OnOk, OnErr};
ghost use Rattle.apx_history.specs.Plan.{line as line_at, splits as splits_act, count_or, kills as kills_at, below};
ghost use Rattle.apx_history.specs.State.{State, Slot, Oper, oper, slot, parts, IsPart, is_left, fresh, map_from, put as put_slot, map_slots};
ghost use Rattle.apx_history.specs.Effects.{saves, trimmed, back, back_in, meet, split, next};
ghost use Rattle.apx_history.specs.Conditions.{Enabled};
ghost use Rattle.apx_machine.specs.Changed.{changed, split_by, gone_back};
ghost use Rattle.apx_machine.specs.Memory.{takes_memory};

use crate::engine::Engine;
use crate::group::Group;
use crate::partition::Change;
use crate::plan::Plan;
use apx_history::{Act, Event, Line};
use std::alloc::{AllocError, Global};

/// The number that a line repartitions to, 0 where it kills.
fn count(act: Act) -> u8
    ensures { result ≡ count_or 0 act }
{
    match act {
        Act::Splits { count } => count,
        Act::Fails { point: _, part: _ } => 0,
    }
}

/// What the partitions of all operators saved below a window is dropped.
fn trim(ops: &mut [Group], window: u32)
    ensures { ops.new ≡ map_from 0 (λ o p. record { boundary = p.boundary; parts = map_from 0 (λ i. trimmed window) p.parts }) ops.old }
{
    for op in 0..ops.len() {
        ops[op].trim(window);
    }
}

/// The partitions in the tree of a line go back to their recovery checkpoints.
fn go_back(ops: &mut [Group], plan: &Plan, it: Line)
    ensures { ops.new ≡ map_from 0 (λ o p. gone_back plan.now it o p) ops.old }
{
    for op in 0..ops.len() {
        ops[op].go_back(it, op, plan.below(it.op as usize, op));
    }
}

/// A flag is cleared, where it is there.
#[tactic(auto, using(crate::proofs::Mapped::set_beyond))]
fn clear(flags: &mut [bool], place: usize)
    ensures { flags.new ≡ set flags.old place false }
{
    if place < flags.len() {
        flags[place] = false;
    }
}

/// An operator takes the place of another, where it is there.
#[tactic(auto, using(crate::proofs::Mapped::set_beyond))]
fn put(ops: &mut [Group], op: usize, group: Group)
    ensures { ops.new ≡ set ops.old op group }
{
    if op < ops.len() {
        ops[op] = group;
    }
}

impl Engine {
    /// One partition changes.
    #[tactic(auto, unfolding(apx_history::specs::State::put))]
    fn change(&mut self, op: usize, part: usize, change: Change)
        requires { IsPart self.old.state op part }
        ensures plan { self.new.plan ≡ self.old.plan }
        ensures state { self.new.state ≡ put_slot self.old.state op part (changed change (slot self.old.state op part)) }
    {
        let group = &mut self.ops[op];
        group.change(part, change);
    }

    /// A partition's state after a window is saved.
    #[tactic(auto, unfolding(apx_history::specs::State::put))]
    fn save(&mut self, op: usize, part: usize, window: u32) -> Result<(), AllocError>
        requires { IsPart self.old.state op part }
        ensures plan { self.new.plan ≡ self.old.plan }
        ensures ok { OnOk result (self.new.state ≡ put_slot self.old.state op part (saves window (slot self.old.state op part))) }
        ensures err { OnErr result (self.new.state ≡ self.old.state) }
    {
        let group = &mut self.ops[op];
        group.save(part, window)?;
        Ok(())
    }

    /// What was saved below a window is dropped.
    #[tactic(auto, unfolding(apx_history::specs::State::map_slots))]
    fn commit(&mut self, window: u32)
        ensures plan { self.new.plan ≡ self.old.plan }
        ensures state { self.new.state ≡ record (map_slots (λ o i. trimmed window) self.old.state) { committed = window } }
    {
        trim(&mut self.ops, window);
        self.committed = window;
    }

    /// The tree of a line goes back to its recovery checkpoints.
    #[tactic(auto, unfolding(apx_history::specs::State::map_slots, apx_history::specs::Enabled::in_tree, apx_history::specs::Effects::meet))]
    fn kill(&mut self, line: usize)
        ensures plan { self.new.plan ≡ self.old.plan }
        ensures state { self.new.state ≡ meet line (map_slots (back_in self.old.plan line) self.old.state) }
    {
        let it = self.line(line);
        go_back(&mut self.ops, &self.plan, it);
        clear(&mut self.left, line);
    }

    /// The operator of a line begins its next epoch.
    #[tactic(auto, unfolding(apx_history::specs::Effects::meet, apx_history::specs::Effects::split))]
    fn repartition(&mut self, alloc: Global, line: usize) -> Result<(), AllocError>
        ensures plan { self.new.plan ≡ self.old.plan }
        ensures ok { OnOk result (self.new.state ≡ meet line (split_by (line_at self.old.plan line) self.old.state)) }
        ensures err { OnErr result (self.new.state ≡ self.old.state) }
    {
        let it = self.line(line);
        let group = Group::fresh(alloc, it.window, count(it.act), it.window)?;
        put(&mut self.ops, it.op as usize, group);
        clear(&mut self.left, line);
        Ok(())
    }

    /// What the event changes.
    #[tactic(auto, unfolding(apx_history::specs::State::put, apx_history::specs::State::map_slots))]
    pub(crate) fn apply(
        &mut self,
        alloc: Global,
        worker: u8,
        event: Event,
    ) -> Result<(), AllocError>
        requires { Enabled self.old.plan self.old.state event }
        ensures plan { self.new.plan ≡ self.old.plan }
        ensures ok { OnOk result (self.new.state ≡ next self.old.plan self.old.state worker event) }
        ensures err { OnErr result (self.new.state ≡ self.old.state) }
        ensures free { takes_memory event ≡ false → IsOk result }
    {
        match event {
            Event::Start { op, part, window } => {
                self.change(op as usize, part as usize, Change::Start { window, worker });
            }
            Event::Write { window } => self.stored = window,
            Event::Finish { op, part, window } => {
                self.change(op as usize, part as usize, Change::Finish { window });
            }
            Event::Save { op, part, window } => self.save(op as usize, part as usize, window)?,
            Event::Advance { op, part, to } => {
                self.change(op as usize, part as usize, Change::Advance { window: to });
            }
            Event::Commit { to } => self.commit(to),
            Event::Purge { op, part, to } => {
                self.change(op as usize, part as usize, Change::Purge { window: to });
            }
            Event::Kill { line } => self.kill(line as usize),
            Event::Repartition { line } => self.repartition(alloc, line as usize)?,
            Event::End => self.ended = true,
            Event::Fault { status } => self.fault = Some(status),
        }
        Ok(())
    }
}
