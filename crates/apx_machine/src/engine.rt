//! The engine of a machine: a plan and a state of it, read and changed as the table says.
ghost use Rattle.std.specs.Prelude.{◌≡◌, ℕ, ◌<◌, Bool, length, get_or};
ghost use Rattle.apx_history.specs.Plan.{line as line_at};
ghost use Rattle.apx_history.specs.State.{State, oper, parts, slot, IsPart, is_left, running};
ghost use Rattle.apx_history.specs.Enabled.{all_met};

use crate::group::Group;
use crate::partition::Partition;
use crate::plan::Plan;
use apx_history::{Act, Line};
use std::marker::Model;

/// Whether no flag is set.
fn none_left(flags: &[bool]) -> bool
    ensures { result ≡ all_met flags.now }
{
    for flag in flags {
        if *flag {
            return false;
        }
    }
    true
}

/// A plan, and a state of it.
#[derive(Debug, Drop)]
pub(crate) struct Engine {
    /// The plan.
    pub(crate) plan: Plan,
    /// The operators, by their numbers.
    pub(crate) ops: Vec<Group>,
    /// What every partition has behind it for good.
    pub(crate) committed: u32,
    /// The last window in the store.
    pub(crate) stored: u32,
    /// For each line of the script whether it is left.
    pub(crate) left: Vec<bool>,
    /// Whether the run has ended.
    pub(crate) ended: bool,
    /// The status that the run stopped with, if any.
    pub(crate) fault: Option<u8>,
}

impl Model for Engine {
    ghost use Rattle.apx_machine.specs.Machine.{Running, state_of};

    ghost Value = { Running };

    ghost view = { λ m. record { plan = m.plan; state = state_of m.ops.items m.committed m.stored m.left.items m.ended m.fault } };
}

impl Engine {
    /// How many operators there are.
    pub fn len(&self) -> usize
        ensures { result ≡ length self.now.state.ops }
    {
        self.ops.len()
    }

    /// A partition.
    pub fn slot(&self, op: usize, part: usize) -> &Partition
        requires { IsPart self.now.state op part }
        ensures { result.now ≡ slot self.now.state op part }
    {
        let group = &self.ops[op];
        group.part(part)
    }

    /// The plan.
    pub(crate) fn plan(&self) -> &Plan
        ensures { result.now ≡ self.now.plan }
    {
        &self.plan
    }

    /// How many partitions an operator has.
    pub fn parts(&self, op: usize) -> usize
        requires { op < length self.now.state.ops }
        ensures { result ≡ parts self.now.state op }
    {
        let group = &self.ops[op];
        group.len()
    }

    /// The boundary of an operator's epoch, 0 where it isn't there.
    pub(crate) fn boundary_of(&self, op: usize) -> u32
        ensures { result ≡ (oper self.now.state op).boundary }
    {
        match self.ops.get(op) {
            Some(group) => group.boundary(),
            None => 0,
        }
    }

    /// Whether a line of the script is left.
    pub fn is_left(&self, line: usize) -> bool
        ensures { result ≡ is_left self.now.state line }
    {
        self.left.get(line).copied().unwrap_or(false)
    }

    /// A line of the script, and one that does nothing where it isn't there.
    pub(crate) fn line(&self, line: usize) -> Line
        ensures { result ≡ line_at self.now.plan line }
    {
        if line < self.plan.lines() {
            self.plan.line(line)
        } else {
            Line {
                op: 0,
                window: 0,
                act: Act::Splits { count: 0 },
            }
        }
    }

    /// The last stored window.
    pub fn stored(&self) -> u32
        ensures { result ≡ self.now.state.stored }
    {
        self.stored
    }

    /// What every partition has behind it for good.
    pub fn committed(&self) -> u32
        ensures { result ≡ self.now.state.committed }
    {
        self.committed
    }

    /// Whether no line of the script is left.
    pub(crate) fn all_met(&self) -> bool
        ensures { result ≡ all_met self.now.state.left }
    {
        none_left(&self.left)
    }

    /// Whether the run goes on.
    pub fn is_running(&self) -> bool
        ensures { result ≡ running self.now.state }
    {
        !self.ended && self.fault.is_none()
    }

    /// Whether the run has ended.
    pub fn finished(&self) -> bool
        ensures { result ≡ self.now.state.ended }
    {
        self.ended
    }
}
