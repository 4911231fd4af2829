//! The machine of a run.
ghost use Rattle.std.specs.Prelude.{◌≡◌, ◌≤◌, ◌<◌, true, false, length, get_or, IfOk, IfSome, IsOk, OnOk, OnErr};
ghost use Rattle.apx_history.specs.Plan.{line as line_at};
ghost use Rattle.apx_history.specs.State.{oper, parts, slot, IsPart, running};
ghost use Rattle.apx_history.specs.Enabled.{can, in_tree};
ghost use Rattle.apx_history.specs.Effects.{next};
ghost use Rattle.apx_history.specs.Journals.{beginning};
ghost use Rattle.apx_history.specs.Choices.{choices};
ghost use Rattle.apx_history.specs.Kept.{IsPlan, IsStart, Kept};
ghost use Rattle.apx_history.specs.declared.Event.TheVariants.{End};
ghost use Rattle.apx_machine.specs.Small.{IsSmall};
ghost use Rattle.apx_machine.specs.Memory.{takes_memory};
ghost use Rattle.apx_machine.specs.Picked.{may_do, first_for};

use crate::engine::Engine;
use crate::plan::Plan;
use apx_history::{Event, Line};
use std::alloc::{AllocError, Global};
use std::marker::Model;

/// A run's machine: the plan of a job, and a state that keeps what every state keeps.
///
/// ```text
/// let mut machine = Machine::new(alloc, plan, 0)?;
/// let event = Event::Start { op: 0, part: 0, window: 1 };
/// if machine.enabled(&event) {
///     machine.apply(alloc, 0, event)?;
/// }
/// ```
#[derive(Debug, Drop)]
pub struct Machine {
    /// The plan and the state.
    engine: Engine,
}

impl Model for Machine {
    ghost use Rattle.apx_history.specs.Kept.{IsPlan, Kept};
    ghost use Rattle.apx_machine.specs.Machine.{Running};
    ghost use Rattle.apx_machine.specs.Small.{IsSmall};

    ghost Value = { Running };

    ghost view = { λ m. m.engine };

    ghost invariant = { λ m. IsPlan m.engine.plan × IsSmall m.engine.plan × Kept m.engine.plan m.engine.state };
}

impl Machine {
    /// The machine of a run that begins from nothing, over a store with the windows up to `stored`.
    pub fn new(alloc: Global, plan: Plan, stored: u32) -> Result<Machine, AllocError>
        requires plan { IsPlan plan }
        requires small { IsSmall plan }
        requires stored { stored ≤ plan.windows }
        ensures { IfOk result (λ m. m ≡ record { plan = plan; state = beginning plan stored 0 }) }
    {
        Ok(Machine {
            engine: Engine::begin(alloc, plan, stored, 0)?,
        })
    }

    /// The machine of a run that is resumed behind a window `from`, over a store with the windows up to `stored`.
    pub fn resumed(alloc: Global, plan: Plan, stored: u32, from: u32) -> Result<Machine, AllocError>
        requires plan { IsPlan plan }
        requires small { IsSmall plan }
        requires start { IsStart plan stored from }
        ensures { IfOk result (λ m. m ≡ record { plan = plan; state = beginning plan stored from }) }
    {
        Ok(Machine {
            engine: Engine::begin(alloc, plan, stored, from)?,
        })
    }

    /// Whether an event may come next.
    pub fn enabled(&self, event: &Event) -> bool
        ensures { result ≡ can self.now.plan self.now.state event.now }
    {
        self.engine.enabled(&self.engine.outlook(), *event)
    }

    /// The events to choose from, in order, in place of what the list had. Want of memory leaves the list as it was.
    pub fn choices(&self, into: &mut Vec<Event>) -> Result<(), AllocError>
        ensures ok { OnOk result (into.new.items ≡ choices self.now.plan self.now.state) }
        ensures err { OnErr result (into.new.items ≡ into.old.items) }
    {
        let mut listed = Vec::new(*into.allocator());
        self.engine.choices(&mut listed)?;
        *into = listed;
        Ok(())
    }

    /// How many events there are to choose from. While the run goes on there is one.
    pub fn count(&self) -> u32
        ensures count { result ≡ length (choices self.now.plan self.now.state) }
        ensures some { running self.now.state ≡ true → 0 < result }
    {
        self.engine.count()
    }

    /// The event to choose at a place in their order, the first being at 0.
    pub fn pick(&self, place: u32) -> Event
        requires { place < length (choices self.now.plan self.now.state) }
        ensures event { result ≡ get_or (choices self.now.plan self.now.state) place End }
        ensures next { can self.now.plan self.now.state result ≡ true }
    {
        self.engine.pick(place)
    }

    /// The first event to choose that a worker may do: it is no Write, Finish or Kill of a partition that is open for
    /// another worker, and where the worker claims a partition, it is a Write, Finish or Kill of that one.
    pub fn first_for(&self, worker: u8, claim: Option<(u16, u8)>) -> Option<Event>
        ensures event { result ≡ first_for self.now.plan self.now.state worker claim }
        ensures next { IfSome result (λ e. can self.now.plan self.now.state e ≡ true) }
        ensures may { IfSome result (λ e. may_do self.now.plan self.now.state worker claim e ≡ true) }
    {
        self.engine.first_for(worker, claim)
    }

    /// What an event changes. Save and Repartition may want memory; then nothing is changed.
    pub fn apply(&mut self, alloc: Global, worker: u8, event: Event) -> Result<(), AllocError>
        requires { can self.old.plan self.old.state event ≡ true }
        ensures plan { self.new.plan ≡ self.old.plan }
        ensures ok { OnOk result (self.new.state ≡ next self.old.plan self.old.state worker event) }
        ensures err { OnErr result (self.new.state ≡ self.old.state) }
        ensures free { takes_memory event ≡ false → IsOk result }
    {
        self.engine.apply(alloc, worker, event)
    }

    /// What is known of each machine: its plan is one of a job, and its state keeps what every state keeps.
    pub fn facts(&self)
        ensures plan { IsPlan self.now.plan }
        ensures small { IsSmall self.now.plan }
        ensures kept { Kept self.now.plan self.now.state }
    {
        let _ = &self.engine;
    }

    /// The plan that it runs.
    pub fn plan(&self) -> &Plan
        ensures { result.now ≡ self.now.plan }
    {
        self.engine.plan()
    }

    /// A line of the script, and one that does nothing where it isn't there.
    pub fn line(&self, line: usize) -> Line
        ensures { result ≡ line_at self.now.plan line }
    {
        self.engine.line(line)
    }

    /// Whether a partition is in the tree of a line: it is the one that the line names, or its operator is downstream of that one's.
    pub fn in_tree(&self, line: usize, op: usize, part: usize) -> bool
        ensures { result ≡ in_tree self.now.plan line op part }
    {
        self.engine.in_tree(line, op, part)
    }

    /// Whether the run goes on.
    pub fn is_running(&self) -> bool
        ensures { result ≡ running self.now.state }
    {
        self.engine.is_running()
    }

    /// Whether the run has ended.
    pub fn finished(&self) -> bool
        ensures { result ≡ self.now.state.ended }
    {
        self.engine.finished()
    }

    /// What every partition has behind it for good.
    pub fn committed(&self) -> u32
        ensures { result ≡ self.now.state.committed }
    {
        self.engine.committed()
    }

    /// The last stored window.
    pub fn stored(&self) -> u32
        ensures { result ≡ self.now.state.stored }
    {
        self.engine.stored()
    }

    /// How many operators there are.
    pub fn len(&self) -> usize
        ensures { result ≡ length self.now.state.ops }
    {
        self.engine.len()
    }

    /// How many partitions an operator has.
    pub fn parts(&self, op: usize) -> usize
        requires { op < length self.now.state.ops }
        ensures { result ≡ parts self.now.state op }
    {
        self.engine.parts(op)
    }

    /// The boundary of an operator's epoch.
    pub fn boundary(&self, op: usize) -> u32
        requires { op < length self.now.state.ops }
        ensures { result ≡ (oper self.now.state op).boundary }
    {
        self.engine.boundary_of(op)
    }

    /// A partition's last finished window.
    pub fn at(&self, op: usize, part: usize) -> u32
        requires { IsPart self.now.state op part }
        ensures { result ≡ (slot self.now.state op part).at }
    {
        self.engine.slot(op, part).at()
    }

    /// A partition's recovery checkpoint.
    pub fn rc(&self, op: usize, part: usize) -> u32
        requires { IsPart self.now.state op part }
        ensures { result ≡ (slot self.now.state op part).rc }
    {
        self.engine.slot(op, part).rc()
    }

    /// The last window of which a partition's blocks were dropped.
    pub fn floor(&self, op: usize, part: usize) -> u32
        requires { IsPart self.now.state op part }
        ensures { result ≡ (slot self.now.state op part).floor }
    {
        self.engine.slot(op, part).floor()
    }

    /// The window that a partition has open, with the worker who began it.
    pub fn opened(&self, op: usize, part: usize) -> Option<(u32, u8)>
        requires { IsPart self.now.state op part }
        ensures { result ≡ (slot self.now.state op part).opened }
    {
        self.engine.slot(op, part).opened()
    }
}
