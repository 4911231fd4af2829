//! The course of a run.
ghost use Rattle.std.specs.Prelude.{◌≡◌, ◌≤◌, ◌<◌, ◌+◌, ◌++◌, ◌∷◌, [], true, false, length, vec_len, vec_capacity, Option, Some, None, IfOk, IfSome, IfNone, OnOk, OnErr};
ghost use Rattle.apx_history.specs.State.{running};
ghost use Rattle.apx_history.specs.Enabled.{can};
ghost use Rattle.apx_history.specs.Effects.{next};
ghost use Rattle.apx_history.specs.Journals.{beginning, after, owed, bears};
ghost use Rattle.apx_history.specs.Kept.{IsPlan, IsStart, Kept};
ghost use Rattle.apx_history.specs.Conditions.{Enabled};
ghost use Rattle.apx_history.specs.Laws.{IsHistory};
ghost use Rattle.apx_machine.specs.Small.{IsSmall};
ghost use Rattle.apx_machine.specs.Memory.{takes_memory};
ghost use Rattle.apx_course.specs.Faults.{status_of, is_fault};
ghost use Rattle.apx_course.specs.Course.{entry, Did, StopsWith};

use crate::faults::{CoreFault, Stopped};
use crate::naming::Naming;
use apx_history::{Entry, Event};
use apx_machine::{Journal, Machine, Plan};
use std::alloc::{AllocError, Global};
use std::marker::{Model, PhantomData};

/// An event that takes no memory, and its entry, for which there is room.
fn enter(alloc: Global, machine: &mut Machine, entries: &mut Vec<Entry>, worker: u8, event: Event)
    requires can { can machine.old.plan machine.old.state event ≡ true }
    requires free { takes_memory event ≡ false }
    requires place { vec_len entries.old < vec_capacity entries.old }
    ensures plan { machine.new.plan ≡ machine.old.plan }
    ensures state { machine.new.state ≡ next machine.old.plan machine.old.state worker event }
    ensures entries { entries.new.items ≡ entries.old.items ++ entry worker event ∷ [] }
    ensures places { vec_capacity entries.new ≡ vec_capacity entries.old }
{
    match machine.apply(alloc, worker, event) {
        Ok(()) => entries.push_reserved(Entry { worker, event }),
        Err(_) => unreachable!(),
    }
}

/// Where a run stands: its machine, what happened so far, and why it stopped, if it did. `F` is how its spools fail,
/// and `J` names the run.
///
/// ```text
/// let mut course = Course::<F, J>::new(alloc, plan, 0, 0)?;
/// course.reserve(event)?;
/// // .. the work of the event, which may fail: course.stop(worker, fault)
/// course.add(worker, event);
/// ```
#[derive(Drop)]
pub struct Course<F, J: Naming> {
    /// The machine, which runs the plan of the run.
    machine: Machine,
    /// What happened so far. While the run goes on there is room for one entry more.
    entries: Vec<Entry>,
    /// Why the run stopped, if it did.
    fault: Option<CoreFault<F>>,
    /// Where what is reserved comes from.
    alloc: Global,
    /// The run.
    run: PhantomData<J>,
}

impl<F, J: Naming> Model for Course<F, J> {
    ghost use Rattle.std.specs.Prelude.{◌≡◌, vec_capacity};
    ghost use Rattle.apx_course.specs.Course.{Standing, Runs};

    ghost Value = { Standing F };

    ghost view = { λ c. record { machine = c.machine.state; journal = c.entries.items; places = vec_capacity c.entries; fault = c.fault } };

    ghost invariant = { λ c. (c.machine.plan ≡ J.run.plan)
        × Runs J.run (record { machine = c.machine.state; journal = c.entries.items; places = vec_capacity c.entries; fault = c.fault }) };
}

impl<F: Drop, J: Naming> Course<F, J> {
    /// The course of a run that begins behind window `from`, over a store with the windows up to `stored`.
    pub fn new(alloc: Global, plan: Plan, stored: u32, from: u32) -> Result<Self, AllocError>
        requires plan { plan ≡ J.run.plan }
        requires stored { stored ≡ J.run.stored }
        requires from { from ≡ J.run.from }
        requires is { IsPlan plan }
        requires small { IsSmall plan }
        requires start { IsStart plan stored from }
        ensures machine { IfOk result (λ c. c.machine ≡ beginning J.run.plan J.run.stored J.run.from) }
        ensures journal { IfOk result (λ c. c.journal ≡ []) }
        ensures fault { IfOk result (λ c. c.fault ≡ None) }
    {
        let mut entries = Vec::new(alloc);
        entries.reserve(1)?;
        Ok(Course {
            machine: Machine::resumed(alloc, plan, stored, from)?,
            entries,
            fault: None,
            alloc,
            run: PhantomData,
        })
    }

    /// Takes the place of an event that may come next, beside the one that is kept for a fault. It also tells what is
    /// known where the event may come.
    pub fn reserve(&mut self, _event: Event) -> Result<(), AllocError>
        requires { can J.run.plan self.old.machine _event ≡ true }
        ensures machine { self.new.machine ≡ self.old.machine }
        ensures journal { self.new.journal ≡ self.old.journal }
        ensures fault { self.new.fault ≡ self.old.fault }
        ensures place { OnOk result (length self.new.journal + 2 ≤ self.new.places) }
        ensures is { IsPlan J.run.plan }
        ensures small { IsSmall J.run.plan }
        ensures kept { Kept J.run.plan self.old.machine }
        ensures enabled { Enabled J.run.plan self.old.machine _event }
        ensures runs { running self.old.machine ≡ true }
        ensures none { self.old.fault ≡ None }
    {
        self.machine.facts();
        self.entries.reserve(2)
    }

    /// An event that takes no memory, in the place that was taken for it.
    pub fn add(&mut self, worker: u8, event: Event)
        requires can { can J.run.plan self.old.machine event ≡ true }
        requires bears { bears (owed J.run.plan self.old.machine event) worker ≡ true }
        requires free { takes_memory event ≡ false }
        requires goes { is_fault event ≡ false }
        requires place { length self.old.journal + 2 ≤ self.old.places }
        ensures { Did J.run.plan self.old self.new worker event }
    {
        enter(
            self.alloc,
            &mut self.machine,
            &mut self.entries,
            worker,
            event,
        );
    }

    /// An event for which the machine may want memory, in the place that was taken for it. Then all stays as it was.
    pub fn try_add(&mut self, worker: u8, event: Event) -> Result<(), AllocError>
        requires can { can J.run.plan self.old.machine event ≡ true }
        requires bears { bears (owed J.run.plan self.old.machine event) worker ≡ true }
        requires goes { is_fault event ≡ false }
        requires place { length self.old.journal + 2 ≤ self.old.places }
        ensures did { OnOk result (Did J.run.plan self.old self.new worker event) }
        ensures machine { OnErr result (self.new.machine ≡ self.old.machine) }
        ensures journal { OnErr result (self.new.journal ≡ self.old.journal) }
        ensures fault { OnErr result (self.new.fault ≡ self.old.fault) }
    {
        self.machine.apply(self.alloc, worker, event)?;
        self.entries.push_reserved(Entry { worker, event });
        Ok(())
    }

    /// The run stops with a fault, in the place that is kept for it.
    pub fn stop(&mut self, worker: u8, fault: CoreFault<F>) -> Stopped
        requires { running self.old.machine ≡ true }
        ensures { StopsWith J.run.plan self.old self.new worker fault }
    {
        let status = fault.status();
        enter(
            self.alloc,
            &mut self.machine,
            &mut self.entries,
            worker,
            Event::Fault { status },
        );
        self.fault = Some(fault);
        Stopped
    }

    /// What is known of each course.
    pub fn facts(&self)
        ensures history { IsHistory J.run.plan J.run.stored J.run.from self.now.journal }
        ensures now { self.now.machine ≡ after J.run.plan (beginning J.run.plan J.run.stored J.run.from) self.now.journal }
        ensures same { self.now.machine.fault ≡ status_of self.now.fault }
        ensures small { IsSmall J.run.plan }
        ensures kept { Kept J.run.plan self.now.machine }
    {
        self.machine.facts();
    }

    /// The machine.
    pub fn machine(&self) -> &Machine
        ensures { result.now ≡ record { plan = J.run.plan; state = self.now.machine } }
    {
        &self.machine
    }

    /// What happened so far, in order.
    pub fn entries(&self) -> &[Entry]
        ensures { result.now ≡ self.now.journal }
    {
        &self.entries
    }

    /// Why the run stopped, if it did.
    pub fn fault(&self) -> Option<&CoreFault<F>>
        ensures some { IfSome result (λ fault. self.now.fault ≡ Some fault.now) }
        ensures none { IfNone result (self.now.fault ≡ None) }
    {
        self.fault.as_ref()
    }

    /// The journal, and why the run stopped, if it did.
    pub fn close(self) -> (Journal, Option<CoreFault<F>>)
        ensures journal { result.0 ≡ self.journal }
        ensures fault { result.1 ≡ self.fault }
    {
        let Course {
            machine: _,
            entries,
            fault,
            alloc: _,
            run: _,
        } = self;
        (Journal::of(entries), fault)
    }
}
