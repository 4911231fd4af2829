//! A run of a small plan by its machine alone, by one worker and by several.
ghost use Rattle.std.specs.Prelude.{◌≡◌, ◌<◌, [], true, false, IfOk, OnOk, OnErr};
ghost use Rattle.apx_history.specs.Enabled.{can};
ghost use Rattle.apx_history.specs.Journals.{owed, bears};
ghost use Rattle.apx_history.specs.Kept.{IsPlan, IsStart};
ghost use Rattle.apx_course.specs.Faults.{is_fault};
ghost use Rattle.apx_work.specs.Turns.{Adds, Stops};
ghost use Rattle.apx_machine.specs.Sample.{sample};
ghost use Rattle.apx_machine.specs.Small.{IsSmall};

use crate::{OpenWindow, Shop, run_threads};
use apx_course::{CoreFault, Course, Naming, Stopped};
use apx_device::NoGate;
use apx_history::{Entry, Event};
use apx_machine::{Journal, Operator, Plan};
use std::alloc::{AllocError, Global};
use std::marker::Brand;
use std::sync::Wait;
use std::test::Fail;
use std::thread::Threads;

/// A run whose events do nothing beside what its machine does.
#[derive(Drop)]
struct Bare<J: Naming> {
    /// The course of the run.
    course: Course<u8, J>,
}

impl<J: Naming> Bare<J> {
    /// A worker does an event, or the run stops for want of memory.
    fn add(&mut self, worker: u8, event: Event) -> Result<(), Stopped>
        requires can { can J.run.plan self.old.course.machine event ≡ true }
        requires bears { bears (owed J.run.plan self.old.course.machine event) worker ≡ true }
        requires goes { is_fault event ≡ false }
        ensures did { OnOk result (Adds worker event self.old.course.journal self.new.course.journal) }
        ensures stops { OnErr result (Stops worker self.old.course.journal self.new.course.journal) }
    {
        if self.course.reserve(event).is_err() {
            return Err(self.course.stop(worker, CoreFault::Memory));
        }
        if self.course.try_add(worker, event).is_err() {
            return Err(self.course.stop(worker, CoreFault::Memory));
        }
        Ok(())
    }
}

impl<J: Naming> Shop for Bare<J> {
    type Means = ();

    type Claim = OpenWindow;

    type Done = ();

    type Refusal = CoreFault<u8>;

    ghost plan = { J.run.plan };

    ghost stored = { J.run.stored };

    ghost from = { J.run.from };

    ghost machine = { λ d. d.course.machine };

    ghost journal = { λ d. d.course.journal };

    ghost serves = { λ means. Unit {0} };

    ghost claimed = { λ claim. claim };

    ghost is_whole = { λ claim. Unit {0} };

    ghost made = { λ claim done. Unit {0} };

    ghost may_stop = { λ why. Unit {0} };

    fn work(_means: &(), _claim: &mut OpenWindow) -> Result<(), CoreFault<u8>> {
        Ok(())
    }

    fn no_memory() -> CoreFault<u8> {
        CoreFault::Memory
    }

    fn open_window(claim: &OpenWindow) -> OpenWindow {
        *claim
    }

    fn count(&self) -> u64 {
        self.course.entries().len() as u64
    }

    fn facts(&self) {
        self.course.facts();
    }

    fn is_running(&self) -> bool {
        self.course.machine().is_running()
    }

    fn first_for(&self, worker: u8, claim: Option<(u16, u8)>) -> Option<Event> {
        self.course.machine().first_for(worker, claim)
    }

    fn start(&mut self, worker: u8, op: u16, part: u8, window: u32) -> Result<OpenWindow, Stopped> {
        self.add(worker, Event::Start { op, part, window })?;
        Ok(OpenWindow {
            op,
            part,
            window,
            worker,
        })
    }

    fn write(&mut self, claim: &OpenWindow, _done: &()) -> Result<(), Stopped> {
        self.add(
            claim.worker,
            Event::Write {
                window: claim.window,
            },
        )
    }

    fn finish(&mut self, claim: OpenWindow, _done: ()) -> Result<(), Stopped> {
        self.add(
            claim.worker,
            Event::Finish {
                op: claim.op,
                part: claim.part,
                window: claim.window,
            },
        )
    }

    fn kill(&mut self, worker: u8, line: u32) -> Result<(), Stopped> {
        self.add(worker, Event::Kill { line })
    }

    fn give_up(&mut self, line: u32, claim: OpenWindow) -> Result<(), Stopped> {
        self.add(claim.worker, Event::Kill { line })
    }

    fn act(&mut self, worker: u8, event: Event) -> Result<(), Stopped> {
        self.add(worker, event)
    }

    fn fail(&mut self, worker: u8, why: CoreFault<u8>) -> Stopped {
        self.course.stop(worker, why)
    }
}

/// An operator.
fn operator(
    alloc: Global,
    sources: &[u16],
    under: &[u16],
    first: u8,
) -> Result<Operator, AllocError>
    ensures { IfOk result (λ o. o ≡ record { sources = sources.now; under = under.now; first = first }) }
{
    let sources = Vec::from_slice(alloc, sources)?;
    let under = Vec::from_slice(alloc, under)?;
    Ok(Operator::new(sources, under, first))
}

/// A chain of three operators, of which the middle one has two partitions: four windows, and a checkpoint after each second.
fn chain(alloc: Global) -> Result<Plan, AllocError>
    ensures { IfOk result (λ p. p ≡ sample) }
{
    let mut operators = Vec::new(alloc);
    operators.push(operator(alloc, &[], &[1, 2], 1)?)?;
    operators.push(operator(alloc, &[0], &[2], 2)?)?;
    operators.push(operator(alloc, &[1], &[], 1)?)?;
    Ok(Plan::new(4, 2, 2, operators, Vec::new(alloc)))
}

/// The journal of a run by so many workers.
fn done_by<R: Threads + Wait + Sync, J: Naming + Send>(
    rt: &R,
    alloc: Global,
    plan: Plan,
    workers: u8,
) -> Result<Journal, AllocError>
    requires plan { plan ≡ J.run.plan }
    requires stored { 0 ≡ J.run.stored }
    requires from { 0 ≡ J.run.from }
    requires is { IsPlan plan }
    requires small { IsSmall plan }
    requires start { IsStart plan 0 0 }
    requires some { 0 < workers }
{
    let course = Course::<u8, J>::new(alloc, plan, 0, 0)?;
    let Bare { course } = run_threads(rt, alloc, Bare { course }, &(), &NoGate, workers);
    let (journal, _) = course.close();
    Ok(journal)
}

/// Whether the entries begin each window once and end the run, each by one of so many workers.
fn is_whole(entries: &[Entry], workers: u8) -> bool {
    let starts = entries.iter().filter(|entry| matches!(
        entry.event,
        Event::Start {
            op: _,
            part: _,
            window: _
        }
    ));
    starts.count() == 16
        && entries.iter().all(|entry| entry.worker < workers)
        && matches!(entries.last(), Some(last) if last.event == Event::End)
}

#[test]
fn workers_come_to_the_end_of_a_run(rt: HostRuntime) -> Result<(), Fail> {
    let alloc = rt.alloc();
    let one = done_by::<HostRuntime, Brand>(&rt, alloc, chain(alloc)?, 1)?;
    assert!(rt; is_whole(one.entries(), 1));
    let two = done_by::<HostRuntime, Brand>(&rt, alloc, chain(alloc)?, 2)?;
    assert!(rt; is_whole(two.entries(), 2));
    let eight = done_by::<HostRuntime, Brand>(&rt, alloc, chain(alloc)?, 8)?;
    assert!(rt; is_whole(eight.entries(), 8));
    Ok(())
}
