//! A run of a small plan by its machine alone, driven from its begin to its end.
ghost use Rattle.std.specs.Prelude.{◌≡◌, [], IfOk};
ghost use Rattle.apx_history.specs.Kept.{IsPlan, IsStart};
ghost use Rattle.apx_machine.specs.Sample.{sample};
ghost use Rattle.apx_machine.specs.Small.{IsSmall};

use crate::{Desk, drive};
use apx_course::{CoreFault, Course, Naming, Stopped};
use apx_history::Event;
use apx_machine::{Journal, Operator, Plan};
use std::alloc::{AllocError, Global};
use std::marker::Brand;
use std::test::Fail;

/// A run whose events do nothing beside what its machine does.
#[derive(Drop)]
struct Bare<J: Naming> {
    /// The course of the run.
    course: Course<u8, J>,
}

impl<J: Naming> Desk for Bare<J> {
    ghost plan = { J.run.plan };

    ghost stored = { J.run.stored };

    ghost from = { J.run.from };

    ghost place = { λ d. record { machine = d.course.machine; journal = d.course.journal } };

    fn facts(&self) {
        self.course.facts();
    }

    fn is_running(&self) -> bool {
        self.course.machine().is_running()
    }

    fn count(&self) -> u32 {
        self.course.machine().count()
    }

    fn pick(&self, at: u32) -> Event {
        self.course.machine().pick(at)
    }

    fn turn(&mut self, event: Event) -> Result<(), Stopped> {
        if self.course.reserve(event).is_err() {
            return Err(self.course.stop(0, CoreFault::Memory));
        }
        if self.course.try_add(0, event).is_err() {
            return Err(self.course.stop(0, CoreFault::Memory));
        }
        Ok(())
    }
}

/// An operator.
fn operator(
    alloc: Global,
    sources: &[u16],
    under: &[u16],
    first: u8,
) -> Result<Operator, AllocError>
    ensures { IfOk result (λ o. o ≡ record { sources = sources.now; under = under.now; first = first }) }
{
    let sources = Vec::from_slice(alloc, sources)?;
    let under = Vec::from_slice(alloc, under)?;
    Ok(Operator::new(sources, under, first))
}

/// A chain of three operators, of which the middle one has two partitions: four windows, and a checkpoint after each second.
fn chain(alloc: Global) -> Result<Plan, AllocError>
    ensures { IfOk result (λ p. p ≡ sample) }
{
    let mut operators = Vec::new(alloc);
    operators.push(operator(alloc, &[], &[1, 2], 1)?)?;
    operators.push(operator(alloc, &[0], &[2], 2)?)?;
    operators.push(operator(alloc, &[1], &[], 1)?)?;
    Ok(Plan::new(4, 2, 2, operators, Vec::new(alloc)))
}

/// The journal of a run that is driven in an order.
fn driven<J: Naming>(alloc: Global, plan: Plan, order: u64) -> Result<Journal, AllocError>
    requires plan { plan ≡ J.run.plan }
    requires stored { 0 ≡ J.run.stored }
    requires from { 0 ≡ J.run.from }
    requires is { IsPlan plan }
    requires small { IsSmall plan }
    requires start { IsStart plan 0 0 }
{
    let course = Course::<u8, J>::new(alloc, plan, 0, 0)?;
    let Bare { course } = drive(Bare { course }, order);
    let (journal, _) = course.close();
    Ok(journal)
}

#[test]
fn a_run_is_driven_to_its_end(rt: HostRuntime) -> Result<(), Fail> {
    let alloc = rt.alloc();
    let first = driven::<Brand>(alloc, chain(alloc)?, 7)?;
    let entries = first.entries();
    assert!(rt; entries.iter().all(|entry| entry.worker == 0));
    assert!(rt; matches!(entries.last(), Some(last) if last.event == Event::End));
    let again = driven::<Brand>(alloc, chain(alloc)?, 7)?;
    assert!(rt; again.entries() == entries);
    let other = driven::<Brand>(alloc, chain(alloc)?, 8)?;
    assert!(rt; other.entries() != entries);
    Ok(())
}
