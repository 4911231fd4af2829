//! A run that begins and stops: each call once.
ghost use Rattle.std.specs.Prelude.{◌≡◌, IfOk};
ghost use Rattle.apx_history.specs.Kept.{IsPlan, IsStart};
ghost use Rattle.apx_machine.specs.Sample.{sample};
ghost use Rattle.apx_machine.specs.Small.{IsSmall};

use crate::{CoreFault, Course, Naming};
use apx_history::Event;
use apx_machine::{Journal, Operator, Plan};
use std::alloc::{AllocError, Global};
use std::marker::Brand;
use std::test::Fail;

/// An operator.
fn operator(
    alloc: Global,
    sources: &[u16],
    under: &[u16],
    first: u8,
) -> Result<Operator, AllocError>
    ensures { IfOk result (λ o. o ≡ record { sources = sources.now; under = under.now; first = first }) }
{
    let sources = Vec::from_slice(alloc, sources)?;
    let under = Vec::from_slice(alloc, under)?;
    Ok(Operator::new(sources, under, first))
}

/// A chain of three operators, of which the middle one has two partitions: four windows, and a checkpoint after each second.
fn chain(alloc: Global) -> Result<Plan, AllocError>
    ensures { IfOk result (λ p. p ≡ sample) }
{
    let mut operators = Vec::new(alloc);
    operators.push(operator(alloc, &[], &[1, 2], 1)?)?;
    operators.push(operator(alloc, &[0], &[2], 2)?)?;
    operators.push(operator(alloc, &[1], &[], 1)?)?;
    Ok(Plan::new(4, 2, 2, operators, Vec::new(alloc)))
}

/// The input begins its first window, and then the run stops.
fn begin_and_stop<J: Naming>(
    alloc: Global,
    plan: Plan,
) -> Result<(Journal, Option<CoreFault<u8>>), AllocError>
    requires plan { plan ≡ J.run.plan }
    requires stored { 0 ≡ J.run.stored }
    requires from { 0 ≡ J.run.from }
    requires is { IsPlan plan }
    requires small { IsSmall plan }
    requires start { IsStart plan 0 0 }
{
    let mut course = Course::<u8, J>::new(alloc, plan, 0, 0)?;
    let start = Event::Start {
        op: 0,
        part: 0,
        window: 1,
    };
    if course.machine().enabled(&start) {
        course.reserve(start)?;
        course.add(3, start);
    }
    if course.machine().is_running() {
        course.stop(3, CoreFault::Large);
    }
    Ok(course.close())
}

#[test]
fn a_run_begins_and_stops(rt: HostRuntime) -> Result<(), Fail> {
    let alloc = rt.alloc();
    let (journal, fault) = begin_and_stop::<Brand>(alloc, chain(alloc)?)?;
    let entries = journal.entries();
    assert_eq!(rt; entries.len(), 2);
    assert!(rt; entries.iter().all(|entry| entry.worker == 3));
    assert!(rt; matches!(entries.last(), Some(last) if last.event == Event::Fault { status: 19 }));
    assert!(rt; matches!(fault, Some(CoreFault::Large)));
    Ok(())
}
