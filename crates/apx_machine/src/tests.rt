//! A run of a small plan from its begin to its end, and a resumed one: each call once.
ghost use Rattle.std.specs.Prelude.{◌≡◌, IfOk};
ghost use Rattle.apx_machine.specs.Sample.{sample};

use crate::{Journal, Machine, Operator, Plan};
use apx_history::{Entry, Event};
use std::alloc::{AllocError, Global};
use std::test::Fail;

/// An operator.
fn operator(
    alloc: Global,
    sources: &[u16],
    under: &[u16],
    first: u8,
) -> Result<Operator, AllocError>
    ensures { IfOk result (λ o. o ≡ record { sources = sources.now; under = under.now; first = first }) }
{
    let sources = Vec::from_slice(alloc, sources)?;
    let under = Vec::from_slice(alloc, under)?;
    Ok(Operator::new(sources, under, first))
}

/// A chain of three operators, of which the middle one has two partitions: four windows, and a checkpoint after each second.
fn chain(alloc: Global) -> Result<Plan, AllocError>
    ensures { IfOk result (λ p. p ≡ sample) }
{
    let mut operators = Vec::new(alloc);
    operators.push(operator(alloc, &[], &[1, 2], 1)?)?;
    operators.push(operator(alloc, &[0], &[2], 2)?)?;
    operators.push(operator(alloc, &[1], &[], 1)?)?;
    Ok(Plan::new(4, 2, 2, operators, Vec::new(alloc)))
}

#[test]
fn a_run_comes_to_its_end(rt: HostRuntime) -> Result<(), Fail> {
    let alloc = rt.alloc();
    let mut machine = Machine::new(alloc, chain(alloc)?, 0)?;
    let mut choices = Vec::new(alloc);
    let mut journal = Journal::new(alloc);
    for _ in 0..100 {
        machine.choices(&mut choices)?;
        let count = machine.count();
        assert_eq!(rt; count as usize, choices.len());
        assert!(rt; machine.enabled(&Event::Fault { status: 9 }) == machine.is_running());
        if count > 0 {
            let event = machine.pick(count - 1);
            assert!(rt; Some(event) == choices.last().copied());
            assert!(rt; machine.enabled(&event));
            machine.apply(alloc, 0, event)?;
            journal.add(Entry { worker: 0, event })?;
        }
    }
    assert!(rt; machine.finished());
    assert_eq!(rt; machine.stored(), 4);
    assert_eq!(rt; machine.committed(), 4);
    let starts = journal.entries().iter().filter(|entry| matches!(
        entry.event,
        Event::Start {
            op: _,
            part: _,
            window: _
        }
    ));
    assert_eq!(rt; starts.count(), 16);
    Ok(())
}

#[test]
fn a_worker_leaves_alone_what_another_has_open(rt: HostRuntime) -> Result<(), Fail> {
    let alloc = rt.alloc();
    let mut machine = Machine::resumed(alloc, chain(alloc)?, 3, 2)?;
    let start = Event::Start {
        op: 0,
        part: 0,
        window: 3,
    };
    let finish = Event::Finish {
        op: 0,
        part: 0,
        window: 3,
    };
    assert!(rt; machine.first_for(7, None) == Some(start));
    assert!(rt; machine.first_for(7, Some((0, 0))).is_none());
    if machine.enabled(&start) {
        machine.apply(alloc, 7, start)?;
    }
    assert!(rt; machine.first_for(7, Some((0, 0))) == Some(finish));
    assert!(rt; machine.first_for(7, Some((1, 0))).is_none());
    assert!(rt; machine.first_for(8, None).is_none());
    machine.facts();
    assert_eq!(rt; machine.len(), 3);
    if machine.len() == 3 {
        assert_eq!(rt; machine.boundary(0), 0);
        assert_eq!(rt; machine.parts(0), 1);
        if machine.parts(0) == 1 {
            assert!(rt; machine.opened(0, 0) == Some((3, 7)));
            assert_eq!(rt; machine.at(0, 0), 2);
            assert_eq!(rt; machine.rc(0, 0), 2);
            assert_eq!(rt; machine.floor(0, 0), 2);
        }
    }
    Ok(())
}
