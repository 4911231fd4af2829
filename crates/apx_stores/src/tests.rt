//! Runs over devices in memory that end, or that a device stops.
ghost use Rattle.std.specs.Prelude.{◌≡◌, true, [], IfOk, IsTrue};
ghost use Rattle.apx_history.specs.Enabled.{can};
ghost use Rattle.apx_history.specs.declared.Event.TheVariants.{Save};
ghost use Rattle.apx_history.specs.Journals.{owed, bears};
ghost use Rattle.apx_history.specs.Kept.{IsPlan, IsStart};
ghost use Rattle.apx_machine.specs.Sample.{sample};
ghost use Rattle.apx_machine.specs.Small.{IsSmall};
ghost use Rattle.apx_device.specs.MemoryKeeper.{failing_windows_of};

use crate::{Devices, Stores};
use apx_course::{CoreFault, Course, Naming, Stopped};
use apx_device::{
    FailingKeeper, FailingSpools, FailingVault, Keeper, MemoryKeeper, MemoryVault, SaveId,
    SpoolFault, Vault,
};
use apx_history::Event;
use apx_machine::{Journal, Operator, Plan};
use std::alloc::{AllocError, Global};
use std::marker::Brand;
use std::test::Fail;

/// The devices of these runs.
type Outside = Devices<FailingKeeper, FailingVault, FailingSpools>;

/// A run over them.
type Run<J> = Stores<FailingKeeper, FailingVault, FailingSpools, J>;

/// An operator.
fn operator(
    alloc: Global,
    sources: &[u16],
    under: &[u16],
    first: u8,
) -> Result<Operator, AllocError>
    ensures { IfOk result (λ o. o ≡ record { sources = sources.now; under = under.now; first = first }) }
{
    let sources = Vec::from_slice(alloc, sources)?;
    let under = Vec::from_slice(alloc, under)?;
    Ok(Operator::new(sources, under, first))
}

/// A chain of three operators, of which the middle one has two partitions: four windows, and a checkpoint after each second.
fn chain(alloc: Global) -> Result<Plan, AllocError>
    ensures { IfOk result (λ p. p ≡ sample) }
{
    let mut operators = Vec::new(alloc);
    operators.push(operator(alloc, &[], &[1, 2], 1)?)?;
    operators.push(operator(alloc, &[0], &[2], 2)?)?;
    operators.push(operator(alloc, &[1], &[], 1)?)?;
    Ok(Plan::new(4, 2, 2, operators, Vec::new(alloc)))
}

/// Devices of which these calls fail: a commit of the sink's store, a call of the checkpoint store, and a spool.
fn outside(
    alloc: Global,
    keeper: &[u64],
    vault: &[u64],
    spools: &[u64],
) -> Result<Outside, AllocError>
    ensures { IfOk result (λ devices. failing_windows_of devices.keeper ≡ []) }
{
    let keeper = FailingKeeper::new(
        MemoryKeeper::new(alloc),
        Vec::from_slice(alloc, keeper)?,
        false,
    );
    let vault = FailingVault::new(MemoryVault::new(alloc), Vec::from_slice(alloc, vault)?);
    let spools = FailingSpools::new(
        alloc,
        Vec::from_slice(alloc, spools)?,
        Vec::new(alloc),
        Vec::new(alloc),
    );
    Ok(Devices {
        keeper,
        vault,
        spools,
    })
}

/// Save: one byte is kept, and read again.
fn save<J: Naming>(alloc: Global, run: &mut Run<J>, id: SaveId) -> Result<(), Stopped>
    requires { can J.run.plan run.old.course.machine (Save id.op id.part id.window) ≡ true }
{
    let event = Event::Save {
        op: id.op,
        part: id.part,
        window: id.window,
    };
    run.reserve(7, event)?;
    run.keep(7, id, &[id.part])?;
    run.fetch(alloc, 7, id)?;
    run.try_add(7, event)
}

/// One event, with what it does to the devices.
fn turn<J: Naming>(alloc: Global, run: &mut Run<J>, event: Event) -> Result<(), Stopped>
    requires untold { IsTrue J.run.told → ⊥ }
    requires can { can J.run.plan run.old.course.machine event ≡ true }
    requires bears { bears (owed J.run.plan run.old.course.machine event) 7 ≡ true }
{
    match event {
        Event::Start { .. } | Event::Finish { .. } | Event::Kill { .. } => run.pass(7, event),
        Event::Advance { .. } | Event::Purge { .. } | Event::End => run.pass(7, event),
        Event::Write { window } => run.write(7, window, &[]),
        Event::Save { op, part, window } => save(
            alloc,
            run,
            SaveId {
                op,
                boundary: 0,
                part,
                window,
            },
        ),
        Event::Commit { to } => run.commit(7, to),
        Event::Repartition { .. } => {
            run.reserve(7, event)?;
            run.try_add(7, event)
        }
        Event::Fault { .. } => Ok(()),
    }
}

/// The first event that may come, if one may.
fn step<J: Naming>(alloc: Global, run: &mut Run<J>)
    requires { IsTrue J.run.told → ⊥ }
{
    if let Some(event) = run.machine().first_for(7, None) {
        let _ = turn(alloc, run, event);
    }
}

/// A spool, and then one event after the other, until the run ends or stops.
fn drive<J: Naming>(
    alloc: Global,
    plan: Plan,
    devices: Outside,
) -> Result<(Outside, Journal, Option<CoreFault<SpoolFault>>), AllocError>
    requires untold { IsTrue J.run.told → ⊥ }
    requires plan { plan ≡ J.run.plan }
    requires stored { 0 ≡ J.run.stored }
    requires from { 0 ≡ J.run.from }
    requires keeper { J.run.keeper ≡ 0 }
    requires vault { J.run.vault ≡ 0 }
    requires spools { J.run.spools ≡ 0 }
    requires empty { failing_windows_of devices.keeper ≡ [] }
    requires is { IsPlan plan }
    requires small { IsSmall plan }
    requires start { IsStart plan 0 0 }
{
    let course = Course::<SpoolFault, J>::new(alloc, plan, 0, 0)?;
    let mut run = Stores::new(devices, course);
    run.facts();
    if run.machine().is_running() {
        let _ = run.fresh(7);
    }
    for _ in 0..200 {
        step(alloc, &mut run);
    }
    if run.fault().is_none() && run.machine().is_running() {
        run.stop(7, CoreFault::Memory);
    }
    Ok(run.close())
}

#[test]
fn a_run_ends(rt: HostRuntime) -> Result<(), Fail> {
    let alloc = rt.alloc();
    let devices = outside(alloc, &[], &[], &[])?;
    let (mut devices, journal, fault) = drive::<Brand>(alloc, chain(alloc)?, devices)?;
    assert!(rt; fault.is_none());
    assert!(rt; matches!(journal.entries().last(), Some(last) if last.event == Event::End));
    assert_eq!(rt; devices.keeper.last(), 4);
    for (window, kept) in [(2, 0), (4, 1)] {
        let id = SaveId {
            op: 1,
            boundary: 0,
            part: 1,
            window,
        };
        assert_eq!(rt; devices.vault.get(alloc, id)?.len(), kept);
    }
    Ok(())
}

#[test]
fn a_device_that_fails_stops_the_run(rt: HostRuntime) -> Result<(), Fail> {
    let alloc = rt.alloc();
    let one: &[u64] = &[1];
    let third: &[u64] = &[3];
    let none: &[u64] = &[];
    let cases = [
        (third, none, none, 9, 2),
        (none, third, none, 8, 2),
        (none, none, one, 10, 0),
    ];
    for (keeper, vault, spools, status, stored) in cases {
        let devices = outside(alloc, keeper, vault, spools)?;
        let (devices, journal, fault) = drive::<Brand>(alloc, chain(alloc)?, devices)?;
        assert!(rt; matches!(&fault, Some(why) if why.status() == status));
        assert!(rt;
            matches!(journal.entries().last(), Some(last) if last.event == Event::Fault { status })
        );
        assert_eq!(rt; devices.keeper.last(), stored);
    }
    Ok(())
}
