//! A run over devices in memory: each call once.
ghost use Rattle.std.specs.Prelude.{◌≡◌, true, [], None, IsTrue, IsSome, IfOk};
ghost use Rattle.apx_history.specs.Plan.{line as line_at, kills};
ghost use Rattle.apx_history.specs.Journals.{owed};
ghost use Rattle.apx_history.specs.declared.Event.TheVariants.{Kill};
ghost use Rattle.apx_history.specs.State.{running};
ghost use Rattle.apx_history.specs.Enabled.{can};
ghost use Rattle.apx_core.specs.Claim.{IsOpenFor, IsWork};
ghost use Rattle.apx_job.specs.Job.{plan_of as plan_in_history};
ghost use Rattle.apx_device.specs.MemoryKeeper.{windows_of};
ghost use Rattle.apx_device.specs.VaultsInMemory.{entries_of};

use crate::{Claim, Closed, Core, CoreFault, Devices, Naming, StartFault, Stopped};
use apx_dag::Dag;
use apx_device::{Keeper, MemoryKeeper, MemorySpools, MemoryVault, SaveId, Vault};
use apx_history::{Act, Event};
use apx_input::windows;
use apx_job::Job;
use apx_json::read_app;
use apx_part::{Done, PartId};
use apx_script::{ScriptRefusal, Settings, read_script};
use apx_tuple::{InputKind, Short};
use std::alloc::Global;
use std::convert::Infallible;
use std::marker::Brand;
use std::sync::Arc;
use std::test::Fail;

/// Lines that two partitions count, and that are stored.
const COUNT: &str =
    r#"{"operators":[{"name":"in","class":"lines","properties":{"file":"in.txt","perWindow":1}},{"name":"tally","class":"count","attributes":{"PARTITIONS":2}},{"name":"out","class":"store"}],"streams":[{"name":"a","source":{"operatorName":"in","portName":"output"},"sinks":[{"operatorName":"tally","portName":"input"}]},{"name":"b","source":{"operatorName":"tally","portName":"output"},"sinks":[{"operatorName":"out","portName":"input"}]}]}"#;

/// The job of four windows and a script, with a checkpoint each second window. All blocks of a list but one are spilled.
fn job_of(alloc: Global, script: &str) -> Result<Job, Fail> {
    let dag = Dag::of(alloc, read_app(alloc, COUNT.as_bytes())?)?;
    let mut inputs = Vec::new(alloc);
    inputs.push(windows(alloc, InputKind::Lines, 1, b"a\nb\na\nb\n")?)?;
    let mut settings = Settings::default();
    settings.every = 2;
    settings.keep = 1;
    if inputs.len() != dag.inputs_before(dag.len()) {
        return Err("another number of inputs")?;
    }
    match Job::of(
        alloc,
        dag,
        inputs,
        read_script(alloc, script.as_bytes())?,
        settings,
    ) {
        Ok(job) => Ok(job),
        Err(ScriptRefusal::Line { .. }) => Err("a line is refused")?,
        Err(ScriptRefusal::Memory) => Err("memory")?,
    }
}

/// The devices of this run.
type Outside = Devices<MemoryKeeper, MemoryVault, MemorySpools>;

/// A run over them.
type Run<J> = Core<MemoryKeeper, MemoryVault, MemorySpools, J>;

/// The work of a claim.
fn work<J: Naming>(alloc: Global, run: &mut Run<J>, claim: &mut Claim<J>) -> Result<Done, Stopped>
    requires runs { running run.old.stores.course.machine ≡ true }
    requires carries { IsSome claim.old.state }
    ensures work { IfOk result (λ done. IsWork J.run claim.new done) }
{
    match claim.work(alloc, run.job()) {
        Ok(done) => Ok(done),
        Err(Short::Memory) => Err(run.fail(7, CoreFault::Memory)),
        Err(Short::Large) => Err(run.fail(7, CoreFault::Large)),
    }
}

/// Whether a claim's partition has the claim's window open, begun by its worker.
fn is_open<J: Naming>(run: &Run<J>, claim: &Claim<J>) -> bool
    ensures { result ≡ true → IsOpenFor run.now.stores.course.machine claim.now }
{
    let machine = run.machine();
    let PartId { op, part } = claim.id();
    let (op, part) = (op as usize, part as usize);
    op < machine.len()
        && part < machine.parts(op)
        && machine.opened(op, part) == Some((claim.window(), claim.worker()))
}

/// Stores a claim's window, where it is the sink's.
fn write<J: Naming>(run: &mut Run<J>, claim: &Claim<J>, done: &Done) -> Result<(), Stopped>
    requires { IsWork J.run claim.now done.now }
{
    let write = Event::Write {
        window: claim.window(),
    };
    let machine = run.machine();
    if claim.id().op == machine.plan().sink() && machine.enabled(&write) && is_open(run, claim) {
        run.write(claim, done)?;
    }
    Ok(())
}

/// Ends a claim's window.
fn finish<J: Naming>(run: &mut Run<J>, claim: Claim<J>, done: Done) -> Result<(), Stopped>
    requires { IsWork J.run claim done }
{
    let PartId { op, part } = claim.id();
    let finish = Event::Finish {
        op,
        part,
        window: claim.window(),
    };
    if run.machine().enabled(&finish) && is_open(run, &claim) {
        run.finish(claim, done)?;
    }
    Ok(())
}

/// Whether a line kills a partition.
fn is_named<J: Naming>(run: &Run<J>, line: u32, id: PartId) -> bool
    ensures { result ≡ true → kills id.op id.part (line_at J.run.plan line) ≡ true }
{
    let named = run.machine().line(line as usize);
    match named.act {
        Act::Fails { point: _, part } => named.op == id.op && part == id.part,
        Act::Splits { count: _ } => false,
    }
}

/// Kills the partition of a claim, where a line says so.
fn kill_claimed<J: Naming>(run: &mut Run<J>, line: u32, claim: Claim<J>) -> Result<(), Stopped> {
    let kill = Event::Kill { line };
    if claim.worker() == 7
        && is_named(run, line, claim.id())
        && run.machine().enabled(&kill)
        && is_open(run, &claim)
    {
        run.kill(7, line, Some(claim))?;
    }
    Ok(())
}

/// Whether nobody has the partition open that a line kills.
fn is_closed<J: Naming>(run: &Run<J>, line: u32) -> bool
    ensures { result ≡ true → owed J.run.plan run.now.stores.course.machine (Kill line) ≡ None }
{
    let machine = run.machine();
    let named = machine.line(line as usize);
    let op = named.op as usize;
    match named.act {
        Act::Fails { point: _, part } => {
            let part = part as usize;
            op < machine.len() && part < machine.parts(op) && machine.opened(op, part).is_none()
        }
        Act::Splits { count: _ } => true,
    }
}

/// One event, and for a Start the whole window, or the kill of the partition that begins it.
fn turn<J: Naming>(alloc: Global, run: &mut Run<J>, event: Event) -> Result<(), Stopped>
    requires { can J.run.plan run.old.stores.course.machine event ≡ true }
{
    match event {
        Event::Start { op, part, window } => {
            let mut claim = run.start(7, PartId { op, part }, window)?;
            claim.facts();
            if !run.machine().is_running() {
                return Ok(());
            }
            let kill = Event::Kill { line: 1 };
            if run.machine().enabled(&kill) {
                return kill_claimed(run, 1, claim);
            }
            let done = work(alloc, run, &mut claim)?;
            write(run, &claim, &done)?;
            finish(run, claim, done)
        }
        Event::Kill { line } if is_closed(run, line) => run.kill(7, line, None),
        Event::Repartition { line } => run.repartition(7, line),
        Event::Save { op, part, window } => run.save(7, PartId { op, part }, window),
        Event::Advance { op, part, to } => run.advance(7, PartId { op, part }, to),
        Event::Purge { op, part, to } => run.purge(7, PartId { op, part }, to),
        Event::Commit { to } => run.commit(7, to),
        Event::End => run.end(7),
        _ => Ok(()),
    }
}

/// The first event that may come, if one may.
fn step<J: Naming>(alloc: Global, run: &mut Run<J>) {
    if let Some(event) = run.machine().first_for(7, None) {
        let _ = turn(alloc, run, event);
    }
}

/// A run until it ends or stops.
fn drive<J: Naming>(
    alloc: Global,
    job: Arc<Job>,
    devices: Outside,
) -> Result<Closed<MemoryKeeper, MemoryVault, MemorySpools, Infallible>, (Outside, StartFault)>
    requires untold { IsTrue J.run.told → ⊥ }
    requires job { job.value ≡ J.run.job }
    requires planned { J.run.plan ≡ plan_in_history J.run.job }
    requires stored { 0 ≡ J.run.stored }
    requires from { 0 ≡ J.run.from }
    requires keeper { J.run.keeper ≡ 0 }
    requires vault { J.run.vault ≡ 0 }
    requires spools { J.run.spools ≡ 0 }
    requires rows { J.run.rows ≡ [] }
    requires entries { J.run.entries ≡ [] }
    requires empty { windows_of devices.keeper ≡ [] }
    requires unsaved { entries_of devices.vault ≡ [] }
{
    let mut run = Core::<_, _, _, J>::new(alloc, job, devices)?;
    for _ in 0..200 {
        step(alloc, &mut run);
    }
    run.facts();
    if run.fault().is_none() && run.entries().is_empty() && run.machine().is_running() {
        run.fail(7, CoreFault::Memory);
    }
    Ok(run.close())
}

/// Whether the store has what the one pass counts.
fn has_counts(alloc: Global, keeper: &mut MemoryKeeper) -> Result<bool, Fail> {
    for (window, word, count) in [(1, "a", 1), (2, "b", 1), (3, "a", 2), (4, "b", 2)] {
        if keeper.last() < window {
            return Ok(false);
        }
        let rows = keeper.rows(alloc, window)?;
        if !rows.iter().any(|row| row.key.bytes() == word.as_bytes() && row.value == count) {
            return Ok(false);
        }
    }
    Ok(true)
}

#[test]
fn a_run_stores_each_window(rt: HostRuntime) -> Result<(), Fail> {
    let alloc = rt.alloc();
    let cases = [
        ("", 0),
        ("repartition 2 3 tally\nkill staged 3 2 tally\n", 2),
    ];
    for (script, boundary) in cases {
        let devices = Devices {
            keeper: MemoryKeeper::new(alloc),
            vault: MemoryVault::new(alloc),
            spools: MemorySpools::new(alloc),
        };
        let job = Arc::new(alloc, job_of(alloc, script)?)?;
        let Ok(mut closed) = drive::<Brand>(alloc, job, devices) else {
            return Err("no core")?;
        };
        assert!(rt; closed.fault.is_none());
        let entries = closed.journal.journal().entries();
        assert!(rt; matches!(entries.last(), Some(last) if last.event == Event::End));
        assert!(rt; has_counts(alloc, &mut closed.devices.keeper)?);
        let id = SaveId {
            op: 1,
            boundary,
            part: 0,
            window: 4,
        };
        assert!(rt; !closed.devices.vault.get(alloc, id)?.is_empty());
    }
    Ok(())
}
