//! A run that begins: its partitions go back to where they began, and an operator begins an epoch.
ghost use Rattle.std.specs.Prelude.{◌≡◌, ◌<◌, true, IsTrue, IfOk, OnOk};
ghost use Rattle.apx_device.specs.VaultsInMemory.{entries_of};
ghost use Rattle.apx_history.specs.State.{running};
ghost use Rattle.apx_job.specs.Job.{plan_of as plan_in_history};
ghost use Rattle.apx_tuple.specs.Progress.{progress_size};
ghost use Rattle.apx_reset.specs.Kept.{FitsRun};

use crate::renewing::renew_parts;
use crate::reset_tree;
use crate::splits::{all_restored, moved};
use apx_course::{Course, Naming, Stopped};
use apx_dag::Dag;
use apx_device::{MemoryKeeper, MemorySpool, MemorySpools, MemoryVault, SaveId};
use apx_held::{Contents, begin};
use apx_input::windows;
use apx_job::Job;
use apx_json::read_app;
use apx_script::{ScriptRefusal, Settings, read_script};
use apx_stores::{Devices, Stores};
use apx_tuple::{Bag, InputKind, Key, Progress, State};
use std::alloc::Global;
use std::convert::Infallible;
use std::marker::Brand;
use std::test::Fail;

/// Lines that two partitions count, and that are stored.
const COUNT: &str =
    r#"{"operators":[{"name":"in","class":"lines","properties":{"file":"in.txt","perWindow":1}},{"name":"tally","class":"count","attributes":{"PARTITIONS":2}},{"name":"out","class":"store"}],"streams":[{"name":"a","source":{"operatorName":"in","portName":"output"},"sinks":[{"operatorName":"tally","portName":"input"}]},{"name":"b","source":{"operatorName":"tally","portName":"output"},"sinks":[{"operatorName":"out","portName":"input"}]}]}"#;

/// The job of two windows, with a checkpoint after each.
fn job_of(alloc: Global) -> Result<Job, Fail> {
    let dag = Dag::of(alloc, read_app(alloc, COUNT.as_bytes())?)?;
    let mut inputs = Vec::new(alloc);
    inputs.push(windows(alloc, InputKind::Lines, 1, b"a\nb\n")?)?;
    let mut settings = Settings::default();
    settings.every = 1;
    if inputs.len() != dag.inputs_before(dag.len()) {
        return Err("another number of inputs")?;
    }
    match Job::of(alloc, dag, inputs, read_script(alloc, b"")?, settings) {
        Ok(job) => Ok(job),
        Err(ScriptRefusal::Line { .. }) => Err("a line is refused")?,
        Err(ScriptRefusal::Memory) => Err("memory")?,
    }
}

/// A run over devices in memory, with what is kept for its partitions.
#[derive(Drop)]
struct Kept<J: Naming> {
    stores: Stores<MemoryKeeper, MemoryVault, MemorySpools, J>,
    contents: Contents<MemorySpool>,
}

/// A run that begins from nothing.
fn begun<J: Naming>(alloc: Global, job: &Job) -> Result<Kept<J>, Fail>
    requires untold { IsTrue J.run.told → ⊥ }
    requires job { job.now ≡ J.run.job }
    requires planned { J.run.plan ≡ plan_in_history J.run.job }
    requires stored { 0 ≡ J.run.stored }
    requires from { 0 ≡ J.run.from }
    requires keeper { J.run.keeper ≡ 0 }
    requires vault { J.run.vault ≡ 0 }
    requires spools { J.run.spools ≡ 0 }
    ensures runs { IfOk result (λ run. running run.stores.course.machine ≡ true) }
    ensures fits { IfOk result (λ run. FitsRun J.run true (entries_of run.stores.vault) run.stores.course.machine run.contents) }
{
    let course = Course::<Infallible, J>::new(alloc, apx_planned::plan_of(alloc, job)?, 0, 0)?;
    let mut spools = MemorySpools::new(alloc);
    let contents = begin(alloc, course.machine(), apx_part::plan_of(job), &mut spools)?;
    let devices = Devices {
        keeper: MemoryKeeper::new(alloc),
        vault: MemoryVault::new(alloc),
        spools,
    };
    let stores = Stores::new(devices, course);
    if !stores.machine().is_running() {
        return Err("no run")?;
    }
    Ok(Kept { stores, contents })
}

/// All that is downstream of the first operator goes back to where it began.
fn back<J: Naming>(alloc: Global, job: &Job, run: &mut Kept<J>) -> Result<(), Stopped>
    requires job { job.now ≡ J.run.job }
    requires planned { J.run.plan ≡ plan_in_history J.run.job }
    requires runs { running run.old.stores.course.machine ≡ true }
    requires fits { FitsRun J.run true (entries_of run.old.stores.vault) run.old.stores.course.machine run.old.contents }
    ensures runs { OnOk result (running run.new.stores.course.machine ≡ true) }
{
    let cuts = apx_part::plan_of(job);
    reset_tree(alloc, cuts, &mut run.stores, &mut run.contents, 7, 0)
}

/// A progress with a key in its state.
fn carried(alloc: Global, key: &str, value: i64) -> Result<Progress, Fail>
    ensures { IfOk result (λ g. progress_size g < 4294967232) }
{
    let mut state = State::new(alloc);
    state.set(Key::of(alloc, key.as_bytes())?, value)?;
    let progress = Progress {
        state,
        left: Bag::new(alloc),
        right: Bag::new(alloc),
    };
    if progress.size() >= 4_294_967_232 {
        return Err("too large")?;
    }
    Ok(progress)
}

/// Two partitions begin an epoch, and what they carry is read from their checkpoints and moved to one.
fn moved_to_one<J: Naming>(
    alloc: Global,
    job: &Job,
    run: &mut Kept<J>,
) -> Result<Vec<Progress>, Fail>
    requires untold { IsTrue J.run.told → ⊥ }
    requires job { job.now ≡ J.run.job }
    requires runs { running run.old.stores.course.machine ≡ true }
{
    let first = SaveId {
        op: 1,
        boundary: 1,
        part: 0,
        window: 1,
    };
    let mut parts = Vec::new(alloc);
    parts.push(carried(alloc, "b", 3)?)?;
    parts.push(carried(alloc, "a", 4)?)?;
    let cuts = apx_part::plan_of(job);
    if cuts.windows < 1 {
        return Err("no windows")?;
    }
    let group = renew_parts(alloc, cuts, &mut run.stores, 7, first, parts)?;
    if group.len() != 2 {
        return Err("another number of partitions")?;
    }
    let parts = all_restored(alloc, &mut run.stores, 7, first, 2)?;
    Ok(moved(alloc, &mut run.stores, 7, parts, 1)?)
}

/// Each in turn.
fn all<J: Naming>(alloc: Global, job: &Job) -> Result<Vec<Progress>, Fail>
    requires untold { IsTrue J.run.told → ⊥ }
    requires job { job.now ≡ J.run.job }
    requires planned { J.run.plan ≡ plan_in_history J.run.job }
    requires stored { 0 ≡ J.run.stored }
    requires from { 0 ≡ J.run.from }
    requires keeper { J.run.keeper ≡ 0 }
    requires vault { J.run.vault ≡ 0 }
    requires spools { J.run.spools ≡ 0 }
{
    let mut run = begun::<J>(alloc, job)?;
    back(alloc, job, &mut run)?;
    moved_to_one(alloc, job, &mut run)
}

#[test]
fn partitions_go_back_and_begin_an_epoch(rt: HostRuntime) -> Result<(), Fail> {
    let alloc = rt.alloc();
    let job = job_of(alloc)?;
    let parts = all::<Brand>(alloc, &job)?;
    assert_eq!(rt; parts.len(), 1);
    assert_eq!(rt; parts[0].state.len(), 2);
    Ok(())
}
