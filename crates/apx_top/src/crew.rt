//! A run of a job by worker threads, and what is printed of it.
ghost use Rattle.std.specs.Prelude.{◌≡◌, ◌<◌, None, IsTrue, IfOk, MatchResult, option_map, ⊤};
ghost use Rattle.apx_cause.specs.Cause.{Rose};
ghost use Rattle.apx_load.specs.Hearing.{HasHeard};
ghost use Rattle.apx_pass.specs.Pass.{windows};
ghost use Rattle.apx_script.specs.Settings.{IsSettings};
ghost use Rattle.apx_top.specs.Changes.{call_of, keeper_meaning, vault_meaning, spools_meaning, devices_change, output_change};
ghost use Rattle.apx_top.specs.Left.{left_of};
ghost use Rattle.apx_top.specs.Plain.{HasPrintedFiles, IsTold};
ghost use Rattle.apx_top.specs.Run.{HasRun, HasRunAs, HasPrinted, IsUnprinted};
ghost use Rattle.apx_top.specs.Way.{by_workers};

use crate::ended::{Finished, Outcome, unrun};
use crate::faults::{settle, stop_of_start};
use crate::sim::{print, share};
use apx_core::Devices;
use apx_crew::run_by_threads;
use apx_device::{Folder, Gate, Keeper, Out, Spool, Spools, Vault};
use apx_job::Job;
use apx_json::Name;
use apx_load::{Stop, job};
use apx_script::Settings;
use std::alloc::Global;
use std::sync::{Arc, Wait};
use std::thread::Threads;

/// Runs the job of an application, of a script and of settings by so many workers, and prints its rows and its report.
pub(crate) fn crew_files<
    R: Threads + Wait + Sync,
    F: Folder,
    K: Keeper + Drop + Send,
    V: Vault + Drop + Send,
    P: Spools + Drop + Send,
    G: Gate + Sync,
    O: Out,
    E: Out,
>(
    rt: &R,
    alloc: Global,
    files: &mut F,
    name: &str,
    script: Option<&Name>,
    settings: Settings,
    workers: u8,
    gate: &G,
    devices: Devices<K, V, P>,
    out: &mut O,
    err: &mut E,
) -> Outcome<K, V, P, <P::S as Spool>::Fault>
where
    P::S: Send,
    <P::S as Spool>::Fault: Send,
    requires settings { IsSettings settings }
    requires some { 0 < workers }
    requires sound { IsTrue (K.sound devices.keeper) }
    requires vault_sound { IsTrue (V.sound devices.vault) }
    ensures told { F.told files.new ≡ F.told files.old }
    ensures heard { HasHeard F.tells (F.told files.old) (F.heard files.old) (F.heard files.new) (λ answers.
        HasPrintedFiles name.now (option_map (λ n. n.now) script.entry) settings (by_workers workers)
        (call_of answers (Rose (F.faults files.old) (F.faults files.new))
        (devices_change (keeper_meaning K.tells K.stored K.last K.faults) (vault_meaning V.tells V.held V.faults)
        (spools_meaning P.S.tells P.faults) devices result.devices)
        (output_change O.tells O.written O.faults out.old out.new)
        (output_change E.tells E.written E.faults err.old err.new)) (left_of result)) }
    ensures unsaid { IsTold result.end → err.new ≡ err.old }
{
    match job(alloc, files, name, script, settings) {
        Ok(job) => crew(rt, alloc, job, workers, gate, devices, out, err),
        Err(stop) => unrun(devices, Err(stop)),
    }
}

/// Runs a job over devices by so many workers, until its run ends or stops.
///
/// No run begins over a store that has more windows than the job. That is no store of the job, and it has no status of its own.
fn run<
    R: Threads + Wait + Sync,
    K: Keeper + Drop + Send,
    V: Vault + Drop + Send,
    P: Spools + Drop + Send,
    G: Gate + Sync,
>(
    rt: &R,
    alloc: Global,
    job: Arc<Job>,
    workers: u8,
    gate: &G,
    devices: Devices<K, V, P>,
) -> Result<Finished<K, V, P>, Outcome<K, V, P, <P::S as Spool>::Fault>>
where
    P::S: Send,
    <P::S as Spool>::Fault: Send,
    requires some { 0 < workers }
    requires sound { IsTrue (K.sound devices.keeper) }
    requires vault_sound { IsTrue (V.sound devices.vault) }
    ensures ran { MatchResult result
        (λ run. HasRunAs {F = P.S.Fault} job.value (by_workers workers)
        (devices_change (keeper_meaning K.tells K.stored K.last K.faults) (vault_meaning V.tells V.held V.faults)
        (spools_meaning P.S.tells P.faults) devices run.devices) run.journal None)
        (λ outcome. HasRun ⊤ (λ es end. ⊥) job.value (by_workers workers)
        (devices_change (keeper_meaning K.tells K.stored K.last K.faults) (vault_meaning V.tells V.held V.faults)
        (spools_meaning P.S.tells P.faults) devices outcome.devices) (left_of outcome)) }
    ensures readable { IfOk result (λ run. IsTrue (K.sound run.devices.keeper)) }
    ensures all { IfOk result (λ run. K.last run.devices.keeper ≡ windows job.value.flow) }
{
    if job.windows() < devices.keeper.last() {
        return Err(unrun(devices, Err(Stop::Memory)));
    }
    match run_by_threads(rt, alloc, job, devices, workers, gate) {
        Ok(closed) => settle(closed),
        Err((devices, fault)) => Err(unrun(devices, Err(stop_of_start(fault)))),
    }
}

/// Runs a job over devices by so many workers, and then prints what the sink's store has on `out` and the report on `err`.
fn crew<
    R: Threads + Wait + Sync,
    K: Keeper + Drop + Send,
    V: Vault + Drop + Send,
    P: Spools + Drop + Send,
    G: Gate + Sync,
    O: Out,
    E: Out,
>(
    rt: &R,
    alloc: Global,
    job: Job,
    workers: u8,
    gate: &G,
    devices: Devices<K, V, P>,
    out: &mut O,
    err: &mut E,
) -> Outcome<K, V, P, <P::S as Spool>::Fault>
where
    P::S: Send,
    <P::S as Spool>::Fault: Send,
    requires some { 0 < workers }
    requires sound { IsTrue (K.sound devices.keeper) }
    requires vault_sound { IsTrue (V.sound devices.vault) }
    ensures ran { HasRun (IsUnprinted (output_change O.tells O.written O.faults out.old out.new))
        (λ es end. HasPrinted job es
        (devices_change (keeper_meaning K.tells K.stored K.last K.faults) (vault_meaning V.tells V.held V.faults)
        (spools_meaning P.S.tells P.faults) devices result.devices)
        (output_change O.tells O.written O.faults out.old out.new)
        (output_change E.tells E.written E.faults err.old err.new) end)
        job (by_workers workers)
        (devices_change (keeper_meaning K.tells K.stored K.last K.faults) (vault_meaning V.tells V.held V.faults)
        (spools_meaning P.S.tells P.faults) devices result.devices)
        (left_of result) }
    ensures unsaid { IsTold result.end → err.new ≡ err.old }
{
    let Ok((job, shared)) = share(alloc, job) else {
        return unrun(devices, Err(Stop::Memory));
    };
    match run(rt, alloc, shared, workers, gate, devices) {
        Ok(mut run) => {
            let end = print(alloc, &job, &run.journal, &mut run.devices.keeper, out, err);
            run.printed(end)
        }
        Err(outcome) => outcome,
    }
}
