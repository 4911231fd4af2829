//! A job run over devices by worker threads, from its begin to its end.
ghost use Rattle.std.specs.Prelude.{◌≡◌, ◌≤◌, ◌<◌, ◌&&◌, IsTrue, IfOk, IfErr};
ghost use Rattle.apx_cause.specs.Cause.{HasCause};
ghost use Rattle.apx_pass.specs.Pass.{mean_up_to, windows};
ghost use Rattle.apx_job.specs.Job.{plan_of};
ghost use Rattle.apx_stores.specs.Whole.{FitsKeeper, BeginsRight, counted};
ghost use Rattle.apx_work.specs.Turns.{IsOver};
ghost use Rattle.apx_sim.specs.Headline.{left_by, StoresEachOnce, KeepsNeeded, EndsWhole, HasCheckpoints, IsStopped, IsReadable};
ghost use Rattle.apx_crew.specs.Headline.{IsDoneByWorkers};

use crate::crew::{Crew, Needs};
use apx_core::{Closed, Core, Devices, Naming, StartFault};
use apx_device::{Gate, Keeper, Spool, Spools, Vault};
use apx_job::Job;
use apx_work::run_threads;
use std::alloc::Global;
use std::marker::Brand;
use std::sync::{Arc, Wait};
use std::thread::Threads;

/// What a run that is over leaves.
fn closed<K: Keeper + Drop, V: Vault + Drop, P: Spools + Drop, J: Naming>(
    core: Core<K, V, P, J>,
) -> Closed<K, V, P, <P::S as Spool>::Fault>
    requires from { 0 ≡ J.run.from }
    requires over { IsOver core.stores.course.journal }
    ensures journal { result.journal ≡ core.stores.course.journal }
    ensures store { BeginsRight J.run K.tells → FitsKeeper J.run.job.flow
        (left_by J.run.job J.run.stored result.journal).fault (left_by J.run.job J.run.stored result.journal).stored
        (K.stored result.devices.keeper) }
    ensures needed { KeepsNeeded J.run.job J.run.stored result.journal }
    ensures whole { EndsWhole J.run.job J.run.stored result.journal result.fault }
    ensures checkpoints { HasCheckpoints J.run.job J.run.told V.tells result.fault J.run.entries (V.held result.devices.vault) }
    ensures stopped { IsStopped J.run.job J.run.stored result.journal result.fault J.run.told V.tells P.S.tells (counted J.run)
        (record { keeper = K.faults result.devices.keeper; vault = V.faults result.devices.vault; spools = P.faults result.devices.spools }) }
    ensures readable { IsReadable J.run.job result.fault (K.sound result.devices.keeper) (K.last result.devices.keeper) }
{
    core.facts();
    core.close()
}

/// A run that `J` names.
fn run<
    R: Threads + Wait + Sync,
    K: Keeper + Drop + Send,
    V: Vault + Drop + Send,
    P: Spools + Drop + Send,
    G: Gate + Sync,
    J: Naming + Send,
>(
    rt: &R,
    alloc: Global,
    job: Arc<Job>,
    devices: Devices<K, V, P>,
    workers: u8,
    gate: &G,
) -> Result<Closed<K, V, P, <P::S as Spool>::Fault>, (Devices<K, V, P>, StartFault)>
where
    P::S: Send,
    <P::S as Spool>::Fault: Send,
    requires job { job.value ≡ J.run.job }
    requires planned { J.run.plan ≡ plan_of J.run.job }
    requires stored { K.last devices.keeper ≡ J.run.stored }
    requires from { 0 ≡ J.run.from }
    requires few { K.last devices.keeper ≤ windows J.run.job.flow }
    requires keeper { K.faults devices.keeper ≡ J.run.keeper }
    requires vault { V.faults devices.vault ≡ J.run.vault }
    requires spools { P.faults devices.spools ≡ J.run.spools }
    requires tells { IsTrue J.run.told → IsTrue V.tells × IsTrue P.S.tells }
    requires rows { IsTrue K.tells → J.run.rows ≡ K.stored devices.keeper }
    requires entries { IsTrue V.tells → J.run.entries ≡ V.held devices.vault }
    requires is_sound { IsTrue (K.sound devices.keeper) }
    requires is_vault_sound { IsTrue (V.sound devices.vault) }
    requires some { 0 < workers }
    ensures history { IfOk result (λ r. IsDoneByWorkers J.run.job workers J.run.stored r.journal) }
    ensures store { IfOk result (λ r. BeginsRight J.run K.tells → FitsKeeper J.run.job.flow
        (left_by J.run.job J.run.stored r.journal).fault (left_by J.run.job J.run.stored r.journal).stored
        (K.stored r.devices.keeper)) }
    ensures needed { IfOk result (λ r. KeepsNeeded J.run.job J.run.stored r.journal) }
    ensures whole { IfOk result (λ r. EndsWhole J.run.job J.run.stored r.journal r.fault) }
    ensures checkpoints { IfOk result (λ r.
        HasCheckpoints J.run.job J.run.told V.tells r.fault J.run.entries (V.held r.devices.vault)) }
    ensures stopped { IfOk result (λ r. IsStopped J.run.job J.run.stored r.journal r.fault J.run.told V.tells P.S.tells
        (record { keeper = K.faults devices.keeper; vault = V.faults devices.vault; spools = P.faults devices.spools })
        (record { keeper = K.faults r.devices.keeper; vault = V.faults r.devices.vault; spools = P.faults r.devices.spools })) }
    ensures readable { IfOk result (λ r. IsReadable J.run.job r.fault (K.sound r.devices.keeper) (K.last r.devices.keeper)) }
    ensures kept_keeper { IfErr result (λ r. r.0.keeper ≡ devices.keeper) }
    ensures kept_vault { IfErr result (λ r. r.0.vault ≡ devices.vault) }
    ensures cause { IfErr result (λ r. HasCause (P.faults devices.spools) (P.faults r.0.spools) (r.1 ≡ StartFault.Spools)) }
{
    let Ok(own) = job.clone() else {
        return Err((devices, StartFault::Memory));
    };
    let needs = Needs { job: own, alloc };
    let core = Core::<K, V, P, J>::new(alloc, job, devices)?;
    let Crew { core } = run_threads(rt, alloc, Crew { core }, &needs, gate, workers);
    Ok(closed(core))
}

/// Runs a job over devices by so many worker threads, until its run ends or stops.
///
/// The workers do the events of the run one after the other behind one lock, and the work of the windows that they begin each by
/// itself. A worker passes the gate before that work and behind it. The sink's store may have the first windows of the job already.
/// What it has behind the run is told where it began with their rows. A fault that stopped the run has its cause, of the devices and
/// the job. No run begins where there is no memory for it or no spool can be made; then the devices come back. Whatever comes back,
/// no device has counted fewer faults than before. It may wait, and nothing is promised of the time that it takes.
pub fn run_by_threads<
    R: Threads + Wait + Sync,
    K: Keeper + Drop + Send,
    V: Vault + Drop + Send,
    P: Spools + Drop + Send,
    G: Gate + Sync,
>(
    rt: &R,
    alloc: Global,
    job: Arc<Job>,
    devices: Devices<K, V, P>,
    workers: u8,
    gate: &G,
) -> Result<Closed<K, V, P, <P::S as Spool>::Fault>, (Devices<K, V, P>, StartFault)>
where
    P::S: Send,
    <P::S as Spool>::Fault: Send,
    requires few { K.last devices.keeper ≤ windows job.value.flow }
    requires is_sound { IsTrue (K.sound devices.keeper) }
    requires is_vault_sound { IsTrue (V.sound devices.vault) }
    requires some { 0 < workers }
    ensures history { IfOk result (λ r. IsDoneByWorkers job.value workers (K.last devices.keeper) r.journal) }
    ensures store { IfOk result (λ r. K.stored devices.keeper ≡ mean_up_to job.value.flow (K.last devices.keeper) →
        StoresEachOnce job.value (K.last devices.keeper) (K.tells && (V.tells && P.S.tells)) r.journal (K.stored r.devices.keeper)) }
    ensures needed { IfOk result (λ r. KeepsNeeded job.value (K.last devices.keeper) r.journal) }
    ensures whole { IfOk result (λ r. EndsWhole job.value (K.last devices.keeper) r.journal r.fault) }
    ensures checkpoints { IfOk result (λ r.
        HasCheckpoints job.value (V.tells && P.S.tells) V.tells r.fault (V.held devices.vault) (V.held r.devices.vault)) }
    ensures stopped { IfOk result (λ r. IsStopped job.value (K.last devices.keeper) r.journal r.fault
        (V.tells && P.S.tells) V.tells P.S.tells
        (record { keeper = K.faults devices.keeper; vault = V.faults devices.vault; spools = P.faults devices.spools })
        (record { keeper = K.faults r.devices.keeper; vault = V.faults r.devices.vault; spools = P.faults r.devices.spools })) }
    ensures readable { IfOk result (λ r. IsReadable job.value r.fault (K.sound r.devices.keeper) (K.last r.devices.keeper)) }
    ensures kept_keeper { IfErr result (λ r. r.0.keeper ≡ devices.keeper) }
    ensures kept_vault { IfErr result (λ r. r.0.vault ≡ devices.vault) }
    ensures cause { IfErr result (λ r. HasCause (P.faults devices.spools) (P.faults r.0.spools) (r.1 ≡ StartFault.Spools)) }
{
    run::<R, K, V, P, G, Brand>(rt, alloc, job, devices, workers, gate)
}
