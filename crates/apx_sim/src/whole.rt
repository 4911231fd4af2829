//! A job run over devices, from its begin to its end.
ghost use Rattle.std.specs.Prelude.{◌≡◌, ◌≤◌, ◌&&◌, IsTrue, IfOk, IfErr};
ghost use Rattle.apx_cause.specs.Cause.{HasCause};
ghost use Rattle.apx_pass.specs.Pass.{mean_up_to, windows};
ghost use Rattle.apx_job.specs.Job.{plan_of};
ghost use Rattle.apx_stores.specs.Whole.{FitsKeeper, BeginsRight};
ghost use Rattle.apx_stores.specs.Crashes.{EntriesFollow};
ghost use Rattle.apx_core.specs.Crashes.{IsOfRun};
ghost use Rattle.apx_sim.specs.Headline.{LosesNoWindow, left_by, OneHistory, StoresEachOnce, KeepsNeeded, EndsWhole, HasCheckpoints, IsStopped, IsReadable};

use crate::driving::sim;
use apx_core::{Closed, Core, Devices, Naming, StartFault};
use apx_device::{Keeper, Spool, Spools, Vault};
use apx_job::Job;
use std::alloc::Global;
use std::marker::Brand;
use std::sync::Arc;

/// A run that `J` names.
fn run<K: Keeper + Drop, V: Vault + Drop, P: Spools + Drop, J: Naming>(
    alloc: Global,
    job: Arc<Job>,
    devices: Devices<K, V, P>,
    order: u64,
) -> Result<Closed<K, V, P, <P::S as Spool>::Fault>, (Devices<K, V, P>, StartFault)>
    requires job { job.value ≡ J.run.job }
    requires planned { J.run.plan ≡ plan_of J.run.job }
    requires stored { K.last devices.keeper ≡ J.run.stored }
    requires from { 0 ≡ J.run.from }
    requires few { K.last devices.keeper ≤ windows J.run.job.flow }
    requires keeper { K.faults devices.keeper ≡ J.run.keeper }
    requires vault { V.faults devices.vault ≡ J.run.vault }
    requires spools { P.faults devices.spools ≡ J.run.spools }
    requires tells { IsTrue J.run.told → IsTrue V.tells × IsTrue P.S.tells }
    requires rows { IsTrue K.tells → J.run.rows ≡ K.stored devices.keeper }
    requires entries { IsTrue V.tells → J.run.entries ≡ V.held devices.vault }
    requires is_sound { IsTrue (K.sound devices.keeper) }
    requires is_vault_sound { IsTrue (V.sound devices.vault) }
    ensures history { IfOk result (λ r. OneHistory J.run.job order J.run.stored r.journal) }
    ensures store { IfOk result (λ r. BeginsRight J.run K.tells → FitsKeeper J.run.job.flow
        (left_by J.run.job J.run.stored r.journal).fault (left_by J.run.job J.run.stored r.journal).stored
        (K.stored r.devices.keeper)) }
    ensures needed { IfOk result (λ r. KeepsNeeded J.run.job J.run.stored r.journal) }
    ensures whole { IfOk result (λ r. EndsWhole J.run.job J.run.stored r.journal r.fault) }
    ensures checkpoints { IfOk result (λ r.
        HasCheckpoints J.run.job J.run.told V.tells r.fault J.run.entries (V.held r.devices.vault)) }
    ensures stopped { IfOk result (λ r. IsStopped J.run.job J.run.stored r.journal r.fault J.run.told V.tells P.S.tells
        (record { keeper = K.faults devices.keeper; vault = V.faults devices.vault; spools = P.faults devices.spools })
        (record { keeper = K.faults r.devices.keeper; vault = V.faults r.devices.vault; spools = P.faults r.devices.spools })) }
    ensures readable { IfOk result (λ r. IsReadable J.run.job r.fault (K.sound r.devices.keeper) (K.last r.devices.keeper)) }
    ensures windows { IfOk result (λ r. BeginsRight J.run K.tells →
        LosesNoWindow J.run.job J.run.stored r.journal K.time K.left devices.keeper r.devices.keeper) }
    ensures entries { IfOk result (λ r. IsTrue V.tells → EntriesFollow (IsOfRun J.run.job J.run.told)
        V.time V.left V.held devices.vault r.devices.vault) }
    ensures kept_keeper { IfErr result (λ r. r.0.keeper ≡ devices.keeper) }
    ensures kept_vault { IfErr result (λ r. r.0.vault ≡ devices.vault) }
    ensures cause { IfErr result (λ r. HasCause (P.faults devices.spools) (P.faults r.0.spools) (r.1 ≡ StartFault.Spools)) }
{
    let core = Core::<K, V, P, J>::new(alloc, job, devices)?;
    let core = sim(alloc, core, order);
    core.facts();
    Ok(core.close())
}

/// Runs a job over devices, in the order that a number picks, until its run ends or stops.
///
/// The sink's store may have the first windows of the job already. What it has behind the run is told where it began with their
/// rows. A fault that stopped the run has its cause, of the devices and the job. No run begins where there is no memory for it or
/// no spool can be made; then the devices come back. Whatever comes back, no device has counted fewer faults than before.
pub fn simulate<K: Keeper + Drop, V: Vault + Drop, P: Spools + Drop>(
    alloc: Global,
    job: Arc<Job>,
    devices: Devices<K, V, P>,
    order: u64,
) -> Result<Closed<K, V, P, <P::S as Spool>::Fault>, (Devices<K, V, P>, StartFault)>
    requires few { K.last devices.keeper ≤ windows job.value.flow }
    requires is_sound { IsTrue (K.sound devices.keeper) }
    requires is_vault_sound { IsTrue (V.sound devices.vault) }
    ensures history { IfOk result (λ r. OneHistory job.value order (K.last devices.keeper) r.journal) }
    ensures store { IfOk result (λ r. K.stored devices.keeper ≡ mean_up_to job.value.flow (K.last devices.keeper) →
        StoresEachOnce job.value (K.last devices.keeper) (K.tells && (V.tells && P.S.tells)) r.journal (K.stored r.devices.keeper)) }
    ensures needed { IfOk result (λ r. KeepsNeeded job.value (K.last devices.keeper) r.journal) }
    ensures whole { IfOk result (λ r. EndsWhole job.value (K.last devices.keeper) r.journal r.fault) }
    ensures checkpoints { IfOk result (λ r.
        HasCheckpoints job.value (V.tells && P.S.tells) V.tells r.fault (V.held devices.vault) (V.held r.devices.vault)) }
    ensures stopped { IfOk result (λ r. IsStopped job.value (K.last devices.keeper) r.journal r.fault
        (V.tells && P.S.tells) V.tells P.S.tells
        (record { keeper = K.faults devices.keeper; vault = V.faults devices.vault; spools = P.faults devices.spools })
        (record { keeper = K.faults r.devices.keeper; vault = V.faults r.devices.vault; spools = P.faults r.devices.spools })) }
    ensures readable { IfOk result (λ r. IsReadable job.value r.fault (K.sound r.devices.keeper) (K.last r.devices.keeper)) }

    // What a crash leaves of the stores.
    ensures windows { IfOk result (λ r. IsTrue (K.tells && (V.tells && P.S.tells)) →
        K.stored devices.keeper ≡ mean_up_to job.value.flow (K.last devices.keeper) →
        LosesNoWindow job.value (K.last devices.keeper) r.journal K.time K.left devices.keeper r.devices.keeper) }
    ensures entries { IfOk result (λ r. IsTrue V.tells → EntriesFollow (IsOfRun job.value (V.tells && P.S.tells))
        V.time V.left V.held devices.vault r.devices.vault) }

    // Where no run begins.
    ensures kept_keeper { IfErr result (λ r. r.0.keeper ≡ devices.keeper) }
    ensures kept_vault { IfErr result (λ r. r.0.vault ≡ devices.vault) }
    ensures cause { IfErr result (λ r. HasCause (P.faults devices.spools) (P.faults r.0.spools) (r.1 ≡ StartFault.Spools)) }
{
    run::<K, V, P, Brand>(alloc, job, devices, order)
}
