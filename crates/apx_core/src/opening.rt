//! The begin of a core.
ghost use Rattle.std.specs.Prelude.{◌≡◌, ◌≤◌, [], None, IsTrue, IfOk, IfErr};
ghost use Rattle.apx_cause.specs.Cause.{HasCause};
ghost use Rattle.apx_history.specs.Journals.{beginning};
ghost use Rattle.apx_pass.specs.Pass.{windows};
ghost use Rattle.apx_list.specs.Plan.{IsPlan as IsCut};
ghost use Rattle.apx_job.specs.Job.{plan_of as plan_in_history};
ghost use Rattle.apx_part.specs.Fed.{plan_in};

use crate::cores::Core;
use apx_course::{Course, Naming};
use apx_device::{Keeper, Spool, Spools, SpoolsRefusal, Vault};
use apx_held::begin;
use apx_job::Job;
use apx_list::CutPlan;
use apx_stores::{Devices, Stores};
use std::alloc::{AllocError, Global};
use std::sync::Arc;
use thiserror::Error;

/// Why no core was made.
#[derive(Clone, Copy, Debug, PartialEq, Eq, Error)]
pub enum StartFault {
    /// No spool could be made, and the maker has counted that.
    #[error("no spool can be made")]
    Spools,
    /// There was no memory for it.
    #[error("out of memory")]
    Memory,
}

/// The course of a run of a job that begins from nothing, over a store with the windows up to `stored`.
fn begun<F: Drop, J: Naming>(
    alloc: Global,
    job: &Arc<Job>,
    stored: u32,
) -> Result<Course<F, J>, AllocError>
    requires job { job.now.value ≡ J.run.job }
    requires planned { J.run.plan ≡ plan_in_history J.run.job }
    requires stored { stored ≡ J.run.stored }
    requires from { 0 ≡ J.run.from }
    requires few { stored ≤ windows J.run.job.flow }
    ensures machine { IfOk result (λ c. c.machine ≡ beginning J.run.plan J.run.stored 0) }
    ensures journal { IfOk result (λ c. c.journal ≡ []) }
    ensures fault { IfOk result (λ c. c.fault ≡ None) }
{
    let plan = apx_planned::plan_of(alloc, job)?;
    Course::new(alloc, plan, stored, 0)
}

/// How the windows of the run's job are cut into blocks.
pub(crate) fn cuts_of<J: Naming>(job: &Arc<Job>) -> CutPlan
    requires { job.now.value ≡ J.run.job }
    ensures plan { result ≡ plan_in J.run.job }
    ensures limits { IsCut result }
{
    apx_part::plan_of(job)
}

impl<K: Keeper + Drop, V: Vault + Drop, P: Spools + Drop, J: Naming> Core<K, V, P, J> {
    /// The core of a run that begins from nothing, over a store that may have the first windows of the one pass. On a refusal
    /// the devices come back, and the maker of spools has counted no fewer faults.
    pub fn new(
        alloc: Global,
        job: Arc<Job>,
        mut devices: Devices<K, V, P>,
    ) -> Result<Self, (Devices<K, V, P>, StartFault)>
        requires job { job.value ≡ J.run.job }
        requires planned { J.run.plan ≡ plan_in_history J.run.job }
        requires stored { K.last devices.keeper ≡ J.run.stored }
        requires from { 0 ≡ J.run.from }
        requires few { K.last devices.keeper ≤ windows J.run.job.flow }
        requires keeper { K.faults devices.keeper ≡ J.run.keeper }
        requires vault { V.faults devices.vault ≡ J.run.vault }
        requires spools { P.faults devices.spools ≡ J.run.spools }
        requires tells { IsTrue J.run.told → IsTrue V.tells × IsTrue P.S.tells }
        requires rows { IsTrue K.tells → J.run.rows ≡ K.stored devices.keeper }
        requires entries { IsTrue V.tells → J.run.entries ≡ V.held devices.vault }
        requires is_sound { IsTrue (K.sound devices.keeper) }
        requires is_vault_sound { IsTrue (V.sound devices.vault) }
        ensures keeper { IfOk result (λ c. c.stores.keeper ≡ devices.keeper) }
        ensures vault { IfOk result (λ c. c.stores.vault ≡ devices.vault) }
        ensures machine { IfOk result (λ c. c.stores.course.machine ≡ beginning J.run.plan J.run.stored 0) }
        ensures journal { IfOk result (λ c. c.stores.course.journal ≡ []) }
        ensures fault { IfOk result (λ c. c.stores.course.fault ≡ None) }
        ensures kept_keeper { IfErr result (λ r. r.0.keeper ≡ devices.keeper) }
        ensures kept_vault { IfErr result (λ r. r.0.vault ≡ devices.vault) }
        ensures cause { IfErr result (λ r. HasCause (P.faults devices.spools) (P.faults r.0.spools) (r.1 ≡ StartFault.Spools)) }
    {
        let stored = devices.keeper.last();
        let Ok(course) = begun::<<P::S as Spool>::Fault, J>(alloc, &job, stored) else {
            return Err((devices, StartFault::Memory));
        };
        let cuts = cuts_of::<J>(&job);
        match begin(alloc, course.machine(), cuts, &mut devices.spools) {
            Ok(contents) => Ok(Core {
                stores: Stores::new(devices, course),
                contents,
                job,
                alloc,
            }),
            Err(SpoolsRefusal::Failed) => Err((devices, StartFault::Spools)),
            Err(SpoolsRefusal::Memory) => Err((devices, StartFault::Memory)),
        }
    }
}
