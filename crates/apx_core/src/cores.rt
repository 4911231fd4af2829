//! The core, and what it lends.
ghost use Rattle.std.specs.Prelude.{◌≡◌, ◌≤◌, None, Some, IsTrue, IfSome, IfNone, true};
ghost use Rattle.apx_history.specs.State.{running};
ghost use Rattle.apx_history.specs.Journals.{beginning, after};
ghost use Rattle.apx_history.specs.Kept.{Kept};
ghost use Rattle.apx_history.specs.Laws.{IsHistory};
ghost use Rattle.apx_machine.specs.Small.{IsSmall};
ghost use Rattle.apx_device.specs.Vault.{entry_at};
ghost use Rattle.apx_pass.specs.Pass.{windows};
ghost use Rattle.apx_job.specs.Job.{plan_of};
ghost use Rattle.apx_dag.specs.Valid.{IsGraph};
ghost use Rattle.apx_course.specs.Faults.{status_of};
ghost use Rattle.apx_stores.specs.Caused.{AreLater, IsCaused};
ghost use Rattle.apx_stores.specs.Crashes.{IsDurable, IsSettled};
ghost use Rattle.apx_stores.specs.Whole.{FitsKeeper, BeginsRight, counted};
ghost use Rattle.apx_held.specs.Fits.{Fits};
ghost use Rattle.apx_core.specs.Core.{telling, HasRunSaves};

use apx_course::{CoreFault, Naming};
use apx_device::{Keeper, Spool, Spools, Vault};
use apx_held::Contents;
use apx_history::Entry;
use apx_job::Job;
use apx_machine::Machine;
use apx_stores::Stores;
use std::alloc::Global;
use std::marker::Model;
use std::sync::Arc;

/// What is known of the job of a run: its graph is one, and its windows are few.
pub(crate) fn known<J: Naming>(job: &Arc<Job>)
    requires { job.now.value ≡ J.run.job }
    ensures graph { IsGraph J.run.job.flow.nodes }
    ensures few { windows J.run.job.flow ≤ 20000 }
{
    job.windows();
    job.dag().len();
}

/// A run: its devices, its machine and journal, and what is kept for each partition. `J` names the run.
///
/// ```text
/// let mut core = Core::<_, _, _, J>::new(alloc, job, devices)?;
/// let mut claim = core.start(0, PartId { op: 0, part: 0 }, 1)?;
/// let done = claim.work(alloc, core.job())?;
/// core.finish(claim, done)?;
/// let closed = core.close();
/// ```
#[derive(Drop)]
pub struct Core<K: Keeper + Drop, V: Vault + Drop, P: Spools + Drop, J: Naming> {
    /// The run with its devices.
    pub(crate) stores: Stores<K, V, P, J>,
    /// What is kept for each partition.
    pub(crate) contents: Contents<P::S>,
    /// The job of the run.
    pub(crate) job: Arc<Job>,
    /// Where what is kept comes from.
    pub(crate) alloc: Global,
}

impl<K: Keeper + Drop, V: Vault + Drop, P: Spools + Drop, J: Naming> Model for Core<K, V, P, J> {
    ghost use Rattle.std.specs.Prelude.{◌≡◌};
    ghost use Rattle.apx_core.specs.Core.{Seen, IsCore};

    ghost Value = { Seen K V P P.S.Fault };

    ghost view = { λ c. record { stores = c.stores; held = c.contents } };

    ghost invariant = { λ c. (c.job.value ≡ J.run.job) × IsCore J.run V.tells (V.held c.stores.vault) c.stores.course c.contents };
}

impl<K: Keeper + Drop, V: Vault + Drop, P: Spools + Drop, J: Naming> Core<K, V, P, J> {
    /// What is known of each core.
    pub fn facts(&self)
        ensures planned { J.run.plan ≡ plan_of J.run.job }
        ensures history { IsHistory J.run.plan J.run.stored J.run.from self.now.stores.course.journal }
        ensures now { self.now.stores.course.machine
            ≡ after J.run.plan (beginning J.run.plan J.run.stored J.run.from) self.now.stores.course.journal }
        ensures same { self.now.stores.course.machine.fault ≡ status_of self.now.stores.course.fault }
        ensures small { IsSmall J.run.plan }
        ensures kept { Kept J.run.plan self.now.stores.course.machine }
        ensures rows { BeginsRight J.run K.tells → FitsKeeper J.run.job.flow (status_of self.now.stores.course.fault)
            self.now.stores.course.machine.stored (K.stored self.now.stores.keeper) }
        ensures last { self.now.stores.course.fault ≡ None → K.last self.now.stores.keeper ≡ self.now.stores.course.machine.stored }
        ensures is_sound { self.now.stores.course.fault ≡ None → IsTrue (K.sound self.now.stores.keeper) }
        ensures is_vault_sound { self.now.stores.course.fault ≡ None → IsTrue (V.sound self.now.stores.vault) }
        ensures caused { IfSome self.now.stores.course.fault
            (IsCaused J.run.job J.run.told V.tells P.S.tells (counted J.run)
            (record { keeper = K.faults self.now.stores.keeper; vault = V.faults self.now.stores.vault; spools = P.faults self.now.stores.spools })) }
        ensures later { AreLater (counted J.run)
            (record { keeper = K.faults self.now.stores.keeper; vault = V.faults self.now.stores.vault; spools = P.faults self.now.stores.spools }) }
        ensures fits { self.now.stores.course.fault ≡ None → Fits J.run.job (telling J.run V.tells)
            (entry_at (V.held self.now.stores.vault)) self.now.stores.course.machine self.now.held }
        ensures saves { self.now.stores.course.fault ≡ None → IsTrue V.tells →
            HasRunSaves J.run self.now.stores.course.machine (entry_at (V.held self.now.stores.vault)) }

        // What a crash now leaves of the stores.
        ensures durable { IsDurable J.run K.tells self.now.stores.course.machine.stored
            (K.left self.now.stores.keeper (K.time self.now.stores.keeper)) }
        ensures settled { running self.now.stores.course.machine ≡ true →
            IsSettled V.tells V.time V.left V.held self.now.stores.vault }
    {
        self.stores.facts();
        let _ = &self.contents;
    }

    /// The job of the run.
    pub fn job(&self) -> &Arc<Job>
        ensures { result.now.value ≡ J.run.job }
    {
        &self.job
    }

    /// The machine.
    pub fn machine(&self) -> &Machine
        ensures { result.now ≡ record { plan = J.run.plan; state = self.now.stores.course.machine } }
    {
        self.stores.machine()
    }

    /// What happened so far, in order.
    pub fn entries(&self) -> &[Entry]
        ensures { result.now ≡ self.now.stores.course.journal }
    {
        self.stores.entries()
    }

    /// Why the run stopped, if it did.
    pub fn fault(&self) -> Option<&CoreFault<<P::S as Spool>::Fault>>
        ensures some { IfSome result (λ fault. self.now.stores.course.fault ≡ Some fault.now) }
        ensures none { IfNone result (self.now.stores.course.fault ≡ None) }
    {
        self.stores.fault()
    }
}
