//! The run with its devices, and the events that touch none.
ghost use Rattle.std.specs.Prelude.{◌≡◌, ◌≤◌, ◌+◌, ℕ, true, false, length, Some, None, IsTrue, IfOk, IfSome, IfNone, OnOk, OnErr};
ghost use Rattle.apx_history.specs.State.{running};
ghost use Rattle.apx_history.specs.Enabled.{can};
ghost use Rattle.apx_history.specs.Journals.{beginning, after, owed, bears};
ghost use Rattle.apx_history.specs.Kept.{IsPlan, Kept};
ghost use Rattle.apx_history.specs.Conditions.{Enabled};
ghost use Rattle.apx_history.specs.Laws.{IsHistory};
ghost use Rattle.apx_machine.specs.Small.{IsSmall};
ghost use Rattle.apx_machine.specs.Memory.{takes_memory};
ghost use Rattle.apx_pass.specs.Pass.{mean_up_to};
ghost use Rattle.apx_course.specs.Faults.{status_of, is_fault};
ghost use Rattle.apx_course.specs.Course.{Did, Stops, StopsWith};
ghost use Rattle.apx_stores.specs.Caused.{AreLater, IsCaused};
ghost use Rattle.apx_stores.specs.Whole.{FitsKeeper, BeginsRight, counted};
ghost use Rattle.apx_stores.specs.Plain.{writes};
ghost use Rattle.apx_stores.specs.Crashes.{IsDurable, IsSettled};

use crate::devices::Devices;
use apx_course::{CoreFault, Course, Naming, Stopped};
use apx_device::{Keeper, Spool, Spools, SpoolsRefusal, Vault};
use apx_history::{Entry, Event};
use apx_machine::{Journal, Machine};
use std::marker::Model;

/// A run with its devices. `J` names the run.
///
/// ```text
/// let mut stores = Stores::new(Devices { keeper, vault, spools }, course);
/// stores.reserve(0, event)?;
/// stores.add(0, event);
/// ```
#[derive(Drop)]
pub struct Stores<K: Keeper + Drop, V: Vault + Drop, P: Spools + Drop, J: Naming> {
    /// The sink's store.
    pub(crate) keeper: K,
    /// The checkpoint store.
    pub(crate) vault: V,
    /// The maker of spools.
    pub(crate) spools: P,
    /// Where the run stands.
    pub(crate) course: Course<<P::S as Spool>::Fault, J>,
}

impl<K: Keeper + Drop, V: Vault + Drop, P: Spools + Drop, J: Naming> Model for Stores<K, V, P, J> {
    ghost use Rattle.std.specs.Prelude.{IsTrue};
    ghost use Rattle.apx_stores.specs.Stored.{Stored};
    ghost use Rattle.apx_stores.specs.Whole.{IsWhole};
    ghost use Rattle.apx_stores.specs.Crashes.{IsDurable};

    ghost Value = { Stored K V P P.S.Fault };

    ghost view = { λ s. record { keeper = s.keeper; vault = s.vault; spools = s.spools; course = s.course } };

    ghost invariant = { λ s. (IsTrue J.run.told → IsTrue V.tells × IsTrue P.S.tells)
        × IsWhole J.run (record { keeper = K.tells; vault = V.tells; spools = P.S.tells }) s.course.machine.stored s.course.fault
        (K.stored s.keeper) (K.last s.keeper) (K.sound s.keeper) (V.sound s.vault)
        (K.faults s.keeper) (V.faults s.vault) (P.faults s.spools)
        × IsDurable J.run K.tells s.course.machine.stored (K.left s.keeper (K.time s.keeper)) };
}

impl<K: Keeper + Drop, V: Vault + Drop, P: Spools + Drop, J: Naming> Stores<K, V, P, J> {
    /// A run that goes on with these devices from where its course stands: what the sink's store has is what the machine
    /// counts as stored.
    pub fn new(devices: Devices<K, V, P>, course: Course<<P::S as Spool>::Fault, J>) -> Self
        requires none { course.fault ≡ None }
        requires last { K.last devices.keeper ≡ course.machine.stored }
        requires tells { IsTrue J.run.told → IsTrue V.tells × IsTrue P.S.tells }
        requires rows { BeginsRight J.run K.tells → K.stored devices.keeper ≡ mean_up_to J.run.job.flow course.machine.stored }
        requires keeper { J.run.keeper ≤ K.faults devices.keeper }
        requires vault { J.run.vault ≤ V.faults devices.vault }
        requires spools { J.run.spools ≤ P.faults devices.spools }
        requires is_sound { IsTrue (K.sound devices.keeper) }
        requires is_vault_sound { IsTrue (V.sound devices.vault) }
        ensures { result ≡ record { keeper = devices.keeper; vault = devices.vault; spools = devices.spools; course = course } }
    {
        course.facts();
        let Devices {
            keeper,
            vault,
            spools,
        } = devices;
        Stores {
            keeper,
            vault,
            spools,
            course,
        }
    }

    /// Takes the place of an event that may come next. It also tells what is known where the event may come.
    pub fn reserve(&mut self, worker: u8, event: Event) -> Result<(), Stopped>
        requires { can J.run.plan self.old.course.machine event ≡ true }
        ensures machine { OnOk result (self.new.course.machine ≡ self.old.course.machine) }
        ensures journal { OnOk result (self.new.course.journal ≡ self.old.course.journal) }
        ensures fault { OnOk result (self.new.course.fault ≡ None) }
        ensures place { OnOk result (length self.new.course.journal + 2 ≤ self.new.course.places) }
        ensures stops { OnErr result (Stops J.run.plan self.old.course self.new.course worker) }
        ensures keeper { self.new.keeper ≡ self.old.keeper }
        ensures vault { self.new.vault ≡ self.old.vault }
        ensures spools { self.new.spools ≡ self.old.spools }
        ensures is { IsPlan J.run.plan }
        ensures small { IsSmall J.run.plan }
        ensures kept { Kept J.run.plan self.old.course.machine }
        ensures enabled { Enabled J.run.plan self.old.course.machine event }
        ensures runs { running self.old.course.machine ≡ true }
        ensures none { self.old.course.fault ≡ None }
        ensures durable { IsDurable J.run K.tells self.old.course.machine.stored (K.left self.old.keeper (K.time self.old.keeper)) }
        ensures settled { IsSettled V.tells V.time V.left V.held self.old.vault }
    {
        match self.course.reserve(event) {
            Ok(()) => Ok(()),
            Err(_) => Err(self.course.stop(worker, CoreFault::Memory)),
        }
    }

    /// An event that takes no memory and touches no device, in the place that was taken for it.
    pub fn add(&mut self, worker: u8, event: Event)
        requires can { can J.run.plan self.old.course.machine event ≡ true }
        requires bears { bears (owed J.run.plan self.old.course.machine event) worker ≡ true }
        requires free { takes_memory event ≡ false }
        requires goes { is_fault event ≡ false }
        requires calm { writes event ≡ false }
        requires place { length self.old.course.journal + 2 ≤ self.old.course.places }
        ensures did { Did J.run.plan self.old.course self.new.course worker event }
        ensures keeper { self.new.keeper ≡ self.old.keeper }
        ensures vault { self.new.vault ≡ self.old.vault }
        ensures spools { self.new.spools ≡ self.old.spools }
    {
        self.course.add(worker, event);
    }

    /// An event that touches no device, and for which the machine may want memory, in the place that was taken for it.
    pub fn try_add(&mut self, worker: u8, event: Event) -> Result<(), Stopped>
        requires can { can J.run.plan self.old.course.machine event ≡ true }
        requires bears { bears (owed J.run.plan self.old.course.machine event) worker ≡ true }
        requires goes { is_fault event ≡ false }
        requires calm { writes event ≡ false }
        requires place { length self.old.course.journal + 2 ≤ self.old.course.places }
        ensures did { OnOk result (Did J.run.plan self.old.course self.new.course worker event) }
        ensures stops { OnErr result (Stops J.run.plan self.old.course self.new.course worker) }
        ensures keeper { self.new.keeper ≡ self.old.keeper }
        ensures vault { self.new.vault ≡ self.old.vault }
        ensures spools { self.new.spools ≡ self.old.spools }
    {
        self.course.facts();
        match self.course.try_add(worker, event) {
            Ok(()) => Ok(()),
            Err(_) => Err(self.course.stop(worker, CoreFault::Memory)),
        }
    }

    /// An event that takes no memory and touches no device.
    pub fn pass(&mut self, worker: u8, event: Event) -> Result<(), Stopped>
        requires can { can J.run.plan self.old.course.machine event ≡ true }
        requires bears { bears (owed J.run.plan self.old.course.machine event) worker ≡ true }
        requires free { takes_memory event ≡ false }
        requires goes { is_fault event ≡ false }
        requires calm { writes event ≡ false }
        ensures did { OnOk result (Did J.run.plan self.old.course self.new.course worker event) }
        ensures stops { OnErr result (Stops J.run.plan self.old.course self.new.course worker) }
        ensures keeper { self.new.keeper ≡ self.old.keeper }
        ensures vault { self.new.vault ≡ self.old.vault }
        ensures spools { self.new.spools ≡ self.old.spools }
    {
        self.reserve(worker, event)?;
        self.add(worker, event);
        Ok(())
    }

    /// The run stops with a fault that has its cause.
    pub fn stop(&mut self, worker: u8, fault: CoreFault<<P::S as Spool>::Fault>) -> Stopped
        requires runs { running self.old.course.machine ≡ true }
        requires cause { IsCaused J.run.job J.run.told V.tells P.S.tells (counted J.run)
            (record { keeper = K.faults self.old.keeper; vault = V.faults self.old.vault; spools = P.faults self.old.spools }) fault }
        ensures stops { StopsWith J.run.plan self.old.course self.new.course worker fault }
        ensures keeper { self.new.keeper ≡ self.old.keeper }
        ensures vault { self.new.vault ≡ self.old.vault }
        ensures spools { self.new.spools ≡ self.old.spools }
    {
        self.course.facts();
        self.course.stop(worker, fault)
    }

    /// An empty spool.
    pub fn fresh(&mut self, worker: u8) -> Result<P::S, Stopped>
        requires { running self.old.course.machine ≡ true }
        ensures empty { IfOk result (λ spool. (number : ℕ) → P.S.held spool number ≡ None) }
        ensures course { OnOk result (self.new.course ≡ self.old.course) }
        ensures stops { OnErr result (Stops J.run.plan self.old.course self.new.course worker) }
        ensures keeper { self.new.keeper ≡ self.old.keeper }
        ensures vault { self.new.vault ≡ self.old.vault }
    {
        self.course.facts();
        match self.spools.fresh() {
            Ok(spool) => Ok(spool),
            Err(SpoolsRefusal::Failed) => Err(self.course.stop(worker, CoreFault::Spools)),
            Err(SpoolsRefusal::Memory) => Err(self.course.stop(worker, CoreFault::Memory)),
        }
    }

    /// What is known of each run.
    pub fn facts(&self)
        ensures history { IsHistory J.run.plan J.run.stored J.run.from self.now.course.journal }
        ensures now { self.now.course.machine ≡ after J.run.plan (beginning J.run.plan J.run.stored J.run.from) self.now.course.journal }
        ensures same { self.now.course.machine.fault ≡ status_of self.now.course.fault }
        ensures small { IsSmall J.run.plan }
        ensures kept { Kept J.run.plan self.now.course.machine }
        ensures rows { BeginsRight J.run K.tells →
            FitsKeeper J.run.job.flow (status_of self.now.course.fault) self.now.course.machine.stored (K.stored self.now.keeper) }
        ensures last { self.now.course.fault ≡ None → K.last self.now.keeper ≡ self.now.course.machine.stored }
        ensures is_sound { self.now.course.fault ≡ None → IsTrue (K.sound self.now.keeper) }
        ensures is_vault_sound { self.now.course.fault ≡ None → IsTrue (V.sound self.now.vault) }
        ensures caused { IfSome self.now.course.fault
            (IsCaused J.run.job J.run.told V.tells P.S.tells (counted J.run)
            (record { keeper = K.faults self.now.keeper; vault = V.faults self.now.vault; spools = P.faults self.now.spools })) }
        ensures later { AreLater (counted J.run)
            (record { keeper = K.faults self.now.keeper; vault = V.faults self.now.vault; spools = P.faults self.now.spools }) }
        ensures tells { IsTrue J.run.told → IsTrue V.tells × IsTrue P.S.tells }

        // What a crash now leaves of the stores.
        ensures durable { IsDurable J.run K.tells self.now.course.machine.stored (K.left self.now.keeper (K.time self.now.keeper)) }
        ensures settled { running self.now.course.machine ≡ true → IsSettled V.tells V.time V.left V.held self.now.vault }
    {
        self.course.facts();
    }

    /// The machine.
    pub fn machine(&self) -> &Machine
        ensures { result.now ≡ record { plan = J.run.plan; state = self.now.course.machine } }
    {
        self.course.machine()
    }

    /// What happened so far, in order.
    pub fn entries(&self) -> &[Entry]
        ensures { result.now ≡ self.now.course.journal }
    {
        self.course.entries()
    }

    /// Why the run stopped, if it did.
    pub fn fault(&self) -> Option<&CoreFault<<P::S as Spool>::Fault>>
        ensures some { IfSome result (λ fault. self.now.course.fault ≡ Some fault.now) }
        ensures none { IfNone result (self.now.course.fault ≡ None) }
    {
        self.course.fault()
    }

    /// The devices, the journal, and why the run stopped, if it did.
    pub fn close(
        self,
    ) -> (
        Devices<K, V, P>,
        Journal,
        Option<CoreFault<<P::S as Spool>::Fault>>,
    )
        ensures keeper { result.0.keeper ≡ self.keeper }
        ensures vault { result.0.vault ≡ self.vault }
        ensures spools { result.0.spools ≡ self.spools }
        ensures journal { result.1 ≡ self.course.journal }
        ensures fault { result.2 ≡ self.course.fault }
    {
        let Stores {
            keeper,
            vault,
            spools,
            course,
        } = self;
        let (journal, fault) = course.close();
        let devices = Devices {
            keeper,
            vault,
            spools,
        };
        (devices, journal, fault)
    }
}
