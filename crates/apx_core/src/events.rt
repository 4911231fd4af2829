//! The events that take nothing from a claim: one call for each.
ghost use Rattle.std.specs.Prelude.{◌≡◌, ◌<◌, true, false, length, IsTrue, OnOk, OnErr};
ghost use Rattle.apx_history.specs.State.{running, oper};
ghost use Rattle.apx_history.specs.Enabled.{can};
ghost use Rattle.apx_history.specs.declared.Event.TheVariants.{Save, Advance, Commit, Purge, End};
ghost use Rattle.apx_device.specs.Vault.{entries_from};
ghost use Rattle.apx_course.specs.Course.{Did, Stops, StopsWith};
ghost use Rattle.apx_stores.specs.Caused.{IsCaused};
ghost use Rattle.apx_stores.specs.Whole.{counted};
ghost use Rattle.apx_held.specs.Holding.{holding, put_holding, dropped};
ghost use Rattle.apx_held.specs.Fits.{save_id};
ghost use Rattle.apx_stores.specs.Crashes.{EntriesFollow, NoPut};
ghost use Rattle.apx_core.specs.Crashes.{IsOfRun};
ghost use Rattle.apx_core.specs.Core.{IsSavedIn};

use crate::cores::Core;
use apx_course::{CoreFault, Naming, Stopped};
use apx_device::{Keeper, SaveId, Spool, Spools, Vault};
use apx_history::Event;
use apx_part::PartId;
use apx_stores::Stores;

/// The id of the checkpoint of a partition after a window, in the epoch that its operator is in.
fn save_id<K: Keeper + Drop, V: Vault + Drop, P: Spools + Drop, J: Naming>(
    stores: &Stores<K, V, P, J>,
    id: PartId,
    window: u32,
) -> SaveId
    requires { id.op < length stores.now.course.machine.ops }
    ensures { result ≡ save_id id.op (oper stores.now.course.machine id.op).boundary id.part window }
{
    SaveId {
        op: id.op,
        boundary: stores.machine().boundary(id.op as usize),
        part: id.part,
        window,
    }
}

impl<K: Keeper + Drop, V: Vault + Drop, P: Spools + Drop, J: Naming> Core<K, V, P, J> {
    /// Save: the checkpoint store gets the progress of a partition after its last window.
    pub fn save(&mut self, worker: u8, id: PartId, window: u32) -> Result<(), Stopped>
        requires { can J.run.plan self.old.stores.course.machine (Save id.op id.part window) ≡ true }
        ensures did { OnOk result (Did J.run.plan self.old.stores.course self.new.stores.course worker (Save id.op id.part window)) }
        ensures stops { OnErr result (Stops J.run.plan self.old.stores.course self.new.stores.course worker) }
        ensures vault { OnOk result (IsTrue V.tells →
            IsSavedIn (save_id id.op (oper self.old.stores.course.machine id.op).boundary id.part window)
            (holding self.old.held id.op id.part) (V.held self.old.stores.vault) (V.held self.new.stores.vault)) }
        ensures crash { IsTrue V.tells → EntriesFollow (IsOfRun J.run.job J.run.told)
            V.time V.left V.held self.old.stores.vault self.new.stores.vault }
        ensures keeper { self.new.stores.keeper ≡ self.old.stores.keeper }
        ensures spools { self.new.stores.spools ≡ self.old.stores.spools }
        ensures held { self.new.held ≡ self.old.held }
    {
        let event = Event::Save {
            op: id.op,
            part: id.part,
            window,
        };
        self.stores.reserve(worker, event)?;
        let save = save_id(&self.stores, id, window);
        match self
            .contents
            .spelled(self.alloc, id.op as usize, id.part as usize)
        {
            Ok(bytes) => {
                self.stores.keep(worker, save, &bytes)?;
                self.stores.try_add(worker, event)
            }
            Err(_) => Err(self.stores.stop(worker, CoreFault::Memory)),
        }
    }

    /// Advance: a partition's recovery checkpoint becomes a later window.
    pub fn advance(&mut self, worker: u8, id: PartId, to: u32) -> Result<(), Stopped>
        requires { can J.run.plan self.old.stores.course.machine (Advance id.op id.part to) ≡ true }
        ensures did { OnOk result (Did J.run.plan self.old.stores.course self.new.stores.course worker (Advance id.op id.part to)) }
        ensures stops { OnErr result (Stops J.run.plan self.old.stores.course self.new.stores.course worker) }
        ensures keeper { self.new.stores.keeper ≡ self.old.stores.keeper }
        ensures vault { self.new.stores.vault ≡ self.old.stores.vault }
        ensures spools { self.new.stores.spools ≡ self.old.stores.spools }
        ensures held { self.new.held ≡ self.old.held }
    {
        let event = Event::Advance {
            op: id.op,
            part: id.part,
            to,
        };
        self.stores.facts();
        self.stores.pass(worker, event)
    }

    /// Commit: the checkpoint store drops what was saved below a window.
    pub fn commit(&mut self, worker: u8, to: u32) -> Result<(), Stopped>
        requires { can J.run.plan self.old.stores.course.machine (Commit to) ≡ true }
        ensures did { OnOk result (Did J.run.plan self.old.stores.course self.new.stores.course worker (Commit to)) }
        ensures stops { OnErr result (Stops J.run.plan self.old.stores.course self.new.stores.course worker) }
        ensures dropped { OnOk result (IsTrue V.tells →
            V.held self.new.stores.vault ≡ entries_from (V.held self.old.stores.vault) to) }
        ensures crash { IsTrue V.tells → EntriesFollow NoPut V.time V.left V.held self.old.stores.vault self.new.stores.vault }
        ensures keeper { self.new.stores.keeper ≡ self.old.stores.keeper }
        ensures spools { self.new.stores.spools ≡ self.old.stores.spools }
        ensures held { self.new.held ≡ self.old.held }
    {
        self.stores.facts();
        self.stores.commit(worker, to)
    }

    /// Purge: the blocks of a partition's windows up to one are dropped.
    pub fn purge(&mut self, worker: u8, id: PartId, to: u32) -> Result<(), Stopped>
        requires { can J.run.plan self.old.stores.course.machine (Purge id.op id.part to) ≡ true }
        ensures did { OnOk result (Did J.run.plan self.old.stores.course self.new.stores.course worker (Purge id.op id.part to)) }
        ensures stops { OnErr result (Stops J.run.plan self.old.stores.course self.new.stores.course worker) }
        ensures keeper { self.new.stores.keeper ≡ self.old.stores.keeper }
        ensures vault { self.new.stores.vault ≡ self.old.stores.vault }
        ensures spools { self.new.stores.spools ≡ self.old.stores.spools }
        ensures held { OnOk result
            (self.new.held ≡ put_holding self.old.held id.op id.part (dropped to (holding self.old.held id.op id.part))) }
        ensures stays { OnErr result (self.new.held ≡ self.old.held) }
    {
        let event = Event::Purge {
            op: id.op,
            part: id.part,
            to,
        };
        self.stores.reserve(worker, event)?;
        self.contents.purge(id.op as usize, id.part as usize, to);
        self.stores.add(worker, event);
        Ok(())
    }

    /// End: the run is over.
    pub fn end(&mut self, worker: u8) -> Result<(), Stopped>
        requires { can J.run.plan self.old.stores.course.machine End ≡ true }
        ensures did { OnOk result (Did J.run.plan self.old.stores.course self.new.stores.course worker End) }
        ensures stops { OnErr result (Stops J.run.plan self.old.stores.course self.new.stores.course worker) }
        ensures keeper { self.new.stores.keeper ≡ self.old.stores.keeper }
        ensures vault { self.new.stores.vault ≡ self.old.stores.vault }
        ensures spools { self.new.stores.spools ≡ self.old.stores.spools }
        ensures held { self.new.held ≡ self.old.held }
    {
        self.stores.facts();
        self.stores.pass(worker, Event::End)
    }

    /// The run stops with a fault that was met outside it and has its cause: want of memory, or what is too large.
    pub fn fail(&mut self, worker: u8, fault: CoreFault<<P::S as Spool>::Fault>) -> Stopped
        requires runs { running self.old.stores.course.machine ≡ true }
        requires cause { IsCaused J.run.job J.run.told V.tells P.S.tells (counted J.run)
            (record { keeper = K.faults self.old.stores.keeper; vault = V.faults self.old.stores.vault; spools = P.faults self.old.stores.spools }) fault }
        ensures stops { StopsWith J.run.plan self.old.stores.course self.new.stores.course worker fault }
        ensures keeper { self.new.stores.keeper ≡ self.old.stores.keeper }
        ensures vault { self.new.stores.vault ≡ self.old.stores.vault }
        ensures spools { self.new.stores.spools ≡ self.old.stores.spools }
        ensures held { self.new.held ≡ self.old.held }
    {
        self.stores.stop(worker, fault)
    }
}
