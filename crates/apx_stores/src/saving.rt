//! The events and the work that touch the checkpoint store.
ghost use Rattle.std.specs.Prelude.{◌≡◌, ◌<◌, true, length, IsTrue, IfOk, OnOk, OnErr};
ghost use Rattle.apx_history.specs.State.{running};
ghost use Rattle.apx_history.specs.Enabled.{can};
ghost use Rattle.apx_history.specs.declared.Event.TheVariants.{Commit};
ghost use Rattle.apx_device.specs.Vault.{bytes_at, with_entry, entries_from};
ghost use Rattle.apx_course.specs.Course.{Did, Stops};
ghost use Rattle.apx_stores.specs.Crashes.{EntriesFollow, IsPut, NoPut};

use crate::stores::Stores;
use apx_course::{CoreFault, Naming, Stopped};
use apx_device::{Keeper, SaveId, Spools, Vault, VaultRefusal};
use apx_history::Event;
use std::alloc::Global;

impl<K: Keeper + Drop, V: Vault + Drop, P: Spools + Drop, J: Naming> Stores<K, V, P, J> {
    /// The checkpoint store keeps bytes under an id. It is no event.
    pub fn keep(&mut self, worker: u8, id: SaveId, bytes: &[u8]) -> Result<(), Stopped>
        requires runs { running self.old.course.machine ≡ true }
        requires small { length bytes.now < 4294967280 }
        ensures course { OnOk result (self.new.course ≡ self.old.course) }
        ensures stops { OnErr result (Stops J.run.plan self.old.course self.new.course worker) }
        ensures held { OnOk result (IsTrue V.tells → V.held self.new.vault ≡ with_entry (V.held self.old.vault) id bytes.now) }
        ensures crash { IsTrue V.tells → EntriesFollow (IsPut id bytes.now) V.time V.left V.held self.old.vault self.new.vault }
        ensures keeper { self.new.keeper ≡ self.old.keeper }
        ensures spools { self.new.spools ≡ self.old.spools }
    {
        self.course.facts();
        match self.vault.put(id, bytes) {
            Ok(()) => Ok(()),
            Err(VaultRefusal::Failed) => Err(self.course.stop(worker, CoreFault::Vault)),
            Err(VaultRefusal::Memory) => Err(self.course.stop(worker, CoreFault::Memory)),
        }
    }

    /// What the checkpoint store has under an id. It is no event.
    pub fn fetch(&mut self, alloc: Global, worker: u8, id: SaveId) -> Result<Vec<u8>, Stopped>
        requires { running self.old.course.machine ≡ true }
        ensures bytes { IsTrue V.tells → IfOk result (λ bytes. bytes.items ≡ bytes_at (V.held self.old.vault) id) }
        ensures course { OnOk result (self.new.course ≡ self.old.course) }
        ensures stops { OnErr result (Stops J.run.plan self.old.course self.new.course worker) }
        ensures held { IsTrue V.tells → V.held self.new.vault ≡ V.held self.old.vault }
        ensures crash { IsTrue V.tells → EntriesFollow NoPut V.time V.left V.held self.old.vault self.new.vault }
        ensures keeper { self.new.keeper ≡ self.old.keeper }
        ensures spools { self.new.spools ≡ self.old.spools }
    {
        self.course.facts();
        match self.vault.get(alloc, id) {
            Ok(bytes) => Ok(bytes),
            Err(VaultRefusal::Failed) => Err(self.course.stop(worker, CoreFault::Vault)),
            Err(VaultRefusal::Memory) => Err(self.course.stop(worker, CoreFault::Memory)),
        }
    }

    /// Commit: the checkpoint store drops what it has of the windows below one.
    pub fn commit(&mut self, worker: u8, to: u32) -> Result<(), Stopped>
        requires { can J.run.plan self.old.course.machine (Commit to) ≡ true }
        ensures did { OnOk result (Did J.run.plan self.old.course self.new.course worker (Commit to)) }
        ensures stops { OnErr result (Stops J.run.plan self.old.course self.new.course worker) }
        ensures held { OnOk result (IsTrue V.tells → V.held self.new.vault ≡ entries_from (V.held self.old.vault) to) }
        ensures crash { IsTrue V.tells → EntriesFollow NoPut V.time V.left V.held self.old.vault self.new.vault }
        ensures keeper { self.new.keeper ≡ self.old.keeper }
        ensures spools { self.new.spools ≡ self.old.spools }
    {
        let event = Event::Commit { to };
        self.reserve(worker, event)?;
        match self.vault.drop_below(to) {
            Ok(()) => {
                self.course.add(worker, event);
                Ok(())
            }
            Err(VaultRefusal::Failed) => Err(self.course.stop(worker, CoreFault::Vault)),
            Err(VaultRefusal::Memory) => Err(self.course.stop(worker, CoreFault::Memory)),
        }
    }
}
