//! The end of a core.
ghost use Rattle.std.specs.Prelude.{◌≡◌};

use crate::cores::Core;
use apx_course::{CoreFault, Naming};
use apx_device::{Keeper, Spool, Spools, Vault};
use apx_machine::Journal;
use apx_stores::Devices;
use std::marker::Model;

/// The journal of a run. Only a core that is closed gives one, so each entry was a call of the core.
#[derive(Debug, Drop)]
pub struct RunJournal {
    /// What happened.
    journal: Journal,
}

impl Model for RunJournal {
    ghost use Rattle.std.specs.Prelude.{List};
    ghost use Rattle.apx_history.specs.declared.Entry as entry;

    ghost Value = { List entry.Entry };

    ghost view = { λ r. r.journal };
}

impl RunJournal {
    /// The journal.
    pub fn journal(&self) -> &Journal
        ensures { result.now ≡ self.now }
    {
        &self.journal
    }
}

/// What is left of a core: the devices, what happened, and why the run stopped, if it did.
#[derive(Drop)]
pub struct Closed<K, V, P, F> {
    /// The devices.
    pub devices: Devices<K, V, P>,
    /// What happened.
    pub journal: RunJournal,
    /// Why the run stopped, if it did.
    pub fault: Option<CoreFault<F>>,
}

impl<K: Keeper + Drop, V: Vault + Drop, P: Spools + Drop, J: Naming> Core<K, V, P, J> {
    /// The devices, what happened, and why the run stopped, if it did.
    pub fn close(self) -> Closed<K, V, P, <P::S as Spool>::Fault>
        ensures keeper { result.devices.keeper ≡ self.stores.keeper }
        ensures vault { result.devices.vault ≡ self.stores.vault }
        ensures spools { result.devices.spools ≡ self.stores.spools }
        ensures journal { result.journal ≡ self.stores.course.journal }
        ensures fault { result.fault ≡ self.stores.course.fault }
    {
        let Core {
            stores,
            contents: _,
            job: _,
            alloc: _,
        } = self;
        let (devices, journal, fault) = stores.close();
        Closed {
            devices,
            journal: RunJournal { journal },
            fault,
        }
    }
}
