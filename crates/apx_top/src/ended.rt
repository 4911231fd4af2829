//! What a command leaves behind it.
ghost use Rattle.std.specs.Prelude.{◌≡◌};
ghost use Rattle.apx_top.specs.Left.{left_of, without_run, ran_to};

use apx_core::{Devices, RunJournal};
use apx_device::SaveId;
use apx_load::Stop;

/// What happened in a run.
#[derive(Debug, Drop)]
pub enum History {
    /// No run began.
    Nothing,
    /// What the core of a run did.
    Core(RunJournal),
}

/// Bytes of a device that spell nothing.
#[derive(Debug, Drop)]
pub enum Shown {
    /// What the checkpoint store gave for a state.
    State {
        id: SaveId,
        bytes: Vec<u8>,
    },
    /// What a spool gave for a block.
    Block {
        /// The operator of the partition whose block it is.
        op: u16,
        /// The partition.
        part: u8,
        /// The number of the block in the partition's list.
        number: u64,
        /// The block's window.
        window: u32,
        /// The block's place in its window, from 0.
        index: u32,
        /// Whether it is the window's last.
        last: bool,
        /// What the spool gave.
        bytes: Vec<u8>,
    },
}

/// How a run ended. `F` is how its spools fail.
#[derive(Drop)]
pub struct Ended<K, V, P, F> {
    /// The exit status: 0 for a run without a fault.
    pub status: u8,
    /// Why it stopped, unless it came to its end.
    pub end: Result<(), Stop>,
    /// The devices after the run.
    pub devices: Devices<K, V, P>,
    /// What happened.
    pub journal: History,
    /// The bytes that spelled nothing, where those stopped it.
    pub shown: Option<Shown>,
    /// How a spool failed, where that stopped it.
    pub spool: Option<F>,
}

/// How a command came to its end: all of [`Ended`] but for its status.
#[derive(Drop)]
pub(crate) struct Outcome<K, V, P, F> {
    /// Why it stopped, unless it came to its end.
    pub(crate) end: Result<(), Stop>,
    /// The devices after it.
    pub(crate) devices: Devices<K, V, P>,
    /// What happened.
    pub(crate) journal: History,
    /// The bytes that spelled nothing, where those stopped it.
    pub(crate) shown: Option<Shown>,
    /// How a spool failed, where that stopped it.
    pub(crate) spool: Option<F>,
}

/// A run that came to its end, before anything of it is printed.
#[derive(Drop)]
pub(crate) struct Finished<K, V, P> {
    /// The devices after it.
    pub(crate) devices: Devices<K, V, P>,
    /// What happened.
    pub(crate) journal: RunJournal,
}

impl<K, V, P> Finished<K, V, P> {
    /// Its outcome, where printing it ended so.
    pub(crate) fn printed<F>(self, end: Result<(), Stop>) -> Outcome<K, V, P, F>
        ensures left { left_of result ≡ ran_to self.journal end }
        ensures devices { result.devices ≡ self.devices }
    {
        Outcome {
            end,
            devices: self.devices,
            journal: History::Core(self.journal),
            shown: None,
            spool: None,
        }
    }
}

/// The outcome of what ran nothing.
pub(crate) fn unrun<K, V, P, F>(
    devices: Devices<K, V, P>,
    end: Result<(), Stop>,
) -> Outcome<K, V, P, F>
    ensures left { left_of result ≡ without_run end }
    ensures devices { result.devices ≡ devices }
{
    Outcome {
        end,
        devices,
        journal: History::Nothing,
        shown: None,
        spool: None,
    }
}
