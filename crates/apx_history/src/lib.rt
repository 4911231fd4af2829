//! What may happen in a run, what every history keeps, and that every history ends: definitions and laws.
//!
//! A run is a list of events: partitions begin, finish and save windows, recovery checkpoints advance, what isn't
//! needed any more is dropped, and a script kills partitions and replaces them. `specs/Enabled.antt` says which event
//! may come next, `specs/Effects.antt` what it changes, `specs/Journals.antt` what a history is, `specs/Kept.antt`
//! what every state keeps. Nothing here speaks of threads, devices or the rows of a window: a history is plain data,
//! and the laws hold for every history from every start, whoever made it.
//!
//! The functions do nothing: each states a law in its contract.
#![tactic(auto)]

ghost use Rattle.apx_history.specs.Laws.{StartsKeep, EventsKeep, HistoriesKeep, ChoicesAreExact, AlwaysGoesOn, IsBounded, EndsWell, KeepsWhatIsNeeded, StaysOpen, OpensInEpoch};

/// What happens in a run. Operators, partitions and lines of the script are numbered from 0, windows from 1.
///
/// ```text
/// Event::Start { op: 1, part: 0, window: 3 }
/// ```
/// is the begin of window 3 by the first partition of the second operator.
#[derive(Clone, Copy, Debug, PartialEq, Eq)]
pub enum Event {
    /// A partition begins a window.
    Start { op: u16, part: u8, window: u32 },
    /// The sink's open window is stored.
    Write { window: u32 },
    /// A partition ends its open window.
    Finish { op: u16, part: u8, window: u32 },
    /// The state of a partition after a window is saved.
    Save { op: u16, part: u8, window: u32 },
    /// A partition's recovery checkpoint becomes a later window.
    Advance { op: u16, part: u8, to: u32 },
    /// What was saved below a window is dropped.
    Commit { to: u32 },
    /// The blocks of a partition up to a window are dropped.
    Purge { op: u16, part: u8, to: u32 },
    /// A line of the script kills a partition, and all that is downstream of it.
    Kill { line: u32 },
    /// A line of the script gives an operator another number of partitions.
    Repartition { line: u32 },
    /// The run is over.
    End,
    /// The run stops with a status.
    Fault { status: u8 },
}

/// An event, and the worker who did it.
///
/// ```text
/// Entry { worker: 0, event: Event::Write { window: 1 } }
/// ```
#[derive(Clone, Copy, Debug, PartialEq, Eq)]
pub struct Entry {
    /// The worker's number.
    pub worker: u8,
    /// What the worker did.
    pub event: Event,
}

/// The moment of a window at which a line of the script kills a partition.
#[derive(Clone, Copy, Debug, PartialEq, Eq)]
pub enum Point {
    /// The window is the next, and isn't open.
    Before,
    /// The window is open.
    Staged,
    /// The sink has the window open, and it is stored.
    Written,
    /// The window is the last that was finished, and the next isn't open.
    Done,
}

/// What a line of the script does to its operator.
#[derive(Clone, Copy, Debug, PartialEq, Eq)]
pub enum Act {
    /// It kills a partition.
    Fails { point: Point, part: u8 },
    /// It gives the operator a number of partitions.
    Splits { count: u8 },
}

/// A command of the script.
///
/// ```text
/// Line { op: 1, window: 4, act: Act::Splits { count: 3 } }
/// ```
/// gives the second operator three partitions behind window 4.
#[derive(Clone, Copy, Debug, PartialEq, Eq)]
pub struct Line {
    /// The operator's number.
    pub op: u16,
    /// The window.
    pub window: u32,
    /// What it does.
    pub act: Act,
}

/// What every state keeps holds at each start of a plan.
pub fn starts_keep()
    ensures { StartsKeep }
{}

/// Each event that may come next keeps what every state keeps.
pub fn events_keep()
    ensures { EventsKeep }
{}

/// So it holds after every history.
pub fn histories_keep()
    ensures { HistoriesKeep }
{}

/// The choices are the events that may come next, but for faults and lesser purges.
pub fn choices_are_exact()
    ensures { ChoicesAreExact }
{}

/// While a run goes on there is a choice.
pub fn always_goes_on()
    ensures { AlwaysGoesOn }
{}

/// No history is longer than the bound of its plan.
pub fn is_bounded()
    ensures { IsBounded }
{}

/// Where a history has ended, all is stored and each line of the script was met exactly once.
pub fn ends_well()
    ensures { EndsWell }
{}

/// No block of a window that may still be read was purged.
pub fn keeps_what_is_needed()
    ensures { KeepsWhatIsNeeded }
{}

/// What a worker opened stays open for it until it finishes or kills the partition itself.
pub fn stays_open()
    ensures { StaysOpen }
{}

/// An open window lies in the epoch of its operator's boundary.
pub fn opens_in_epoch()
    ensures { OpensInEpoch }
{}
