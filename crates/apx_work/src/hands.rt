//! What a worker has in hand between two turns.

use apx_history::Event;

/// A window of a partition that a worker has open.
///
/// ```text
/// OpenWindow { op: 1, part: 0, window: 3, worker: 2 }
/// ```
#[derive(Clone, Copy, Debug, PartialEq, Eq)]
pub struct OpenWindow {
    /// The operator's number.
    pub op: u16,
    /// The partition.
    pub part: u8,
    /// The window.
    pub window: u32,
    /// The worker who began it.
    pub worker: u8,
}

/// What a worker comes to a turn with.
#[derive(Drop)]
pub(crate) enum Hand<C, D, F> {
    /// Nothing: it has nothing open.
    Free,
    /// A claim, and what its work made.
    Ready(C, D),
    /// The refusal of a claim's work.
    Refused(F),
}

/// What a worker leaves a turn with.
#[derive(Drop)]
pub(crate) enum Next<C, D, F> {
    /// The run is over.
    Over,
    /// There was nothing to do.
    Wait(Hand<C, D, F>),
    /// An event was done.
    Go(Hand<C, D, F>),
    /// A claim was given, whose work is to be done.
    Work(C),
}

/// What a worker with nothing open is to do.
#[derive(Clone, Copy)]
pub(crate) enum Task {
    /// Nothing.
    Rest,
    /// To begin a window of a partition.
    Begin { op: u16, part: u8, window: u32 },
    /// To kill a partition by a line of the script.
    Strike { line: u32 },
    /// To do an event that has to do with no claim.
    Alone { event: Event },
}

/// What a worker is to do with the window that it has open.
#[derive(Clone, Copy)]
pub(crate) enum Due {
    /// Nothing.
    Nothing,
    /// To store the sink's window.
    Store,
    /// To finish the window.
    Close,
    /// To give the window up, since a line of the script kills the partition.
    Drop { line: u32 },
}
