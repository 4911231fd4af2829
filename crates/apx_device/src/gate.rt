// A gate: where a worker may be held up between two of its turns.

/// When a worker passes the gate.
#[derive(Clone, Copy, Debug, PartialEq, Eq)]
pub enum PassKind {
    /// The worker has claimed a window of a partition.
    Claimed,
    /// The worker is about to give back what it has made of its claim.
    Ready,
}

/// What a worker passes outside its turns, once it has a claim and before it gives the claim back.
///
/// It may hold the worker up for as long as it likes: nothing is promised of the time that this takes.
pub trait Gate {
    /// The worker passes with its claim of a window of an operator's partition.
    fn pass(&self, kind: PassKind, op: u16, part: u8, window: u32);
}

/// A gate that does nothing.
///
/// ```
/// NoGate.pass(PassKind::Claimed, 2, 0, 1);
/// ```
#[derive(Clone, Copy, Debug, Default, Drop)]
pub struct NoGate;

impl Gate for NoGate {
    fn pass(&self, _kind: PassKind, _op: u16, _part: u8, _window: u32) {}
}
