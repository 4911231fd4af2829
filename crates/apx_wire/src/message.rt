//! The messages of a stream: data and the control tuples beside it.
use apx_tuple::Tuple;
use apx_window::WindowId;

/// A message of a stream.
#[derive(Debug, PartialEq, Eq, Drop)]
pub enum Message {
    /// A tuple of the window in progress.
    Payload(Tuple),
    /// A window begins.
    Begin(WindowId),
    /// The window in progress ends.
    End(WindowId),
    /// The state after the window that has just ended is to be saved.
    Checkpoint(WindowId),
    /// Windows are counted from a new second on.
    Reset(u32),
    /// Nothing comes after this.
    EndOfStream,
}
