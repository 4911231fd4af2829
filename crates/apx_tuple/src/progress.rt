//! What an operator carries from window to window.
ghost use Rattle.std.specs.Prelude.{◌≡◌, []};
ghost use Rattle.apx_tuple.specs.Progress.{progress_size};

use crate::bag::Bag;
use crate::state::State;
use std::alloc::Global;

/// An operator's state, and what came on its ports since its last step.
///
/// ```
/// let mut progress = Progress::new(alloc);
/// progress.state.set(Key::of(alloc, b"b")?, 2)?;
/// ```
#[derive(Debug, Drop)]
pub struct Progress {
    /// What it keeps for each key.
    pub state: State,
    /// What came on its left port since its last step.
    pub left: Bag,
    /// The same of its right port.
    pub right: Bag,
}

impl Progress {
    /// What an operator has at the start: nothing.
    pub fn new(alloc: Global) -> Progress
        ensures { result ≡ record { state = []; left = []; right = [] } }
    {
        Progress {
            state: State::new(alloc),
            left: Bag::new(alloc),
            right: Bag::new(alloc),
        }
    }

    /// The sizes of the state and of the two bags together. No key is looked at.
    pub fn size(&self) -> u64
        ensures { result ≡ progress_size self.now }
    {
        self.state.size() + self.left.size() + self.right.size()
    }
}
