//! Why bytes give no progress.
ghost use Rattle.std.specs.Prelude.{◌≡◌};
ghost use Rattle.apx_statebytes.specs.declared.fault.StateFault.TheVariants.{Memory};

use std::alloc::{AllocError, AllocFailed};
use thiserror::Error;

/// Why no progress was read.
#[derive(Debug, PartialEq, Eq, Drop, Error)]
pub enum StateFault {
    /// The bytes spell no progress. The first thing that is wrong shows at this place, counted from 0.
    #[error("no checkpoint: wrong at byte {at}")]
    Bad { at: usize },
    #[error("out of memory")]
    Memory,
}

impl From<AllocError> for StateFault {
    ghost from_gives = { λ _ e. e ≡ Memory };

    fn from(_error: AllocError) -> StateFault {
        StateFault::Memory
    }
}

impl<T: Drop> From<AllocFailed<T>> for StateFault {
    ghost from_gives = { λ _ e. e ≡ Memory };

    fn from(_error: AllocFailed<T>) -> StateFault {
        StateFault::Memory
    }
}
