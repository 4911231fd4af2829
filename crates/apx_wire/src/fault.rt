//! Why a decoder took no piece.
ghost use Rattle.std.specs.Prelude.{◌≡◌};
ghost use Rattle.apx_wire.specs.declared.fault.WireFault.TheVariants.{Memory};

use std::alloc::{AllocError, AllocFailed};
use thiserror::Error;

/// Why a piece was refused. Places count from the first byte of the stream.
#[derive(Debug, PartialEq, Eq, Drop, Error)]
pub enum WireFault {
    /// A type byte outside 1 to 6, at its place.
    #[error("no message has the type byte at {at}")]
    BadType { at: u64 },
    /// A key length above 1,024, at the message's place.
    #[error("the key of the message at {at} is too long")]
    BadKey { at: u64 },
    /// A number that isn't its key's, at the message's place.
    #[error("the message at {at} has not its key's number")]
    BadNumber { at: u64 },
    /// A whole message out of order, at its place.
    #[error("the message at {at} is out of order")]
    BadOrder { at: u64 },
    #[error("out of memory")]
    Memory,
}

impl From<AllocError> for WireFault {
    ghost from_gives = { λ _ e. e ≡ Memory };

    fn from(_error: AllocError) -> WireFault {
        WireFault::Memory
    }
}

impl<T: Drop> From<AllocFailed<T>> for WireFault {
    ghost from_gives = { λ _ e. e ≡ Memory };

    fn from(_error: AllocFailed<T>) -> WireFault {
        WireFault::Memory
    }
}
