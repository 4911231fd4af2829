//! Why a file is refused.
ghost use Rattle.std.specs.Prelude.{◌≡◌};
ghost use Rattle.apx_input.specs.declared.refusal.LineRefusal.TheVariants.{Memory as NoMemory};

use std::alloc::{AllocError, AllocFailed};
use thiserror::Error;

/// The first line of a file that is refused, counted from 1, by its cause.
#[derive(Debug, PartialEq, Eq, Drop, Error)]
pub enum LineRefusal {
    /// The line would begin window 20,001.
    #[error("line {line}: too many windows")]
    TooMany { line: u64 },
    /// The line has more than 1,024 bytes.
    #[error("line {line}: too long")]
    TooLong { line: u64 },
    /// The line is no key, tab and value.
    #[error("line {line}: no pair")]
    BadPair { line: u64 },
    #[error("out of memory")]
    Memory,
}

impl From<AllocError> for LineRefusal {
    ghost from_gives = { λ _ e. e ≡ NoMemory };

    fn from(_error: AllocError) -> LineRefusal {
        LineRefusal::Memory
    }
}

impl<T: Drop> From<AllocFailed<T>> for LineRefusal {
    ghost from_gives = { λ _ e. e ≡ NoMemory };

    fn from(_error: AllocFailed<T>) -> LineRefusal {
        LineRefusal::Memory
    }
}
