//! Why a call of this crate gives no value.
ghost use Rattle.std.specs.Prelude.{◌≡◌};
ghost use Rattle.apx_tuple.specs.declared.refusal.Short.TheVariants.{Memory as ShortMemory};

use std::alloc::{AllocError, AllocFailed};
use thiserror::Error;

/// Why no bag or state was made. Whatever the call was to change is as it was.
#[derive(Debug, Drop, Error)]
pub enum Short {
    #[error("out of memory")]
    Memory,
    /// A bag or state that the call's definition names has a size of 4294967232 or more.
    #[error("too large")]
    Large,
}

impl From<AllocError> for Short {
    ghost from_gives = { λ _ e. e ≡ ShortMemory };

    fn from(_error: AllocError) -> Short {
        Short::Memory
    }
}

impl<T: Drop> From<AllocFailed<T>> for Short {
    ghost from_gives = { λ _ e. e ≡ ShortMemory };

    fn from(_error: AllocFailed<T>) -> Short {
        Short::Memory
    }
}

/// Why bytes make no key.
#[derive(Debug, Drop, Error)]
pub enum KeyRefusal {
    /// There are `len` bytes, more than the 1,024 that a key has at most.
    #[error("a key of {len} bytes is too long")]
    TooLong { len: usize },
    #[error("out of memory")]
    Memory,
}
