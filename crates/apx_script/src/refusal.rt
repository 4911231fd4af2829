//! Why a script is refused.

ghost use Rattle.std.specs.Prelude.{◌≡◌};
ghost use Rattle.apx_script.specs.declared.refusal.ScriptRefusal.TheVariants.{Memory};

use std::alloc::{AllocError, AllocFailed};
use thiserror::Error;

/// Why a script is refused.
#[derive(Clone, Copy, Debug, PartialEq, Eq, Error)]
pub enum ScriptRefusal {
    /// A line that is refused, by its number from 1, and why: 1 where it is
    /// no command, 2 where it is command 1,001. A job refuses for 3 to 10.
    #[error("script line {line} refused: S{why}")]
    Line { line: u64, why: u8 },
    /// Memory ran out.
    #[error("out of memory")]
    Memory,
}

impl From<AllocError> for ScriptRefusal {
    ghost from_gives = { λ _ e. e ≡ Memory };

    fn from(_refused: AllocError) -> ScriptRefusal {
        ScriptRefusal::Memory
    }
}

impl<T: Drop> From<AllocFailed<T>> for ScriptRefusal {
    ghost from_gives = { λ _ e. e ≡ Memory };

    fn from(_refused: AllocFailed<T>) -> ScriptRefusal {
        ScriptRefusal::Memory
    }
}
