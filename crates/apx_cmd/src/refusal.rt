//! Why words are refused.

ghost use Rattle.std.specs.Prelude.{◌≡◌};
ghost use Rattle.apx_cmd.specs.declared.refusal.CommandRefusal.TheVariants.{Memory};

use std::alloc::AllocError;
use thiserror::Error;

/// Why words are refused.
#[derive(Clone, Copy, Debug, PartialEq, Eq, Error)]
pub enum CommandRefusal {
    /// They are no command.
    #[error("not a command")]
    Usage,
    /// They are one, and memory ran out.
    #[error("out of memory")]
    Memory,
}

impl From<AllocError> for CommandRefusal {
    ghost from_gives = { λ _ e. e ≡ Memory };

    fn from(_refused: AllocError) -> CommandRefusal {
        CommandRefusal::Memory
    }
}
