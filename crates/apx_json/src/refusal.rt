//! Why a text is no application.

ghost use Rattle.std.specs.Prelude.{◌≡◌};
ghost use Rattle.apx_json.specs.declared.refusal.JsonRefusal.TheVariants.{Memory};

use crate::name::Name;
use std::alloc::{AllocError, AllocFailed};
use thiserror::Error;

/// Why a text is no application.
#[derive(Debug, Drop, Error)]
pub enum JsonRefusal {
    /// The text is no JSON.
    #[error("no JSON")]
    Syntax,
    /// The first member, by its path, that is missing or of another shape.
    #[error("{place} is missing or has another shape")]
    Shape { place: Name },
    /// Memory ran out.
    #[error("out of memory")]
    Memory,
}

impl From<AllocError> for JsonRefusal {
    ghost from_gives = { λ _ e. e ≡ Memory };

    fn from(_refused: AllocError) -> JsonRefusal {
        JsonRefusal::Memory
    }
}

impl<T: Drop> From<AllocFailed<T>> for JsonRefusal {
    ghost from_gives = { λ _ e. e ≡ Memory };

    fn from(_refused: AllocFailed<T>) -> JsonRefusal {
        JsonRefusal::Memory
    }
}
