//! Why an application is no valid graph.

ghost use Rattle.std.specs.Prelude.{◌≡◌, option_map};
ghost use Rattle.apx_dag.specs.declared.refusal.AppRefusal.TheVariants.{Memory};
ghost use Rattle.apx_dag.specs.Checks.{Gives, unless};

use apx_json::Name;
use std::alloc::{AllocError, AllocFailed};
use thiserror::Error;

/// Why an application is no valid graph.
#[derive(Debug, Drop, Error)]
pub enum AppRefusal {
    /// The first rule that is broken, by its number from 1 to 16, and the name
    /// of the operator or stream that breaks it first; the name is empty for
    /// the rules 1, 9 and 14, which are of the whole application.
    #[error("application refused: A{code} {place}")]
    Refused { code: u8, place: Name },
    /// Memory ran out.
    #[error("out of memory")]
    Memory,
}

impl From<AllocError> for AppRefusal {
    ghost from_gives = { λ _ e. e ≡ Memory };

    fn from(_refused: AllocError) -> AppRefusal {
        AppRefusal::Memory
    }
}

impl<T: Drop> From<AllocFailed<T>> for AppRefusal {
    ghost from_gives = { λ _ e. e ≡ Memory };

    fn from(_refused: AllocFailed<T>) -> AppRefusal {
        AppRefusal::Memory
    }
}

/// Refuses by a rule where a place breaks it.
#[tactic(auto, unfolding(crate::specs::Checks::unless))]
pub(crate) fn refuse(code: u8, place: Option<&Name>) -> Result<(), AppRefusal>
    ensures { Gives result (unless code (option_map (λ name. name.now) place.entry)) }
{
    match place {
        None => Ok(()),
        Some(name) => Err(AppRefusal::Refused {
            code,
            place: name.copy()?,
        }),
    }
}
