//! What is told of a text that was judged.

ghost use Rattle.std.specs.Prelude.{◌≡◌};
ghost use Rattle.apx_audit.specs.declared.audited.AuditRefusal.TheVariants.{Memory};

use apx_machine::Journal;
use std::alloc::{AllocError, AllocFailed};
use thiserror::Error;

/// The journal that a text spells, and how it ends.
///
/// ```text
/// let audited = audit_journal(alloc, &job, b"0 start 0 0 1\n")?;
/// assert_eq!(audited.end, AuditEnd::Open);
/// ```
#[derive(Debug, Drop)]
pub struct Audited {
    /// Its entries.
    pub journal: Journal,
    /// How it ends.
    pub end: AuditEnd,
}

/// How a journal ends, by its last entry.
#[derive(Clone, Copy, Debug, PartialEq, Eq)]
pub enum AuditEnd {
    /// With the end of the run.
    Ended,
    /// With a fault.
    Fault,
    /// With neither: the run may go on.
    Open,
}

/// Why a text is refused.
#[derive(Clone, Copy, Debug, PartialEq, Eq, Error)]
pub enum AuditRefusal {
    /// The first line that is refused, by its number from 1, and why: 1 where it has no form of an entry or no LF ends
    /// it, 2 where its event may not come next, or another worker owes it.
    #[error("journal line {line} refused: J{why}")]
    Line { line: u64, why: u8 },
    /// Memory ran out.
    #[error("out of memory")]
    Memory,
}

impl From<AllocError> for AuditRefusal {
    ghost from_gives = { λ _ e. e ≡ Memory };

    fn from(_refused: AllocError) -> AuditRefusal {
        AuditRefusal::Memory
    }
}

impl<T: Drop> From<AllocFailed<T>> for AuditRefusal {
    ghost from_gives = { λ _ e. e ≡ Memory };

    fn from(_refused: AllocFailed<T>) -> AuditRefusal {
        AuditRefusal::Memory
    }
}
