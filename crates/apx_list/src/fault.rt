//! Why a block wasn't read.
ghost use Rattle.std.specs.Prelude.{◌≡◌};

use apx_device::SpoolRefusal;
use std::alloc::{AllocError, AllocFailed};
use thiserror::Error;

/// Why a block wasn't read, or no block spilled. `F` is how the list's spool fails.
#[derive(Debug, Drop, Error)]
#[error_bound(F: std::fmt::Debug + Drop)]
pub enum ListFault<F> {
    #[error("the spool failed")]
    Fault(F),
    /// The bytes that the spool gave spell no block of this window, index and last mark.
    #[error("the spool gave other bytes for block {number}")]
    Damaged {
        number: u64,
        window: u32,
        index: u32,
        last: bool,
        bytes: Vec<u8>,
    },
    #[error("out of memory")]
    Memory,
}

impl<F> From<AllocError> for ListFault<F> {
    ghost use Rattle.apx_list.specs.declared.fault.ListFault.TheVariants.{Memory};

    ghost from_gives = { λ _ e. e ≡ Memory };

    fn from(_error: AllocError) -> ListFault<F> {
        ListFault::Memory
    }
}

impl<F, T: Drop> From<AllocFailed<T>> for ListFault<F> {
    ghost use Rattle.apx_list.specs.declared.fault.ListFault.TheVariants.{Memory};

    ghost from_gives = { λ _ e. e ≡ Memory };

    fn from(_error: AllocFailed<T>) -> ListFault<F> {
        ListFault::Memory
    }
}

impl<F> From<SpoolRefusal<F>> for ListFault<F> {
    ghost use Rattle.apx_list.specs.Kept.{fault_of};

    ghost from_gives = { λ refusal e. e ≡ fault_of refusal };

    fn from(refusal: SpoolRefusal<F>) -> ListFault<F> {
        match refusal {
            SpoolRefusal::Fault(fault) => ListFault::Fault(fault),
            SpoolRefusal::Memory => ListFault::Memory,
        }
    }
}
