//! Why a window isn't lent.
use apx_list::ListFault;
use std::fmt::Debug;
use thiserror::Error;

/// A partition of an operator didn't lend its blocks of a window. `F` is how its spool fails.
#[derive(Debug, Drop, Error)]
#[error_bound(F: Debug + Drop)]
#[error("partition {part} lent no blocks")]
pub struct LendFault<F> {
    /// The partition.
    pub part: usize,
    /// Why its list didn't give a block.
    pub fault: ListFault<F>,
}
