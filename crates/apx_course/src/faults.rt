//! Why a run stops.
ghost use Rattle.std.specs.Prelude.{◌≡◌};
ghost use Rattle.apx_course.specs.Faults.{status};

use apx_device::SaveId;
use std::fmt::Debug;
use thiserror::Error;

/// Why a run stopped. `F` is how its spools fail. Each fault has a status (`status` in `specs/Faults.antt`).
#[derive(Debug, Drop, Error)]
#[error_bound(F: Debug + Drop)]
pub enum CoreFault<F> {
    /// The checkpoint store failed, and has counted that.
    #[error("the checkpoint store failed")]
    Vault,
    /// The sink's store failed, and has counted that.
    #[error("the sink's store failed")]
    Keeper,
    /// The maker of spools failed, and has counted that.
    #[error("no spool can be made")]
    Spools,
    /// A spool failed, and this tells how.
    #[error("a spool failed")]
    Spool(F),
    /// The checkpoint store gave bytes that spell no state.
    #[error("the checkpoint store gave bytes that are no state")]
    State {
        id: SaveId,
        bytes: Vec<u8>,
    },
    /// A spool gave bytes that spell no block of this window, index and last mark.
    #[error("a spool gave bytes that are not block {number}")]
    Block {
        /// The operator of the partition whose block it is.
        op: u16,
        /// The partition.
        part: u8,
        /// The number of the block in the partition's list.
        number: u64,
        /// The block's window.
        window: u32,
        /// The block's place in its window, from 0.
        index: u32,
        /// Whether it is the window's last.
        last: bool,
        /// What the spool gave.
        bytes: Vec<u8>,
    },
    /// There was no memory for it.
    #[error("out of memory")]
    Memory,
    /// A bag, a state or what a partition carries was too large.
    #[error("too large")]
    Large,
}

impl<F: Drop> CoreFault<F> {
    /// Its status: 8 for the checkpoint store, 9 for the sink's, 10 for spools, 11 for damaged bytes, 13 and 19 for want
    /// of memory and what is too large.
    pub fn status(&self) -> u8
        ensures { result ≡ status self.now }
    {
        match self {
            CoreFault::Vault => 8,
            CoreFault::Keeper => 9,
            CoreFault::Spools | CoreFault::Spool(_) => 10,
            CoreFault::State { id: _, bytes: _ } => 11,
            CoreFault::Block {
                op: _,
                part: _,
                number: _,
                window: _,
                index: _,
                last: _,
                bytes: _,
            } => 11,
            CoreFault::Memory => 13,
            CoreFault::Large => 19,
        }
    }
}

/// A call met a fault, and the run keeps it.
#[derive(Clone, Copy, Debug, PartialEq, Eq, Error)]
#[error("the run stopped")]
pub struct Stopped;
