//! A disk with what a crash may leave of it, and a list of records on a disk that a stop at any moment leaves readable.
#![tactic(auto)]

mod disk;
mod memory_disk;
mod records;

pub use disk::{Disk, DiskRefusal};
pub use memory_disk::MemoryDisk;
pub use records::{LogRefusal, Record, Records, RecordsRefusal};

#[cfg(test)]
mod tests;
