//! The outside of the engine as traits, each with what its calls mean and a count of its faults, and devices in memory.
#![tactic(auto)]

mod failing;
mod folder;
mod gate;
mod keeper;
mod memory_folder;
mod memory_keeper;
mod memory_out;
mod memory_spool;
mod memory_vault;
mod out;
mod rows;
mod spool;
mod vault;

pub use folder::{Folder, ReadRefusal};
pub use gate::{Gate, NoGate, PassKind};
pub use keeper::{KeepRefusal, Keeper};
pub use memory_folder::{FailingFolder, ListedFolder, MemoryFolder};
pub use memory_keeper::{FailingKeeper, MemoryKeeper};
pub use memory_out::MemoryOut;
pub use memory_spool::{
    FailingSpool, FailingSpools, MemorySpool, MemorySpools, SpoolFault, WrongSpool, WrongSpools,
};
pub use memory_vault::{FailingVault, GivenVault, MemoryVault};
pub use out::{Failed, Out};
pub use rows::{append_rows, read_rows};
pub use spool::{Spool, SpoolRefusal, Spools, SpoolsRefusal};
pub use vault::{SaveId, Vault, VaultRefusal};

#[cfg(test)]
mod tests;
