//! A run with its devices: its course, the sink's store, the checkpoint store and the maker of spools.
//!
//! A call makes one change: it does to a device what an event asks for, and adds the event. Where a device fails or
//! memory is wanting, the run stops with a fault, which tells its cause. So the sink's store has what the one pass gives
//! for the windows that the machine counts as stored, and a fault has its cause (`specs/Caused.antt`): a device that it
//! names has counted one since the run began, and bytes that it shows spell nothing. `specs/Whole.antt` says so of each
//! run.
#![tactic(auto)]

mod devices;
mod saving;
mod sinking;
mod stores;

pub use devices::Devices;
pub use stores::Stores;

#[cfg(test)]
mod tests;
