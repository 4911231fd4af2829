//! The core of a run: one call for each event, which does what the event says to the devices and to what is kept for each
//! partition, and adds it to the journal.
//!
//! A call that meets a fault adds the fault in place of its event, and the run has stopped. While it goes on, what is kept
//! fits the machine's state: `specs/Core.antt` says so of each core.
#![tactic(auto)]

mod claims;
mod closing;
mod cores;
mod events;
mod finishing;
mod opening;
mod ports;
mod recovering;
mod starting;

pub use apx_course::{CoreFault, Naming, Stopped};
pub use apx_stores::Devices;
pub use claims::Claim;
pub use closing::{Closed, RunJournal};
pub use cores::Core;
pub use opening::StartFault;

#[cfg(test)]
mod tests;
