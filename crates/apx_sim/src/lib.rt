//! A whole run on one thread: the core, driven in an order that a number picks.
//!
//! `specs/Hand.antt` says what is held between the begin and the end of a window, `specs/Bench.antt` when that goes with what
//! the machine has open, and `specs/Headline.antt` what a whole run promises.
#![tactic(auto)]

mod bench;
mod driving;
mod hand;
#[cfg(test)]
mod tests;
mod whole;

pub use apx_core::{Closed, CoreFault, Devices, RunJournal, StartFault};
pub use whole::simulate;
