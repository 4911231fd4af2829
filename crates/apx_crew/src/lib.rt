//! A whole run by worker threads: the core as what workers share, from its begin until it ends or stops.
//!
//! `specs/Crew.antt` says what workers see of a core's claims, and `specs/Headline.antt` what they did. The other promises of a
//! whole run are those of `apx_sim`.
#![tactic(auto)]

mod crew;
#[cfg(test)]
mod tests;
mod whole;

pub use apx_core::{Closed, CoreFault, Devices, RunJournal, StartFault};
pub use whole::run_by_threads;
