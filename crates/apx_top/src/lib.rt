//! The top call: from the words of the command line and the devices to a status.
#![tactic(auto)]

pub use apx_core::{Devices, RunJournal};
pub use ended::{Ended, History, Shown};
pub use plain::apex_plain;
pub use whole::apex_main;

mod audit;
#[cfg(test)]
mod calls;
mod crew;
#[cfg(test)]
mod crews;
mod ended;
mod example;
#[cfg(test)]
mod examples;
mod faults;
#[cfg(test)]
mod journals;
mod mean;
#[cfg(test)]
mod outcomes;
mod plain;
mod print;
#[cfg(test)]
mod runs;
mod say;
mod sim;
mod tell;
#[cfg(test)]
mod tests;
mod trace;
#[cfg(test)]
mod traces;
mod whole;
mod write;
