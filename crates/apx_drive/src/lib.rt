//! The driver of a run on one thread: it picks each event by a number, until the run goes on no more.
#![tactic(auto)]

pub use desk::Desk;
pub use driver::drive;

mod desk;
mod driver;
#[cfg(test)]
mod tests;
