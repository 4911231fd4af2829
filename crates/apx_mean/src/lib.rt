//! The one pass over an application: every operator whole, window after window.
//!
//! [`OnePass`] goes on by a window at a time and gives the rows that reach the sink, and [`mean`] gives those of all windows
//! of a job.
#![tactic(auto)]

pub use pass::OnePass;
pub use whole::mean;

mod came;
mod gather;
mod operator;
mod pass;
mod rows;
#[cfg(test)]
mod tests;
mod whole;
