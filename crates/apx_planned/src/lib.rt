//! The plan of a job as the machine has it.
//!
//! `apx_job` says what the plan of a job is, and that it is one that histories may have; `apx_machine` runs plans. Here
//! the one becomes the other: `Machine::new(alloc, plan_of(alloc, &job)?, stored)` asks for nothing but a `stored` that
//! is a window of the job.
#![tactic(auto)]

mod plan;

pub use plan::plan_of;

#[cfg(test)]
mod tests;
