//! A job's windows, made partition by partition from blocks to blocks, on one thread and with no device.
//!
//! [`BlockRun`] goes on by a window at a time: each partition of each operator takes the blocks of its sources' partitions,
//! and the rows that reach the sink come out.
#![tactic(auto)]

pub use large::large_only_in_pass;
pub use run::BlockRun;

mod inputs;
mod large;
mod operator;
mod parts;
mod run;
mod sent;
#[cfg(test)]
mod tests;
