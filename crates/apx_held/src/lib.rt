//! What a core keeps for each partition: its progress, unless a claim has it, and its list of blocks.
#![tactic(auto)]

pub use beginning::begin;
pub use contents::Contents;
pub use fault::LendFault;
pub use held::{Held, Unnamed};

mod beginning;
mod contents;
mod fault;
mod group;
mod held;
mod reading;
#[cfg(test)]
mod tests;
