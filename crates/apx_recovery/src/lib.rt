//! Where a run goes back to: who reads an operator, what is downstream of it, and how far checkpoints may come.
//!
//! A partition's recovery checkpoint is the window to which a kill takes it back. It may come as far as what is saved
//! and what those that read it let it. What lies before the least recovery checkpoint of all partitions is committed.
#![tactic(auto)]

mod checkpoint;
mod operators;

pub use checkpoint::{advance_to, committed};
pub use operators::{downstream, readers, tree};

#[cfg(test)]
mod tests;
