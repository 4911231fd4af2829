//! The plan of an application: its operators in an order in which they can step, each with the masks and
//! the partition keys of its partitions.
#![tactic(auto)]

mod class;
mod plan;

pub use plan::plan_text;

#[cfg(test)]
mod tests;
