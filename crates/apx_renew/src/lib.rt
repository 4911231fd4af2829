//! An operator goes on in other partitions: what they carry, of what the partitions before them carried.
#![tactic(auto)]

pub use splits::repartition;

mod splits;
#[cfg(test)]
mod tests;
