//! Jobs: an application with what its inputs read, its script and its settings.
//!
//! A [`Job`] is valid by its type: whoever has one needn't judge its parts again.
#![tactic(auto)]

mod command;
mod job;
mod judge;
mod parts;

pub use job::Job;

#[cfg(test)]
mod tests;
