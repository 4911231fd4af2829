//! The machine of a run: which events may come next, what they change, and the list of choices.
//!
//! `apx_history` has the definitions: the table of events, what every state keeps, and the laws of histories. The
//! calls here are those definitions, over a state that is changed in place.
#![tactic(auto)]

mod beginning;
mod changes;
mod conditions;
mod engine;
mod group;
mod journal;
mod listing;
mod machine;
mod outlook;
mod partition;
mod picking;
mod plan;

pub use journal::Journal;
pub use machine::Machine;
pub use plan::{Operator, Plan};

#[cfg(test)]
mod tests;
