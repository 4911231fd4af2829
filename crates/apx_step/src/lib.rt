//! What an operator makes of a window: the state from then on, and the rows.
//!
//! [`step`] serves all kinds of operators, [`step_in_place`] changes the state instead of copying it, and
//! [`step_by_value`] the left bag too, where the kind allows it. The keys that came are walked in ascending
//! order, and a kind adds its rule for one key; what `top` makes of a window has a function of its own.
#![tactic(auto)]

pub use steps::{step, step_by_value, step_in_place};

mod rules;
mod singles;
mod steps;
#[cfg(test)]
mod tests;
mod top;
mod walk;
mod words;
