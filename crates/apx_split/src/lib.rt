//! What partitions own, make and give together: bags, states and progress cut, stepped and put together again.
//!
//! Each call has its definition as a clause, and beside it the law that ties the partitions to the whole.
#![tactic(auto)]

pub use bags::{cut_bag, keep_best, unify};
pub use progress::{merge_progress, split_progress};
pub use size::is_large;
pub use states::{merge_states, split_state};
pub use steps::step_part;

mod bags;
mod progress;
mod size;
mod states;
mod steps;
#[cfg(test)]
mod tests;
