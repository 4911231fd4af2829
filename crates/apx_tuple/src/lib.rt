//! What flows through the streams: keys, tuples, bags of tuples, and the states of operators.
//!
//! Contracts see a [`Key`] as the list of its bytes, a [`Bag`] as its ascending list of tuples, and a
//! [`State`] as its ascending list of pairs. How they are kept can change with no contract changing.
#![tactic(auto)]

pub use bag::Bag;
pub use key::Key;
pub use kind::{InputKind, Kind};
pub use progress::Progress;
pub use refusal::{KeyRefusal, Short};
pub use state::{Pairs, State};
pub use tuple::Tuple;

mod bag;
mod key;
mod kind;
mod progress;
mod refusal;
mod size;
mod state;
#[cfg(test)]
mod tests;
mod tuple;
