//! The blocks of a stream: a window's messages cut into blocks, and the numbered list that keeps them.
#![tactic(auto)]

pub use block::Block;
pub use cutting::cut;
pub use fault::ListFault;
pub use list::{DataList, Naming, Read};
pub use plan::CutPlan;
pub use tuples::{owned_payloads, payloads};

mod block;
mod checking;
mod cutting;
mod fault;
mod fetching;
mod kept;
mod list;
mod messages;
mod plan;
#[cfg(test)]
mod tests;
mod tuples;
