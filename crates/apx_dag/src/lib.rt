//! Valid graphs: an application's operators, each with what it does and whom
//! it reads, or the first rule that the application breaks.
#![tactic(auto)]

mod class;
mod dag;
mod known;
mod link;
mod names;
mod node;
mod order;
mod port;
mod refusal;
mod role;
mod rules;

pub use dag::Dag;
pub use node::Node;
pub use refusal::AppRefusal;
pub use role::Role;

#[cfg(test)]
mod tests;
