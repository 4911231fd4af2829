//! Windows folded: an operator takes its tuples piece by piece, in any order, and steps at the window's end.
//!
//! A [`Fold`] is made for a partition of an operator. It keeps of the tuples that it takes only what the step needs, and
//! what it gives at the end is the step over the bags of all of them, whatever pieces they came in.
#![tactic(auto)]

pub use best::Best;
pub use digest::Digest;
pub use fold::Fold;
pub use folding::Folding;
pub use gathered::Gathered;
pub use share::Share;
pub use told::Told;

mod best;
mod digest;
mod fold;
mod folding;
mod gathered;
mod putting;
mod share;
#[cfg(test)]
mod tests;
mod told;
