//! The bytes of a checkpoint: what an operator carries from window to window, written and read exactly.
#![tactic(auto)]

pub use decoding::decode;
pub use encoding::encode;
pub use fault::StateFault;

mod decoding;
mod encoding;
mod fault;
mod fields;
mod rows;
#[cfg(test)]
mod tests;
