//! The lines of an input operator's file, cut into windows.
//!
//! [`Windows::of`] takes a file's bytes, or refuses the first line that the rules refuse, and [`windows`] copies
//! them before; [`Windows::bag`] makes a window's bag when it is asked for. The bytes are kept once, with the
//! place at which each window begins.
#![tactic(auto)]

pub use reading::windows;
pub use refusal::LineRefusal;
pub use window::Windows;

mod pair;
mod reading;
mod refusal;
#[cfg(test)]
mod tests;
mod tuple;
mod window;
