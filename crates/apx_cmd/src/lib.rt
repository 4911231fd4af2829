//! The words of the command line: what the program is told to do.
//!
//! [`command`] reads the words of all commands but two, [`resume_words`] and [`record_words`] those of the
//! other two. Each refuses, as `Usage`, exactly the words that are no such command.
#![tactic(auto)]

mod commands;
mod option;
mod read;
mod refusal;

pub use commands::{Command, ResumeWords};
pub use read::{command, record_words, resume_words};
pub use refusal::CommandRefusal;

#[cfg(test)]
mod tests;
