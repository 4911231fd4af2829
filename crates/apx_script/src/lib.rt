//! The script of a run, the kills and repartitions that it is to meet, and its settings.
//!
//! [`read_script`] reads a script's text, or refuses its first line that isn't a command.
#![tactic(auto)]

mod act;
mod read;
mod refusal;
mod script;
mod settings;
mod word;

pub use act::{Act, Line, Point};
pub use read::read_script;
pub use refusal::ScriptRefusal;
pub use script::Script;
pub use settings::Settings;

#[cfg(test)]
mod tests;
