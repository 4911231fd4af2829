//! The sink's store on a disk: a log of windows that a stop at any moment leaves readable.
#![tactic(auto)]

mod logged;
mod sink_log;

pub use sink_log::SinkLog;

#[cfg(test)]
mod tests;
