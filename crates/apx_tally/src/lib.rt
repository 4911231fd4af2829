//! The report of a run: what happened in it, counted.
#![tactic(auto)]

mod laws;
mod report;

pub use laws::reports_are_true;
pub use report::report_text;

#[cfg(test)]
mod tests;
