//! From the names of files to the job of a run and to a journal of it, or to the first thing that is refused.
#![tactic(auto)]

pub use audits::audit;
pub use jobs::job;
pub use laws::{words_and_files_are_decided, written_journals_are_legal};
pub use load::{application, inputs, run};
pub use refusal::{LineCause, Refusal};
pub use stop::Stop;

mod audits;
mod jobs;
mod laws;
mod load;
mod refusal;
mod stop;
#[cfg(test)]
mod tests;
