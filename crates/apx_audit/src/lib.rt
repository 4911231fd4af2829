//! The text of a journal, written and judged.
//!
//! [`journal_text`] writes what happened in a run, a line for each entry. [`audit_journal`] judges such a text, whoever
//! wrote it: it reads one line after the other, and asks the machine of the job whether its entry may come next. So
//! nobody has to believe a run: where the answer is `Ok`, the text is that of a history that the job allows.
#![tactic(auto)]

mod audit;
mod audited;
mod laws;
mod read;
mod write;

pub use audit::audit_journal;
pub use audited::{AuditEnd, AuditRefusal, Audited};
pub use laws::{ended_journals_are_whole, texts_are_decided};
pub use write::journal_text;

#[cfg(test)]
mod tests;
