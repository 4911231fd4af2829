//! Reading the journal of a run, and judging it for its job.

ghost use Rattle.std.specs.Prelude.{◌≡◌, ◌≤◌, option_map, IfOk, MatchResult};
ghost use Rattle.apx_audit.specs.Verdict.{end_of, IsJournal};
ghost use Rattle.apx_cause.specs.Cause.{Rose};
ghost use Rattle.apx_job.specs.Job.{plan_of};
ghost use Rattle.apx_script.specs.Settings.{IsSettings};
ghost use Rattle.apx_load.specs.Audits.{IsEntryRefusal, IsLegalFile, IsJournalRefusal, IsLegal, IsAuditRefusal};
ghost use Rattle.apx_load.specs.Hearing.{HasHeard};
ghost use Rattle.apx_load.specs.Refusals.{by_answers};
ghost use Rattle.apx_load.specs.Stops.{IsCaused, no_causes, reading_causes};

use crate::jobs::job;
use crate::load::read_file;
use crate::stop::Stop;
use apx_audit::{Audited, audit_journal};
use apx_device::Folder;
use apx_job::Job;
use apx_json::Name;
use apx_script::Settings;
use std::alloc::Global;

/// The most bytes of a journal's file: 64 MiB.
const MAX_JOURNAL_LEN: usize = 67_108_864;

/// The journal that a text spells, judged for a job.
fn judge(alloc: Global, job: &Job, text: &[u8]) -> Result<Audited, Stop>
    ensures told { MatchResult result
        (λ audited. IsJournal (plan_of job.now) text.now audited.journal)
        (IsCaused (record no_causes { refuses = IsEntryRefusal job.now text.now })) }
    ensures end { IfOk result (λ audited. audited.end ≡ end_of audited.journal) }
{
    Ok(audit_journal(alloc, job, text)?)
}

/// The journal in a file, judged for a job.
fn judged<F: Folder>(alloc: Global, files: &mut F, job: &Job, name: &str) -> Result<Audited, Stop>
    ensures told { F.told files.new ≡ F.told files.old }
    ensures later { F.faults files.old ≤ F.faults files.new }
    ensures end { IfOk result (λ audited. audited.end ≡ end_of audited.journal) }
    ensures heard { HasHeard F.tells (F.told files.old) (F.heard files.old) (F.heard files.new) (λ answers.
        MatchResult result
        (λ audited. IsLegalFile (by_answers answers) name.now job.now audited.journal)
        (IsCaused (reading_causes (IsJournalRefusal (by_answers answers) name.now job.now) answers
        (Rose (F.faults files.old) (F.faults files.new))))) }
{
    let text = read_file(alloc, files, name, MAX_JOURNAL_LEN)?;
    judge(alloc, job, &text)
}

/// The journal in a file, judged for the job of an application in another file, of what its inputs read, of a
/// script and of settings, and how it ends.
///
/// It stops at the first thing that is refused: of the job, as [`job`] does, and then of the journal's file of at
/// most 64 MiB, which is read last, and of its lines; where the folder fails; and for want of memory. The folder's
/// files stay as they are. The journal's text is held once, beside the job and the journal that is told.
///
/// ```text
/// let audited = audit(alloc, &mut files, "app.json", "journal", None, Settings::default())?;
/// assert_eq!(audited.end, AuditEnd::Ended);
/// ```
pub fn audit<F: Folder>(
    alloc: Global,
    files: &mut F,
    name: &str,
    journal: &str,
    script: Option<&Name>,
    settings: Settings,
) -> Result<Audited, Stop>
    requires { IsSettings settings }
    ensures told { F.told files.new ≡ F.told files.old }
    ensures later { F.faults files.old ≤ F.faults files.new }
    ensures end { IfOk result (λ audited. audited.end ≡ end_of audited.journal) }
    ensures heard { HasHeard F.tells (F.told files.old) (F.heard files.old) (F.heard files.new) (λ answers.
        let script = option_map (λ n. n.now) script.entry in
        MatchResult result
        (λ audited. IsLegal (by_answers answers) name.now journal.now script settings audited.journal)
        (IsCaused (reading_causes (IsAuditRefusal (by_answers answers) name.now journal.now script settings) answers
        (Rose (F.faults files.old) (F.faults files.new))))) }
{
    let job = job(alloc, files, name, script, settings)?;
    judged(alloc, files, &job, journal)
}
