//! Judging the text of a journal.
ghost use Rattle.std.specs.Prelude.{◌≡◌, ◌<◌, length, IfOk, IfSome, MatchOption};
ghost use Rattle.apx_history.specs.State.{slot, open_worker};
ghost use Rattle.apx_history.specs.Journals.{beginning, owed, owed_act, bears, fits};
ghost use Rattle.apx_history.specs.Kept.{IsPlan};
ghost use Rattle.apx_job.specs.Job.{plan_of};
ghost use Rattle.apx_audit.specs.Verdict.{end_of, BeginsWith, HasNoForm, Verdict, IsVerdict, Told};

use crate::audited::{AuditEnd, AuditRefusal, Audited};
use crate::read::{entry, first};
use apx_history::{Act, Entry, Event, Line};
use apx_job::Job;
use apx_machine::{Journal, Machine};
use apx_planned::plan_of;
use std::alloc::Global;

/// The worker who has a partition open.
fn owner(machine: &Machine, op: usize, part: usize) -> Option<u8>
    ensures { result ≡ open_worker (slot machine.now.state op part).opened }
{
    if op < machine.len() && part < machine.parts(op) {
        match machine.opened(op, part) {
            Some((_, worker)) => Some(worker),
            None => None,
        }
    } else {
        None
    }
}

/// The worker who has the partition open that a line of the script kills.
fn victim(machine: &Machine, line: Line) -> Option<u8>
    ensures { result ≡ owed_act machine.now.state line.op line.act }
{
    match line.act {
        Act::Fails { point: _, part } => owner(machine, line.op as usize, part as usize),
        Act::Splits { count: _ } => None,
    }
}

/// The worker who began what an event ends.
fn owed(machine: &Machine, event: Event) -> Option<u8>
    ensures { result ≡ owed machine.now.plan machine.now.state event }
{
    match event {
        Event::Write { window: _ } => owner(machine, machine.plan().sink() as usize, 0),
        Event::Finish {
            op,
            part,
            window: _,
        } => owner(machine, op as usize, part as usize),
        Event::Kill { line } => victim(machine, machine.line(line as usize)),
        _ => None,
    }
}

/// Whether a worker may do what is owed by a worker.
fn bears(owed: Option<u8>, worker: u8) -> bool
    ensures { result ≡ bears owed worker }
{
    match owed {
        Some(owner) => owner == worker,
        None => true,
    }
}

/// Whether an entry may come next.
fn fits(machine: &Machine, entry: Entry) -> bool
    ensures { result ≡ fits machine.now.plan machine.now.state entry }
{
    machine.enabled(&entry.event) && bears(owed(machine, entry.event), entry.worker)
}

/// The entry whose line is at the front of a text, and what stands behind the line.
fn first_entry(text: &[u8]) -> Option<(Entry, &[u8])>
    ensures forms { MatchOption result (HasNoForm text.now) (λ p. BeginsWith text.now p.0 p.1.now) }
    ensures shorter { IfSome result (λ p. length p.1.now < length text.now) }
{
    let end = first(b'\n', text)?;
    let entry = entry(&text[..end])?;
    Some((entry, &text[end + 1..]))
}

/// The entries of the lines of a text, judged one after the other from the machine's state on.
fn entries(alloc: Global, mut machine: Machine, text: &[u8]) -> Result<Journal, AuditRefusal>
    requires plan { IsPlan machine.plan }
    requires begins { machine.state ≡ beginning machine.plan 0 0 }
    ensures { Told (λ journal. journal) result (IsVerdict machine.plan text.now) }
{
    let mut journal = Journal::new(alloc);
    let mut line = 0u64;
    let mut rest = text;
    while !rest.is_empty() {
        line += 1;
        let Some((entry, behind)) = first_entry(rest) else {
            return Err(AuditRefusal::Line { line, why: 1 });
        };
        if !fits(&machine, entry) {
            return Err(AuditRefusal::Line { line, why: 2 });
        }
        machine.apply(alloc, entry.worker, entry.event)?;
        journal.add(entry)?;
        rest = behind;
    }
    Ok(journal)
}

/// How a journal with these entries ends.
fn end_of(entries: &[Entry]) -> AuditEnd
    ensures { result ≡ end_of entries.now }
{
    match entries.last().copied() {
        Some(last) => match last.event {
            Event::End => AuditEnd::Ended,
            Event::Fault { status: _ } => AuditEnd::Fault,
            _ => AuditEnd::Open,
        },
        None => AuditEnd::Open,
    }
}

/// The journal that a text spells, judged line by line for a job.
///
/// A text is legal where it is that of a history of the job that begins from nothing: each event may come where it
/// stands, and who writes, finishes or kills an open partition is the worker who began it. `Line` comes exactly at the
/// first line that is refused: for 1 where it is the line of no entry, as one without LF, and for 2 where its entry
/// may not come next. `Memory` where memory ran out.
///
/// ```text
/// let audited = audit_journal(alloc, &job, b"0 start 0 0 1\n0 finish 0 0 1\n")?;
/// assert_eq!(audited.journal.entries().len(), 2);
/// ```
pub fn audit_journal(alloc: Global, job: &Job, text: &[u8]) -> Result<Audited, AuditRefusal>
    // What is told is the verdict: a legal journal with this text, or the first line that is refused and why.
    ensures told { Told (λ audited. audited.journal) result (IsVerdict (plan_of job.now) text.now) }
    // And no text has another.
    ensures only { (verdict : Verdict) → IsVerdict (plan_of job.now) text.now verdict →
        Told (λ audited. audited.journal) result (λ told. told ≡ verdict) }
    // The journal ends as its last entry says.
    ensures end { IfOk result (λ audited. audited.end ≡ end_of audited.journal) }
{
    let machine = Machine::new(alloc, plan_of(alloc, job)?, 0)?;
    let journal = entries(alloc, machine, text)?;
    let end = end_of(journal.entries());
    Ok(Audited { journal, end })
}
