//! Writing the report of a run.
ghost use Rattle.std.specs.Prelude.{◌≡◌, ◌++◌, OnOk, OnErr};
ghost use Rattle.apx_pass.specs.Pass.{windows};
ghost use Rattle.apx_report.specs.Extends.{Extends};
ghost use Rattle.apx_tally.specs.Report.{counts, commit_in, count_of, committed, line_text, word_of, count_text, counts_text, report_text};

use apx_history::{Entry, Event};
use apx_job::Job;
use apx_machine::Journal;
use itoa::Buffer;
use std::alloc::AllocError;

/// The kinds of events that a report counts.
#[derive(Clone, Copy, Debug)]
enum Counted {
    /// Windows that partitions began.
    Starts,
    /// Windows that were stored.
    Writes,
    /// States that were saved.
    Saves,
    /// Partitions that a line of the script killed.
    Kills,
    /// Operators that a line of the script gave other partitions.
    Repartitions,
}

impl Counted {
    /// Whether an event is of the kind.
    fn counts(self, event: Event) -> bool
        ensures { result ≡ counts self event }
    {
        match self {
            Counted::Starts => matches!(event, Event::Start { .. }),
            Counted::Writes => matches!(event, Event::Write { .. }),
            Counted::Saves => matches!(event, Event::Save { .. }),
            Counted::Kills => matches!(event, Event::Kill { .. }),
            Counted::Repartitions => matches!(event, Event::Repartition { .. }),
        }
    }

    /// The word of its line.
    #[tactic(auto, unfolding(crate::specs::Report::word_of))]
    fn word(self) -> &'static [u8]
        ensures { result.now ≡ word_of self }
    {
        match self {
            Counted::Starts => b"starts",
            Counted::Writes => b"writes",
            Counted::Saves => b"saves",
            Counted::Kills => b"kills",
            Counted::Repartitions => b"repartitions",
        }
    }

    /// How many of the entries have an event of the kind.
    fn count(self, entries: &[Entry]) -> usize
        ensures { result ≡ count_of self entries.now }
    {
        entries
            .iter()
            .filter(|entry| self.counts(entry.event))
            .count()
    }
}

/// The window up to which a Commit drops, and none of another event.
fn commit_in(event: Event) -> Option<u32>
    ensures { result ≡ commit_in event }
{
    match event {
        Event::Commit { to } => Some(to),
        _ => None,
    }
}

/// The window of the last Commit, 0 where there is none.
#[tactic(auto, using(crate::proofs::Last::committed_none, crate::proofs::Last::committed_more))]
fn committed(entries: &[Entry]) -> u32
    ensures { result ≡ committed entries.now }
{
    let mut last = 0;
    for entry in entries {
        last = commit_in(entry.event).unwrap_or(last);
    }
    last
}

/// Appends a line: a word, a space and a number.
#[tactic(auto, unfolding(crate::specs::Report::line_text))]
fn append_line(word: &[u8], number: u64, into: &mut Vec<u8>) -> Result<(), AllocError>
    ensures ok { OnOk result (into.new.items ≡ into.old.items ++ line_text word.now number) }
    ensures kept { Extends into.old.items into.new.items }
{
    into.extend_from_slice(word)?;
    into.extend_from_slice(b" ")?;
    into.extend_from_slice(Buffer::new().format(number).as_bytes())?;
    into.extend_from_slice(b"\n")
}

/// Appends the line that tells how many of the entries have an event of a kind.
fn append_count(counted: Counted, entries: &[Entry], into: &mut Vec<u8>) -> Result<(), AllocError>
    ensures ok { OnOk result (into.new.items ≡ into.old.items ++ count_text counted entries.now) }
    ensures kept { Extends into.old.items into.new.items }
{
    append_line(counted.word(), counted.count(entries) as u64, into)
}

/// Appends the lines that tell how many of the entries have an event of each kind.
#[tactic(auto, unfolding(crate::specs::Report::counts_text))]
fn append_counts(entries: &[Entry], into: &mut Vec<u8>) -> Result<(), AllocError>
    ensures ok { OnOk result (into.new.items ≡ into.old.items ++ counts_text entries.now) }
    ensures kept { Extends into.old.items into.new.items }
{
    append_count(Counted::Starts, entries, into)?;
    append_count(Counted::Writes, entries, into)?;
    append_count(Counted::Saves, entries, into)?;
    append_count(Counted::Kills, entries, into)?;
    append_count(Counted::Repartitions, entries, into)
}

/// Appends the lines of a report.
#[tactic(auto, unfolding(crate::specs::Report::report_text))]
fn append_report(
    windows: u32,
    rows: u64,
    entries: &[Entry],
    into: &mut Vec<u8>,
) -> Result<(), AllocError>
    ensures ok { OnOk result (into.new.items ≡ into.old.items ++ report_text windows rows entries.now) }
    ensures kept { Extends into.old.items into.new.items }
{
    append_line(b"windows", u64::from(windows), into)?;
    append_line(b"rows", rows, into)?;
    append_counts(entries, into)?;
    append_line(b"committed", u64::from(committed(entries)), into)
}

/// Appends the report of a run: a line each for how many windows its job has, how many rows those have, how many Starts,
/// Writes, Saves, Kills and Repartitions stand in its journal, and the window of the last Commit, 0 where there is none.
///
/// Want of memory alone refuses it, and then the text is as it was.
///
/// ```text
/// let mut text = Vec::new(alloc);
/// report_text(&job, &journal, 4, &mut text)?;
/// ```
/// For two windows the text begins with the lines `windows 2` and `rows 4`.
pub fn report_text(
    job: &Job,
    journal: &Journal,
    rows: u64,
    into: &mut Vec<u8>,
) -> Result<(), AllocError>
    ensures ok { OnOk result (into.new.items ≡ into.old.items ++ report_text (windows job.now.flow) rows journal.now) }
    ensures err { OnErr result (into.new.items ≡ into.old.items) }
{
    let len = into.len();
    let appended = append_report(job.windows(), rows, journal.entries(), into);
    if appended.is_err() {
        into.truncate(len);
    }
    appended
}
