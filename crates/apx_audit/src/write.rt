//! Writing the text of a journal.
ghost use Rattle.std.specs.Prelude.{◌≡◌, ◌++◌, decimal, OnOk, OnErr};
ghost use Rattle.std.specs.List.{AllByRecursion, flat_map};
ghost use Rattle.apx_audit.specs.Text.{place_text, event_text, line_text, journal_text, IsEvent, IsEntry};
ghost use Rattle.apx_report.specs.Extends.{Extends};

use apx_history::{Entry, Event};
use apx_machine::Journal;
use itoa::Buffer;
use std::alloc::AllocError;

/// Appends the text of a journal: a line for each entry, with its worker, the name of its event and its numbers.
///
/// Want of memory alone refuses it, and then the text is as it was.
///
/// ```text
/// let mut text = Vec::new(alloc);
/// journal_text(&journal, &mut text)?;
/// assert_eq!(text.as_slice(), b"0 start 0 0 1\n");
/// ```
pub fn journal_text(journal: &Journal, into: &mut Vec<u8>) -> Result<(), AllocError>
    ensures ok { OnOk result (into.new.items ≡ into.old.items ++ journal_text journal.now) }
    // The numbers of its entries are those that entries may have, so the text is read as these entries and no others.
    ensures entries { OnOk result (AllByRecursion IsEntry journal.now) }
    ensures err { OnErr result (into.new.items ≡ into.old.items) }
{
    let len = into.len();
    let appended = append_entries(journal.entries(), into);
    if appended.is_err() {
        into.truncate(len);
    }
    appended
}

/// Appends the lines of entries, in order.
fn append_entries(entries: &[Entry], into: &mut Vec<u8>) -> Result<(), AllocError>
    ensures ok { OnOk result (into.new.items ≡ into.old.items ++ journal_text entries.now) }
    ensures entries { OnOk result (AllByRecursion IsEntry entries.now) }
    ensures kept { Extends into.old.items into.new.items }
{
    for entry in entries {
        append_entry(*entry, into)?;
    }
    Ok(())
}

/// Appends the line of an entry: its worker, a space, its event and LF.
#[tactic(auto, unfolding(crate::specs::Text::entry_text))]
fn append_entry(entry: Entry, into: &mut Vec<u8>) -> Result<(), AllocError>
    ensures ok { OnOk result (into.new.items ≡ into.old.items ++ line_text entry) }
    ensures entry { OnOk result (IsEntry entry) }
    ensures kept { Extends into.old.items into.new.items }
{
    into.extend_from_slice(Buffer::new().format(entry.worker).as_bytes())?;
    into.extend_from_slice(b" ")?;
    append_event(entry.event, into)?;
    into.extend_from_slice(b"\n")
}

/// Appends an event: its name and its numbers.
#[tactic(auto, unfolding(crate::specs::Text::event_text))]
fn append_event(event: Event, into: &mut Vec<u8>) -> Result<(), AllocError>
    ensures ok { OnOk result (into.new.items ≡ into.old.items ++ event_text event) }
    ensures event { IsEvent event }
    ensures kept { Extends into.old.items into.new.items }
{
    match event {
        Event::Start { op, part, window } => append_place(b"start ", op, part, window, into),
        Event::Write { window } => append_number(b"write ", window, into),
        Event::Finish { op, part, window } => append_place(b"finish ", op, part, window, into),
        Event::Save { op, part, window } => append_place(b"save ", op, part, window, into),
        Event::Advance { op, part, to } => append_place(b"advance ", op, part, to, into),
        Event::Commit { to } => append_number(b"commit ", to, into),
        Event::Purge { op, part, to } => append_place(b"purge ", op, part, to, into),
        Event::Kill { line } => append_number(b"kill ", line, into),
        Event::Repartition { line } => append_number(b"repartition ", line, into),
        Event::End => into.extend_from_slice(b"end"),
        Event::Fault { status } => append_number(b"fault ", u32::from(status), into),
    }
}

/// Appends a name, and then a partition, by its operator and its number there, and a window.
#[tactic(auto, unfolding(crate::specs::Text::place_text))]
fn append_place(
    name: &[u8],
    op: u16,
    part: u8,
    window: u32,
    into: &mut Vec<u8>,
) -> Result<(), AllocError>
    ensures ok { OnOk result (into.new.items ≡ into.old.items ++ (name.now ++ place_text op part window)) }
    ensures kept { Extends into.old.items into.new.items }
{
    append_number(name, u32::from(op), into)?;
    append_number(b" ", u32::from(part), into)?;
    append_number(b" ", window, into)
}

/// Appends a name and a number.
fn append_number(name: &[u8], number: u32, into: &mut Vec<u8>) -> Result<(), AllocError>
    ensures ok { OnOk result (into.new.items ≡ into.old.items ++ (name.now ++ decimal number)) }
    ensures kept { Extends into.old.items into.new.items }
{
    into.extend_from_slice(name)?;
    into.extend_from_slice(Buffer::new().format(number).as_bytes())
}
