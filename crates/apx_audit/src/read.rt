//! Reading the line of an entry.
ghost use Rattle.std.specs.Prelude.{◌≡◌, ◌==◌, ◌≤◌, IfSome, option_map, Option, position};
ghost use Rattle.apx_pass.specs.Script.{at_space, after_word};
ghost use Rattle.apx_audit.specs.Reading.{number_of, place_of, event_at, event_with, event_by, event_of, entry_of};
ghost use Rattle.apx_audit.specs.Lent.{parts_of};

use apx_decimal::natural_up_to;
use apx_history::{Entry, Event};
use memchr::memchr;

/// Where a byte first stands.
pub(crate) fn first(byte: u8, text: &[u8]) -> Option<usize>
    ensures { result ≡ position (λ other. other == byte) text.now }
{
    memchr(byte, text)
}

/// What stands before the first space, and what stands after it.
#[tactic(auto, unfolding(apx_pass::specs::Script::at_space))]
fn split_word(text: &[u8]) -> Option<(&[u8], &[u8])>
    ensures { option_map parts_of result ≡ at_space text.now }
{
    let at = first(b' ', text)?;
    Some((&text[..at], &text[at + 1..]))
}

/// The number that digits without a leading zero write, where it is no more than `limit`.
#[tactic(auto, unfolding(crate::specs::Reading::number_of))]
fn number(limit: u64, digits: &[u8]) -> Option<u64>
    ensures value { result ≡ number_of limit digits.now }
    ensures within { IfSome result (λ number. number ≤ limit) }
{
    if digits.len() > 1 && digits[0] == b'0' {
        return None;
    }
    natural_up_to(limit, digits)
}

/// A partition, by its operator and its number there, and a window.
#[tactic(auto, unfolding(crate::specs::Reading::place_of, apx_pass::specs::Script::after_word))]
fn place(text: &[u8]) -> Option<(u16, u8, u32)>
    ensures { result ≡ place_of text.now }
{
    let (op, text) = split_word(text)?;
    let op = number(65_535, op)? as u16;
    let (part, window) = split_word(text)?;
    let part = number(255, part)? as u8;
    let window = number(4_294_967_295, window)? as u32;
    Some((op, part, window))
}

/// The event with a name of a partition and a window.
fn event_at(name: &[u8], op: u16, part: u8, window: u32) -> Option<Event>
    ensures { result ≡ event_at name.now (op, part, window) }
{
    if name == b"start".as_slice() {
        Some(Event::Start { op, part, window })
    } else if name == b"finish".as_slice() {
        Some(Event::Finish { op, part, window })
    } else if name == b"save".as_slice() {
        Some(Event::Save { op, part, window })
    } else if name == b"advance".as_slice() {
        let to = window;
        Some(Event::Advance { op, part, to })
    } else if name == b"purge".as_slice() {
        let to = window;
        Some(Event::Purge { op, part, to })
    } else {
        None
    }
}

/// The event with a name of a window, a line of the script or a status.
fn event_with(name: &[u8], number: u32) -> Option<Event>
    ensures { result ≡ event_with name.now number }
{
    if name == b"write".as_slice() {
        Some(Event::Write { window: number })
    } else if name == b"commit".as_slice() {
        Some(Event::Commit { to: number })
    } else if name == b"kill".as_slice() {
        Some(Event::Kill { line: number })
    } else if name == b"repartition".as_slice() {
        Some(Event::Repartition { line: number })
    } else if name == b"fault".as_slice() && number < 256 {
        let status = number as u8;
        Some(Event::Fault { status })
    } else {
        None
    }
}

/// The event with a name and with numbers behind it, which are a partition and a window, or one number.
fn event_by(name: &[u8], numbers: &[u8]) -> Option<Event>
    ensures { result ≡ event_by name.now (place_of numbers.now) (number_of 4294967295 numbers.now) }
{
    match place(numbers) {
        Some((op, part, window)) => event_at(name, op, part, window),
        None => event_with(name, number(4_294_967_295, numbers)? as u32),
    }
}

/// An event: its name and its numbers.
#[tactic(auto, unfolding(crate::specs::Reading::event_of))]
fn event(text: &[u8]) -> Option<Event>
    ensures { result ≡ event_of text.now }
{
    match text {
        b"end" => Some(Event::End),
        _ => {
            let (name, numbers) = split_word(text)?;
            event_by(name, numbers)
        }
    }
}

/// An entry: its worker and its event.
#[tactic(auto, unfolding(crate::specs::Reading::entry_of, apx_pass::specs::Script::after_word))]
pub(crate) fn entry(line: &[u8]) -> Option<Entry>
    ensures { result ≡ entry_of line.now }
{
    let (worker, text) = split_word(line)?;
    let worker = number(255, worker)? as u8;
    let event = event(text)?;
    Some(Entry { worker, event })
}
