//! The status of a run that stopped, and the line that says why.
ghost use Rattle.std.specs.Prelude.{◌≡◌, ◌≤◌, ◌++◌, codes, decimal, IsErr};
ghost use Rattle.apx_cause.specs.Cause.{Rose};
ghost use Rattle.apx_top.specs.Lines.{refusal_status, status_of, cause_text, blank_before, refusal_line, line_of};
ghost use Rattle.apx_top.specs.Sent.{HasWritten};

use crate::write::Text;
use apx_device::{Failed, Out};
use apx_json::Name;
use apx_load::{LineCause, Refusal, Stop};
use itoa::Buffer;

/// The exit status of a run that stopped.
pub(crate) fn status(stop: &Stop) -> u8
    ensures { result ≡ status_of stop.now }
{
    match stop {
        Stop::Refused(refusal) => refusal_status(refusal),
        Stop::CannotRead { .. } => 2,
        Stop::VaultFailed => 8,
        Stop::StoreFailed => 9,
        Stop::SpoolFailed => 10,
        Stop::StateDamaged | Stop::BlockDamaged => 11,
        Stop::OutputFailed => 12,
        Stop::Memory => 13,
        Stop::Large => 19,
    }
}

fn refusal_status(refusal: &Refusal) -> u8
    ensures { result ≡ refusal_status refusal.now }
{
    match refusal {
        Refusal::NotACommand | Refusal::NotBuilt => 1,
        Refusal::NoFile { .. } => 3,
        Refusal::FileTooLong { .. } => 4,
        Refusal::NoJson | Refusal::WrongShape { .. } | Refusal::BrokenRule { .. } => 5,
        Refusal::RefusedLine { .. } => 6,
        Refusal::RefusedCommand { .. } => 7,
        Refusal::RefusedEntry { .. } => 16,
    }
}

/// Writes the line that says why a run stopped, or a front of it where the output fails. It takes no memory.
pub(crate) fn say<E: Out>(err: &mut E, stop: &Stop) -> Result<(), Failed>
    ensures written { HasWritten E.tells (line_of stop.now) result (E.written err.old) (E.written err.new) }
    ensures later { E.faults err.old ≤ E.faults err.new }
    ensures cause { IsErr result → Rose (E.faults err.old) (E.faults err.new) }
{
    match stop {
        Stop::Refused(refusal) => say_refusal(err, refusal),
        Stop::CannotRead { name } => say_name(err, "apex: cannot read ", name),
        Stop::VaultFailed => "apex: checkpoint store failed\n".write_to(err),
        Stop::StoreFailed => "apex: sink store failed\n".write_to(err),
        Stop::SpoolFailed => "apex: spool failed\n".write_to(err),
        Stop::StateDamaged => "apex: checkpoint damaged\n".write_to(err),
        Stop::BlockDamaged => "apex: block damaged\n".write_to(err),
        Stop::OutputFailed => "".write_to(err),
        Stop::Memory => "apex: out of memory\n".write_to(err),
        Stop::Large => "apex: too large\n".write_to(err),
    }
}

fn say_refusal<E: Out>(err: &mut E, refusal: &Refusal) -> Result<(), Failed>
    ensures written { HasWritten E.tells (refusal_line refusal.now) result (E.written err.old) (E.written err.new) }
    ensures later { E.faults err.old ≤ E.faults err.new }
    ensures cause { IsErr result → Rose (E.faults err.old) (E.faults err.new) }
{
    match refusal {
        Refusal::NotACommand => "apex: not a command\n".write_to(err),
        Refusal::NotBuilt => "apex: not a command\n".write_to(err),
        Refusal::NoFile { name } => say_name(err, "apex: no file ", name),
        Refusal::FileTooLong { name } => say_name(err, "apex: file too long ", name),
        Refusal::NoJson => "apex: application refused: Syntax\n".write_to(err),
        Refusal::WrongShape { place } => say_name(err, "apex: application refused: Shape ", place),
        Refusal::BrokenRule { code, place } => say_rule(err, *code, place),
        Refusal::RefusedLine { file, line, cause } => say_line(err, file, *line, *cause),
        Refusal::RefusedCommand { line, why } => {
            say_numbered(err, "apex: script line ", *line, " refused: S", *why)
        }
        Refusal::RefusedEntry { line, why } => {
            say_numbered(err, "apex: journal line ", *line, " refused: J", *why)
        }
    }
}

/// Writes what was refused, a name, and LF.
fn say_name<E: Out>(err: &mut E, what: &str, name: &Name) -> Result<(), Failed>
    ensures written { HasWritten E.tells (what.now ++ (name.now ++ codes "\n")) result (E.written err.old) (E.written err.new) }
    ensures later { E.faults err.old ≤ E.faults err.new }
    ensures cause { IsErr result → Rose (E.faults err.old) (E.faults err.new) }
{
    (what, (name.text(), "\n")).write_to(err)
}

/// Writes which rule of applications was broken, and where.
fn say_rule<E: Out>(err: &mut E, code: u8, place: &Name) -> Result<(), Failed>
    ensures written { HasWritten E.tells
        (codes "apex: application refused: A" ++ (decimal code ++ (blank_before place.now ++ (place.now ++ codes "\n"))))
        result (E.written err.old) (E.written err.new) }
    ensures later { E.faults err.old ≤ E.faults err.new }
    ensures cause { IsErr result → Rose (E.faults err.old) (E.faults err.new) }
{
    let mut buffer = Buffer::new();
    let code = buffer.format(code);
    let place = place.text();
    let place = (blank_before(place), (place, "\n"));
    ("apex: application refused: A", (code, place)).write_to(err)
}

/// Writes which line of a script or a journal was refused, the number of the reason, and LF.
fn say_numbered<E: Out>(
    err: &mut E,
    what: &str,
    line: u64,
    refused: &str,
    why: u8,
) -> Result<(), Failed>
    ensures written { HasWritten E.tells
        (what.now ++ (decimal line ++ (refused.now ++ (decimal why ++ codes "\n"))))
        result (E.written err.old) (E.written err.new) }
    ensures later { E.faults err.old ≤ E.faults err.new }
    ensures cause { IsErr result → Rose (E.faults err.old) (E.faults err.new) }
{
    let (mut first, mut second) = (Buffer::new(), Buffer::new());
    let (line, why) = (first.format(line), second.format(why));
    (what, (line, (refused, (why, "\n")))).write_to(err)
}

fn blank_before(place: &str) -> &'static str
    ensures { result.now ≡ blank_before place.now }
{
    if place.is_empty() { "" } else { " " }
}

/// Writes which line of an input was refused, and why.
fn say_line<E: Out>(err: &mut E, file: &Name, line: u64, cause: LineCause) -> Result<(), Failed>
    ensures written { HasWritten E.tells
        (codes "apex: line " ++ (decimal line ++ (codes " of " ++ (file.now ++ cause_text cause))))
        result (E.written err.old) (E.written err.new) }
    ensures later { E.faults err.old ≤ E.faults err.new }
    ensures cause { IsErr result → Rose (E.faults err.old) (E.faults err.new) }
{
    let mut buffer = Buffer::new();
    let place = (" of ", (file.text(), cause_text(cause)));
    ("apex: line ", (buffer.format(line), place)).write_to(err)
}

fn cause_text(cause: LineCause) -> &'static str
    ensures { result.now ≡ cause_text cause }
{
    match cause {
        LineCause::TooLong => " refused: too long\n",
        LineCause::BadPair => " refused: no pair\n",
        LineCause::TooMany => " refused: too many windows\n",
    }
}
