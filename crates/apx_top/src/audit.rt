//! The verdict on a journal.
ghost use Rattle.std.specs.Prelude.{◌≡◌, ◌≤◌, IsErr, option_map};
ghost use Rattle.apx_cause.specs.Cause.{Rose};
ghost use Rattle.apx_load.specs.Hearing.{HasHeard};
ghost use Rattle.apx_load.specs.Refusals.{by_answers};
ghost use Rattle.apx_script.specs.Settings.{IsSettings};
ghost use Rattle.apx_top.specs.Audits.{end_text, verdict_text};
ghost use Rattle.apx_top.specs.Changes.{output_change};
ghost use Rattle.apx_top.specs.Plain.{HasToldTo, of_journal};
ghost use Rattle.apx_top.specs.Sent.{HasWritten};

use crate::write::Text;
use apx_audit::AuditEnd;
use apx_device::{Failed, Folder, Out};
use apx_json::Name;
use apx_load::Stop;
use apx_script::Settings;
use itoa::Buffer;
use std::alloc::Global;

/// How a journal ends, in a word.
fn end_text(end: AuditEnd) -> &'static str
    ensures { result.now ≡ end_text end }
{
    match end {
        AuditEnd::Ended => "ended",
        AuditEnd::Fault => "fault",
        AuditEnd::Open => "open",
    }
}

/// Writes that a journal of so many entries is legal, and how it ends, or a front of that where the output fails.
fn write_verdict<O: Out>(out: &mut O, count: usize, end: AuditEnd) -> Result<(), Failed>
    ensures written { HasWritten O.tells (verdict_text count end) result (O.written out.old) (O.written out.new) }
    ensures later { O.faults out.old ≤ O.faults out.new }
    ensures cause { IsErr result → Rose (O.faults out.old) (O.faults out.new) }
{
    let mut buffer = Buffer::new();
    let count = buffer.format(count);
    ("legal ", (count, (" ", (end_text(end), "\n")))).write_to(out)
}

/// Reads an application, its inputs, its script and then a journal, and writes how many entries the journal has and how it
/// ends, where it is legal.
pub(crate) fn audit<F: Folder, O: Out>(
    alloc: Global,
    files: &mut F,
    name: &str,
    journal: &str,
    script: Option<&Name>,
    settings: Settings,
    out: &mut O,
) -> Result<(), Stop>
    requires { IsSettings settings }
    ensures told { F.told files.new ≡ F.told files.old }
    ensures heard { HasHeard F.tells (F.told files.old) (F.heard files.old) (F.heard files.new) (λ answers.
        HasToldTo (of_journal (by_answers answers) name.now journal.now (option_map (λ n. n.now) script.entry) settings) answers
        (Rose (F.faults files.old) (F.faults files.new)) (output_change O.tells O.written O.faults out.old out.new) result) }
{
    let audited = apx_load::audit(alloc, files, name, journal, script, settings)?;
    Ok(write_verdict(out, audited.journal.entries().len(), audited.end)?)
}
