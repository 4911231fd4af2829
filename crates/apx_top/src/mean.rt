//! The rows of the one pass, printed without storing them.
ghost use Rattle.std.specs.Prelude.{◌≡◌, ◌≤◌, MatchResult, IfOk, IfErr};
ghost use Rattle.apx_cause.specs.Cause.{Rose};
ghost use Rattle.apx_load.specs.Hearing.{HasHeard};
ghost use Rattle.apx_load.specs.Refusals.{by_answers, IsAcceptedRun, IsRunRefusal};
ghost use Rattle.apx_load.specs.Stops.{IsCaused, no_causes, reading_causes};
ghost use Rattle.apx_pass.specs.Large.{IsLargeDataflow};
ghost use Rattle.apx_top.specs.Changes.{output_change};
ghost use Rattle.apx_top.specs.Plain.{HasToldTo, of_pass};
ghost use Rattle.apx_top.specs.Run as run;

use crate::write::write_all;
use apx_device::{Folder, Out};
use apx_job::Job;
use apx_load::{Stop, job};
use apx_report::window_text;
use apx_script::Settings;
use std::alloc::Global;

/// Reads an application and its inputs, goes over them once, and then prints the rows of each window, over a base second.
///
/// The text is made whole before its first byte is written, so that only a failed output leaves a part of it.
pub(crate) fn mean<F: Folder, O: Out>(
    alloc: Global,
    files: &mut F,
    name: &str,
    base: u32,
    out: &mut O,
) -> Result<(), Stop>
    requires { base ≤ 4294959295 }
    ensures told { F.told files.new ≡ F.told files.old }
    ensures heard { HasHeard F.tells (F.told files.old) (F.heard files.old) (F.heard files.new) (λ answers.
        HasToldTo (of_pass base (by_answers answers) name.now) answers
        (Rose (F.faults files.old) (F.faults files.new)) (output_change O.tells O.written O.faults out.old out.new) result) }
{
    let job = unscripted(alloc, files, name, base)?;
    let text = mean_text(alloc, &job, base)?;
    Ok(write_all(out, &text)?)
}

/// The job of an application and its inputs, without a script.
fn unscripted<F: Folder>(alloc: Global, files: &mut F, name: &str, base: u32) -> Result<Job, Stop>
    requires { base ≤ 4294959295 }
    ensures told { F.told files.new ≡ F.told files.old }
    ensures later { F.faults files.old ≤ F.faults files.new }
    ensures heard { HasHeard F.tells (F.told files.old) (F.heard files.old) (F.heard files.new) (λ answers.
        MatchResult result
        (λ job. IsAcceptedRun (by_answers answers) name.now job.flow)
        (IsCaused (reading_causes (IsRunRefusal (by_answers answers) name.now) answers
        (Rose (F.faults files.old) (F.faults files.new))))) }
{
    let settings = Settings {
        base,
        ..Settings::default()
    };
    job(alloc, files, name, None, settings)
}

/// The texts of the windows that the one pass over a job gives, over a base second.
fn mean_text(alloc: Global, job: &Job, base: u32) -> Result<Vec<u8>, Stop>
    requires { base ≤ 4294959295 }
    ensures ok { IfOk result (λ text. text.items ≡ run.mean_text base job.now.flow) }
    ensures stop { IfErr result (IsCaused (record no_causes { large = IsLargeDataflow job.now.flow })) }
{
    let mut text = Vec::new(alloc);
    for (window, rows) in apx_mean::mean(alloc, job)? {
        window_text(base, window, rows.tuples(), &mut text)?;
    }
    Ok(text)
}
