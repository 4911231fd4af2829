//! Reading the script of a run, and making its job.

ghost use Rattle.std.specs.Prelude.{◌≡◌, ◌≤◌, Ok, Some, None, length, option_map, MatchResult};
ghost use Rattle.apx_cause.specs.Cause.{Rose};
ghost use Rattle.apx_job.specs.Job.{refused_line};
ghost use Rattle.apx_job.specs.Prepared.{job_of};
ghost use Rattle.apx_pass.specs.Pass.{Dataflow, inputs_before};
ghost use Rattle.apx_pass.specs.Script.{script_of};
ghost use Rattle.apx_script.specs.Settings.{IsSettings};
ghost use Rattle.apx_load.specs.Refusals.{by_answers};
ghost use Rattle.apx_load.specs.Jobs.{IsLineOfText, IsScript, IsScriptRefusal, IsLineOfJob, IsScripted, IsScriptedRefusal, IsJob, IsJobRefusal};
ghost use Rattle.apx_load.specs.Stops.{IsCaused, no_causes, reading_causes};
ghost use Rattle.apx_load.specs.Hearing.{HasHeard};

use crate::load::{read_file, run};
use crate::stop::Stop;
use apx_dag::Dag;
use apx_device::Folder;
use apx_input::Windows;
use apx_job::Job;
use apx_json::Name;
use apx_script::{Script, Settings, read_script};
use std::alloc::Global;

/// The most bytes of a script's file: 1 MiB.
const MAX_SCRIPT_LEN: usize = 1_048_576;

/// The commands of a script's text.
fn parse(alloc: Global, text: &[u8]) -> Result<Script, Stop>
    ensures { MatchResult result
        (λ lines. script_of text.now ≡ Ok lines)
        (IsCaused (record no_causes { refuses = IsLineOfText text.now })) }
{
    Ok(read_script(alloc, text)?)
}

/// The commands of the script in a file.
fn script_in<F: Folder>(alloc: Global, files: &mut F, name: &str) -> Result<Script, Stop>
    ensures told { F.told files.new ≡ F.told files.old }
    ensures later { F.faults files.old ≤ F.faults files.new }
    ensures heard { HasHeard F.tells (F.told files.old) (F.heard files.old) (F.heard files.new) (λ answers.
        MatchResult result
        (λ lines. IsScript (by_answers answers) (Some name.now) lines)
        (IsCaused (reading_causes (IsScriptRefusal (by_answers answers) (Some name.now)) answers
        (Rose (F.faults files.old) (F.faults files.new))))) }
{
    let text = read_file(alloc, files, name, MAX_SCRIPT_LEN)?;
    parse(alloc, &text)
}

/// The commands of the script in a file, or none where no file is named.
fn script<F: Folder>(alloc: Global, files: &mut F, name: Option<&Name>) -> Result<Script, Stop>
    ensures told { F.told files.new ≡ F.told files.old }
    ensures later { F.faults files.old ≤ F.faults files.new }
    ensures heard { HasHeard F.tells (F.told files.old) (F.heard files.old) (F.heard files.new) (λ answers.
        MatchResult result
        (λ lines. IsScript (by_answers answers) (option_map (λ n. n.now) name.entry) lines)
        (IsCaused (reading_causes (IsScriptRefusal (by_answers answers) (option_map (λ n. n.now) name.entry)) answers
        (Rose (F.faults files.old) (F.faults files.new))))) }
{
    match name {
        Some(name) => script_in(alloc, files, name.text()),
        None => Ok(Script::new(alloc)),
    }
}

/// The job of these parts.
fn judge(
    alloc: Global,
    dag: Dag,
    inputs: Vec<Windows>,
    script: Script,
    settings: Settings,
) -> Result<Job, Stop>
    requires inputs { length inputs.items ≡ inputs_before dag (length dag) }
    requires settings { IsSettings settings }
    ensures { MatchResult result
        (λ job. (job ≡ job_of dag inputs.items script settings) × (refused_line (job_of dag inputs.items script settings) ≡ None))
        (IsCaused (record no_causes { refuses = IsLineOfJob (job_of dag inputs.items script settings) })) }
{
    Ok(Job::of(alloc, dag, inputs, script, settings)?)
}

/// The job of a dataflow, of the script in a file and of settings.
fn scripted<F: Folder>(
    alloc: Global,
    files: &mut F,
    dag: Dag,
    inputs: Vec<Windows>,
    name: Option<&Name>,
    settings: Settings,
) -> Result<Job, Stop>
    requires inputs { length inputs.items ≡ inputs_before dag (length dag) }
    requires settings { IsSettings settings }
    ensures told { F.told files.new ≡ F.told files.old }
    ensures later { F.faults files.old ≤ F.faults files.new }
    ensures heard { HasHeard F.tells (F.told files.old) (F.heard files.old) (F.heard files.new) (λ answers.
        let flow : Dataflow = record { nodes = dag; inputs = inputs.items } in
        let script = option_map (λ n. n.now) name.entry in
        MatchResult result
        (λ job. IsScripted (by_answers answers) flow script settings job)
        (IsCaused (reading_causes (IsScriptedRefusal (by_answers answers) flow script settings) answers
        (Rose (F.faults files.old) (F.faults files.new))))) }
{
    let script = script(alloc, files, name)?;
    judge(alloc, dag, inputs, script, settings)
}

/// The job of the application in a file, of what its inputs read, of the script in another file, and of
/// settings. With no name of a script it commands nothing.
///
/// It stops at the first thing that is refused: of the application, of an input, of the script's file of at
/// most 1 MiB and its lines by themselves, and then of its lines for the job; where the folder fails; and
/// for want of memory. The folder's files stay as they are.
pub fn job<F: Folder>(
    alloc: Global,
    files: &mut F,
    name: &str,
    script: Option<&Name>,
    settings: Settings,
) -> Result<Job, Stop>
    requires { IsSettings settings }
    ensures told { F.told files.new ≡ F.told files.old }
    ensures later { F.faults files.old ≤ F.faults files.new }
    ensures heard { HasHeard F.tells (F.told files.old) (F.heard files.old) (F.heard files.new) (λ answers.
        let script = option_map (λ n. n.now) script.entry in
        MatchResult result
        (λ job. IsJob (by_answers answers) name.now script settings job)
        (IsCaused (reading_causes (IsJobRefusal (by_answers answers) name.now script settings) answers
        (Rose (F.faults files.old) (F.faults files.new))))) }
{
    let (dag, inputs) = run(alloc, files, name)?;
    scripted(alloc, files, dag, inputs, script, settings)
}
