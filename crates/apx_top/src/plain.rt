//! The whole program on one thread, from its words to its status.
ghost use Rattle.std.specs.Prelude.{◌≡◌, ◌≤◌, ◌↔◌, ◌⊎◌, ◌&&◌, Some, None, Err, map, option_map, string_bytes, IsTrue};
ghost use Rattle.apx_cause.specs.Cause.{Rose};
ghost use Rattle.apx_load.specs.declared.refusal.Refusal.{Refusal};
ghost use Rattle.apx_load.specs.Hearing.{HasHeard};
ghost use Rattle.apx_load.specs.Refusals.{by_files};
ghost use Rattle.apx_load.specs.First.{AreAccepted, IsRefusal};
ghost use Rattle.apx_cmd.specs.Bounds.{IsBounded, IsWithin};
ghost use Rattle.apx_script.specs.Settings.{IsSettings};
ghost use Rattle.apx_cmd.specs.Commands.{command_of};
ghost use Rattle.apx_top.specs.Audits.{AnswersAudits};
ghost use Rattle.apx_top.specs.Changes.{call_of, keeper_meaning, vault_meaning, spools_meaning, devices_change, output_change};
ghost use Rattle.apx_top.specs.Headline.{IsOneHistory, HasStored, HasKeptNeeded, HasEndedWhole, HasLeftCheckpoints, HasNamedCause};
ghost use Rattle.apx_top.specs.Left.{left_of, left_by};
ghost use Rattle.apx_top.specs.Trace.{TracesLegally};
ghost use Rattle.apx_top.specs.Plain.{HasPrintedFiles, HasMade, HasPerformed, HasEnded, HasRefused, IsLargeRun, HasNoFault, IsComplete, status_after, line_after, IsThreaded, IsSim, IsTold, HasSaid};
ghost use Rattle.apx_top.specs.Way.{in_order};

use crate::audit::audit;
use crate::ended::{Ended, Outcome, unrun};
use crate::example::example;
use crate::mean::mean;
use crate::say::{say, status};
use crate::sim::{report, sim};
use crate::tell::{check, plan};
use crate::trace::trace_files;
use apx_cmd::{Command, command};
use apx_core::Devices;
use apx_device::{Folder, Keeper, Out, Spool, Spools, Vault};
use apx_json::Name;
use apx_load::{Refusal, Stop, job};
use apx_script::Settings;
use std::alloc::Global;

/// Runs the job of an application, of a script and of settings, and prints its rows and its report.
fn run_files<F: Folder, K: Keeper + Drop, V: Vault + Drop, P: Spools + Drop, O: Out, E: Out>(
    alloc: Global,
    files: &mut F,
    name: &str,
    script: Option<&Name>,
    settings: Settings,
    order: u64,
    devices: Devices<K, V, P>,
    out: &mut O,
    err: &mut E,
) -> Outcome<K, V, P, <P::S as Spool>::Fault>
    requires settings { IsSettings settings }
    requires sound { IsTrue (K.sound devices.keeper) }
    requires vault_sound { IsTrue (V.sound devices.vault) }
    ensures told { F.told files.new ≡ F.told files.old }
    ensures heard { HasHeard F.tells (F.told files.old) (F.heard files.old) (F.heard files.new) (λ answers.
        HasPrintedFiles name.now (option_map (λ n. n.now) script.entry) settings (in_order order)
        (call_of answers (Rose (F.faults files.old) (F.faults files.new))
        (devices_change (keeper_meaning K.tells K.stored K.last K.faults) (vault_meaning V.tells V.held V.faults)
        (spools_meaning P.S.tells P.faults) devices result.devices)
        (output_change O.tells O.written O.faults out.old out.new)
        (output_change E.tells E.written E.faults err.old err.new)) (left_of result)) }
    ensures unsaid { IsTold result.end → err.new ≡ err.old }
{
    match job(alloc, files, name, script, settings) {
        Ok(job) => sim(alloc, job, order, devices, out, err),
        Err(stop) => unrun(devices, Err(stop)),
    }
}

/// Runs the job of the example of a number with so many lines, and prints its report.
fn run_example<K: Keeper + Drop, V: Vault + Drop, P: Spools + Drop, O: Out>(
    alloc: Global,
    number: u64,
    size: u32,
    devices: Devices<K, V, P>,
    out: &mut O,
) -> Outcome<K, V, P, <P::S as Spool>::Fault>
    requires size { IsWithin 1 200000 size }
    requires sound { IsTrue (K.sound devices.keeper) }
    requires vault_sound { IsTrue (V.sound devices.vault) }
    ensures { HasMade number size
        (devices_change (keeper_meaning K.tells K.stored K.last K.faults) (vault_meaning V.tells V.held V.faults)
        (spools_meaning P.S.tells P.faults) devices result.devices)
        (output_change O.tells O.written O.faults out.old out.new) (left_of result) }
{
    match example(alloc, number, size) {
        Ok(job) => report(alloc, job, number, devices, out),
        Err(stop) => unrun(devices, Err(stop)),
    }
}

/// Performs a command, which is none for worker threads.
pub(crate) fn perform<
    F: Folder,
    K: Keeper + Drop,
    V: Vault + Drop,
    P: Spools + Drop,
    O: Out,
    E: Out,
>(
    alloc: Global,
    command: &Command,
    files: &mut F,
    devices: Devices<K, V, P>,
    out: &mut O,
    err: &mut E,
) -> Outcome<K, V, P, <P::S as Spool>::Fault>
    requires bounded { IsBounded command.now }
    requires plain { IsThreaded (Some command.now) → ⊥ }
    requires sound { IsTrue (K.sound devices.keeper) }
    requires vault_sound { IsTrue (V.sound devices.vault) }
    ensures told { F.told files.new ≡ F.told files.old }
    ensures heard { HasHeard F.tells (F.told files.old) (F.heard files.old) (F.heard files.new) (λ answers.
        HasPerformed command.now (call_of answers (Rose (F.faults files.old) (F.faults files.new))
        (devices_change (keeper_meaning K.tells K.stored K.last K.faults) (vault_meaning V.tells V.held V.faults)
        (spools_meaning P.S.tells P.faults) devices result.devices)
        (output_change O.tells O.written O.faults out.old out.new)
        (output_change E.tells E.written E.faults err.old err.new)) (left_of result)) }
    ensures unsaid { IsTold result.end → err.new ≡ err.old }
    ensures silent { (IsSim (Some command.now) → ⊥) → err.new ≡ err.old }
{
    match command {
        Command::Check { app } => unrun(devices, check(alloc, files, app.text(), out)),
        Command::Plan { app } => unrun(devices, plan(alloc, files, app.text(), out)),
        Command::Mean { app, base } => unrun(devices, mean(alloc, files, app.text(), *base, out)),
        Command::Sim {
            app,
            script,
            settings,
            order,
        } => run_files(
            alloc,
            files,
            app.text(),
            script.as_ref(),
            *settings,
            *order,
            devices,
            out,
            err,
        ),
        Command::Gen { number, size } => run_example(alloc, *number, *size, devices, out),
        Command::Trace {
            app,
            script,
            settings,
            order,
        } => trace_files(
            alloc,
            files,
            app.text(),
            script.as_ref(),
            *settings,
            *order,
            devices,
            out,
            err,
        ),
        Command::Audit {
            app,
            journal,
            script,
            settings,
        } => {
            let end = audit(
                alloc,
                files,
                app.text(),
                journal.text(),
                script.as_ref(),
                *settings,
                out,
            );
            unrun(devices, end)
        }
        Command::Run { .. } => unreachable!(),
        Command::Group { .. } => unrun(devices, Err(Stop::Refused(Refusal::NotBuilt))),
    }
}

/// Does what the words ask for, which is no run by worker threads.
fn act<F: Folder, K: Keeper + Drop, V: Vault + Drop, P: Spools + Drop, O: Out, E: Out>(
    alloc: Global,
    words: &[String],
    files: &mut F,
    devices: Devices<K, V, P>,
    out: &mut O,
    err: &mut E,
) -> Outcome<K, V, P, <P::S as Spool>::Fault>
    requires plain { IsThreaded (command_of (map string_bytes words.now)) → ⊥ }
    requires sound { IsTrue (K.sound devices.keeper) }
    requires vault_sound { IsTrue (V.sound devices.vault) }
    ensures told { F.told files.new ≡ F.told files.old }
    ensures heard { HasHeard F.tells (F.told files.old) (F.heard files.old) (F.heard files.new) (λ answers.
        HasEnded (map string_bytes words.now) (call_of answers (Rose (F.faults files.old) (F.faults files.new))
        (devices_change (keeper_meaning K.tells K.stored K.last K.faults) (vault_meaning V.tells V.held V.faults)
        (spools_meaning P.S.tells P.faults) devices result.devices)
        (output_change O.tells O.written O.faults out.old out.new)
        (output_change E.tells E.written E.faults err.old err.new)) (left_of result)) }
    ensures unsaid { IsTold result.end → err.new ≡ err.old }
    ensures silent { (IsSim (command_of (map string_bytes words.now)) → ⊥) → err.new ≡ err.old }
{
    match command(alloc, words) {
        Ok(command) => perform(alloc, &command, files, devices, out, err),
        Err(refusal) => unrun(devices, Err(Stop::from(refusal))),
    }
}

/// Does what the words ask for on one thread, and always returns: `check APP` judges an application, `plan APP` prints its operators
/// and their partitions, `mean APP` prints the rows of each window of one pass over it and its inputs, `sim APP` with its options
/// runs it, `gen NUMBER SIZE` runs a generated example, `trace APP` with the options of `sim` runs as `sim` does and prints what
/// happened, and `audit APP JOURNAL` with its options tells whether a journal is a legal one of the run. The words aren't those of
/// `run`, which [`apex_main`](crate::apex_main) takes; `group` isn't built yet.
///
/// A run goes on in the order that `--order` picks, with the kills and repartitions of its script. It stores each window's rows
/// in one commit, and then prints them all, a line for each row, and a report on the error output; `gen` prints its report
/// alone, on the output. The status is 0, or else that of the first thing that stopped it: 1 for words that are no command, or
/// that ask for what isn't built, 2 for a file that can't be read, 3 for one that isn't there, 4 for one too long, 5 for an
/// application, 6 for a line of an input, 7 for a line of a script and 16 for a line of a journal that is refused, 8 for the
/// checkpoint store, 9 for the sink's store, 10 for spools, 11 for bytes of theirs that spell nothing, 12 for an output, 13 for
/// want of memory, and 19 for a bag or a state that is too large. A line of the error output then names it, as far as that
/// output takes it, except for a fault of an output.
///
/// The sink's store may have the first windows already: they are worked again and not stored again. Over a store that has more
/// windows than the job no run begins, and the status is 13.
pub fn apex_plain<F: Folder, K: Keeper + Drop, V: Vault + Drop, P: Spools + Drop, O: Out, E: Out>(
    alloc: Global,
    words: &[String],
    files: &mut F,
    devices: Devices<K, V, P>,
    out: &mut O,
    err: &mut E,
) -> Ended<K, V, P, <P::S as Spool>::Fault>
    requires plain { IsThreaded (command_of (map string_bytes words.now)) → ⊥ }
    requires sound { IsTrue (K.sound devices.keeper) }
    requires vault_sound { IsTrue (V.sound devices.vault) }
    // Whatever its folder answers, it ends in a way that these answers allow: done, or stopped for a cause, with the devices
    // and the outputs left as that stop leaves them.
    ensures heard { HasHeard F.tells (F.told files.old) (F.heard files.old) (F.heard files.new) (λ answers.
        HasEnded (map string_bytes words.now) (call_of answers (Rose (F.faults files.old) (F.faults files.new))
        (devices_change (keeper_meaning K.tells K.stored K.last K.faults) (vault_meaning V.tells V.held V.faults)
        (spools_meaning P.S.tells P.faults) devices result.devices)
        (output_change O.tells O.written O.faults out.old out.new)
        (output_change E.tells E.written E.faults err.old err.new)) (left_by result)) }

    // Words that are no command are told so, and no others.
    ensures command { (command_of (map string_bytes words.now) ≡ None) ↔ (result.end ≡ Err (Stop.Refused Refusal.NotACommand)) }

    // Where the folder tells its files, what words and files refuse first is refused, unless the folder fails.
    ensures refused { IsTrue F.tells → (refusal : Refusal) → IsRefusal (by_files (F.told files.old)) (map string_bytes words.now) refusal →
        HasRefused (Rose (F.faults files.old) (F.faults files.new)) refusal result.end }

    // And what is accepted is done, unless a device fails: over devices that tell.
    ensures complete { IsTrue F.tells → IsTrue (K.tells && (V.tells && P.S.tells)) →
        AreAccepted (by_files (F.told files.old)) (map string_bytes words.now) →
        HasNoFault (Rose (F.faults files.old) (F.faults files.new))
        (devices_change (keeper_meaning K.tells K.stored K.last K.faults) (vault_meaning V.tells V.held V.faults)
        (spools_meaning P.S.tells P.faults) devices result.devices)
        (output_change O.tells O.written O.faults out.old out.new)
        (output_change E.tells E.written E.faults err.old err.new) (left_by result) →
        IsComplete (IsLargeRun (by_files (F.told files.old)) (map string_bytes words.now) (V.tells && P.S.tells)) result.end }

    // What happened in a run is one history, in the order that its words pick.
    ensures history { IsTrue F.tells → IsOneHistory (by_files (F.told files.old)) (map string_bytes words.now) (left_by result)
        (devices_change (keeper_meaning K.tells K.stored K.last K.faults) (vault_meaning V.tells V.held V.faults)
        (spools_meaning P.S.tells P.faults) devices result.devices) }

    // It leaves in the sink's store exactly the rows of the one pass for a prefix of its windows, each window once.
    ensures store { IsTrue F.tells → HasStored (by_files (F.told files.old)) (map string_bytes words.now) result.journal
        (devices_change (keeper_meaning K.tells K.stored K.last K.faults) (vault_meaning V.tells V.held V.faults)
        (spools_meaning P.S.tells P.faults) devices result.devices) }

    // It drops no block that a window may still read.
    ensures needed { IsTrue F.tells → HasKeptNeeded (by_files (F.told files.old)) (map string_bytes words.now) result.journal
        (devices_change (keeper_meaning K.tells K.stored K.last K.faults) (vault_meaning V.tells V.held V.faults)
        (spools_meaning P.S.tells P.faults) devices result.devices) }

    // With status 0 every window is stored and printed.
    ensures whole { IsTrue F.tells → HasEndedWhole (by_files (F.told files.old)) (map string_bytes words.now) (left_by result)
        (devices_change (keeper_meaning K.tells K.stored K.last K.faults) (vault_meaning V.tells V.held V.faults)
        (spools_meaning P.S.tells P.faults) devices result.devices)
        (output_change O.tells O.written O.faults out.old out.new)
        (output_change E.tells E.written E.faults err.old err.new) }

    // And the checkpoint store has the last checkpoints.
    ensures checkpoints { IsTrue F.tells → HasLeftCheckpoints (by_files (F.told files.old)) (map string_bytes words.now) (left_by result)
        (devices_change (keeper_meaning K.tells K.stored K.last K.faults) (vault_meaning V.tells V.held V.faults)
        (spools_meaning P.S.tells P.faults) devices result.devices) }

    // Each status has its cause, and a run that stopped has printed nothing, or a front where it stopped while printing.
    ensures cause { IsTrue F.tells → HasNamedCause (by_files (F.told files.old)) (map string_bytes words.now) (left_by result)
        (devices_change (keeper_meaning K.tells K.stored K.last K.faults) (vault_meaning V.tells V.held V.faults)
        (spools_meaning P.S.tells P.faults) devices result.devices)
        (output_change O.tells O.written O.faults out.old out.new)
        (output_change E.tells E.written E.faults err.old err.new) }

    // What `trace` has printed with status 0, over a sink's store that began empty, is a legal journal for each audit of the files;
    // where the sink's store failed it has printed nothing.
    ensures traced { IsTrue F.tells → TracesLegally (by_files (F.told files.old)) (map string_bytes words.now) (left_by result)
        (devices_change (keeper_meaning K.tells K.stored K.last K.faults) (vault_meaning V.tells V.held V.faults)
        (spools_meaning P.S.tells P.faults) devices result.devices)
        (output_change O.tells O.written O.faults out.old out.new) }

    // Of files that the folder tells, an audit is done exactly for a legal journal, and refuses exactly the first line that
    // is refused, unless a device fails or memory runs out.
    ensures audit { IsTrue F.tells → AnswersAudits (F.told files.old) (map string_bytes words.now)
        (Rose (F.faults files.old) (F.faults files.new) ⊎ Rose (O.faults out.old) (O.faults out.new)) result.end }

    // The status is that of the end. Where it stopped, but for a fault of an output, the error output has got the line that
    // says why; else it is as it was, but for the report of `sim` and `trace`.
    ensures status { result.status ≡ status_after result.end }
    ensures said { IsTrue E.tells → IsTold result.end → HasSaid (line_after result.end)
        (Rose (E.faults err.old) (E.faults err.new)) (E.written err.old) (E.written err.new) }
    ensures silent { (IsTold result.end → ⊥) → (IsSim (command_of (map string_bytes words.now)) → ⊥) → err.new ≡ err.old }
{
    let outcome = act(alloc, words, files, devices, out, err);
    let status = conclude(&outcome.end, err);
    Ended {
        status,
        end: outcome.end,
        devices: outcome.devices,
        journal: outcome.journal,
        shown: outcome.shown,
        spool: outcome.spool,
    }
}

/// The status, after a line of the error output for a run that stopped. Nothing is said of an output that failed.
pub(crate) fn conclude<E: Out>(end: &Result<(), Stop>, err: &mut E) -> u8
    ensures status { result ≡ status_after end.now }
    ensures said { IsTrue E.tells → IsTold end.now → HasSaid (line_after end.now)
        (Rose (E.faults err.old) (E.faults err.new)) (E.written err.old) (E.written err.new) }
    ensures silent { (IsTold end.now → ⊥) → err.new ≡ err.old }
{
    match end {
        Ok(()) => 0,
        Err(Stop::OutputFailed) => 12,
        Err(stop) => {
            let _ = say(err, stop);
            status(stop)
        }
    }
}
