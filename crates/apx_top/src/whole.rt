//! The whole program, from its words to its status.
ghost use Rattle.std.specs.Prelude.{◌≡◌, ◌↔◌, ◌⊎◌, ◌&&◌, Some, None, Err, map, string_bytes, IsTrue};
ghost use Rattle.apx_cause.specs.Cause.{Rose};
ghost use Rattle.apx_load.specs.declared.refusal.Refusal.{Refusal};
ghost use Rattle.apx_load.specs.Hearing.{HasHeard};
ghost use Rattle.apx_load.specs.Refusals.{by_files};
ghost use Rattle.apx_load.specs.First.{AreAccepted, IsRefusal};
ghost use Rattle.apx_cmd.specs.Bounds.{IsBounded};
ghost use Rattle.apx_cmd.specs.Commands.{command_of};
ghost use Rattle.apx_top.specs.Audits.{AnswersAudits};
ghost use Rattle.apx_top.specs.Changes.{call_of, keeper_meaning, vault_meaning, spools_meaning, devices_change, output_change};
ghost use Rattle.apx_top.specs.Headline.{IsOneHistory, HasStored, HasKeptNeeded, HasEndedWhole, HasLeftCheckpoints, HasNamedCause};
ghost use Rattle.apx_top.specs.Left.{left_of, left_by};
ghost use Rattle.apx_top.specs.Trace.{TracesLegally};
ghost use Rattle.apx_top.specs.Plain.{HasPerformed, HasEnded, HasRefused, IsLargeRun, HasNoFault, IsComplete, status_after, line_after, IsSim, IsTold, HasSaid};

use crate::crew::crew_files;
use crate::ended::{Ended, Outcome, unrun};
use crate::plain::{conclude, perform};
use apx_cmd::{Command, command};
use apx_core::Devices;
use apx_device::{Folder, Gate, Keeper, Out, Spool, Spools, Vault};
use apx_load::Stop;
use std::alloc::Global;
use std::sync::Wait;
use std::thread::Threads;

/// Performs a command, by worker threads where it is one for them.
fn perform_any<
    R: Threads + Wait + Sync,
    F: Folder,
    K: Keeper + Drop + Send,
    V: Vault + Drop + Send,
    P: Spools + Drop + Send,
    G: Gate + Sync,
    O: Out,
    E: Out,
>(
    rt: &R,
    alloc: Global,
    command: &Command,
    files: &mut F,
    gate: &G,
    devices: Devices<K, V, P>,
    out: &mut O,
    err: &mut E,
) -> Outcome<K, V, P, <P::S as Spool>::Fault>
where
    P::S: Send,
    <P::S as Spool>::Fault: Send,
    requires bounded { IsBounded command.now }
    requires sound { IsTrue (K.sound devices.keeper) }
    requires vault_sound { IsTrue (V.sound devices.vault) }
    ensures told { F.told files.new ≡ F.told files.old }
    ensures heard { HasHeard F.tells (F.told files.old) (F.heard files.old) (F.heard files.new) (λ answers.
        HasPerformed command.now (call_of answers (Rose (F.faults files.old) (F.faults files.new))
        (devices_change (keeper_meaning K.tells K.stored K.last K.faults) (vault_meaning V.tells V.held V.faults)
        (spools_meaning P.S.tells P.faults) devices result.devices)
        (output_change O.tells O.written O.faults out.old out.new)
        (output_change E.tells E.written E.faults err.old err.new)) (left_of result)) }
    ensures unsaid { IsTold result.end → err.new ≡ err.old }
    ensures silent { (IsSim (Some command.now) → ⊥) → err.new ≡ err.old }
{
    match command {
        Command::Run {
            app,
            script,
            settings,
            threads,
        } => crew_files(
            rt,
            alloc,
            files,
            app.text(),
            script.as_ref(),
            *settings,
            *threads,
            gate,
            devices,
            out,
            err,
        ),
        _ => perform(alloc, command, files, devices, out, err),
    }
}

/// Does what the words ask for.
fn act<
    R: Threads + Wait + Sync,
    F: Folder,
    K: Keeper + Drop + Send,
    V: Vault + Drop + Send,
    P: Spools + Drop + Send,
    G: Gate + Sync,
    O: Out,
    E: Out,
>(
    rt: &R,
    alloc: Global,
    words: &[String],
    files: &mut F,
    gate: &G,
    devices: Devices<K, V, P>,
    out: &mut O,
    err: &mut E,
) -> Outcome<K, V, P, <P::S as Spool>::Fault>
where
    P::S: Send,
    <P::S as Spool>::Fault: Send,
    requires sound { IsTrue (K.sound devices.keeper) }
    requires vault_sound { IsTrue (V.sound devices.vault) }
    ensures told { F.told files.new ≡ F.told files.old }
    ensures heard { HasHeard F.tells (F.told files.old) (F.heard files.old) (F.heard files.new) (λ answers.
        HasEnded (map string_bytes words.now) (call_of answers (Rose (F.faults files.old) (F.faults files.new))
        (devices_change (keeper_meaning K.tells K.stored K.last K.faults) (vault_meaning V.tells V.held V.faults)
        (spools_meaning P.S.tells P.faults) devices result.devices)
        (output_change O.tells O.written O.faults out.old out.new)
        (output_change E.tells E.written E.faults err.old err.new)) (left_of result)) }
    ensures unsaid { IsTold result.end → err.new ≡ err.old }
    ensures silent { (IsSim (command_of (map string_bytes words.now)) → ⊥) → err.new ≡ err.old }
{
    match command(alloc, words) {
        Ok(command) => perform_any(rt, alloc, &command, files, gate, devices, out, err),
        Err(refusal) => unrun(devices, Err(Stop::from(refusal))),
    }
}

/// Does what the words ask for. `run APP` with its options runs as `sim` does, by as many worker threads as `--threads` says, and prints
/// what `sim` prints; all other words are done as by [`apex_plain`](crate::apex_plain), with the same statuses.
///
/// The workers do the events of a run one after the other, and the work of its windows each by itself. A worker passes the gate
/// before the work of a window and behind it. In which order they come is not said. For `run` it may wait, and it isn't promised
/// that it returns; for all other words it returns.
pub fn apex_main<
    R: Threads + Wait + Sync,
    F: Folder,
    K: Keeper + Drop + Send,
    V: Vault + Drop + Send,
    P: Spools + Drop + Send,
    G: Gate + Sync,
    O: Out,
    E: Out,
>(
    rt: &R,
    alloc: Global,
    words: &[String],
    files: &mut F,
    gate: &G,
    devices: Devices<K, V, P>,
    out: &mut O,
    err: &mut E,
) -> Ended<K, V, P, <P::S as Spool>::Fault>
where
    P::S: Send,
    <P::S as Spool>::Fault: Send,
    requires sound { IsTrue (K.sound devices.keeper) }
    requires vault_sound { IsTrue (V.sound devices.vault) }
    // Whatever its folder answers, it ends in a way that these answers allow: done, or stopped for a cause, with the devices
    // and the outputs left as that stop leaves them.
    ensures heard { HasHeard F.tells (F.told files.old) (F.heard files.old) (F.heard files.new) (λ answers.
        HasEnded (map string_bytes words.now) (call_of answers (Rose (F.faults files.old) (F.faults files.new))
        (devices_change (keeper_meaning K.tells K.stored K.last K.faults) (vault_meaning V.tells V.held V.faults)
        (spools_meaning P.S.tells P.faults) devices result.devices)
        (output_change O.tells O.written O.faults out.old out.new)
        (output_change E.tells E.written E.faults err.old err.new)) (left_by result)) }

    // Words that are no command are told so, and no others.
    ensures command { (command_of (map string_bytes words.now) ≡ None) ↔ (result.end ≡ Err (Stop.Refused Refusal.NotACommand)) }

    // Where the folder tells its files, what words and files refuse first is refused, unless the folder fails.
    ensures refused { IsTrue F.tells → (refusal : Refusal) → IsRefusal (by_files (F.told files.old)) (map string_bytes words.now) refusal →
        HasRefused (Rose (F.faults files.old) (F.faults files.new)) refusal result.end }

    // And what is accepted is done, unless a device fails: over devices that tell.
    ensures complete { IsTrue F.tells → IsTrue (K.tells && (V.tells && P.S.tells)) →
        AreAccepted (by_files (F.told files.old)) (map string_bytes words.now) →
        HasNoFault (Rose (F.faults files.old) (F.faults files.new))
        (devices_change (keeper_meaning K.tells K.stored K.last K.faults) (vault_meaning V.tells V.held V.faults)
        (spools_meaning P.S.tells P.faults) devices result.devices)
        (output_change O.tells O.written O.faults out.old out.new)
        (output_change E.tells E.written E.faults err.old err.new) (left_by result) →
        IsComplete (IsLargeRun (by_files (F.told files.old)) (map string_bytes words.now) (V.tells && P.S.tells)) result.end }

    // What happened in a run is one history, in the order that its words pick or by its workers.
    ensures history { IsTrue F.tells → IsOneHistory (by_files (F.told files.old)) (map string_bytes words.now) (left_by result)
        (devices_change (keeper_meaning K.tells K.stored K.last K.faults) (vault_meaning V.tells V.held V.faults)
        (spools_meaning P.S.tells P.faults) devices result.devices) }

    // It leaves in the sink's store exactly the rows of the one pass for a prefix of its windows, each window once.
    ensures store { IsTrue F.tells → HasStored (by_files (F.told files.old)) (map string_bytes words.now) result.journal
        (devices_change (keeper_meaning K.tells K.stored K.last K.faults) (vault_meaning V.tells V.held V.faults)
        (spools_meaning P.S.tells P.faults) devices result.devices) }

    // It drops no block that a window may still read.
    ensures needed { IsTrue F.tells → HasKeptNeeded (by_files (F.told files.old)) (map string_bytes words.now) result.journal
        (devices_change (keeper_meaning K.tells K.stored K.last K.faults) (vault_meaning V.tells V.held V.faults)
        (spools_meaning P.S.tells P.faults) devices result.devices) }

    // With status 0 every window is stored and printed.
    ensures whole { IsTrue F.tells → HasEndedWhole (by_files (F.told files.old)) (map string_bytes words.now) (left_by result)
        (devices_change (keeper_meaning K.tells K.stored K.last K.faults) (vault_meaning V.tells V.held V.faults)
        (spools_meaning P.S.tells P.faults) devices result.devices)
        (output_change O.tells O.written O.faults out.old out.new)
        (output_change E.tells E.written E.faults err.old err.new) }

    // And the checkpoint store has the last checkpoints.
    ensures checkpoints { IsTrue F.tells → HasLeftCheckpoints (by_files (F.told files.old)) (map string_bytes words.now) (left_by result)
        (devices_change (keeper_meaning K.tells K.stored K.last K.faults) (vault_meaning V.tells V.held V.faults)
        (spools_meaning P.S.tells P.faults) devices result.devices) }

    // Each status has its cause, and a run that stopped has printed nothing, or a front where it stopped while printing.
    ensures cause { IsTrue F.tells → HasNamedCause (by_files (F.told files.old)) (map string_bytes words.now) (left_by result)
        (devices_change (keeper_meaning K.tells K.stored K.last K.faults) (vault_meaning V.tells V.held V.faults)
        (spools_meaning P.S.tells P.faults) devices result.devices)
        (output_change O.tells O.written O.faults out.old out.new)
        (output_change E.tells E.written E.faults err.old err.new) }

    // What `trace` has printed with status 0, over a sink's store that began empty, is a legal journal for each audit of the files;
    // where the sink's store failed it has printed nothing.
    ensures traced { IsTrue F.tells → TracesLegally (by_files (F.told files.old)) (map string_bytes words.now) (left_by result)
        (devices_change (keeper_meaning K.tells K.stored K.last K.faults) (vault_meaning V.tells V.held V.faults)
        (spools_meaning P.S.tells P.faults) devices result.devices)
        (output_change O.tells O.written O.faults out.old out.new) }

    // Of files that the folder tells, an audit is done exactly for a legal journal, and refuses exactly the first line that
    // is refused, unless a device fails or memory runs out.
    ensures audit { IsTrue F.tells → AnswersAudits (F.told files.old) (map string_bytes words.now)
        (Rose (F.faults files.old) (F.faults files.new) ⊎ Rose (O.faults out.old) (O.faults out.new)) result.end }

    // The status is that of the end. Where it stopped, but for a fault of an output, the error output has got the line that
    // says why; else it is as it was, but for the report of `sim`, `run` and `trace`.
    ensures status { result.status ≡ status_after result.end }
    ensures said { IsTrue E.tells → IsTold result.end → HasSaid (line_after result.end)
        (Rose (E.faults err.old) (E.faults err.new)) (E.written err.old) (E.written err.new) }
    ensures silent { (IsTold result.end → ⊥) → (IsSim (command_of (map string_bytes words.now)) → ⊥) → err.new ≡ err.old }
{
    let outcome = act(rt, alloc, words, files, gate, devices, out, err);
    let status = conclude(&outcome.end, err);
    Ended {
        status,
        end: outcome.end,
        devices: outcome.devices,
        journal: outcome.journal,
        shown: outcome.shown,
        spool: outcome.spool,
    }
}
