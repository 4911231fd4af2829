//! The program `apex`: its words, the system's files and its standard streams, handed to the engine.
#![tactic(auto)]

ghost use Rattle.std.specs.Prelude.{◌≡◌, ◌<◌, ◌↔◌, ◌⊎◌, None, Err, [], true, IsTrue, IsOk, IsErr, IfOk, map, string_bytes};
ghost use Rattle.apx_cause.specs.Cause.{Rose};
ghost use Rattle.apx_load.specs.declared.refusal.Refusal.{Refusal};
ghost use Rattle.apx_load.specs.declared.refusal.Refusal.TheVariants.{NotACommand};
ghost use Rattle.apx_load.specs.declared.stop.Stop.TheVariants.{Refused};
ghost use Rattle.apx_load.specs.Hearing.{HasHeard};
ghost use Rattle.apx_cmd.specs.Commands.{command_of};
ghost use Rattle.apx_load.specs.First.{AreAccepted, IsRefusal};
ghost use Rattle.apx_load.specs.Refusals.{by_files};
ghost use Rattle.apx_top.specs.Audits.{AnswersAudits};
ghost use Rattle.apx_top.specs.Changes.{output_change};
ghost use Rattle.apx_top.specs.Plain.{HasRefused, IsLargeRun, IsComplete, status_after};
ghost use Rattle.apex.specs.Performed.{HasPerformed, KeepsPromises};

use apx_device::{Failed, Folder, MemoryKeeper, MemorySpools, MemoryVault, NoGate, Out};
use apx_files::{RealFolder, RealOut};
use apx_top::{Devices, Ended, apex_main};
use std::alloc::{AllocError, Global};
use std::convert::Infallible;
use std::env::{self, Args};
use std::io::{self, ErrorKind, Write};
use std::process::ExitCode;
use std::sync::Wait;
use std::thread::Threads;

/// The most bytes of standard output, and of the error output, that are held back until they are written together.
const ROOM: usize = 65_536;

/// The status for an output that failed.
const OUTPUT_FAILED: u8 = 12;

/// The status for want of memory.
const OUT_OF_MEMORY: u8 = 13;

fn main(rt: HostRuntime) -> ExitCode {
    let alloc = rt.alloc();
    let mut files = RealFolder::new(&rt);
    let words = words(alloc, env::args(&rt));
    ExitCode::from(program(&rt, alloc, words, &mut files, rt.stdout(), rt.stderr()))
}

// Does what the words ask for, where the system could give them, and ends with the status of the process. For `run` it may wait.
//
// The error output is held back until standard output is finished, and given up where rows were lost: so no report stands
// behind rows that nobody has got.
fn program<R: Threads + Wait + Sync, F: Folder, W: Write + Drop, V: Write + Drop>(
    rt: &R,
    alloc: Global,
    words: Result<Vec<String>, AllocError>,
    files: &mut F,
    stdout: W,
    stderr: V,
) -> u8
    ensures { IsErr words → result ≡ OUT_OF_MEMORY }
{
    let mut err = RealOut::new(alloc, stderr, ROOM);
    match words {
        Ok(words) => {
            let performed = perform(rt, alloc, &words, files, stdout, &mut err);
            if performed.is_lost() {
                performed.status
            } else {
                exit_status(performed.status, err.finish())
            }
        }
        Err(AllocError) => {
            let _ = err.write(b"apex: out of memory\n");
            let _ = err.finish();
            OUT_OF_MEMORY
        }
    }
}

/// What the program did.
#[derive(Drop)]
pub(crate) struct Performed {
    /// The status of the process.
    pub(crate) status: u8,
    /// How the top call ended, with the stores and the maker of spools, which end with the process.
    pub(crate) ended: Ended<MemoryKeeper, MemoryVault, MemorySpools, Infallible>,
    /// How many writes to standard output failed, up to the last value of the type.
    pub(crate) faults: u64,
}

impl Performed {
    /// Whether all went well but for what standard output was to get last.
    fn is_lost(&self) -> bool
        ensures { IsTrue result ↔ ((self.now.ended.status ≡ 0) × (0 < self.now.status)) }
    {
        self.ended.status == 0 && self.status > 0
    }
}

// Does what the words ask for, with stores and spools in memory.
//
// Standard output is held back and finished at the end, whatever the status.
fn perform<R: Threads + Wait + Sync, F: Folder, W: Write + Drop, E: Out>(
    rt: &R,
    alloc: Global,
    words: &[String],
    files: &mut F,
    stdout: W,
    err: &mut E,
) -> Performed
    // Whatever its folder answers, it ends in a way that these answers allow.
    ensures heard { HasHeard F.tells (F.told files.old) (F.heard files.old) (F.heard files.new) (λ answers.
        HasPerformed (map string_bytes words.now) answers (Rose (F.faults files.old) (F.faults files.new))
        (output_change E.tells E.written E.faults err.old err.new) result.ended) }

    // Words that are no command are told so, and no others.
    ensures command { (command_of (map string_bytes words.now) ≡ None) ↔ (result.ended.end ≡ Err (Refused NotACommand)) }

    // Where the folder tells its files, what words and files refuse first is refused, unless the folder fails.
    ensures refused { IsTrue F.tells → (refusal : Refusal) → IsRefusal (by_files (F.told files.old)) (map string_bytes words.now) refusal →
        HasRefused (Rose (F.faults files.old) (F.faults files.new)) refusal result.ended.end }

    // And what is accepted is done, unless the folder or an output fails.
    ensures complete { IsTrue F.tells → AreAccepted (by_files (F.told files.old)) (map string_bytes words.now) →
        (Rose (F.faults files.old) (F.faults files.new) → ⊥) → result.faults ≡ 0 → (Rose (E.faults err.old) (E.faults err.new) → ⊥) →
        IsComplete (IsLargeRun (by_files (F.told files.old)) (map string_bytes words.now) true) result.ended.end }

    // And a run keeps what the top call promises of it.
    ensures promised { IsTrue F.tells → KeepsPromises (F.told files.old) (map string_bytes words.now)
        (output_change E.tells E.written E.faults err.old err.new) result.ended }

    // Of files that the folder tells, an audit is done exactly for a legal journal, and refuses exactly the first line that
    // is refused, unless the folder or standard output fails or memory runs out.
    ensures audit { IsTrue F.tells → AnswersAudits (F.told files.old) (map string_bytes words.now)
        (Rose (F.faults files.old) (F.faults files.new) ⊎ (0 < result.faults)) result.ended.end }

    // The status is that of the end; a good end has 0 exactly where all output was written, and else 12.
    ensures done { (result.status ≡ 0) ↔ (IsOk result.ended.end × (result.faults ≡ 0)) }
    ensures stopped { IsErr result.ended.end → result.status ≡ status_after result.ended.end }
    ensures lost { IsOk result.ended.end → 0 < result.faults → result.status ≡ OUTPUT_FAILED }
{
    let mut out = RealOut::new(alloc, stdout, ROOM);
    let devices = Devices {
        keeper: MemoryKeeper::new(alloc),
        vault: MemoryVault::new(alloc),
        spools: MemorySpools::new(alloc),
    };
    let ended = apex_main(rt, alloc, words, files, &NoGate, devices, &mut out, err);
    let status = exit_status(ended.status, out.finish());
    Performed {
        status,
        ended,
        faults: out.faults(),
    }
}

// The words after the program's name.
fn words(alloc: Global, args: io::Result<Args<Global>>) -> Result<Vec<String>, AllocError> {
    match args {
        Ok(args) => args.skip(1).collect(alloc),
        Err(error) => no_words(alloc, error.kind()),
    }
}

// What stands for words that the system can't give: none, which is no command, where one isn't text.
fn no_words(alloc: Global, kind: ErrorKind) -> Result<Vec<String>, AllocError>
    ensures text { IsOk result ↔ (kind ≡ ErrorKind.InvalidData) }
    ensures none { IfOk result (λ words. words.items ≡ []) }
{
    match kind {
        ErrorKind::InvalidData => Ok(Vec::new(alloc)),
        _ => Err(AllocError),
    }
}

// The status of the process: an output that can't be finished is a fault where all else went well.
fn exit_status(ended: u8, finished: Result<(), Failed>) -> u8
    ensures done { (result ≡ 0) ↔ ((ended ≡ 0) × IsOk finished) }
    ensures kept { 0 < ended → result ≡ ended }
    ensures lost { ended ≡ 0 → IsErr finished → result ≡ OUTPUT_FAILED }
{
    match finished {
        Err(Failed) if ended == 0 => OUTPUT_FAILED,
        _ => ended,
    }
}

#[cfg(test)]
mod tests;
