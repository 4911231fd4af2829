//! The job of a generated example.
ghost use Rattle.std.specs.Prelude.{◌≡◌, ◌≤◌, IfOk, MatchResult};
ghost use Rattle.apx_device.specs.MemoryFolder.{file_of};
ghost use Rattle.apx_example.specs.Example.{example_job};
ghost use Rattle.apx_top.specs.Example.{HasExample};

use apx_device::MemoryFolder;
use apx_example::examples_are_accepted;
use apx_gen::generate;
use apx_job::Job;
use apx_json::Name;
use apx_load::{Stop, job};
use apx_script::Settings;
use std::alloc::{AllocError, Global};

/// How many windows are between two checkpoints of an example.
const EVERY: u32 = 4;

/// The files of the example of a number with so many lines.
fn files(alloc: Global, number: u64, size: u32) -> Result<MemoryFolder, AllocError>
    requires least { 1 ≤ size }
    requires most { size ≤ 200000 }
    ensures { IfOk result (λ files. HasExample number size (file_of files)) }
{
    let example = generate(alloc, number, size)?;
    let mut files = MemoryFolder::new(alloc);
    files.add(alloc, "app.json", example.app)?;
    files.add(alloc, "gen.txt", example.lines)?;
    files.add(alloc, "script.txt", example.script)?;
    Ok(files)
}

/// The job of the example of a number with so many lines. Its files are judged as any others are, and want of memory alone
/// refuses them.
pub(crate) fn example(alloc: Global, number: u64, size: u32) -> Result<Job, Stop>
    requires least { 1 ≤ size }
    requires most { size ≤ 200000 }
    ensures { MatchResult result (λ job. job ≡ example_job number size) (λ stop. stop ≡ Stop.Memory) }
{
    examples_are_accepted();
    let mut files = files(alloc, number, size)?;
    let script = Name::of(alloc, "script.txt")?;
    let settings = Settings {
        every: EVERY,
        ..Settings::default()
    };
    job(alloc, &mut files, "app.json", Some(&script), settings)
}
