//! When work is too large: a law.
ghost use Rattle.std.specs.Prelude.{ℕ, ◌≤◌, ◌<◌, length};
ghost use Rattle.apx_pass.specs.Large.{IsLargeDataflow};
ghost use Rattle.apx_pass.specs.Pass.{windows};
ghost use Rattle.apx_blocks.specs.Large.{IsLargeAt};

use crate::inputs::keys_are_short;
use apx_job::Job;

/// An operator's work on a window is too large only where the one pass names what is too large: a law of each job.
pub fn large_only_in_pass(job: &Job)
    ensures { (w o : ℕ) → 1 ≤ w → w ≤ windows job.now.flow → o < length job.now.flow.nodes → IsLargeAt job.now w o →
        IsLargeDataflow job.now.flow }
{
    keys_are_short(job);
    job.windows();
    let dag = job.dag();
    dag.len();
    dag.order();
}
