//! The one pass over a whole job.
ghost use Rattle.std.specs.Prelude.{◌≡◌, ◌≤◌, length, IfOk};
ghost use Rattle.std.specs.List.{enumerate_from};
ghost use Rattle.apx_pass.specs.Large.{IsLargeDataflow};
ghost use Rattle.apx_pass.specs.Pass.{mean as mean_of};

use crate::pass::OnePass;
use apx_job::Job;
use apx_tuple::{Bag, Short};
use std::alloc::Global;

/// The rows that reach the sink in each window of a job, each with the window's number, from 1 on; there are at most 20,000.
///
/// `Large` comes only where a bag or a state that the pass names is too large.
///
/// ```
/// for (window, rows) in mean(alloc, &job)? {
///     println!(rt; "{window}: {}", rows.tuples().len())?;
/// }
/// ```
pub fn mean(alloc: Global, job: &Job) -> Result<Vec<(u32, Bag)>, Short>
    ensures ok { IfOk result (λ rows. rows.items ≡ enumerate_from 1 (mean_of job.now.flow)) }
    ensures few { IfOk result (λ rows. length rows.items ≤ 20000) }
    ensures large { result ≡ Err Short.Large → IsLargeDataflow job.now.flow }
{
    let mut pass = OnePass::new(alloc, job.dag(), job.inputs())?;
    let mut all = Vec::new(alloc);
    for passed in 0..job.windows() {
        let (next, rows) = pass.next(alloc)?;
        pass = next;
        all.push((passed + 1, rows))?;
    }
    Ok(all)
}
