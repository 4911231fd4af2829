//! A run over a job, a window at a time.
ghost use Rattle.std.specs.Prelude.{◌≡◌, ◌<◌, suc, cond, map, IfOk};
ghost use Rattle.apx_keys.specs.Keys.{InputsHave, IsShort};
ghost use Rattle.apx_pass.specs.Job.{Job};
ghost use Rattle.apx_pass.specs.Graph.{is_sink};
ghost use Rattle.apx_pass.specs.Large.{IsLargeDataflow};
ghost use Rattle.apx_pass.specs.Order.{IsOrder};
ghost use Rattle.apx_pass.specs.Pass.{rows_at, sink_of, windows};
ghost use Rattle.apx_blocks.specs.Carried.{parts_after};

use crate::inputs::keys_are_short;
use crate::operator::work_operator;
use crate::parts::Parts;
use crate::sent::nothing_sent;
use apx_dag::{Node, Role};
use apx_job::Job;
use apx_tuple::{Bag, Progress, Short};
use std::alloc::{AllocError, Global};
use std::marker::Model;

/// A run over a job that has gone through its first windows.
///
/// Each partition of each operator takes the blocks of its sources' partitions and gives blocks of its own; where a
/// repartition is met, what an operator carries is cut anew.
///
/// ```
/// let run = BlockRun::new(alloc, &job)?;
/// let (run, rows) = run.next(alloc)?;
/// ```
#[derive(Drop)]
pub struct BlockRun<'a> {
    /// The job.
    job: &'a Job,
    /// The operators' numbers, each behind those that it reads.
    order: &'a [u16],
    /// What the partitions of each operator carry, in the order.
    parts: Vec<Parts>,
    /// How many windows it has gone through.
    passed: u32,
}

impl<'a> Model for BlockRun<'a> {
    ghost use Rattle.apx_blocks.specs.Running.{Running, IsRunning};

    ghost Value = { Running };

    ghost view = { λ r. record { job = r.job.now; passed = r.passed } };

    ghost invariant = { λ r. IsRunning (record { job = r.job.now; passed = r.passed }) r.order.now r.parts.items };
}

impl<'a> BlockRun<'a> {
    ghost use Rattle.std.specs.Prelude.{◌≡◌, ◌<◌, ◌+◌, suc, IfOk};
    ghost use Rattle.apx_pass.specs.Large.{IsLargeDataflow};
    ghost use Rattle.apx_pass.specs.Pass.{rows_at, sink_of, windows};

    /// A run that has gone through no window yet.
    pub fn new(alloc: Global, job: &'a Job) -> Result<BlockRun<'a>, AllocError>
        ensures { IfOk result (λ run. run ≡ record { job = job.now; passed = 0 }) }
    {
        keys_are_short(job);
        let order = job.dag().order();
        let parts = starts(alloc, order)?;
        Ok(BlockRun {
            job,
            order,
            parts,
            passed: 0,
        })
    }

    /// Goes through the next window of the job and gives the rows that reach the sink in it: those of the one pass.
    ///
    /// `Large` comes only where the one pass names what is too large.
    pub fn next(self, alloc: Global) -> Result<(BlockRun<'a>, Bag), Short>
        requires { self.passed < windows self.job.flow }
        ensures ok { IfOk result (λ r.
            (r.0 ≡ record { job = self.entry.job; passed = self.entry.passed + 1 })
            × (r.1 ≡ rows_at self.entry.job.flow (suc self.entry.passed) (sink_of self.entry.job.flow.nodes))) }
        ensures large { result ≡ Err Short.Large → IsLargeDataflow self.entry.job.flow }
    {
        let BlockRun {
            job,
            order,
            parts,
            passed,
        } = self;
        job.windows();
        let (parts, rows) = pass_all(alloc, job, order, passed, parts)?;
        let run = BlockRun {
            job,
            order,
            parts,
            passed: passed + 1,
        };
        Ok((run, rows))
    }
}

/// What each operator of the order carries at the start: nothing, in one part.
fn starts(alloc: Global, order: &[u16]) -> Result<Vec<Parts>, AllocError>
    ensures { (job : Job) → IfOk result (λ parts. parts.items ≡ map (parts_after job 0) order.now) }
{
    let mut all = Vec::new(alloc);
    for _operator in order {
        let mut parts = Vec::new(alloc);
        parts.push(Progress::new(alloc))?;
        all.push(Parts { parts })?;
    }
    Ok(all)
}

/// The rows that reach the sink: those of the operator where it is the sink, and else those from before.
fn sink_rows(node: &Node, made: Bag, before: Bag) -> Bag
    ensures { result ≡ cond (is_sink node.now.role) made before }
{
    match &node.role {
        Role::Sink => made,
        Role::Input { .. } | Role::Inner(_) => before,
    }
}

/// What the partitions of each operator carry on from the window after `passed`, in the order, and the rows that reach the
/// sink in it.
///
/// `Large` comes only where the one pass names what is too large.
fn pass_all(
    alloc: Global,
    job: &Job,
    order: &[u16],
    passed: u32,
    parts: Vec<Parts>,
) -> Result<(Vec<Parts>, Bag), Short>
    requires within { passed < windows job.now.flow }
    requires short { InputsHave IsShort job.now.flow }
    requires order { IsOrder job.now.flow.nodes order.now }
    requires parts { parts.items ≡ map (parts_after job.now passed) order.now }
    ensures parts { IfOk result (λ r. r.0.items ≡ map (parts_after job.now (suc passed)) order.now) }
    ensures rows { IfOk result (λ r. r.1 ≡ rows_at job.now.flow (suc passed) (sink_of job.now.flow.nodes)) }
    ensures large { result ≡ Err Short.Large → IsLargeDataflow job.now.flow }
{
    job.windows();
    let window = passed + 1;
    let dag = job.dag();
    let count = dag.len();
    let mut sent = nothing_sent(alloc, count)?;
    let mut carried = Vec::new(alloc);
    let mut rows = Bag::new(alloc);
    for before in parts {
        let place = carried.len();
        let op = order[place];
        let made = work_operator(alloc, job, op, window, before, &sent)?;
        carried.push(made.parts)?;
        sent[usize::from(op)] = made.sent;
        rows = sink_rows(dag.node(op), made.rows, rows);
    }
    Ok((carried, rows))
}
