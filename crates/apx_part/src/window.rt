//! The work of a partition on one window.
ghost use Rattle.std.specs.Prelude.{◌≡◌, ◌≤◌, ◌<◌, ◌-◌, ◌⊎◌, [], List, length, map, IfOk};
ghost use Rattle.apx_tuple.specs.declared.tuple.Tuple.{Tuple};
ghost use Rattle.apx_tuple.specs.Progress.{progress_size};
ghost use Rattle.apx_job.specs.Job.{in_force};
ghost use Rattle.apx_list.specs.Cut.{blocks_of};
ghost use Rattle.apx_list.specs.Plan.{IsPlan};
ghost use Rattle.apx_list.specs.Window.{SpellWindow};
ghost use Rattle.apx_pass.specs.Graph.{node_at};
ghost use Rattle.apx_pass.specs.Order.{OfPorts};
ghost use Rattle.apx_pass.specs.Pass.{windows};
ghost use Rattle.apx_shares.specs.Given.{part_progress};
ghost use Rattle.apx_part.specs.Fed.{plan_in, AreWindows, IsFedAll};
ghost use Rattle.apx_part.specs.Made.{made_of, IsMade, IsPart, IsLargePart};

use crate::operator::work_inner;
use crate::port::unified;
use apx_dag::{Dag, Role};
use apx_job::Job;
use apx_list::{Block, CutPlan, cut};
use apx_tuple::{Bag, Progress, Short};
use std::alloc::{AllocError, Global};

/// A partition of an operator; both count from 0.
#[derive(Clone, Copy, Debug, PartialEq, Eq)]
pub struct PartId {
    /// The operator's number.
    pub op: u16,
    /// The partition's number.
    pub part: u8,
}

/// What a partition made of a window.
#[derive(Debug, Drop)]
pub struct Done {
    /// What it carries to the next window.
    pub state: Progress,
    /// What it gives; of the sink all that reaches it.
    pub rows: Bag,
    /// The blocks of the rows; the sink has none.
    pub blocks: Vec<Block>,
}

/// How the windows of the job are cut into blocks.
pub fn plan_of(job: &Job) -> CutPlan
    ensures plan { result ≡ plan_in job.now }
    ensures limits { IsPlan result }
{
    let settings = job.settings();
    CutPlan {
        base: settings.base,
        every: settings.every,
        windows: job.windows(),
        size: settings.block,
    }
}

/// What a partition made that isn't the sink's: its rows are cut into blocks.
fn cut_rows(
    alloc: Global,
    job: &Job,
    window: u32,
    state: Progress,
    rows: Bag,
) -> Result<Done, AllocError>
    requires low { 1 ≤ window }
    requires high { window ≤ windows job.now.flow }
    ensures made { IfOk result (λ done. (done.state ≡ state) × (done.rows ≡ rows)) }
    ensures blocks { IfOk result (λ done. (done.blocks.items ≡ blocks_of (plan_in job.now) window done.rows)
        × SpellWindow (plan_in job.now) window done.blocks.items done.rows) }
{
    let blocks = cut(alloc, &plan_of(job), window, &rows)?;
    Ok(Done {
        state,
        rows,
        blocks,
    })
}

/// The number of partitions of the operator in the epoch that holds the window.
fn parts_in(job: &Job, op: u16, window: u32) -> u8
    requires op { op < length job.now.flow.nodes }
    requires low { 1 ≤ window }
    requires high { window ≤ windows job.now.flow }
    ensures force { result ≡ in_force job.now op window }
    ensures few { result ≤ 8 }
{
    job.windows();
    job.dag().len();
    job.in_force(op, window)
}

/// What is known of each operator of a graph: those that it reads are there, and it steps once for a window or more.
fn known(dag: &Dag, op: u16)
    requires { op < length dag.now }
    ensures sources { OfPorts (node_at dag.now op).role
        ((node_at dag.now op).left < length dag.now) ((node_at dag.now op).right < length dag.now) }
    ensures app_windows { 0 < (node_at dag.now op).app_windows }
{
    dag.len();
    dag.order();
}

/// What a partition makes of a window, by the role of its operator.
fn work(
    alloc: Global,
    job: &Job,
    id: PartId,
    window: u32,
    progress: Progress,
    left: &[Vec<Block>],
    right: &[Vec<Block>],
) -> Result<Done, Short>
    requires op { id.op < length job.now.flow.nodes }
    requires low { 1 ≤ window }
    requires high { window ≤ windows job.now.flow }
    requires part { id.part < in_force job.now id.op window }
    requires left { (bags : List (List Tuple)) × AreWindows (plan_in job.now) window (map (λ list. list.items) left.now) bags }
    requires right { (bags : List (List Tuple)) × AreWindows (plan_in job.now) window (map (λ list. list.items) right.now) bags }
    ensures ok { (lefts rights : List (List Tuple)) → AreWindows (plan_in job.now) window (map (λ list. list.items) left.now) lefts →
        AreWindows (plan_in job.now) window (map (λ list. list.items) right.now) rights →
        IfOk result (λ done. IsMade job.now id.op window (made_of job.now id.op id.part window progress lefts rights) done.state done.rows done.blocks.items) }
    ensures small { IfOk result (λ done. progress_size done.state < 4294967232) }
    ensures large { (lefts rights : List (List Tuple)) → AreWindows (plan_in job.now) window (map (λ list. list.items) left.now) lefts →
        AreWindows (plan_in job.now) window (map (λ list. list.items) right.now) rights →
        result ≡ Err Short.Large → IsLargePart job.now id.op id.part window progress lefts rights }
{
    let dag = job.dag();
    let node = dag.node(id.op);
    known(dag, id.op);
    match &node.role {
        Role::Input { .. } => {
            let rows = job.bag(id.op, window)?;
            Ok(cut_rows(alloc, job, window, Progress::new(alloc), rows)?)
        }
        Role::Inner(kind) => {
            let n = parts_in(job, id.op, window);
            let (state, rows) = work_inner(
                alloc, dag, node, kind, n, id.part, window, progress, left, right,
            )?;
            Ok(cut_rows(alloc, job, window, state, rows)?)
        }
        Role::Sink => Ok(Done {
            state: Progress::new(alloc),
            rows: unified(alloc, dag, node.left, left)?,
            blocks: Vec::new(alloc),
        }),
    }
}

/// What a partition makes of a window, from what it carries into it and the blocks of all partitions of its sources.
///
/// `left` and `right` have a list for each partition of the source of that port, in order: the blocks of the window. Of an
/// operator without that port, and of an input, they are passed over. Where the blocks are those that the sources'
/// partitions give and `progress` is the partition's after the window before, what is made is the partition's: what it
/// carries on, its rows and its blocks; of the sink the rows are all that reaches it, and there are no blocks.
///
/// `Large` comes only where what comes on a port is too large, or what is carried on or given. What is carried is dropped on a
/// refusal.
pub fn work_window_of(
    alloc: Global,
    job: &Job,
    id: PartId,
    window: u32,
    progress: Progress,
    left: &[Vec<Block>],
    right: &[Vec<Block>],
) -> Result<Done, Short>
    requires op { id.op < length job.now.flow.nodes }
    requires low { 1 ≤ window }
    requires high { window ≤ windows job.now.flow }
    requires part { id.part < in_force job.now id.op window }
    requires left { (bags : List (List Tuple)) × AreWindows (plan_in job.now) window (map (λ list. list.items) left.now) bags }
    requires right { (bags : List (List Tuple)) × AreWindows (plan_in job.now) window (map (λ list. list.items) right.now) bags }
    ensures ok { (lefts rights : List (List Tuple)) → AreWindows (plan_in job.now) window (map (λ list. list.items) left.now) lefts →
        AreWindows (plan_in job.now) window (map (λ list. list.items) right.now) rights →
        IfOk result (λ done. IsMade job.now id.op window (made_of job.now id.op id.part window progress lefts rights) done.state done.rows done.blocks.items) }
    ensures part { progress ≡ part_progress job.now.flow (in_force job.now id.op window) id.part (window - 1) id.op →
        IsFedAll job.now id.op window (map (λ list. list.items) left.now) (map (λ list. list.items) right.now) →
        IfOk result (λ done. IsPart job.now id.op id.part window done.state done.rows done.blocks.items) }
    ensures small { IfOk result (λ done. progress_size done.state < 4294967232) }
    ensures large { (lefts rights : List (List Tuple)) → AreWindows (plan_in job.now) window (map (λ list. list.items) left.now) lefts →
        AreWindows (plan_in job.now) window (map (λ list. list.items) right.now) rights →
        result ≡ Err Short.Large → IsLargePart job.now id.op id.part window progress lefts rights }
{
    job.windows();
    job.dag().len();
    job.dag().order();
    work(alloc, job, id, window, progress, left, right)
}

/// The same from a progress that is lent: it is copied, so where it isn't needed any more, [`work_window_of`] takes it.
pub fn work_window(
    alloc: Global,
    job: &Job,
    id: PartId,
    window: u32,
    state: &Progress,
    left: &[Vec<Block>],
    right: &[Vec<Block>],
) -> Result<Done, Short>
    requires op { id.op < length job.now.flow.nodes }
    requires low { 1 ≤ window }
    requires high { window ≤ windows job.now.flow }
    requires part { id.part < in_force job.now id.op window }
    requires left { (bags : List (List Tuple)) × AreWindows (plan_in job.now) window (map (λ list. list.items) left.now) bags }
    requires right { (bags : List (List Tuple)) × AreWindows (plan_in job.now) window (map (λ list. list.items) right.now) bags }
    ensures ok { (lefts rights : List (List Tuple)) → AreWindows (plan_in job.now) window (map (λ list. list.items) left.now) lefts →
        AreWindows (plan_in job.now) window (map (λ list. list.items) right.now) rights →
        IfOk result (λ done. IsMade job.now id.op window (made_of job.now id.op id.part window state.now lefts rights) done.state done.rows done.blocks.items) }
    ensures part { state.now ≡ part_progress job.now.flow (in_force job.now id.op window) id.part (window - 1) id.op →
        IsFedAll job.now id.op window (map (λ list. list.items) left.now) (map (λ list. list.items) right.now) →
        IfOk result (λ done. IsPart job.now id.op id.part window done.state done.rows done.blocks.items) }
    ensures small { IfOk result (λ done. progress_size done.state < 4294967232) }
    ensures large { (lefts rights : List (List Tuple)) → AreWindows (plan_in job.now) window (map (λ list. list.items) left.now) lefts →
        AreWindows (plan_in job.now) window (map (λ list. list.items) right.now) rights →
        result ≡ Err Short.Large → IsLargePart job.now id.op id.part window state.now lefts rights }
{
    let progress = Progress {
        state: state.state.copy()?,
        left: state.left.copy(alloc)?,
        right: state.right.copy(alloc)?,
    };
    work_window_of(alloc, job, id, window, progress, left, right)
}
