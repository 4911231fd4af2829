//! The work of all partitions of an operator on a window.
ghost use Rattle.std.specs.Prelude.{◌≡◌, ◌≤◌, ◌<◌, ◌-◌, [], true, length, map, get_or, IfOk};
ghost use Rattle.apx_job.specs.Job.{in_force};
ghost use Rattle.apx_part.specs.Fed.{plan_in, AreWindows, given_in};
ghost use Rattle.apx_pass.specs.Graph.{node_at};
ghost use Rattle.apx_pass.specs.Pass.{windows};
ghost use Rattle.apx_blocks.specs.Came.{reads_left, reads_right, came_left, came_right};
ghost use Rattle.apx_blocks.specs.Carried.{parts_after, parts_into};
ghost use Rattle.apx_blocks.specs.Large.{IsLargeAt};
ghost use Rattle.apx_blocks.specs.Worked.{IsWorked};

use crate::parts::{Parts, cut_anew};
use crate::sent::{Sent, left_blocks, right_blocks};
use apx_job::Job;
use apx_list::Block;
use apx_part::{PartId, work_window_of};
use apx_tuple::{Bag, Progress, Short};
use std::alloc::Global;

/// What the partitions of an operator make of a window.
#[derive(Drop)]
pub(crate) struct Made {
    /// What they carry on.
    pub(crate) parts: Parts,
    /// Their blocks; the sink has none.
    pub(crate) sent: Sent,
    /// What the last of them gives; of the sink all that reaches it.
    pub(crate) rows: Bag,
}

/// The number of partitions of the operator in the epoch that holds the window.
fn parts_in(job: &Job, op: u16, window: u32) -> u8
    requires op { op < length job.now.flow.nodes }
    requires low { 1 ≤ window }
    requires high { window ≤ windows job.now.flow }
    ensures force { result ≡ in_force job.now op window }
    ensures some { 1 ≤ result }
    ensures few { result ≤ 8 }
{
    job.windows();
    job.dag().len();
    job.in_force(op, window)
}

/// What the partitions of an operator make of a window, from what they carry into it and the blocks that come.
fn work_parts(
    alloc: Global,
    job: &Job,
    op: u16,
    window: u32,
    parts: Vec<Progress>,
    left: &[Vec<Block>],
    right: &[Vec<Block>],
) -> Result<Made, Short>
    requires op { op < length job.now.flow.nodes }
    requires low { 1 ≤ window }
    requires high { window ≤ windows job.now.flow }
    requires parts { parts.items ≡ parts_into job.now window op }
    requires left { AreWindows (plan_in job.now) window (map (λ list. list.items) left.now) (came_left job.now window op) }
    requires right { AreWindows (plan_in job.now) window (map (λ list. list.items) right.now) (came_right job.now window op) }
    ensures ok { IfOk result (λ made. IsWorked job.now op window made.parts made.sent made.rows) }
    ensures large { result ≡ Err Short.Large → IsLargeAt job.now window op }
{
    parts_in(job, op, window);
    let mut carried = Vec::new(alloc);
    let mut lists = Vec::new(alloc);
    let mut rows = Bag::new(alloc);
    let mut part = 0;
    for before in parts {
        let id = PartId { op, part };
        let done = work_window_of(alloc, job, id, window, before, left, right)?;
        carried.push(done.state)?;
        lists.push(done.blocks)?;
        rows = done.rows;
        part += 1;
    }
    Ok(Made {
        parts: Parts { parts: carried },
        sent: Sent { lists },
        rows,
    })
}

/// What the partitions of an operator make of a window, where `sent` has the blocks of each operator that it reads.
///
/// `Large` comes only where what they carry together is too large, or one of them names what is.
pub(crate) fn work_operator(
    alloc: Global,
    job: &Job,
    op: u16,
    window: u32,
    parts: Parts,
    sent: &[Sent],
) -> Result<Made, Short>
    requires op { op < length job.now.flow.nodes }
    requires low { 1 ≤ window }
    requires high { window ≤ windows job.now.flow }
    requires parts { parts ≡ parts_after job.now (window - 1) op }
    requires left { reads_left (node_at job.now.flow.nodes op).role ≡ true →
        ((node_at job.now.flow.nodes op).left < length sent.now)
        × AreWindows (plan_in job.now) window (get_or sent.now (node_at job.now.flow.nodes op).left [])
        (given_in job.now window (node_at job.now.flow.nodes op).left) }
    requires right { reads_right (node_at job.now.flow.nodes op).role ≡ true →
        ((node_at job.now.flow.nodes op).right < length sent.now)
        × AreWindows (plan_in job.now) window (get_or sent.now (node_at job.now.flow.nodes op).right [])
        (given_in job.now window (node_at job.now.flow.nodes op).right) }
    ensures ok { IfOk result (λ made. IsWorked job.now op window made.parts made.sent made.rows) }
    ensures large { result ≡ Err Short.Large → IsLargeAt job.now window op }
{
    job.windows();
    job.dag().len();
    let n = parts_in(job, op, window);
    let parts = cut_anew(alloc, parts, n)?;
    let dag = job.dag();
    let node = dag.node(op);
    let none = Vec::new(alloc);
    let left = left_blocks(node, sent, &none);
    let right = right_blocks(node, sent, &none);
    work_parts(alloc, job, op, window, parts, left, right)
}
