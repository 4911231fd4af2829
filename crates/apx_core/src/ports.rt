//! What comes to a partition in a window: the blocks of the operators that its ports read.
ghost use Rattle.std.specs.Prelude.{◌≡◌, ◌<◌, ◌≤◌, Bool, true, [], length, map, get_or, IfOk, IfErr};
ghost use Rattle.apx_pass.specs.Graph.{node_at};
ghost use Rattle.apx_part.specs.Fed.{plan_in};
ghost use Rattle.apx_list.specs.declared.plan.CutPlan.{CutPlan};
ghost use Rattle.apx_list.specs.Listed.{Listed};
ghost use Rattle.apx_held.specs.declared.held.Unnamed.{Unnamed};
ghost use Rattle.apx_held.specs.Lent.{IsOfList};
ghost use Rattle.apx_core.specs.Ports.{reads_left, reads_right, CanLendAll, IsPort, IsUnlentBy};

use crate::claims::Inputs;
use apx_course::{CoreFault, Naming};
use apx_dag::{Node, Role};
use apx_device::Spool;
use apx_held::{Contents, LendFault};
use apx_job::Job;
use apx_list::{Block, ListFault};
use std::alloc::Global;
use std::sync::Arc;

/// Whether the operator has a left port.
fn reads_left(node: &Node) -> bool
    ensures { result ≡ reads_left node.now.role }
{
    !node.is_input()
}

/// Whether it has a right port.
fn reads_right(node: &Node) -> bool
    ensures { result ≡ reads_right node.now.role }
{
    match &node.role {
        Role::Input { .. } => false,
        Role::Inner(kind) => kind.has_right(),
        Role::Sink => false,
    }
}

/// The fault that a partition of an operator lent no blocks.
fn unlent<F: Drop>(op: u16, why: LendFault<F>) -> CoreFault<F>
    requires { why.part < 8 }
    ensures { (tells : Bool) (plan : CutPlan) (list : Listed Unnamed) → list.plan ≡ plan → IsOfList tells list why.fault →
        IsUnlentBy plan tells result }
{
    let LendFault { part, fault } = why;
    match fault {
        ListFault::Fault(fault) => CoreFault::Spool(fault),
        ListFault::Damaged {
            number,
            window,
            index,
            last,
            bytes,
        } => CoreFault::Block {
            op,
            part: part as u8,
            number,
            window,
            index,
            last,
            bytes,
        },
        ListFault::Memory => CoreFault::Memory,
    }
}

/// The blocks of a window of each partition of an operator, for a port; none where there is no such port.
fn lend_port<S: Spool + Drop, J: Naming>(
    alloc: Global,
    contents: &mut Contents<S>,
    there: bool,
    op: u16,
    window: u32,
) -> Result<Vec<Vec<Block>>, CoreFault<S::Fault>>
    requires lends { there ≡ true → CanLendAll (plan_in J.run.job) contents.old op window }
    requires few { window ≤ 20000 }
    ensures port { IfOk result (λ lists. IsPort S.tells there window (get_or contents.old op []) (map (λ list. list.items) lists.items)) }
    ensures cause { IfErr result (IsUnlentBy (plan_in J.run.job) S.tells) }
    ensures same { contents.new ≡ contents.old }
{
    if !there {
        return Ok(Vec::new(alloc));
    }
    match contents.lend(alloc, op as usize, window) {
        Ok(lists) => Ok(lists),
        Err(why) => Err(unlent(op, why)),
    }
}

/// An operator of the run's job.
fn node_of<J: Naming>(job: &Arc<Job>, op: u16) -> &Node
    requires job { job.now.value ≡ J.run.job }
    requires op { op < length J.run.job.flow.nodes }
    ensures { result.now ≡ node_at J.run.job.flow.nodes op }
{
    job.dag().node(op)
}

/// What comes to an operator's partitions in a window.
pub(crate) fn lend_ports<S: Spool + Drop, J: Naming>(
    alloc: Global,
    job: &Arc<Job>,
    contents: &mut Contents<S>,
    op: u16,
    window: u32,
) -> Result<Inputs, CoreFault<S::Fault>>
    requires job { job.now.value ≡ J.run.job }
    requires op { op < length J.run.job.flow.nodes }
    requires left { reads_left (node_at J.run.job.flow.nodes op).role ≡ true →
        CanLendAll (plan_in J.run.job) contents.old (node_at J.run.job.flow.nodes op).left window }
    requires right { reads_right (node_at J.run.job.flow.nodes op).role ≡ true →
        CanLendAll (plan_in J.run.job) contents.old (node_at J.run.job.flow.nodes op).right window }
    requires few { window ≤ 20000 }
    ensures left { IfOk result (λ inputs. IsPort S.tells (reads_left (node_at J.run.job.flow.nodes op).role) window
        (get_or contents.old (node_at J.run.job.flow.nodes op).left []) (map (λ list. list.items) inputs.left.items)) }
    ensures right { IfOk result (λ inputs. IsPort S.tells (reads_right (node_at J.run.job.flow.nodes op).role) window
        (get_or contents.old (node_at J.run.job.flow.nodes op).right []) (map (λ list. list.items) inputs.right.items)) }
    ensures cause { IfErr result (IsUnlentBy (plan_in J.run.job) S.tells) }
    ensures same { contents.new ≡ contents.old }
{
    let node = node_of::<J>(job, op);
    let left = lend_port::<S, J>(alloc, contents, reads_left(node), node.left, window)?;
    let right = lend_port::<S, J>(alloc, contents, reads_right(node), node.right, window)?;
    Ok(Inputs { left, right })
}
