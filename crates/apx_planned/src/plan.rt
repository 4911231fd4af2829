//! The plan of a job as the machine has it.
ghost use Rattle.std.specs.Prelude.{◌≡◌, ◌<◌, [], ◌∷◌, length, map, cond, IfOk};
ghost use Rattle.std.specs.List.{range_with_len};
ghost use Rattle.apx_pass.specs.Order.{sources_of};
ghost use Rattle.apx_history.specs.Kept.{IsPlan};
ghost use Rattle.apx_job.specs.Job.{operator_in, plan_of};
ghost use Rattle.apx_machine.specs.Small.{IsSmall};

use apx_dag::{Dag, Node, Role};
use apx_job::Job;
use apx_machine::{Operator, Plan};
use apx_recovery::downstream;
use std::alloc::{AllocError, Global};

/// The operator that a first port reads, and that of a second port where there is one.
fn ports(alloc: Global, left: u16, has_right: bool, right: u16) -> Result<Vec<u16>, AllocError>
    ensures { IfOk result (λ ops. ops.items ≡ left ∷ cond has_right (right ∷ []) []) }
{
    let mut ops = Vec::new(alloc);
    ops.push(left)?;
    if has_right {
        ops.push(right)?;
    }
    Ok(ops)
}

/// The operators that an operator reads.
#[tactic(auto, unfolding(apx_pass::specs::Order::sources_of))]
fn sources(alloc: Global, node: &Node) -> Result<Vec<u16>, AllocError>
    ensures { IfOk result (λ ops. ops.items ≡ sources_of node.now.role node.now.left node.now.right) }
{
    match &node.role {
        Role::Input { .. } => Ok(Vec::new(alloc)),
        Role::Inner(kind) => ports(alloc, node.left, kind.has_right(), node.right),
        Role::Sink => ports(alloc, node.left, false, node.right),
    }
}

/// An operator as the machine has it.
fn operator(alloc: Global, dag: &Dag, op: u16) -> Result<Operator, AllocError>
    requires { op < length dag.now }
    ensures { IfOk result (λ operator. operator ≡ operator_in dag.now op) }
{
    let node = dag.node(op);
    let sources = sources(alloc, node)?;
    let under = downstream(alloc, dag, op)?;
    Ok(Operator::new(sources, under, node.partitions))
}

/// The operators as the machine has them.
fn operators(alloc: Global, dag: &Dag) -> Result<Vec<Operator>, AllocError>
    ensures { IfOk result (λ operators. operators.items ≡ map (operator_in dag.now) (range_with_len 0 (length dag.now))) }
{
    let mut operators = Vec::new(alloc);
    for op in 0..dag.len() {
        operators.push(operator(alloc, dag, op)?)?;
    }
    Ok(operators)
}

/// The plan of a job as the machine has it. It is what the job's definition says, and the machine may run it.
///
/// ```text
/// let mut machine = Machine::new(alloc, plan_of(alloc, &job)?, 0)?;
/// ```
pub fn plan_of(alloc: Global, job: &Job) -> Result<Plan, AllocError>
    ensures plan { IfOk result (λ plan. plan ≡ plan_of job.now) }
    ensures planned { IfOk result (λ plan. IsPlan plan) }
    ensures small { IfOk result (λ plan. IsSmall plan) }
{
    job.is_planned();
    let windows = job.windows();
    let every = job.settings().every;
    let dag = job.dag();
    let sink = dag.sink();
    let operators = operators(alloc, dag)?;
    let lines = Vec::from_slice(alloc, job.commands())?;
    Ok(Plan::new(windows, every, sink, operators, lines))
}
