//! One pass over a graph, a window at a time.
ghost use Rattle.std.specs.Prelude.{◌≡◌, ◌<◌, ◌≤◌, ◌+◌, ℕ, suc, [], length, map, slice_index, slice_index_or, IfOk};
ghost use Rattle.std.specs.Option.{option_copied};
ghost use Rattle.apx_pass.specs.Order.{IsBefore, IsOrder};
ghost use Rattle.apx_pass.specs.Valid.{IsValid};
ghost use Rattle.apx_pass.specs.Pass.{at_start, progress_after, rows_at, input_at, windows};
ghost use Rattle.apx_mean.specs.Kept.{AreKept};
ghost use Rattle.apx_mean.specs.Passing.{dataflow_of};
ghost use Rattle.apx_pass.specs.Large.{IsLargeDataflow};

use crate::came::came;
use crate::operator::pass_operator;
use crate::rows::Rows;
use apx_dag::Dag;
use apx_input::Windows;
use apx_tuple::{Bag, Progress, Short};
use std::alloc::{AllocError, Global};
use std::marker::Model;

/// A pass over an application that has gone through its first windows.
///
/// ```
/// let pass = OnePass::new(alloc, &dag, &inputs)?;
/// let (pass, rows) = pass.next(alloc)?;
/// ```
#[derive(Drop)]
pub struct OnePass<'a> {
    /// The application.
    dag: &'a Dag,
    /// What each input reads, in the order of the file.
    inputs: &'a [Windows],
    /// The operators' numbers, each behind those that it reads.
    order: &'a [u16],
    /// The sink's place in the order.
    sink: usize,
    /// What each operator carries on, in the order.
    progress: Vec<Progress>,
    /// How many windows it has gone through.
    passed: u32,
}

impl<'a> Model for OnePass<'a> {
    ghost use Rattle.apx_mean.specs.Passing.{Passing, IsPassing};

    ghost Value = { Passing };

    ghost view = { λ p. record { flow = record { nodes = p.dag.now; inputs = p.inputs.now }; passed = p.passed } };

    ghost invariant = { λ p.
        IsPassing (record { flow = record { nodes = p.dag.now; inputs = p.inputs.now }; passed = p.passed })
        p.order.now p.sink p.progress.items };
}

impl<'a> OnePass<'a> {
    ghost use Rattle.std.specs.Prelude.{◌≡◌, ◌<◌, ◌+◌, suc, IfOk};
    ghost use Rattle.apx_mean.specs.Passing.{dataflow_of};
    ghost use Rattle.apx_pass.specs.Pass.{Dataflow, rows_at, sink_of, windows};
    ghost use Rattle.apx_pass.specs.Large.{IsLargeDataflow};

    /// A pass that has gone through no window yet.
    pub fn new(
        alloc: Global,
        dag: &'a Dag,
        inputs: &'a [Windows],
    ) -> Result<OnePass<'a>, AllocError>
        ensures { IfOk result (λ pass. pass ≡ record { flow = dataflow_of dag.now inputs.now; passed = 0 }) }
    {
        let order = dag.order();
        let sink = place_of(order, order.len(), dag.sink());
        let progress = starts(alloc, order)?;
        Ok(OnePass {
            dag,
            inputs,
            order,
            sink,
            progress,
            passed: 0,
        })
    }

    /// Goes through the next window of the application and gives the rows that reach the sink in it.
    ///
    /// `Large` comes only where a bag or a state that the pass names is too large.
    pub fn next(self, alloc: Global) -> Result<(OnePass<'a>, Bag), Short>
        requires passed { self.passed < 20000 }
        requires within { self.passed < windows self.flow }
        ensures ok { IfOk result (λ r.
            (r.0 ≡ record { flow = self.entry.flow; passed = self.entry.passed + 1 })
            × (r.1 ≡ rows_at self.entry.flow (suc self.entry.passed) (sink_of self.entry.flow.nodes))) }
        ensures large { result ≡ Err Short.Large → IsLargeDataflow self.entry.flow }
    {
        let OnePass {
            dag,
            inputs,
            order,
            sink,
            progress,
            passed,
        } = self;
        let (progress, rows) = pass_all(alloc, dag, inputs, order, sink, passed, progress)?;
        let pass = OnePass {
            dag,
            inputs,
            order,
            sink,
            progress,
            passed: passed + 1,
        };
        Ok((pass, rows))
    }
}

/// What each operator of the order carries at the start.
fn starts(alloc: Global, order: &[u16]) -> Result<Vec<Progress>, AllocError>
    ensures { IfOk result (λ progress. progress.items ≡ map (λ _. at_start) order.now) }
{
    let mut progress = Vec::new(alloc);
    for _operator in order {
        progress.push(Progress::new(alloc))?;
    }
    Ok(progress)
}

/// Where the operator stands among the first `count` of the order.
pub(crate) fn place_of(order: &[u16], count: usize, operator: u16) -> usize
    requires count { count ≤ length order.now }
    requires there { IsBefore order.now count operator }
    ensures within { result < count }
    ensures named { slice_index order.now result ≡ operator }
{
    for place in 0..count {
        if order[place] == operator {
            return place;
        }
    }
    unreachable!()
}

/// What an operator reads, where it is an input.
#[tactic(auto, unfolding(apx_pass::specs::Pass::input_at))]
fn input_of<'a>(dag: &Dag, inputs: &'a [Windows], operator: u16) -> Option<&'a Windows>
    requires { operator ≤ length dag.now }
    ensures { option_copied result ≡ input_at (dataflow_of dag.now inputs.now) operator }
{
    inputs.get(dag.inputs_before(operator))
}

/// The rows that stand at the place.
fn taken(mut rows: Vec<Rows>, place: usize) -> Rows
    requires { place < length rows.items }
    ensures { result ≡ slice_index_or rows.items place [] }
{
    rows.swap_remove(place)
}

/// What each operator carries on from the window after `passed`, in the order, and the rows that reach the sink in it.
fn pass_all(
    alloc: Global,
    dag: &Dag,
    inputs: &[Windows],
    order: &[u16],
    sink: usize,
    passed: u32,
    progress: Vec<Progress>,
) -> Result<(Vec<Progress>, Bag), Short>
    requires passed { passed < 20000 }
    requires within { passed < windows (dataflow_of dag.now inputs.now) }
    requires order { IsOrder dag.now order.now }
    requires valid { IsValid dag.now }
    requires sink { sink < length order.now }
    requires carried { progress.items ≡ map (progress_after (dataflow_of dag.now inputs.now) passed) order.now }
    ensures progress { IfOk result (λ r. r.0.items ≡ map (progress_after (dataflow_of dag.now inputs.now) (suc passed)) order.now) }
    ensures rows { IfOk result (λ r. r.1 ≡ rows_at (dataflow_of dag.now inputs.now) (suc passed) (slice_index order.now sink)) }
    ensures large { result ≡ Err Short.Large → IsLargeDataflow (dataflow_of dag.now inputs.now) }
{
    let (progress, all) = pass_each(alloc, dag, inputs, order, sink, passed, progress)?;
    let rows = taken(all, sink).sorted()?;
    Ok((progress, rows))
}

/// What each operator carries on from the window after `passed`, in the order, and the rows that are given in it: those of
/// the sink stand at its place.
fn pass_each(
    alloc: Global,
    dag: &Dag,
    inputs: &[Windows],
    order: &[u16],
    sink: usize,
    passed: u32,
    progress: Vec<Progress>,
) -> Result<(Vec<Progress>, Vec<Rows>), Short>
    requires passed { passed < 20000 }
    requires within { passed < windows (dataflow_of dag.now inputs.now) }
    requires order { IsOrder dag.now order.now }
    requires valid { IsValid dag.now }
    requires carried { progress.items ≡ map (progress_after (dataflow_of dag.now inputs.now) passed) order.now }
    ensures progress { IfOk result (λ r. r.0.items ≡ map (progress_after (dataflow_of dag.now inputs.now) (suc passed)) order.now) }
    ensures long { IfOk result (λ r. length r.1.items ≡ length order.now) }
    ensures rows { IfOk result (λ r. AreKept (rows_at (dataflow_of dag.now inputs.now) (suc passed)) order.now sink [] r.1.items) }
    ensures large { result ≡ Err Short.Large → IsLargeDataflow (dataflow_of dag.now inputs.now) }
{
    let mut carried = Vec::new(alloc);
    let mut rows = Vec::new(alloc);
    for before in progress {
        let operator = order[rows.len()];
        let node = dag.node(operator);
        let input = input_of(dag, inputs, operator);
        let (left, right) = came(alloc, dag, order, sink, &mut rows)?;
        let made = pass_operator(alloc, node, input, passed + 1, before, left, right)?;
        carried.push(made.progress)?;
        rows.push(made.rows)?;
    }
    Ok((carried, rows))
}
