//! What comes on the ports of an operator: the rows of those that it reads, moved where nobody needs them any more.
ghost use Rattle.std.specs.Prelude.{◌≡◌, ◌≢◌, ◌+◌, ◌<◌, ◌≤◌, ℕ, List, [], ◌∷◌, ◌||◌, length, slice_index, false, IfOk, OnOk};
ghost use Rattle.std.specs.Bool.{OnTrue};
ghost use Rattle.apx_tuple.specs.declared.tuple.Tuple.{Tuple};
ghost use Rattle.apx_pass.specs.Graph.{node_at};
ghost use Rattle.apx_pass.specs.Order.{sources_of, stands_in, IsBefore, IsOrder};
ghost use Rattle.apx_mean.specs.Kept.{reads_from, AreKept};
ghost use Rattle.apx_mean.specs.Views.{AreCome};

use crate::pass::place_of;
use crate::rows::Rows;
use apx_dag::{Dag, Node, Role};
use std::alloc::{AllocError, Global};
use std::mem;

/// Whether the operator reads another one.
#[tactic(auto, unfolding(apx_pass::specs::Order::sources_of))]
fn reads(node: &Node, source: u16) -> bool
    ensures { result ≡ stands_in (sources_of node.now.role node.now.left node.now.right) source }
{
    match &node.role {
        Role::Input { .. } => false,
        Role::Inner(kind) => source == node.left || kind.has_right() && source == node.right,
        Role::Sink => source == node.left,
    }
}

/// Whether an operator from a place of the order on reads the operator.
fn is_read_from(dag: &Dag, order: &[u16], from: usize, source: u16) -> bool
    requires { IsOrder dag.now order.now }
    ensures { result ≡ stands_in (reads_from dag.now order.now from) source }
{
    for place in from..order.len() {
        if reads(dag.node(order[place]), source) {
            return true;
        }
    }
    false
}

/// The rows of an operator that is read: those that stand there, where they are read for the last time, and else a copy.
fn take(
    alloc: Global,
    order: &[u16],
    sink: usize,
    rows: &mut Vec<Rows>,
    source: u16,
    is_last: bool,
) -> Result<Rows, AllocError>
    requires long { length rows.old.items ≤ length order.now }
    requires there { IsBefore order.now (length rows.old.items) source }
    ensures came { (gives : ℕ → List Tuple) (rest : List ℕ) → AreKept gives order.now sink (source ∷ rest) rows.old.items →
        IfOk result (λ came. came ≡ gives source) }
    ensures kept { (gives : ℕ → List Tuple) (rest : List ℕ) → OnTrue is_last (stands_in rest source ≡ false) →
        AreKept gives order.now sink (source ∷ rest) rows.old.items → OnOk result (AreKept gives order.now sink rest rows.new.items) }
    ensures same { length rows.new.items ≡ length rows.old.items }
{
    let place = place_of(order, rows.len(), source);
    if is_last && place != sink {
        return Ok(mem::replace(&mut rows[place], Rows::new(alloc)));
    }
    rows[place].copy(alloc)
}

/// What comes on the one port of the next operator of the order, which reads the source; the right port has nothing.
fn came_one(
    alloc: Global,
    dag: &Dag,
    order: &[u16],
    sink: usize,
    rows: &mut Vec<Rows>,
    source: u16,
) -> Result<(Rows, Rows), AllocError>
    requires order { IsOrder dag.now order.now }
    requires long { length rows.old.items < length order.now }
    requires there { IsBefore order.now (length rows.old.items) source }
    ensures came { (gives : ℕ → List Tuple) →
        AreKept gives order.now sink (source ∷ reads_from dag.now order.now (length rows.old.items + 1)) rows.old.items →
        IfOk result (λ r. r.0 ≡ gives source) }
    ensures kept { (gives : ℕ → List Tuple) →
        AreKept gives order.now sink (source ∷ reads_from dag.now order.now (length rows.old.items + 1)) rows.old.items →
        OnOk result (AreKept gives order.now sink (reads_from dag.now order.now (length rows.old.items + 1)) rows.new.items) }
    ensures same { length rows.new.items ≡ length rows.old.items }
{
    let is_last = !is_read_from(dag, order, rows.len() + 1, source);
    let left = take(alloc, order, sink, rows, source, is_last)?;
    Ok((left, Rows::new(alloc)))
}

/// What comes on the two ports of the next operator of the order.
fn came_both(
    alloc: Global,
    dag: &Dag,
    order: &[u16],
    sink: usize,
    rows: &mut Vec<Rows>,
    left: u16,
    right: u16,
) -> Result<(Rows, Rows), AllocError>
    requires order { IsOrder dag.now order.now }
    requires long { length rows.old.items < length order.now }
    requires left { IsBefore order.now (length rows.old.items) left }
    requires right { IsBefore order.now (length rows.old.items) right }
    ensures came { (gives : ℕ → List Tuple) →
        AreKept gives order.now sink (left ∷ right ∷ reads_from dag.now order.now (length rows.old.items + 1)) rows.old.items →
        IfOk result (λ r. (r.0 ≡ gives left) × (r.1 ≡ gives right)) }
    ensures kept { (gives : ℕ → List Tuple) →
        AreKept gives order.now sink (left ∷ right ∷ reads_from dag.now order.now (length rows.old.items + 1)) rows.old.items →
        OnOk result (AreKept gives order.now sink (reads_from dag.now order.now (length rows.old.items + 1)) rows.new.items) }
    ensures same { length rows.new.items ≡ length rows.old.items }
{
    let next = rows.len() + 1;
    let is_last_left = left != right && !is_read_from(dag, order, next, left);
    let is_last_right = !is_read_from(dag, order, next, right);
    let left = take(alloc, order, sink, rows, left, is_last_left)?;
    let right = take(alloc, order, sink, rows, right, is_last_right)?;
    Ok((left, right))
}

/// What comes on the ports of the next operator of the order, which stands behind those of which there are rows.
///
/// Rows that are read for the last time are taken away; the others, and the sink's, are left and copied.
pub(crate) fn came(
    alloc: Global,
    dag: &Dag,
    order: &[u16],
    sink: usize,
    rows: &mut Vec<Rows>,
) -> Result<(Rows, Rows), AllocError>
    requires order { IsOrder dag.now order.now }
    requires long { length rows.old.items < length order.now }
    ensures came { (gives : ℕ → List Tuple) →
        AreKept gives order.now sink (reads_from dag.now order.now (length rows.old.items)) rows.old.items →
        IfOk result (λ r. AreCome gives (node_at dag.now (slice_index order.now (length rows.old.items))) r.0 r.1) }
    ensures kept { (gives : ℕ → List Tuple) →
        AreKept gives order.now sink (reads_from dag.now order.now (length rows.old.items)) rows.old.items →
        OnOk result (AreKept gives order.now sink (reads_from dag.now order.now (length rows.old.items + 1)) rows.new.items) }
    ensures same { length rows.new.items ≡ length rows.old.items }
{
    let node = dag.node(order[rows.len()]);
    match &node.role {
        Role::Input { .. } => Ok((Rows::new(alloc), Rows::new(alloc))),
        Role::Inner(kind) if kind.has_right() => {
            came_both(alloc, dag, order, sink, rows, node.left, node.right)
        }
        Role::Inner(_) => came_one(alloc, dag, order, sink, rows, node.left),
        Role::Sink => came_one(alloc, dag, order, sink, rows, node.left),
    }
}
