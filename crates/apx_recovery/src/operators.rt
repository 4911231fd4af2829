//! Who reads an operator, and what is downstream of it.
ghost use Rattle.std.specs.Prelude.{◌≡◌, ℕ, ◌<◌, ◌≤◌, ◌^◌, ◌||◌, ◌&&◌, ◌==◌, Bool, length, get_or, cond, false, IfOk};
ghost use Rattle.std.specs.List.{list_any, range_with_len, filter};
ghost use Rattle.apx_pass.specs.Order as order;
ghost use Rattle.apx_pass.specs.Order.{sources, sources_of, is_below};
ghost use Rattle.apx_recovery.specs.Sets.{set_of};

use apx_dag::{Dag, Node, Role};
use std::alloc::{AllocError, Global};

/// Whether an operator is marked.
fn is_marked(marks: &[bool], op: u16) -> bool
    ensures { result ≡ get_or marks.now op false }
{
    marks.get(op as usize).copied().unwrap_or(false)
}

/// Whether an operator is `above`, or marked.
fn is_among(op: u16, above: u16, marks: &[bool]) -> bool
    ensures { result ≡ (above == op || get_or marks.now op false) }
{
    above == op || is_marked(marks, op)
}

/// The bit of an operator, where it is in a set.
fn bit(there: bool, op: u16) -> u16
    requires { op < 16 }
    ensures { result ≡ cond there (2 ^ op) 0 }
{
    if there { 1 << op } else { 0 }
}

/// A test of the first port, or of the second where there is one.
fn either(left: bool, has_right: bool, right: bool) -> bool
    ensures { result ≡ (left || (has_right && right)) }
{
    left || has_right && right
}

/// Whether one of an operator's sources passes, where `left` and `right` say whether each of its ports' would.
#[tactic(auto, unfolding(apx_pass::specs::Order::sources_of))]
fn any_source(node: &Node, left: bool, right: bool) -> bool
    ensures { (p : ℕ → Bool) → left ≡ p node.now.left → right ≡ p node.now.right →
        result ≡ list_any p (sources_of node.now.role node.now.left node.now.right) }
{
    match &node.role {
        Role::Input { .. } => false,
        Role::Inner(kind) => either(left, kind.has_right(), right),
        Role::Sink => left,
    }
}

/// Whether an operator reads another.
fn reads(dag: &Dag, op: u16, source: u16) -> bool
    requires { op < length dag.now }
    ensures { result ≡ order.reads dag.now op source }
{
    let node = dag.node(op);
    any_source(node, source == node.left, source == node.right)
}

/// Whether an operator reads `above` or one that is marked.
fn reads_marked(dag: &Dag, op: u16, above: u16, marks: &[bool]) -> bool
    requires { op < length dag.now }
    ensures { result ≡ list_any (λ source. above == source || get_or marks.now source false) (sources dag.now op) }
{
    let node = dag.node(op);
    let left = is_among(node.left, above, marks);
    let right = is_among(node.right, above, marks);
    any_source(node, left, right)
}

/// Marks the operators that are downstream of `above`.
fn mark(dag: &Dag, above: u16, marks: &mut [bool])
    requires { length dag.now ≤ length marks.old }
    ensures length { length marks.new ≡ length marks.old }
    ensures marked { (o : ℕ) → o < length dag.now → get_or marks.new o false ≡ is_below dag.now above o }
{
    let order = dag.order();
    for place in 0..order.len() {
        let op = order[place];
        let below = reads_marked(dag, op, above, marks);
        marks[op as usize] = below;
    }
}

/// The marked operators among the first so many, as a set.
fn marked(marks: &[bool], len: u16) -> u16
    requires { len ≤ 16 }
    ensures { result ≡ set_of len (λ o. get_or marks.now o false) }
{
    let mut set = 0;
    for op in 0..len {
        set += bit(is_marked(marks, op), op);
    }
    set
}

/// The operators that read an operator, as a set: operator number `k` is the bit `1 << k`.
pub fn readers(dag: &Dag, op: u16) -> u16
    requires { op < length dag.now }
    ensures { result ≡ set_of (length dag.now) (λ o. order.reads dag.now o op) }
{
    let mut set = 0;
    for reader in 0..dag.len() {
        set += bit(reads(dag, reader, op), reader);
    }
    set
}

/// The operators that are downstream of an operator, as a set. It isn't among them.
pub fn tree(dag: &Dag, op: u16) -> u16
    requires { op < length dag.now }
    ensures { result ≡ set_of (length dag.now) (λ o. is_below dag.now op o) }
{
    let len = dag.len();
    let mut marks = [false; 16];
    mark(dag, op, &mut marks);
    marked(&marks, len)
}

/// The marked operators among the first so many, in ascending order.
fn numbers(alloc: Global, marks: &[bool], len: u16) -> Result<Vec<u16>, AllocError>
    ensures { IfOk result (λ ops. ops.items ≡ filter (λ o. get_or marks.now o false) (range_with_len 0 len)) }
{
    let mut ops = Vec::new(alloc);
    for op in 0..len {
        if is_marked(marks, op) {
            ops.push(op)?;
        }
    }
    Ok(ops)
}

/// The operators that are downstream of an operator, as a list in ascending order. It isn't among them.
pub fn downstream(alloc: Global, dag: &Dag, op: u16) -> Result<Vec<u16>, AllocError>
    requires { op < length dag.now }
    ensures { IfOk result (λ ops. ops.items ≡ filter (λ o. is_below dag.now op o) (range_with_len 0 (length dag.now))) }
{
    let len = dag.len();
    let mut marks = [false; 16];
    mark(dag, op, &mut marks);
    let ops = numbers(alloc, &marks, len)?;
    Ok(ops)
}
