//! Which operators are reached from themselves, and the order of the others.

ghost use Rattle.std.specs.Prelude.{◌≡◌, ◌<◌, ◌≤◌, ℕ, Bool, true, false, length, IfOk, MatchOption, Some, None, Option, replicate};
ghost use Rattle.apx_dag.specs.Order.{IsSource, IsWithin, Reaches, IsAcyclic, IsReady, IsLinkOrder, link_at, Feeds};
ghost use Rattle.apx_dag.specs.Marks.{mark_at, AreMarked, IsUnmarked, IsMarkedIf, IsOpen, IsUpstreamNext, IsUpstreamDone, IsUpstream, IsFirstLoop, IsStuck, IsNextMark};

use crate::link::Link;
use std::alloc::{AllocError, Global};

fn is_marked(marks: &[bool], i: usize) -> bool
    ensures { result ≡ mark_at marks.now i }
{
    marks.get(i).copied().unwrap_or(false)
}

/// A source, where it isn't marked.
fn unmarked_one(marks: &[bool], source: Option<usize>) -> Option<usize>
    ensures { MatchOption result (IsMarkedIf marks.now source) (IsOpen marks.now source) }
{
    match source {
        Some(source) => if is_marked(marks, source) {
            None
        } else {
            Some(source)
        },
        None => None,
    }
}

/// The first source of an operator that isn't marked.
fn unmarked(marks: &[bool], link: Link) -> Option<usize>
    ensures { MatchOption result (AreMarked marks.now link) (IsUnmarked marks.now link) }
{
    match unmarked_one(marks, link.left) {
        Some(source) => Some(source),
        None => unmarked_one(marks, link.right),
    }
}

/// A source of the operator `of`, or of a marked one, that isn't marked.
fn next_upstream(links: &[Link], of: usize, marks: &[bool]) -> Option<usize>
    requires { of < length links.now }
    ensures { MatchOption result (IsUpstreamDone links.now of marks.now) (IsUpstreamNext links.now of marks.now) }
{
    if let Some(source) = unmarked(marks, links[of]) {
        return Some(source);
    }
    for (i, link) in links.iter().enumerate() {
        if is_marked(marks, i) {
            if let Some(source) = unmarked(marks, *link) {
                return Some(source);
            }
        }
    }
    None
}

/// No marks, for so many operators.
fn no_marks(alloc: Global, len: usize) -> Result<Vec<bool>, AllocError>
    ensures { IfOk result (λ marks. marks.items ≡ replicate len false) }
{
    vec![in alloc; false; len]
}

/// Marks the operators from which the operator `of` is reached.
fn upstream(alloc: Global, links: &[Link], of: usize) -> Result<Vec<bool>, AllocError>
    requires here { of < length links.now }
    requires within { IsWithin links.now }
    ensures { IfOk result (λ marks. IsUpstream links.now of marks.items) }
{
    let mut marks = no_marks(alloc, links.len())?;
    while let Some(source) = next_upstream(links, of, &marks) {
        marks[source] = true;
    }
    Ok(marks)
}

/// The first operator that is reached from itself.
pub(crate) fn first_loop(alloc: Global, links: &[Link]) -> Result<Option<usize>, AllocError>
    requires { IsWithin links.now }
    ensures { IfOk result (λ found. MatchOption found (IsAcyclic links.now) (IsFirstLoop links.now)) }
{
    for i in 0..links.len() {
        let marks = upstream(alloc, links, i)?;
        if is_marked(&marks, i) {
            return Ok(Some(i));
        }
    }
    Ok(None)
}

/// The earliest operator that isn't placed and has each of its sources placed.
fn next_ready(links: &[Link], placed: &[bool]) -> Option<usize>
    ensures { MatchOption result (IsStuck links.now placed.now) (IsNextMark links.now placed.now) }
{
    for (i, link) in links.iter().enumerate() {
        if !is_marked(placed, i) && unmarked(placed, *link).is_none() {
            return Some(i);
        }
    }
    None
}

/// The operators in an order in which they can step: at each place the
/// earliest of the file whose sources are placed.
pub(crate) fn order(alloc: Global, links: &[Link]) -> Result<Vec<u16>, AllocError>
    requires few { length links.now ≤ 16 }
    requires within { IsWithin links.now }
    requires acyclic { IsAcyclic links.now }
    ensures { IfOk result (λ order. IsLinkOrder links.now order.items) }
{
    let mut placed = no_marks(alloc, links.len())?;
    let mut order = Vec::new(alloc);
    while let Some(next) = next_ready(links, &placed) {
        placed[next] = true;
        order.push(next as u16)?;
    }
    Ok(order)
}
