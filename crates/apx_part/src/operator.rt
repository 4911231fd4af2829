//! What operators make of the blocks of a window, by their roles.
ghost use Rattle.std.specs.Prelude.{◌≡◌, ◌≤◌, ◌<◌, List, length, map, IfOk, ⊤};
ghost use Rattle.std.specs.Bool.{MatchBool};
ghost use Rattle.apx_tuple.specs.declared.tuple.Tuple.{Tuple};
ghost use Rattle.apx_tuple.specs.Kind.{has_right};
ghost use Rattle.apx_tuple.specs.Progress.{progress_size};
ghost use Rattle.apx_list.specs.declared.plan.CutPlan.{CutPlan};
ghost use Rattle.apx_part.specs.Made.{inner_of, IsLargeMade};
ghost use Rattle.apx_part.specs.Spelled.{AreListed};

use crate::closing::close;
use crate::port::{gather_port, gather_right};
use apx_dag::{Dag, Node};
use apx_list::Block;
use apx_tuple::{Bag, Kind, Progress, Short};
use std::alloc::Global;

/// What partition `i` of `n` of an inner operator carries on from a window, and its rows.
///
/// `Large` comes only where what comes on a port is too large, or what is carried on or given.
pub(crate) fn work_inner(
    alloc: Global,
    dag: &Dag,
    node: &Node,
    kind: &Kind,
    n: u8,
    i: u8,
    window: u32,
    progress: Progress,
    left: &[Vec<Block>],
    right: &[Vec<Block>],
) -> Result<(Progress, Bag), Short>
    requires app_windows { 0 < node.now.app_windows }
    requires left_source { node.now.left < length dag.now }
    requires right_source { MatchBool (has_right kind.now) (node.now.right < length dag.now) ⊤ }
    requires left { (plan : CutPlan) × (bags : List (List Tuple)) × AreListed plan (map (λ list. list.items) left.now) bags }
    requires right { (plan : CutPlan) × (bags : List (List Tuple)) × AreListed plan (map (λ list. list.items) right.now) bags }
    requires low { 1 ≤ n }
    requires high { n ≤ 8 }
    requires there { i < n }
    ensures ok { (plan : CutPlan) (lefts rights : List (List Tuple)) →
        AreListed plan (map (λ list. list.items) left.now) lefts → AreListed plan (map (λ list. list.items) right.now) rights →
        IfOk result (λ r. (r.0 ≡ (inner_of kind.now dag.now node.now n i window progress lefts rights).progress)
        × (r.1 ≡ (inner_of kind.now dag.now node.now n i window progress lefts rights).rows)) }
    ensures small { IfOk result (λ r. progress_size r.0 < 4294967232) }
    ensures large { (plan : CutPlan) (lefts rights : List (List Tuple)) →
        AreListed plan (map (λ list. list.items) left.now) lefts → AreListed plan (map (λ list. list.items) right.now) rights →
        result ≡ Err Short.Large → IsLargeMade dag.now node.now n i progress lefts rights (inner_of kind.now dag.now node.now n i window progress lefts rights) }
{
    let Progress {
        state,
        left: lefts,
        right: rights,
    } = progress;
    let lefts = gather_port(alloc, dag, node.left, left, n, i, lefts)?;
    let rights = gather_right(alloc, dag, node, kind, right, n, i, rights)?;
    close(alloc, kind, node.app_windows, window, state, lefts, rights)
}
