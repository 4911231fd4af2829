//! Progress: what a partition has of it, and that of partitions as one.
ghost use Rattle.std.specs.Prelude.{◌≡◌, ◌≢◌, ℕ, ◌≤◌, ◌<◌, map, IfOk};
ghost use Rattle.apx_tuple.specs.declared.progress.Progress.{Progress};
ghost use Rattle.apx_tuple.specs.Progress.{IsLargeProgress, progress_size};
ghost use Rattle.apx_rules.specs.Parts.{of_parts};
ghost use Rattle.apx_shares.specs.Carried.{cut_progress, merge_progress};
ghost use Rattle.apx_shares.specs.Laws.{IsOrdered};
ghost use Rattle.apx_split.specs.Kept.{AreOnce};

use crate::bags::cut_bag;
use crate::size::is_large;
use crate::states::{merge_states, split_state};
use apx_tuple::{Bag, Progress, Short, State};
use std::alloc::{AllocError, Global};

/// What partition `i` of `n` has of what is carried; it is never too large.
pub fn split_progress(alloc: Global, progress: &Progress, n: u8, i: u8) -> Result<Progress, Short>
    requires low { 1 ≤ n }
    requires high { n ≤ 8 }
    requires there { i < n }
    ensures cut { IfOk result (λ cut. cut ≡ cut_progress n i progress.now) }
    ensures never { result ≢ Err Short.Large }
{
    let state = split_state(alloc, &progress.state, n, i)?;
    let left = cut_bag(alloc, &progress.left, n, i)?;
    let right = cut_bag(alloc, &progress.right, n, i)?;
    Ok(Progress { state, left, right })
}

/// What is carried, in three lists: the states, and the gathered tuples of each port.
#[derive(Drop)]
struct Members {
    states: Vec<State>,
    lefts: Vec<Bag>,
    rights: Vec<Bag>,
}

/// The members of what is carried by each partition.
fn taken_apart(alloc: Global, parts: Vec<Progress>) -> Result<Members, AllocError>
    ensures states { IfOk result (λ members. members.states.items ≡ map (λ part. part.state) parts.items) }
    ensures lefts { IfOk result (λ members. members.lefts.items ≡ map (λ part. part.left) parts.items) }
    ensures rights { IfOk result (λ members. members.rights.items ≡ map (λ part. part.right) parts.items) }
{
    let mut states = Vec::new(alloc);
    let mut lefts = Vec::new(alloc);
    let mut rights = Vec::new(alloc);
    for part in parts {
        let Progress { state, left, right } = part;
        states.push(state)?;
        lefts.push(left)?;
        rights.push(right)?;
    }
    Ok(Members {
        states,
        lefts,
        rights,
    })
}

/// What partitions carry, as one, where no key stands in the states of two of them.
///
/// The cuts of what an operator carries give just that. `Large` comes only where it is too large. The parts are dropped on
/// a refusal.
pub fn merge_progress(alloc: Global, parts: Vec<Progress>) -> Result<Progress, Short>
    requires { AreOnce (merge_progress parts.items).state }
    ensures ok { IfOk result (λ progress. progress ≡ merge_progress parts.items) }
    ensures small { IfOk result (λ progress. progress_size progress < 4294967232) }
    ensures whole { (n : ℕ) (progress : Progress) → 1 ≤ n → IsOrdered progress →
        parts.items ≡ of_parts n (λ i. cut_progress n i progress) → IfOk result (λ merged. merged ≡ progress) }
    ensures large { result ≡ Err Short.Large → IsLargeProgress (merge_progress parts.items) }
{
    let Members {
        states,
        lefts,
        rights,
    } = taken_apart(alloc, parts)?;
    let state = merge_states(alloc, states)?;
    let left = Bag::merge(alloc, lefts)?;
    let right = Bag::merge(alloc, rights)?;
    let progress = Progress { state, left, right };
    if is_large(&progress) {
        return Err(Short::Large);
    }
    Ok(progress)
}
