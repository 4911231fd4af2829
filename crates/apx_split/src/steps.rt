//! The step of one partition.
ghost use Rattle.std.specs.Prelude.{◌≡◌, ◌≤◌, ◌<◌, ◌⊎◌, IfOk, OnOk};
ghost use Rattle.apx_tuple.specs.Size.{IsLarge};
ghost use Rattle.apx_tuple.specs.State.{pair_key};
ghost use Rattle.apx_tuple.specs.Tuple.{tuple_key};
ghost use Rattle.apx_rules.specs.Parts.{cut_state, of_parts, step_part, unify};
ghost use Rattle.apx_rules.specs.Step.{step};

use crate::bags::cut_bag;
use crate::states::split_state;
use apx_step::step_in_place;
use apx_tuple::{Bag, Kind, Short, State};
use std::alloc::Global;

/// What partition `i` of `n` makes of a window: a step over what it owns of the state and of the bags.
///
/// The state that it makes is its cut of the state that a step over everything makes, and the rows of all partitions
/// unified are that step's rows. `Large` comes only where its own state or rows are too large.
pub fn step_part(
    alloc: Global,
    kind: &Kind,
    n: u8,
    i: u8,
    window: u32,
    state: &State,
    left: &Bag,
    right: &Bag,
) -> Result<(State, Bag), Short>
    requires low { 1 ≤ n }
    requires high { n ≤ 8 }
    requires there { i < n }
    ensures ok { IfOk result (λ r. (r.0 ≡ (step_part n i kind.now window state.now left.now right.now).state)
        × (r.1 ≡ (step_part n i kind.now window state.now left.now right.now).rows)) }
    ensures kept { IfOk result (λ r. r.0 ≡ cut_state n i (step kind.now window state.now left.now right.now).state) }
    ensures whole { OnOk result (
        unify kind.now (of_parts n (λ part. (step_part n part kind.now window state.now left.now right.now).rows))
        ≡ (step kind.now window state.now left.now right.now).rows) }
    ensures large { result ≡ Err Short.Large →
        IsLarge pair_key (step_part n i kind.now window state.now left.now right.now).state
        ⊎ IsLarge tuple_key (step_part n i kind.now window state.now left.now right.now).rows }
{
    let state = split_state(alloc, state, n, i)?;
    let left = cut_bag(alloc, left, n, i)?;
    let right = cut_bag(alloc, right, n, i)?;
    step_in_place(alloc, kind, window, state, &left, &right)
}
