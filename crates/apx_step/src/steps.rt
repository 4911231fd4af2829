//! What an operator makes of one window.
ghost use Rattle.std.specs.Prelude.{◌≡◌, ◌⊎◌, ◌++◌, map, IfOk};
ghost use Rattle.apx_tuple.specs.Size.{IsLarge};
ghost use Rattle.apx_tuple.specs.State.{pair_key, IsState};
ghost use Rattle.apx_tuple.specs.Tuple.{tuple_key};
ghost use Rattle.apx_rules.specs.Step.{keyed_step, step};
ghost use Rattle.apx_step.specs.Walk.{keeps, start_of, closes, pair_tuple};

use crate::rules::emit;
use crate::singles::{keep, scale};
use crate::top::top;
use crate::walk::walk;
use apx_tuple::{Bag, Kind, Short, State, Tuple};
use std::alloc::{AllocError, Global};

/// The state and the rows of an operator of this kind after the window, from the state before it and the
/// bags that came on its ports. A kind with one port has an empty bag on the right.
///
/// `Large` comes only where that state or those rows are too large. The state is copied: where it isn't
/// needed any more, [`step_in_place`] changes it.
pub fn step(
    alloc: Global,
    kind: &Kind,
    window: u32,
    state: &State,
    left: &Bag,
    right: &Bag,
) -> Result<(State, Bag), Short>
    ensures ok { IfOk result (λ r.
        (r.0 ≡ (step kind.now window state.now left.now right.now).state)
        × (r.1 ≡ (step kind.now window state.now left.now right.now).rows)) }
    ensures large { result ≡ Err Short.Large →
        IsLarge pair_key (step kind.now window state.now left.now right.now).state
        ⊎ IsLarge tuple_key (step kind.now window state.now left.now right.now).rows }
{
    step_in_place(alloc, kind, window, state.copy()?, left, right)
}

/// The same, with the state changed in place and given back: so a window costs what comes in it.
///
/// `Large` comes only where that state or those rows are too large. The state is dropped on a refusal.
pub fn step_in_place(
    alloc: Global,
    kind: &Kind,
    window: u32,
    state: State,
    left: &Bag,
    right: &Bag,
) -> Result<(State, Bag), Short>
    ensures ok { IfOk result (λ r.
        (r.0 ≡ (step kind.now window state left.now right.now).state)
        × (r.1 ≡ (step kind.now window state left.now right.now).rows)) }
    ensures large { result ≡ Err Short.Large →
        IsLarge pair_key (step kind.now window state left.now right.now).state
        ⊎ IsLarge tuple_key (step kind.now window state left.now right.now).rows }
{
    match *kind {
        Kind::Top { k } => Ok((State::new(alloc), top(alloc, k, left)?)),
        _ => keyed_step(alloc, kind, window, state, left, right),
    }
}

/// The same, with the bags given away too: `keep` and `scale` change the left one in place.
///
/// `Large` comes only where that state or those rows are too large. All that is given away is dropped on a refusal.
pub fn step_by_value(
    alloc: Global,
    kind: &Kind,
    window: u32,
    state: State,
    left: Bag,
    right: Bag,
) -> Result<(State, Bag), Short>
    ensures ok { IfOk result (λ r.
        (r.0 ≡ (step kind.now window state left right).state)
        × (r.1 ≡ (step kind.now window state left right).rows)) }
    ensures large { result ≡ Err Short.Large →
        IsLarge pair_key (step kind.now window state left right).state
        ⊎ IsLarge tuple_key (step kind.now window state left right).rows }
{
    match *kind {
        Kind::Keep { min, max } => Ok((State::new(alloc), keep(min, max, left)?)),
        Kind::Scale { factor } => Ok((State::new(alloc), scale(factor, left)?)),
        _ => step_in_place(alloc, kind, window, state, &left, &right),
    }
}

/// The step of a kind that goes key by key.
fn keyed_step(
    alloc: Global,
    kind: &Kind,
    window: u32,
    state: State,
    left: &Bag,
    right: &Bag,
) -> Result<(State, Bag), Short>
    ensures ok { IfOk result (λ r.
        (r.0 ≡ (keyed_step kind.now window state left.now right.now).state)
        × (r.1 ≡ (keyed_step kind.now window state left.now right.now).rows)) }
    ensures large { result ≡ Err Short.Large →
        IsLarge pair_key (keyed_step kind.now window state left.now right.now).state
        ⊎ IsLarge tuple_key (keyed_step kind.now window state left.now right.now).rows }
{
    let start = start_of(alloc, kind, state);
    let (kept, emitted) = walk(alloc, kind, start, left, right)?;
    if closes(kind, window) {
        let rows = Bag::of(all_kept(alloc, &kept)?)?;
        return Ok((State::new(alloc), rows));
    }
    Ok((kept, Bag::of(emitted)?))
}

/// What the walk begins with: the state, where the kind keeps entries.
fn start_of(alloc: Global, kind: &Kind, state: State) -> State
    ensures start { result ≡ start_of kind.now state }
    ensures state { IsState state }
{
    if state.len() == 0 || !keeps(kind) {
        return State::new(alloc);
    }
    state
}

/// Whether the kind keeps an entry for a key.
fn keeps(kind: &Kind) -> bool
    ensures { result ≡ keeps kind.now }
{
    matches!(
        kind,
        Kind::Count | Kind::Sum | Kind::Peak | Kind::First | Kind::Tumble { .. } | Kind::Enrich
    )
}

/// Whether all that is kept is emitted at the window, and forgotten.
fn closes(kind: &Kind, window: u32) -> bool
    ensures { result ≡ closes kind.now window }
{
    match *kind {
        Kind::Tumble { every } => window.is_multiple_of(every),
        _ => false,
    }
}

/// All pairs of the state as tuples.
fn all_kept(alloc: Global, state: &State) -> Result<Vec<Tuple>, AllocError>
    ensures { IfOk result (λ emitted. emitted.items ≡ map pair_tuple state.now) }
{
    let mut emitted = Vec::new(alloc);
    for (key, value) in state.pairs() {
        emit(key, value, &mut emitted)?;
    }
    Ok(emitted)
}
