// What the numbers that stand for the values of keys make of a state.
ghost use Rattle.std.specs.Prelude.{◌≡◌, ℤ, true, ◌++◌, [], map, IfOk, OnOk};
ghost use Rattle.apx_tuple.specs.Size.{IsLarge};
ghost use Rattle.apx_tuple.specs.State.{pair_key, value_at, with_entry, IsState};
ghost use Rattle.apx_step.specs.Walk.{closes, emitted_of, pair_tuple, walked};
ghost use Rattle.apx_fold.specs.Digests.{digests, kind_of_digests};
ghost use Rattle.apx_fold.specs.Putting.{entry_after, is_told, told_of_number, told_value};

use apx_tuple::{Key, Kind, Short, State, Tuple};
use std::alloc::Global;

/// Puts each number into the state: what is kept then, and what is told.
///
/// A key is found once, and copied where it is told. `Large` comes only where what is kept then is too large for a state.
pub(crate) fn put_numbers(
    alloc: Global,
    kind: &Kind,
    numbers: &State,
    state: State,
) -> Result<(State, Vec<Tuple>), Short>
    requires { digests kind.now ≡ true }
    ensures kept { IfOk result (λ r. r.0 ≡ walked (kind_of_digests kind.now) state (map pair_tuple numbers.now) []) }
    ensures rows { IfOk result (λ r. r.1.items ≡ emitted_of (kind_of_digests kind.now) state (map pair_tuple numbers.now) []) }
    ensures large { result ≡ Err Short.Large →
        IsLarge pair_key (walked (kind_of_digests kind.now) state (map pair_tuple numbers.now) []) }
    ensures state { IsState state }
{
    let mut kept = begun(state);
    let mut rows = Vec::new(alloc);
    for (key, number) in numbers.pairs() {
        put_number(kind, key, number, &mut kept, &mut rows)?;
    }
    Ok((kept, rows))
}

/// The state, of which a caller knows then what each state is.
fn begun(state: State) -> State
    ensures same { result ≡ state }
    ensures state { IsState state }
{
    let _len = state.len();
    state
}

/// Puts the number of a key into the state, and adds to the rows what is told of it.
///
/// `Large` comes only where the state with an entry for the key would be too large.
fn put_number(
    kind: &Kind,
    key: &Key,
    number: i64,
    state: &mut State,
    rows: &mut Vec<Tuple>,
) -> Result<(), Short>
    ensures state { OnOk result (state.new ≡
        with_entry state.old key.now (entry_after kind.now (value_at state.old key.now) number)) }
    ensures rows { OnOk result (rows.new.items ≡
        rows.old.items ++ told_of_number kind.now key.now (value_at state.old key.now) number) }
    ensures large { result ≡ Err Short.Large → (value : ℤ) → IsLarge pair_key (with_entry state.old key.now value) }
{
    let (before, after) = state.change(key, |before| entry_after(kind, before, number))?;
    if is_told(kind, before, after) {
        rows.push(Tuple {
            key: key.copy()?,
            value: told_value(kind, after, number),
        })?;
    }
    Ok(())
}

/// The entry that a key has from then on.
#[tactic(auto, unfolding(crate::specs::Putting::entry_after))]
fn entry_after(kind: &Kind, before: Option<i64>, number: i64) -> i64
    ensures { result ≡ entry_after kind.now before number }
{
    match kind {
        Kind::Peak => before.unwrap_or(number).max(number),
        Kind::First => 1,
        _ => before.unwrap_or(0).wrapping_add(number),
    }
}

/// Whether a key is told, by its entries before and after.
#[tactic(auto, unfolding(crate::specs::Putting::is_told))]
fn is_told(kind: &Kind, before: Option<i64>, after: i64) -> bool
    ensures { result ≡ is_told kind.now before after }
{
    match kind {
        Kind::Peak => before.is_none_or(|kept| kept < after),
        Kind::First => before.is_none(),
        Kind::Tumble { .. } => false,
        _ => true,
    }
}

/// The value with which a key is told.
#[tactic(auto, unfolding(crate::specs::Putting::told_value))]
fn told_value(kind: &Kind, after: i64, number: i64) -> i64
    ensures { result ≡ told_value kind.now after number }
{
    match kind {
        Kind::First => number,
        _ => after,
    }
}

/// Whether all that is kept is told at the window, and forgotten.
pub(crate) fn closes(kind: &Kind, window: u32) -> bool
    ensures { result ≡ closes kind.now window }
{
    match *kind {
        Kind::Tumble { every } => window.is_multiple_of(every),
        _ => false,
    }
}
