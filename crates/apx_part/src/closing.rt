//! What an inner operator makes of a window, once what came in it is gathered.
ghost use Rattle.std.specs.Prelude.{◌≡◌, ◌<◌, ◌⊎◌, IfOk};
ghost use Rattle.apx_tuple.specs.Progress.{IsLargeProgress, progress_size};
ghost use Rattle.apx_tuple.specs.Size.{IsLarge};
ghost use Rattle.apx_tuple.specs.Tuple.{tuple_key};
ghost use Rattle.apx_part.specs.Gathered.{gathered};

use apx_split::is_large;
use apx_step::step_in_place;
use apx_tuple::{Bag, Kind, Progress, Short, State};
use std::alloc::Global;

/// At a window that is a multiple of `app_windows` the step over all that was gathered, and at another nothing.
fn close_any(
    alloc: Global,
    kind: &Kind,
    app_windows: u32,
    window: u32,
    state: State,
    left: Bag,
    right: Bag,
) -> Result<(Progress, Bag), Short>
    requires { 0 < app_windows }
    ensures ok { IfOk result (λ r. (r.0 ≡ (gathered kind.now app_windows window state left right).progress)
        × (r.1 ≡ (gathered kind.now app_windows window state left right).rows)) }
    ensures large { result ≡ Err Short.Large →
        IsLargeProgress (gathered kind.now app_windows window state left right).progress
        ⊎ IsLarge tuple_key (gathered kind.now app_windows window state left right).rows }
{
    if window % app_windows != 0 {
        return Ok((Progress { state, left, right }, Bag::new(alloc)));
    }
    let (state, rows) = step_in_place(alloc, kind, window / app_windows, state, &left, &right)?;
    let progress = Progress {
        state,
        left: Bag::new(alloc),
        right: Bag::new(alloc),
    };
    Ok((progress, rows))
}

/// The same, where what is carried on isn't too large.
pub(crate) fn close(
    alloc: Global,
    kind: &Kind,
    app_windows: u32,
    window: u32,
    state: State,
    left: Bag,
    right: Bag,
) -> Result<(Progress, Bag), Short>
    requires { 0 < app_windows }
    ensures ok { IfOk result (λ r. (r.0 ≡ (gathered kind.now app_windows window state left right).progress)
        × (r.1 ≡ (gathered kind.now app_windows window state left right).rows)) }
    ensures small { IfOk result (λ r. progress_size r.0 < 4294967232) }
    ensures large { result ≡ Err Short.Large →
        IsLargeProgress (gathered kind.now app_windows window state left right).progress
        ⊎ IsLarge tuple_key (gathered kind.now app_windows window state left right).rows }
{
    let (progress, rows) = close_any(alloc, kind, app_windows, window, state, left, right)?;
    if is_large(&progress) {
        return Err(Short::Large);
    }
    Ok((progress, rows))
}
