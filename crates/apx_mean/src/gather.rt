//! What an inner operator makes of a window.
ghost use Rattle.std.specs.Prelude.{◌≡◌, ◌<◌, ◌++◌, ◌⊎◌, [], IfOk};
ghost use Rattle.apx_tuple.specs.Size.{IsLarge};
ghost use Rattle.apx_tuple.specs.Tuple.{tuple_key, bag_of};
ghost use Rattle.apx_rules.specs.Step.{step as step_of};
ghost use Rattle.apx_pass.specs.Pass.{gather as gathered};
ghost use Rattle.apx_pass.specs.Large.{IsLargePassed};
ghost use Rattle.apx_fold.specs.Folds.{fold_part, fold_stands};
ghost use Rattle.apx_mean.specs.Views.{IsLargeStep, IsPassed};

use crate::rows::Rows;
use apx_fold::{Fold, Folding};
use apx_tuple::{Bag, Kind, Progress, Short, State, Tuple};
use std::alloc::{AllocError, Global};

/// What an operator carries on from a window, and what it gives in it.
#[derive(Drop)]
pub(crate) struct Passed {
    /// What it carries on.
    pub(crate) progress: Progress,
    /// What it gives.
    pub(crate) rows: Rows,
}

/// What came on a port since the last step: the rows that come now, and what was gathered.
fn joined(before: Bag, now: Rows) -> Result<Vec<Tuple>, AllocError>
    ensures { IfOk result (λ all. bag_of all.items ≡ bag_of (before ++ now)) }
{
    let mut before = before.into_tuples();
    let mut all = now.into_tuples();
    all.append(&mut before)?;
    Ok(all)
}

/// The fold of a whole operator, once it has taken all that came on its ports.
///
/// `Large` comes only where that is too large for a bag.
fn folded(alloc: Global, kind: &Kind, lefts: Vec<Tuple>, rights: Vec<Tuple>) -> Result<Fold, Short>
    ensures part { IfOk result (λ fold. fold_part fold ≡ record { kind = kind.now; n = 1; i = 0 }) }
    ensures stands { IfOk result (λ fold. fold_stands fold lefts.items rights.items) }
    ensures large { result ≡ Err Short.Large →
        IsLarge tuple_key (bag_of lefts.items) ⊎ IsLarge tuple_key (bag_of rights.items) }
{
    let mut fold = Fold::of(alloc, kind, 1, 0);
    fold.take_all(0, lefts)?;
    fold.take_all(1, rights)?;
    Ok(fold)
}

/// The step of an operator, which has then gathered nothing.
///
/// `Large` comes only where what came is too large for a bag, or what the step gives is too large.
fn stepped(
    alloc: Global,
    kind: &Kind,
    window: u32,
    state: State,
    lefts: Vec<Tuple>,
    rights: Vec<Tuple>,
) -> Result<Passed, Short>
    ensures ok { IfOk result (λ passed.
        (passed.progress ≡ record { state = (step_of kind.now window state (bag_of lefts.items) (bag_of rights.items)).state; left = []; right = [] })
        × (passed.rows ≡ (step_of kind.now window state (bag_of lefts.items) (bag_of rights.items)).rows)) }
    ensures large { result ≡ Err Short.Large →
        IsLarge tuple_key (bag_of lefts.items) ⊎ IsLarge tuple_key (bag_of rights.items)
        ⊎ IsLargeStep (step_of kind.now window state (bag_of lefts.items) (bag_of rights.items)) }
{
    let fold = folded(alloc, kind, lefts, rights)?;
    let (state, rows) = fold.end_unsorted(window, state)?;
    let progress = Progress {
        state,
        left: Bag::new(alloc),
        right: Bag::new(alloc),
    };
    Ok(Passed {
        progress,
        rows: Rows::of(rows),
    })
}

/// What an operator makes of a window at which it doesn't step.
///
/// `Large` comes only where what came is too large for a bag.
fn carried(
    alloc: Global,
    state: State,
    lefts: Vec<Tuple>,
    rights: Vec<Tuple>,
) -> Result<Passed, Short>
    ensures ok { IfOk result (λ passed.
        (passed.progress ≡ record { state = state; left = bag_of lefts.items; right = bag_of rights.items })
        × (passed.rows ≡ [])) }
    ensures large { result ≡ Err Short.Large →
        IsLarge tuple_key (bag_of lefts.items) ⊎ IsLarge tuple_key (bag_of rights.items) }
{
    let progress = Progress {
        state,
        left: Bag::of(lefts)?,
        right: Bag::of(rights)?,
    };
    Ok(Passed {
        progress,
        rows: Rows::new(alloc),
    })
}

/// What an operator that steps once for each `app_windows` windows makes of the window `window`, counted from 1.
///
/// `Large` comes only where what came since its last step, or what it makes of it, is too large.
pub(crate) fn gather(
    alloc: Global,
    kind: &Kind,
    app_windows: u32,
    window: u32,
    before: Progress,
    left: Rows,
    right: Rows,
) -> Result<Passed, Short>
    requires { 0 < app_windows }
    ensures ok { IfOk result (λ passed.
        IsPassed passed.progress passed.rows (gathered kind.now app_windows window before left right)) }
    ensures large { result ≡ Err Short.Large →
        IsLargePassed before left right (gathered kind.now app_windows window before left right) }
{
    let lefts = joined(before.left, left)?;
    let rights = joined(before.right, right)?;
    if window % app_windows != 0 {
        return carried(alloc, before.state, lefts, rights);
    }
    stepped(
        alloc,
        kind,
        window / app_windows,
        before.state,
        lefts,
        rights,
    )
}
