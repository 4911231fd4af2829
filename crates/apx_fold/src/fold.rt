// The fold of a partition of any kind.
ghost use Rattle.std.specs.Prelude.{◌≡◌, ◌≤◌, ◌<◌, []};

use crate::best::Best;
use crate::digest::Digest;
use crate::folding::Folding;
use crate::gathered::Gathered;
use crate::share::Share;
use crate::told::Told;
use apx_tuple::{Bag, Kind, Short, State, Tuple};
use std::alloc::Global;

/// The fold of a partition of an operator, whatever its kind.
///
/// ```
/// let mut fold = Fold::of(alloc, &Kind::Sum, 2, 0);
/// for piece in &pieces {
///     fold.take(0, piece)?;
/// }
/// let (state, rows) = fold.end(window, &state)?;
/// ```
#[derive(Drop)]
pub enum Fold {
    /// That of `match` and `enrich`.
    Gathered(Gathered),
    /// That of `keep`, `scale`, `words` and `prefix`.
    Told(Told),
    /// That of `count`, `sum`, `peak`, `first` and `tumble`.
    Digest(Digest),
    /// That of `top`.
    Best(Best),
}

impl Fold {
    ghost use Rattle.apx_fold.specs.Folds.{fold_part, fold_stands};

    /// The fold of partition `i` of `n` of an operator, which has taken nothing.
    pub fn of(alloc: Global, kind: &Kind, n: u8, i: u8) -> Fold
        requires low { 1 ≤ n }
        requires high { n ≤ 8 }
        requires there { i < n }
        ensures part { fold_part result ≡ record { kind = kind.now; n = n; i = i } }
        ensures stands { fold_stands result [] [] }
    {
        let share = Share::of(n, i);
        match *kind {
            Kind::Keep { .. } | Kind::Scale { .. } | Kind::Words | Kind::Prefix { .. } => {
                Fold::Told(Told::new(alloc, *kind, share))
            }
            Kind::Count | Kind::Sum | Kind::Peak | Kind::First | Kind::Tumble { .. } => {
                Fold::Digest(Digest::new(alloc, *kind, share))
            }
            Kind::Match | Kind::Enrich => Fold::Gathered(Gathered::new(alloc, *kind, share)),
            Kind::Top { k } => Fold::Best(Best::new(alloc, k, share)),
        }
    }
}

impl Folding for Fold {
    ghost use Rattle.apx_fold.specs.Folds.{fold_part, fold_stands};

    ghost part = { fold_part };

    ghost stands = { fold_stands };

    fn take(&mut self, port: u8, tuples: &[Tuple]) -> Result<(), Short> {
        match self {
            Fold::Gathered(fold) => fold.take(port, tuples),
            Fold::Told(fold) => fold.take(port, tuples),
            Fold::Digest(fold) => fold.take(port, tuples),
            Fold::Best(fold) => fold.take(port, tuples),
        }
    }

    fn take_all(&mut self, port: u8, tuples: Vec<Tuple>) -> Result<(), Short> {
        match self {
            Fold::Gathered(fold) => fold.take_all(port, tuples),
            Fold::Told(fold) => fold.take_all(port, tuples),
            Fold::Digest(fold) => fold.take_all(port, tuples),
            Fold::Best(fold) => fold.take_all(port, tuples),
        }
    }

    fn end(self, window: u32, state: &State) -> Result<(State, Bag), Short> {
        match self {
            Fold::Gathered(fold) => fold.end(window, state),
            Fold::Told(fold) => fold.end(window, state),
            Fold::Digest(fold) => fold.end(window, state),
            Fold::Best(fold) => fold.end(window, state),
        }
    }

    fn end_by_value(self, window: u32, state: State) -> Result<(State, Bag), Short> {
        match self {
            Fold::Gathered(fold) => fold.end_by_value(window, state),
            Fold::Told(fold) => fold.end_by_value(window, state),
            Fold::Digest(fold) => fold.end_by_value(window, state),
            Fold::Best(fold) => fold.end_by_value(window, state),
        }
    }

    fn end_unsorted(self, window: u32, state: State) -> Result<(State, Vec<Tuple>), Short> {
        match self {
            Fold::Gathered(fold) => fold.end_unsorted(window, state),
            Fold::Told(fold) => fold.end_unsorted(window, state),
            Fold::Digest(fold) => fold.end_unsorted(window, state),
            Fold::Best(fold) => fold.end_unsorted(window, state),
        }
    }
}
