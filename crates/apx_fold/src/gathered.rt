// The fold of the kinds that join two ports: it keeps the window's own tuples.
ghost use Rattle.std.specs.Prelude.{◌≡◌, []};

use crate::folding::Folding;
use crate::share::Share;
use apx_step::step_by_value;
use apx_tuple::{Bag, Kind, Short, State, Tuple};
use std::alloc::Global;

/// The fold of `match` and `enrich`: it keeps the tuples that the partition owns, and sorts them at the end.
#[derive(Drop)]
pub struct Gathered {
    /// What the operator does.
    kind: Kind,
    /// Which keys the partition owns.
    share: Share,
    /// Where tuples lie.
    alloc: Global,
    /// The tuples that came on the left, in the order in which they came.
    lefts: Vec<Tuple>,
    /// Those that came on the right.
    rights: Vec<Tuple>,
}

impl Gathered {
    ghost use Rattle.apx_fold.specs.Folds.{gathered_part, gathered_stands};

    /// The fold of no tuples.
    pub(crate) fn new(alloc: Global, kind: Kind, share: Share) -> Gathered
        ensures part { gathered_part result ≡ record { kind = kind; n = share.n; i = share.i } }
        ensures stands { gathered_stands result [] [] }
    {
        Gathered {
            kind,
            share,
            alloc,
            lefts: Vec::new(alloc),
            rights: Vec::new(alloc),
        }
    }
}

impl Folding for Gathered {
    ghost use Rattle.apx_fold.specs.Folds.{gathered_part, gathered_stands};

    ghost part = { gathered_part };

    ghost stands = { gathered_stands };

    fn take(&mut self, port: u8, tuples: &[Tuple]) -> Result<(), Short> {
        if port == 0 {
            self.share.copy_owned(tuples, &mut self.lefts)?;
        } else {
            self.share.copy_owned(tuples, &mut self.rights)?;
        }
        Ok(())
    }

    fn take_all(&mut self, port: u8, tuples: Vec<Tuple>) -> Result<(), Short> {
        if port == 0 {
            self.share.move_owned(tuples, &mut self.lefts)?;
        } else {
            self.share.move_owned(tuples, &mut self.rights)?;
        }
        Ok(())
    }

    fn end(self, window: u32, state: &State) -> Result<(State, Bag), Short> {
        let owned = self.share.cut(self.alloc, state)?;
        self.end_by_value(window, owned)
    }

    fn end_by_value(self, window: u32, state: State) -> Result<(State, Bag), Short> {
        let left = Bag::of(self.lefts)?;
        let right = Bag::of(self.rights)?;
        step_by_value(self.alloc, &self.kind, window, state, left, right)
    }

    fn end_unsorted(self, window: u32, state: State) -> Result<(State, Vec<Tuple>), Short> {
        let (kept, rows) = self.end_by_value(window, state)?;
        Ok((kept, rows.into_tuples()))
    }
}
