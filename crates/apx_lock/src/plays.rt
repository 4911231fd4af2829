//! What each kind of step tells the thread that makes it. These types are for the proofs alone.
ghost use Rattle.std.specs.Prelude.{◌≡◌, ℕ, Option};
ghost use Rattle.apx_lock.specs.Steps.{Tries, Looks, CountsOne, GivesBack, Raises, Loads};
ghost use Rattle.apx_lock.specs.Views.{after_split, dealt_view, after_join, spent};

use crate::kept::Kept;
use crate::view::View;
use atomic_table::{Join, Play, Split};
use std::marker::{Brand, PhantomData};

// The turn is taken, or found taken.
pub(crate) struct Enter;

impl<V: Kept> Play<Option<V>, View<V::Name, V::Entry>> for Enter {
    ghost then = { Tries V.stands V.seat V.bound };
}

// The count is read by who holds the turn.
pub(crate) struct Look;

impl<V: Kept> Play<Option<V>, View<V::Name, V::Entry>> for Look {
    ghost then = { Looks V.stands V.seat V.bound };
}

// One entry is counted.
pub(crate) struct Count;

impl<V: Kept> Play<Option<V>, View<V::Name, V::Entry>> for Count {
    ghost then = { CountsOne V.stands V.seat V.bound };
}

// The turn is given back.
pub(crate) struct Leave;

impl<V: Kept> Play<Option<V>, View<V::Name, V::Entry>> for Leave {
    ghost then = { GivesBack V.stands V.seat V.bound };
}

// A mark is raised by its owner.
pub(crate) struct Raise;

impl<V: Kept> Play<Option<V>, View<V::Name, V::Entry>> for Raise {
    ghost then = { Raises V.stands V.seat V.bound };
}

// A mark is loaded.
pub(crate) struct Load;

impl<V: Kept> Play<Option<V>, View<V::Name, V::Entry>> for Load {
    ghost then = { Loads V.stands V.seat V.bound };
}

// Which mark a split hands over. Each call picks it.
pub(crate) trait Hand {
    // The mark, if it is one.
    ghost mark: { Option ℕ };
}

impl Hand for Brand {
    ghost use Rattle.std.specs.Prelude.{None};

    ghost mark = { None };
}

// A seat is split.
pub(crate) struct Cut<H> {
    // What it hands over.
    hand: PhantomData<H>,
}

impl<N, E, H: Hand> Split<View<N, E>> for Cut<H> {
    ghost left = { after_split H.mark };

    ghost right = { dealt_view H.mark };
}

// A seat is joined to another.
pub(crate) struct Glue;

impl<N, E> Join<View<N, E>> for Glue {
    ghost both = { after_join };

    ghost spent = { spent };
}
