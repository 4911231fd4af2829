//! The table under the lock. Word 0 is the turn, 1 while it is taken. Word 1 is the number of entries, and
//! the marks follow. One slot holds the value.
ghost use Rattle.apx_lock.specs.Keeps.{Keeps};
ghost use Rattle.apx_lock.specs.Views.{first_view};

use crate::kept::Kept;
use crate::view::View;
use atomic_table::{Shared, TableRule};

/// What the table is told once: the name that its value has, and the number of marks.
#[derive(Drop)]
pub struct Terms<N> {
    /// The name.
    pub name: N,
    /// The number of marks.
    pub marks: u64,
}

/// The rule of the table.
pub struct Law;

impl<V: Kept> TableRule<Option<V>, View<V::Name, V::Entry>, Terms<V::Name>> for Law {
    ghost holds = { λ terms. Keeps V.stands V.seat V.bound terms.name terms.marks };

    ghost first = { λ terms. first_view terms.name terms.marks };
}

/// The table as threads see it.
pub type Desk<V> = Shared<
    Option<V>,
    View<<V as Kept>::Name, <V as Kept>::Entry>,
    Terms<<V as Kept>::Name>,
    Law,
>;

/// A seat at the table.
pub type Place<V> = atomic_table::Seat<Option<V>, View<<V as Kept>::Name, <V as Kept>::Entry>>;
