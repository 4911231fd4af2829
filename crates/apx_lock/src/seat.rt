//! The seat of a thread at a lock.
ghost use Rattle.std.specs.Prelude.{◌≡◌};

use crate::kept::Kept;
use crate::view::View;
use std::marker::Model;

/// What a thread enters a lock with. Contracts see which table it is of, and what it knows.
pub type Seat<V> = SeatOver<V, <V as Kept>::Name, <V as Kept>::Entry>;

/// A seat, over the types of a value, of its name and of its entries.
#[derive(Drop)]
pub struct SeatOver<V, N, E> {
    /// The seat at the lock's table.
    pub(crate) place: atomic_table::Seat<Option<V>, View<N, E>>,
    /// The number of the seat.
    pub(crate) number: u8,
    /// How many numbers were given out, where this seat gives them out, and otherwise 0.
    pub(crate) given: u16,
}

impl<V, N, E> Model for SeatOver<V, N, E> {
    ghost use Rattle.std.specs.Prelude.{◌≡◌};
    ghost use Rattle.apx_lock.specs.Seats.{Seated, carried};

    ghost Value = { Seated N E };

    ghost view = { λ s. record { table = s.place.table_id; view = s.place.me.0 } };

    ghost invariant = { λ s. (s.place.me.0.number ≡ s.number) × (s.place.me.0.given ≡ s.given)
        × (s.place.me.1 ≡ carried s.place.me.0.holds) };
}

impl<V, N, E> SeatOver<V, N, E> {
    /// The seat's number. That of the first seat is 0, and the next ones have 1, 2 and so on.
    pub fn number(&self) -> u8
        ensures { result ≡ self.now.view.number }
    {
        self.number
    }
}
