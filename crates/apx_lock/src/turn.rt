//! The turn of a thread that entered a lock.
ghost use Rattle.std.specs.Prelude.{◌≡◌, ◌⊎◌, true};
ghost use Rattle.apx_lock.specs.Seats.{IsSeatOf, IsTurnOf};
ghost use Rattle.apx_lock.specs.Steps.{MayLeave, Leaves};

use crate::kept::Kept;
use crate::lock::MarkLock;
use crate::plays::{Count, Leave};
use crate::seat::Seat;

/// The right to change the lock's value. It isn't `Drop`, so it ends in `leave`, and no turn is lost.
pub type Turn<'a, V> = TurnOver<&'a MarkLock<V>, V>;

/// A turn, over the type that lends the lock and that of the value.
pub struct TurnOver<L, V> {
    /// The lock that was entered.
    pub(crate) lock: L,
    /// Its value.
    pub(crate) value: V,
    /// The number of entries as the turn was taken.
    pub(crate) base: u64,
}

impl<V: Kept> Turn<'_, V> {
    /// Gives the turn back, with the value as it was taken or changed by one entry of this seat.
    pub fn leave(self, seat: &mut Seat<V>)
        requires turn { IsTurnOf self.lock.now.table.shared.table_id self.lock.now.table.shared.key self.base seat.old }
        requires holds { seat.old.view.holds ≡ true }
        requires value { MayLeave V.stands V.seat V.bound self.lock.now.table.shared.key.name self.value seat.old.view }
        ensures seat { IsSeatOf self.entry.lock.now.table.shared.table_id self.entry.lock.now.table.shared.key seat.new }
        ensures left { Leaves V.stands V.seat V.bound seat.old.view seat.new.view }
        ensures value { V.stands self.entry.value self.entry.lock.now.table.shared.key.name seat.new.view.seen }
    {
        let TurnOver { lock, value, base } = self;
        let desk = &lock.table.shared;
        let longer = value.count() != base;
        match desk.exchange(&mut seat.place, 0, Some(value)) {
            None => {}
            Some(_) => unreachable!(),
        }
        if longer {
            desk.fetch_add::<Count>(&mut seat.place, 1, 1);
        }
        desk.swap::<Leave>(&mut seat.place, 0, 0);
        lock.wake();
    }
}
