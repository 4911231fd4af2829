//! How a seat is split in two, and two seats are joined.
ghost use Rattle.std.specs.Prelude.{◌≡◌, ◌<◌, ◌≤◌, false, [], ◌∷◌};
ghost use Rattle.apx_lock.specs.Seats.{IsSeatOf};
ghost use Rattle.apx_lock.specs.Views.{MayHand, after_split, dealt_view, after_join};

use crate::kept::Kept;
use crate::lock::MarkLock;
use crate::plays::{Cut, Glue, Hand};
use crate::rule::{Desk, Place};
use crate::seat::{Seat, SeatOver};
use std::marker::Brand;

// Splits a seat at the table. The mark to hand over is named by the type, since a split is one step.
fn cut<V: Kept, H: Hand>(desk: &Desk<V>, place: &mut Place<V>, _hand: Option<u8>) -> Place<V>
    requires picked { _hand ≡ H.mark }
    requires table { (place.old.table_id ≡ desk.now.table_id) × (0 < desk.now.table_id.words) }
    requires seat { (place.old.me.0.name ≡ Some desk.now.key.name) × (0 < place.old.me.0.given) × MayHand _hand place.old.me.0 }
    ensures kept { (place.new.table_id ≡ place.old.table_id) × (place.new.me ≡ (after_split _hand place.old.me.0, place.old.me.1)) }
    ensures given { (result.table_id ≡ place.old.table_id) × (result.me ≡ (dealt_view _hand place.old.me.0, [])) }
{
    desk.split_seat::<Cut<H>>(place)
}

impl<V: Kept> MarkLock<V> {
    /// Splits the first seat. The new seat has the next number, and owns the mark that is handed over.
    pub fn split(&self, seat: &mut Seat<V>, hand: Option<u8>) -> Seat<V>
        requires seat { IsSeatOf self.now.table.shared.table_id self.now.table.shared.key seat.old }
        requires deals { (0 < seat.old.view.given) × (seat.old.view.given < 256) }
        requires owner { MayHand hand seat.old.view }
        ensures seat { IsSeatOf self.now.table.shared.table_id self.now.table.shared.key seat.new }
        ensures kept { seat.new.view ≡ after_split hand seat.old.view }
        ensures new { IsSeatOf self.now.table.shared.table_id self.now.table.shared.key result }
        ensures given { result.view ≡ dealt_view hand seat.old.view }
    {
        let place = cut::<V, Brand>(&self.table.shared, &mut seat.place, hand);
        let number = seat.given as u8;
        seat.given += 1;
        SeatOver {
            place,
            number,
            given: 0,
        }
    }

    /// Joins another seat to this one, which gets its marks, its numbers and its entries.
    pub fn join(&self, seat: &mut Seat<V>, other: Seat<V>)
        requires seat { IsSeatOf self.now.table.shared.table_id self.now.table.shared.key seat.old }
        requires other { IsSeatOf self.now.table.shared.table_id self.now.table.shared.key other }
        requires idle { other.view.holds ≡ false }
        ensures seat { IsSeatOf self.now.table.shared.table_id self.now.table.shared.key seat.new }
        ensures joined { seat.new.view ≡ after_join seat.old.view other.view }
    {
        let SeatOver {
            place,
            number: _,
            given,
        } = other;
        self.table.shared.join_seat::<Glue>(&mut seat.place, place);
        if given > 0 {
            seat.given = given;
        }
    }
}
