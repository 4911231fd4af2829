//! How a lock is made, and how it is closed.
ghost use Rattle.std.specs.Prelude.{◌≡◌, ℕ, ◌+◌, ◌≤◌, ◌<◌, false, [], ◌∷◌, length, replicate, Some, None, IfOk, IfErr};
ghost use Rattle.apx_lock.specs.Seats.{IsSeatOf};
ghost use Rattle.apx_lock.specs.Steps.{Ends};
ghost use Rattle.apx_lock.specs.Views.{HasNumber, first_view, zeros};

use crate::kept::Kept;
use crate::lock::MarkLock;
use crate::rule::Terms;
use crate::seat::{Seat, SeatOver};
use atomic_table::{Refused, Table};
use std::alloc::{AllocError, Global};
use std::sync::atomic::AtomicU64;

// The words of a new lock, out of a row that is long enough.
fn first_words(row: &[u64; 66], marks: u8) -> &[u64]
    requires few { marks ≤ 64 }
    requires row { row.now ≡ zeros 66 }
    ensures { result.now ≡ 0 ∷ 0 ∷ zeros marks }
{
    &row[..usize::from(marks) + 2]
}

// The value that lies in the one slot.
fn taken_back<V>(mut slots: Vec<Option<V>>) -> V
    requires { (value : V) × (slots.items ≡ Some value ∷ []) }
    ensures { slots.items ≡ Some result ∷ [] }
{
    let value = slots.pop().unwrap();
    slots.destroy_empty();
    value.unwrap()
}

impl<V: Kept> MarkLock<V> {
    /// A lock round a value, with its first seat, which has number 0 and owns all marks. They begin at 0.
    pub fn new(
        alloc: Global,
        name: V::Name,
        value: V,
        marks: u8,
    ) -> Result<(MarkLock<V>, Seat<V>), (V, AllocError)>
    where
        V::Name: Drop,
        requires few { marks ≤ 64 }
        requires value { V.stands value name [] }
        ensures terms { IfOk result (λ made. made.0.table.shared.key ≡ record { name = name; marks = marks }) }
        ensures seat { IfOk result (λ made. IsSeatOf made.0.table.shared.table_id made.0.table.shared.key made.1) }
        ensures view { IfOk result (λ made. made.1.view ≡ first_view name marks) }
        ensures err { IfErr result (λ refused. refused.0 ≡ value) }
    {
        let mut slots = match Vec::with_capacity(alloc, 1) {
            Ok(slots) => slots,
            Err(err) => return Err((value, err)),
        };
        slots.push_reserved(Some(value));
        let row = [0u64; 66];
        let terms = Terms {
            name,
            marks: u64::from(marks),
        };
        match Table::new(alloc, first_words(&row, marks), slots, &terms) {
            Ok((table, place)) => {
                let seat = SeatOver {
                    place,
                    number: 0,
                    given: 1,
                };
                let lock = MarkLock {
                    table,
                    marks,
                    waiting: AtomicU64::new(0),
                };
                Ok((lock, seat))
            }
            Err(Refused { slots }) => Err((taken_back(slots), AllocError)),
        }
    }

    /// Takes the lock apart and gives its value. The seat must have every number that was given out, so all
    /// others were joined to it.
    pub fn close(self, seat: Seat<V>) -> V
        requires seat { IsSeatOf self.table.shared.table_id self.table.shared.key seat }
        requires idle { seat.view.holds ≡ false }
        requires deals { 0 < seat.view.given }
        requires all { (n : ℕ) → n < seat.view.given → HasNumber seat.view n }
        ensures { Ends V.stands V.seat V.bound self.table.shared.key.name result seat.view }
    {
        let MarkLock {
            table,
            marks: _,
            waiting: _,
        } = self;
        let SeatOver {
            place,
            number: _,
            given: _,
        } = seat;
        let mut closed = table.close_with(place);
        let value = closed.take(0).unwrap();
        closed.free();
        value
    }
}
