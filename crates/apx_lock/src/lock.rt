//! The lock.
ghost use Rattle.std.specs.Prelude.{◌≡◌, ℕ, ◌+◌, ◌≤◌, ◌<◌, false, true, [], ◌∷◌, length, replicate, Option, Some, None, IfSome, IfNone, IfOk, IfErr};
ghost use Rattle.apx_lock.specs.Seats.{IsSeatOf, IsTurnOf};
ghost use Rattle.apx_lock.specs.Steps.{Entered};
ghost use Rattle.apx_lock.specs.Views.{after_refusal, after_raise, after_load, OwnsUpTo};
ghost use Rattle.apx_lock.specs.declared.view.Mark.{Mark};
ghost use mathlib.Core.Option.{some};
ghost use lib.ListN.{get_elem?};

use crate::kept::Kept;
use crate::plays::{Enter, Load, Look, Raise};
use crate::rule::{Law, Terms};
use crate::seat::Seat;
use crate::turn::{Turn, TurnOver};
use crate::view::View;
use atomic_table::Table;
use std::alloc::Global;
use std::hint::spin_loop;
use std::sync::Wait;
use std::sync::atomic::AtomicU64;
use std::sync::atomic::Ordering::SeqCst;

/// How often a thread looks at a turn that is taken before it sleeps: a turn is mostly short.
const SPINS: u32 = 100;

/// A lock round a value that stands for a log.
///
/// ```text
/// let (lock, mut first) = MarkLock::new(alloc, name, value, 2)?;
/// let mut second = lock.split(&mut first, None);
/// let mut turn = lock.enter(&rt, &mut first);
/// turn.value().change(..);
/// turn.leave(&mut first);
/// lock.raise_mark(&mut first, 0, 5);
/// let bound = lock.lower_bound(&mut second, 0);
/// lock.join(&mut first, second);
/// let value = lock.close(first);
/// ```
#[derive(Drop)]
pub struct MarkLock<V: Kept> {
    /// The words of the lock, and the place of the value.
    pub(crate) table: Table<Option<V>, View<V::Name, V::Entry>, Terms<V::Name>, Law, Global>,
    /// How many marks there are.
    pub(crate) marks: u8,
    /// How many threads sleep until the turn is given back, or are about to. Each wakes one where it leaves.
    pub(crate) waiting: AtomicU64,
    /// The table has a word for each mark and two more, and one place.
    ghost counts: { (table.shared.table_id.words ≡ marks + 2) × (table.shared.table_id.slots ≡ 1)
        × (table.shared.key.marks ≡ marks) × (marks ≤ 64) },
}

impl<V: Kept> MarkLock<V> {
    /// How many marks the lock has.
    pub fn marks(&self) -> u8
        ensures count { result ≡ self.now.table.shared.key.marks }
        ensures few { result ≤ 64 }
    {
        self.marks
    }

    /// Takes the turn, or answers none where it is found taken.
    pub fn try_enter(&self, seat: &mut Seat<V>) -> Option<Turn<'_, V>>
        requires seat { IsSeatOf self.now.table.shared.table_id self.now.table.shared.key seat.old }
        requires idle { seat.old.view.holds ≡ false }
        ensures none { IfNone result ((seat.new.table ≡ seat.old.table) × (seat.new.view ≡ after_refusal seat.old.view)) }
        ensures entered { IfSome result (λ turn. Entered V.seat V.bound seat.old.view seat.new.view) }
        ensures turn { IfSome result
            (λ turn. IsTurnOf turn.lock.now.table.shared.table_id turn.lock.now.table.shared.key turn.base seat.new) }
        ensures same { IfSome result
            (λ turn. (turn.lock.now.table.shared.table_id ≡ self.now.table.shared.table_id)
            × (turn.lock.now.table.shared.key ≡ self.now.table.shared.key)) }
        ensures value { IfSome result (λ turn. V.stands turn.value self.now.table.shared.key.name seat.new.view.seen) }
    {
        let desk = &self.table.shared;
        if desk.compare_exchange::<Enter>(&mut seat.place, 0, 0, 1) != 0 {
            return None;
        }
        let value = desk.exchange(&mut seat.place, 0, None).unwrap();
        let base = desk.load::<Look>(&mut seat.place, 1);
        Some(TurnOver {
            lock: self,
            value,
            base,
        })
    }

    /// Takes the turn, and waits for it where another thread has it.
    pub fn enter<R: Wait>(&self, rt: &R, seat: &mut Seat<V>) -> Turn<'_, V>
        requires seat { IsSeatOf self.now.table.shared.table_id self.now.table.shared.key seat.old }
        requires idle { seat.old.view.holds ≡ false }
        ensures entered { Entered V.seat V.bound seat.old.view seat.new.view }
        ensures turn { IsTurnOf result.lock.now.table.shared.table_id result.lock.now.table.shared.key result.base seat.new }
        ensures same { (result.lock.now.table.shared.table_id ≡ self.now.table.shared.table_id)
            × (result.lock.now.table.shared.key ≡ self.now.table.shared.key) }
        ensures value { V.stands result.value self.now.table.shared.key.name seat.new.view.seen }
    {
        for _ in rt.forever() {
            if let Some(turn) = self.try_enter(seat) {
                return turn;
            }
            self.sleep(rt);
        }
        unreachable!()
    }

    // Waits a little for the turn to be free, and then sleeps until a thread that leaves wakes this one.
    fn sleep<R: Wait>(&self, rt: &R) {
        for _ in 0..SPINS {
            if self.table.shared.peek(0) == 0 {
                return;
            }
            spin_loop();
        }
        self.waiting.fetch_add(1, SeqCst);
        self.table.shared.park(rt, 0, 1);
        self.waiting.fetch_sub(1, SeqCst);
    }

    // Wakes a thread that sleeps, if there is one. It asks for nothing of the system where there is none.
    pub(crate) fn wake(&self) {
        if self.waiting.load(SeqCst) > 0 {
            self.table.shared.wake_one(0);
        }
    }

    /// Raises a mark that the seat owns.
    pub fn raise_mark(&self, seat: &mut Seat<V>, mark: u8, to: u64)
        requires seat { IsSeatOf self.now.table.shared.table_id self.now.table.shared.key seat.old }
        requires owner { OwnsUpTo seat.old.view mark to }
        ensures seat { IsSeatOf self.now.table.shared.table_id self.now.table.shared.key seat.new }
        ensures raised { seat.new.view ≡ after_raise mark to seat.old.view }
    {
        let word = usize::from(mark) + 2;
        self.table
            .shared
            .fetch_max::<Raise>(&mut seat.place, word, to);
    }

    /// Loads a mark. It is never below what is found from then on.
    pub fn lower_bound(&self, seat: &mut Seat<V>, mark: u8) -> u64
        requires seat { IsSeatOf self.now.table.shared.table_id self.now.table.shared.key seat.old }
        requires mark { mark < self.now.table.shared.key.marks }
        ensures seat { IsSeatOf self.now.table.shared.table_id self.now.table.shared.key seat.new }
        ensures loaded { seat.new.view ≡ after_load mark result seat.old.view }
        ensures higher { (m : Mark) → get_elem? seat.old.view.marks mark ≡ some m → m.lower ≤ result }
    {
        let word = usize::from(mark) + 2;
        self.table.shared.load::<Load>(&mut seat.place, word)
    }
}
