//! A lock over a list of notes.
ghost use Rattle.std.specs.Prelude.{◌≡◌, ◌++◌, ◌∷◌, ◌⊎◌, [], true, false, length};
ghost use Rattle.std.specs.Thread.{IsSync};
ghost use Rattle.apx_lock.specs.Seats.{IsSeatOf, IsTurnOf};
ghost use Rattle.apx_lock.specs.Steps.{IsSameSeat};

use crate::notes::{Notes, write_and_leave};
use crate::{MarkLock, Seat};
use std::sync::Wait;
use std::test::Fail;
use std::thread::{Threads, join};

// Tries to take the turn, and says whether it wrote the number.
fn attempt(lock: &MarkLock<Notes>, seat: &mut Seat<Notes>, number: u32) -> bool
    requires seat { IsSeatOf lock.now.table.shared.table_id lock.now.table.shared.key seat.old }
    requires idle { seat.old.view.holds ≡ false }
    ensures seat { IsSeatOf lock.now.table.shared.table_id lock.now.table.shared.key seat.new }
    ensures same { IsSameSeat seat.old.view seat.new.view }
    ensures idle { seat.new.view.holds ≡ false }
{
    match lock.try_enter(seat) {
        None => false,
        Some(turn) => {
            write_and_leave(turn, seat, number);
            true
        }
    }
}

#[test]
fn two_seats_add_an_entry_each(rt: HostRuntime) -> Result<(), Fail> {
    let (lock, mut first) = match MarkLock::new(rt.alloc(), (), Notes::new(rt.alloc()), 2) {
        Ok(made) => made,
        Err((_, err)) => return Err(err.into()),
    };
    let mut second = lock.split(&mut first, None);
    let turn = lock.enter(&rt, &mut first);
    let early = attempt(&lock, &mut second, 9);
    write_and_leave(turn, &mut first, 5);
    let late = attempt(&lock, &mut second, 6);
    lock.raise_mark(&mut first, 0, 5);
    let bound = lock.lower_bound(&mut second, 0);
    let numbers = (first.number(), second.number());
    lock.join(&mut first, second);
    let notes = lock.close(first);
    assert!(rt; !early && late && bound == 5 && numbers == (0, 1));
    let written = notes.notes();
    assert!(rt; written.len() == 2);
    assert!(rt; written[0].by == 0 && written[0].number == 5);
    assert!(rt; written[1].by == 1 && written[1].number == 6);
    Ok(())
}

// Writes so many numbers, each in a turn of its own.
fn write_many<R: Wait>(
    rt: &R,
    lock: &MarkLock<Notes>,
    mut seat: Seat<Notes>,
    count: u32,
) -> Seat<Notes>
    requires seat { IsSeatOf lock.now.table.shared.table_id lock.now.table.shared.key seat }
    requires idle { seat.view.holds ≡ false }
    ensures seat { IsSeatOf lock.now.table.shared.table_id lock.now.table.shared.key result }
    ensures same { IsSameSeat seat.view result.view }
    ensures idle { result.view.holds ≡ false }
{
    for number in 0..count {
        let turn = lock.enter(rt, &mut seat);
        write_and_leave(turn, &mut seat, number);
    }
    seat
}

// Two threads write a hundred numbers each.
fn write_by_two<R: Threads + Wait + Sync>(
    rt: &R,
    lock: &MarkLock<Notes>,
    first: Seat<Notes>,
    second: Seat<Notes>,
) -> (Seat<Notes>, Seat<Notes>)
    requires first { IsSeatOf lock.now.table.shared.table_id lock.now.table.shared.key first }
    requires second { IsSeatOf lock.now.table.shared.table_id lock.now.table.shared.key second }
    requires idle { (first.view.holds ≡ false) × (second.view.holds ≡ false) }
    ensures first { IsSeatOf lock.now.table.shared.table_id lock.now.table.shared.key result.0 }
    ensures second { IsSeatOf lock.now.table.shared.table_id lock.now.table.shared.key result.1 }
    ensures same { IsSameSeat first.view result.0.view × IsSameSeat second.view result.1.view }
    ensures idle { (result.0.view.holds ≡ false) × (result.1.view.holds ≡ false) }
{
    join(
        rt,
        || -> Seat<Notes>
            requires { IsSync R.row × IsSeatOf lock.now.table.shared.table_id lock.now.table.shared.key first
                × (first.view.holds ≡ false) }
            ensures { IsSeatOf lock.entry.now.table.shared.table_id lock.entry.now.table.shared.key result
                × IsSameSeat first.view result.view × (result.view.holds ≡ false) }
        { write_many(rt, lock, first, 100) },
        || -> Seat<Notes>
            requires { IsSync R.row × IsSeatOf lock.now.table.shared.table_id lock.now.table.shared.key second
                × (second.view.holds ≡ false) }
            ensures { IsSeatOf lock.entry.now.table.shared.table_id lock.entry.now.table.shared.key result
                × IsSameSeat second.view result.view × (result.view.holds ≡ false) }
        { write_many(rt, lock, second, 100) },
    )
}

#[test]
fn two_threads_write_all_their_numbers_in_order(rt: HostRuntime) -> Result<(), Fail> {
    let (lock, mut first) = match MarkLock::new(rt.alloc(), (), Notes::new(rt.alloc()), 0) {
        Ok(made) => made,
        Err((_, err)) => return Err(err.into()),
    };
    let second = lock.split(&mut first, None);
    let marks = lock.marks();
    let (mut first, second) = write_by_two(&rt, &lock, first, second);
    lock.join(&mut first, second);
    let notes = lock.close(first);
    let written = notes.notes();
    assert!(rt; marks == 0 && written.len() == 200);
    for by in 0..2 {
        let mut next = 0;
        for note in written {
            if note.by == by {
                assert!(rt; note.number == next);
                next = note.number.wrapping_add(1);
            }
        }
        assert!(rt; next == 100);
    }
    Ok(())
}

#[test]
fn a_mark_goes_with_its_seat_and_comes_back(rt: HostRuntime) -> Result<(), Fail> {
    let (lock, mut first) = match MarkLock::new(rt.alloc(), (), Notes::new(rt.alloc()), 2) {
        Ok(made) => made,
        Err((_, err)) => return Err(err.into()),
    };
    let mut second = lock.split(&mut first, Some(1));
    lock.raise_mark(&mut second, 1, 7);
    let seen = (
        lock.lower_bound(&mut first, 0),
        lock.lower_bound(&mut first, 1),
    );
    lock.join(&mut first, second);
    lock.raise_mark(&mut first, 1, 9);
    let last = lock.lower_bound(&mut first, 1);
    let notes = lock.close(first);
    assert!(rt; seen == (0, 7) && last == 9 && notes.notes().is_empty());
    Ok(())
}
