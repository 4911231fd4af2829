//! All workers of a run, each in a thread of its own.
ghost use Rattle.std.specs.Prelude.{◌≡◌, ◌≤◌, ◌<◌, ◌+◌, [], ◌∷◌, length, vec_len, vec_capacity, false};
ghost use Rattle.std.specs.Thread.{IsSync};
ghost use Rattle.apx_history.specs.Laws.{IsHistory};
ghost use Rattle.apx_lock.specs.Logs.{Every};
ghost use Rattle.apx_lock.specs.Seats.{IsSeatOf};
ghost use Rattle.apx_lock.specs.Views.{first_view};
ghost use Rattle.apx_work.specs.Turns.{IsOver};
ghost use Rattle.apx_work.specs.Workers.{IsReady, IsOther, IsDone, MayWork, AreDealt, AreGathered};

use crate::bench::Bench;
use crate::shop::Shop;
use crate::worker::work;
use apx_device::Gate;
use apx_history::Entry;
use apx_lock::{Kept, MarkLock, Seat, SeatOver};
use std::alloc::Global;
use std::sync::Wait;
use std::thread::{Threads, join};

/// The seats of the other workers, split off the first one. They take the places that the list has.
fn deal<S: Shop>(
    lock: &MarkLock<Bench<S>>,
    first: &mut Seat<Bench<S>>,
    seats: Vec<Seat<Bench<S>>>,
    others: u8,
) -> Vec<Seat<Bench<S>>>
    requires seat { IsSeatOf lock.now.table.shared.table_id lock.now.table.shared.key first.old }
    requires fresh { first.old.view ≡ first_view lock.now.table.shared.key.name lock.now.table.shared.key.marks }
    requires none { seats.items ≡ [] }
    requires places { others ≤ vec_capacity seats }
    requires few { others < 255 }
    ensures { AreDealt lock.now.table.shared.table_id lock.now.table.shared.key (others + 1) first.new result.items }
{
    let mut seats = seats;
    for dealt in 0..others {
        seats.push_reserved(lock.split(first, None));
    }
    seats
}

/// A seat at a lock whose entries are those of a journal.
type SeatAt<V> = SeatOver<V, (), Entry>;

/// Does the work of a seat and of others, each in a thread of its own, and joins their seats into one.
fn work_all<
    R: Threads + Wait + Sync,
    V: Kept<Name = (), Entry = Entry> + Send,
    F: Fn(SeatAt<V>) -> SeatAt<V> + Sync,
>(rt: &R, lock: &MarkLock<V>, first: SeatAt<V>, others: Vec<SeatAt<V>>, work: &F) -> SeatAt<V>
    requires ready { IsReady lock.now.table.shared.table_id lock.now.table.shared.key first }
    requires others { Every (IsOther lock.now.table.shared.table_id lock.now.table.shared.key) others.items }
    requires may { MayWork lock.now.table.shared.table_id lock.now.table.shared.key (F.pre work.now) (F.post work.now) }
    ensures { AreGathered lock.now.table.shared.table_id lock.now.table.shared.key first others.items result }
{
    let mut others = others;
    match others.pop() {
        None => {
            others.destroy_empty();
            work(first)
        }
        Some(next) => {
            let (mut one, rest) = join(
                rt,
                || -> SeatAt<V>
                    requires { F.pre work.now first }
                    ensures { F.post work.entry.now first result }
                { work(first) },
                || -> SeatAt<V>
                    requires { IsSync R.row × IsOther lock.now.table.shared.table_id lock.now.table.shared.key next
                        × Every (IsOther lock.now.table.shared.table_id lock.now.table.shared.key) others.items
                        × MayWork lock.now.table.shared.table_id lock.now.table.shared.key (F.pre work.now) (F.post work.now) }
                    ensures { AreGathered lock.entry.now.table.shared.table_id lock.entry.now.table.shared.key next others.items result }
                { work_all(rt, lock, next, others, work) },
            );
            lock.join(&mut one, rest);
            one
        }
    }
}

/// The workers of a run.
fn all_done<R: Threads + Wait + Sync, S: Shop + Send, G: Gate + Sync>(
    rt: &R,
    lock: &MarkLock<Bench<S>>,
    means: &S::Means,
    gate: &G,
    first: Seat<Bench<S>>,
    others: Vec<Seat<Bench<S>>>,
) -> Seat<Bench<S>>
where
    S::Means: Send + Sync,
    S::Claim: Send,
    S::Done: Send,
    S::Refusal: Send,
    requires ready { IsReady lock.now.table.shared.table_id lock.now.table.shared.key first }
    requires others { Every (IsOther lock.now.table.shared.table_id lock.now.table.shared.key) others.items }
    requires means { S.serves means.now }
    ensures { AreGathered lock.now.table.shared.table_id lock.now.table.shared.key first others.items result }
{
    work_all(
        rt,
        lock,
        first,
        others,
        &|seat: Seat<Bench<S>>| -> Seat<Bench<S>>
            requires { IsReady lock.now.table.shared.table_id lock.now.table.shared.key seat × S.serves means.now }
            ensures { IsDone lock.entry.now.table.shared.table_id lock.entry.now.table.shared.key seat result }
        { work::<R, S, G>(rt, lock, means, gate, seat) },
    )
}

/// A run that stops before it has begun, for want of memory.
fn stopped<S: Shop>(shop: S) -> S
    requires { S.journal shop ≡ [] }
    ensures history { IsHistory S.plan S.stored S.from (S.journal result) }
    ensures over { IsOver (S.journal result) }
    ensures workers { Every (λ e. e.worker ≡ 0) (S.journal result) }
{
    let mut shop = shop;
    shop.facts();
    shop.fail(0, S::no_memory());
    shop.facts();
    shop
}

/// Does a run by so many workers, from its begin until it is over. What they did is one history, and each entry is a worker's.
pub fn run_threads<R: Threads + Wait + Sync, S: Shop + Drop + Send, G: Gate + Sync>(
    rt: &R,
    alloc: Global,
    shop: S,
    means: &S::Means,
    gate: &G,
    workers: u8,
) -> S
where
    S::Means: Send + Sync,
    S::Claim: Send,
    S::Done: Send,
    S::Refusal: Send,
    requires begins { S.journal shop ≡ [] }
    requires means { S.serves means.now }
    requires some { 0 < workers }
    ensures history { IsHistory S.plan S.stored S.from (S.journal result) }
    ensures over { IsOver (S.journal result) }
    ensures workers { Every (λ e. e.worker < workers) (S.journal result) }
{
    let others = workers - 1;
    let Ok(seats) = Vec::with_capacity(alloc, usize::from(others)) else {
        return stopped(shop);
    };
    match MarkLock::new(alloc, (), Bench { shop }, 0) {
        Ok((lock, mut first)) => {
            let seats = deal(&lock, &mut first, seats, others);
            let seat = all_done::<R, S, G>(rt, &lock, means, gate, first, seats);
            let Bench { shop } = lock.close(seat);
            shop.facts();
            shop
        }
        Err((bench, _)) => {
            let Bench { shop } = bench;
            stopped(shop)
        }
    }
}
