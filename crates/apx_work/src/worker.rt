//! A worker: one turn after the other until the run is over.
ghost use Rattle.std.specs.Prelude.{◌≡◌, false, None};
ghost use Rattle.apx_history.specs.Laws.{IsHistory};
ghost use Rattle.apx_lock.specs.Seats.{IsSeatOf};
ghost use Rattle.apx_work.specs.Claims.{Claims};
ghost use Rattle.apx_work.specs.Hands.{Holds, LeavesWith, IsWorked};
ghost use Rattle.apx_work.specs.Workers.{IsTurned, Worked};

use crate::bench::Bench;
use crate::hands::{Hand, Next};
use crate::shop::Shop;
use crate::turns::{HandOf, NextOf};
use apx_device::{Gate, PassKind};
use apx_lock::{MarkLock, Seat};
use std::sync::Wait;
use std::thread::Parker;
use std::time::Duration;

/// How long a worker first pauses where it finds nothing to do, in microseconds.
const FIRST_PAUSE: u64 = 8;

/// How long it pauses at most, in microseconds.
const LONGEST_PAUSE: u64 = 1024;

/// The pauses of a worker that finds nothing to do, each twice as long as the one before.
#[derive(Drop)]
struct Pauses {
    /// What the worker sleeps on. Nobody else has it.
    parker: Parker,
    /// How long the next pause is, in microseconds.
    next: u64,
}

impl Pauses {
    /// No pause was made yet.
    fn new() -> Pauses {
        Pauses {
            parker: Parker::new(),
            next: FIRST_PAUSE,
        }
    }

    /// Pauses.
    fn pause<R: Wait>(&mut self, rt: &R) {
        self.parker
            .park_timeout(rt, Duration::from_micros(self.next));
        self.next = self.next.saturating_mul(2).min(LONGEST_PAUSE);
    }

    /// There was something to do.
    fn end(&mut self) {
        self.next = FIRST_PAUSE;
    }
}

/// The work of a claim, outside the lock. The worker passes the gate before it and behind it.
fn worked<S: Shop, G: Gate>(means: &S::Means, gate: &G, claim: S::Claim) -> HandOf<S>
    requires means { S.serves means.now }
    requires whole { S.is_whole claim }
    ensures { IsWorked S.claimed S.made S.may_stop (S.claimed claim) result }
{
    let mut claim = claim;
    let open = S::open_window(&claim);
    gate.pass(PassKind::Claimed, open.op, open.part, open.window);
    match S::work(means, &mut claim) {
        Ok(done) => {
            gate.pass(PassKind::Ready, open.op, open.part, open.window);
            Hand::Ready(claim, done)
        }
        Err(why) => Hand::Refused(why),
    }
}

/// One turn of a worker: it enters, does one event or none, and leaves.
fn take_turn<R: Wait, S: Shop>(
    rt: &R,
    lock: &MarkLock<Bench<S>>,
    seat: &mut Seat<Bench<S>>,
    hand: HandOf<S>,
) -> NextOf<S>
    requires seat { IsSeatOf lock.now.table.shared.table_id lock.now.table.shared.key seat.old }
    requires idle { seat.old.view.holds ≡ false }
    requires hand { Holds S.claimed S.is_whole S.made S.may_stop S.plan seat.old.view.number seat.old.view.mine hand }
    ensures seat { IsSeatOf lock.now.table.shared.table_id lock.now.table.shared.key seat.new }
    ensures turned { IsTurned seat.old.view seat.new.view }
    ensures history { IsHistory S.plan S.stored S.from seat.new.view.seen }
    ensures next { LeavesWith S.claimed S.is_whole S.made S.may_stop S.plan seat.new.view.number seat.new.view.seen result }
{
    let worker = seat.number();
    let mut entered = lock.enter(rt, seat);
    let bench = entered.value();
    let next = bench.turn(worker, hand);
    bench.shop.facts();
    entered.leave(seat);
    next
}

/// A worker of a run: it takes turns at the lock with its seat until the run is over. It does the work of its claims outside the
/// lock, has at most one claim at a time, and pauses where it finds nothing to do.
pub fn work<R: Wait, S: Shop, G: Gate>(
    rt: &R,
    lock: &MarkLock<Bench<S>>,
    means: &S::Means,
    gate: &G,
    seat: Seat<Bench<S>>,
) -> Seat<Bench<S>>
    requires seat { IsSeatOf lock.now.table.shared.table_id lock.now.table.shared.key seat }
    requires idle { seat.view.holds ≡ false }
    requires free { Claims S.plan seat.view.number seat.view.mine None }
    requires means { S.serves means.now }
    ensures seat { IsSeatOf lock.now.table.shared.table_id lock.now.table.shared.key result }
    ensures worked { Worked S.plan S.stored S.from seat.view result.view }
{
    let mut seat = seat;
    let mut hand = Hand::Free;
    let mut pauses = Pauses::new();
    for _ in rt.forever() {
        match take_turn(rt, lock, &mut seat, hand) {
            Next::Over => return seat,
            Next::Wait(held) => {
                pauses.pause(rt);
                hand = held;
            }
            Next::Go(held) => {
                pauses.end();
                hand = held;
            }
            Next::Work(claim) => {
                pauses.end();
                hand = worked::<S, G>(means, gate, claim);
            }
        }
    }
    unreachable!()
}
