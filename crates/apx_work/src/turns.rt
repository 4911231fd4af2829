//! What a worker does in a turn: the first event to choose that it may do, or nothing.
ghost use Rattle.std.specs.Prelude.{Some, None};
ghost use Rattle.apx_work.specs.Own.{own};
ghost use Rattle.apx_work.specs.Claims.{Claims, IsOpenFor};
ghost use Rattle.apx_work.specs.Turns.{Changes};
ghost use Rattle.apx_work.specs.Hands.{IsTask, IsDue, Holds, LeavesWith};

use crate::bench::Bench;
use crate::hands::{Due, Hand, Next, Task};
use crate::shop::Shop;
use apx_history::Event;

/// What a worker comes to a turn with.
pub(crate) type HandOf<S> = Hand<<S as Shop>::Claim, <S as Shop>::Done, <S as Shop>::Refusal>;

/// What a worker leaves a turn with.
pub(crate) type NextOf<S> = Next<<S as Shop>::Claim, <S as Shop>::Done, <S as Shop>::Refusal>;

/// What a worker with nothing open is to do.
fn task<S: Shop>(shop: &S, worker: u8) -> Task
    requires { Claims S.plan worker (own worker (S.journal shop.now)) None }
    ensures { IsTask S.plan (S.machine shop.now) worker result }
{
    shop.facts();
    match shop.first_for(worker, None) {
        None => Task::Rest,
        Some(event) => match event {
            Event::Start { op, part, window } => Task::Begin { op, part, window },
            Event::Kill { line } => Task::Strike { line },
            Event::Write { .. } | Event::Finish { .. } | Event::Fault { .. } => unreachable!(),
            _ => Task::Alone { event },
        },
    }
}

/// What is known of a worker with a claim: the window is open for it.
fn known<S: Shop>(shop: &S, worker: u8, claim: &S::Claim)
    requires { Claims S.plan worker (own worker (S.journal shop.now)) (Some (S.claimed claim.now)) }
    ensures { IsOpenFor (S.machine shop.now) (S.claimed claim.now) }
{
    shop.facts();
    let _ = S::open_window(claim);
}

/// What a worker is to do with a claim.
fn due<S: Shop>(shop: &S, worker: u8, claim: &S::Claim) -> Due
    requires { Claims S.plan worker (own worker (S.journal shop.now)) (Some (S.claimed claim.now)) }
    ensures { IsDue S.plan (S.machine shop.now) worker (S.claimed claim.now) result }
{
    shop.facts();
    let open = S::open_window(claim);
    match shop.first_for(worker, Some((open.op, open.part))) {
        None => Due::Nothing,
        Some(event) => match event {
            Event::Write { .. } => Due::Store,
            Event::Finish { .. } => Due::Close,
            Event::Kill { line } => Due::Drop { line },
            _ => unreachable!(),
        },
    }
}

/// The turn of a worker with nothing open.
fn take_up<S: Shop>(shop: &mut S, worker: u8) -> NextOf<S>
    requires { Claims S.plan worker (own worker (S.journal shop.old)) None }
    ensures change { Changes worker (S.journal shop.old) (S.journal shop.new) }
    ensures next { LeavesWith S.claimed S.is_whole S.made S.may_stop S.plan worker (S.journal shop.new) result }
{
    match task(shop, worker) {
        Task::Rest => Next::Wait(Hand::Free),
        Task::Begin { op, part, window } => match shop.start(worker, op, part, window) {
            Ok(claim) => Next::Work(claim),
            Err(_) => Next::Over,
        },
        Task::Strike { line } => match shop.kill(worker, line) {
            Ok(()) => Next::Go(Hand::Free),
            Err(_) => Next::Over,
        },
        Task::Alone { event } => match shop.act(worker, event) {
            Ok(()) => Next::Go(Hand::Free),
            Err(_) => Next::Over,
        },
    }
}

/// The turn of a worker with a claim whose work is done.
fn bring<S: Shop>(shop: &mut S, worker: u8, claim: S::Claim, done: S::Done) -> NextOf<S>
    requires one { Claims S.plan worker (own worker (S.journal shop.old)) (Some (S.claimed claim)) }
    requires made { S.made claim done }
    ensures change { Changes worker (S.journal shop.old) (S.journal shop.new) }
    ensures next { LeavesWith S.claimed S.is_whole S.made S.may_stop S.plan worker (S.journal shop.new) result }
{
    known(shop, worker, &claim);
    match due(shop, worker, &claim) {
        Due::Nothing => Next::Wait(Hand::Ready(claim, done)),
        Due::Store => match shop.write(&claim, &done) {
            Ok(()) => Next::Go(Hand::Ready(claim, done)),
            Err(_) => Next::Over,
        },
        Due::Close => match shop.finish(claim, done) {
            Ok(()) => Next::Go(Hand::Free),
            Err(_) => Next::Over,
        },
        Due::Drop { line } => match shop.give_up(line, claim) {
            Ok(()) => Next::Go(Hand::Free),
            Err(_) => Next::Over,
        },
    }
}

impl<S: Shop> Bench<S> {
    /// A turn of a worker, which does one event or none.
    pub(crate) fn turn(&mut self, worker: u8, hand: HandOf<S>) -> NextOf<S>
        requires { Holds S.claimed S.is_whole S.made S.may_stop S.plan worker (own worker (S.journal self.old.shop)) hand }
        ensures change { Changes worker (S.journal self.old.shop) (S.journal self.new.shop) }
        ensures next { LeavesWith S.claimed S.is_whole S.made S.may_stop S.plan worker (S.journal self.new.shop) result }
    {
        if !self.shop.is_running() {
            self.shop.facts();
            return Next::Over;
        }
        match hand {
            Hand::Free => take_up(&mut self.shop, worker),
            Hand::Ready(claim, done) => bring(&mut self.shop, worker, claim, done),
            Hand::Refused(why) => {
                self.shop.fail(worker, why);
                Next::Over
            }
        }
    }
}
