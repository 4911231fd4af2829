//! A core as its workers share it.
ghost use Rattle.std.specs.Prelude.{◌≡◌, true, OnOk, OnErr};
ghost use Rattle.apx_history.specs.Enabled.{can};
ghost use Rattle.apx_course.specs.Course.{Did, Stops};
ghost use Rattle.apx_work.specs.Turns.{goes_alone};

use apx_core::{Claim, Core, CoreFault, Naming, Stopped};
use apx_device::{Keeper, Spools, Vault};
use apx_history::Event;
use apx_job::Job;
use apx_part::{Done, PartId};
use apx_tuple::Short;
use apx_work::{OpenWindow, Shop};
use std::alloc::Global;
use std::sync::Arc;

/// What the work of every claim needs.
#[derive(Drop)]
pub(crate) struct Needs {
    /// The job of the run.
    pub(crate) job: Arc<Job>,
    /// Where what the work makes comes from.
    pub(crate) alloc: Global,
}

/// A core as its workers share it. A claim of the core is theirs, and its work is done with the job alone.
#[derive(Drop)]
pub(crate) struct Crew<K: Keeper + Drop, V: Vault + Drop, P: Spools + Drop, J: Naming> {
    /// The core.
    pub(crate) core: Core<K, V, P, J>,
}

/// An event that has to do with no claim and kills nothing.
fn alone<K: Keeper + Drop, V: Vault + Drop, P: Spools + Drop, J: Naming>(
    core: &mut Core<K, V, P, J>,
    worker: u8,
    event: Event,
) -> Result<(), Stopped>
    requires can { can J.run.plan core.old.stores.course.machine event ≡ true }
    requires alone { goes_alone event ≡ true }
    ensures did { OnOk result (Did J.run.plan core.old.stores.course core.new.stores.course worker event) }
    ensures stops { OnErr result (Stops J.run.plan core.old.stores.course core.new.stores.course worker) }
{
    match event {
        Event::Save { op, part, window } => core.save(worker, PartId { op, part }, window),
        Event::Advance { op, part, to } => core.advance(worker, PartId { op, part }, to),
        Event::Commit { to } => core.commit(worker, to),
        Event::Purge { op, part, to } => core.purge(worker, PartId { op, part }, to),
        Event::Repartition { line } => core.repartition(worker, line),
        Event::End => core.end(worker),
        Event::Start { .. }
        | Event::Write { .. }
        | Event::Finish { .. }
        | Event::Kill { .. }
        | Event::Fault { .. } => unreachable!(),
    }
}

impl<K: Keeper + Drop, V: Vault + Drop, P: Spools + Drop, J: Naming> Shop for Crew<K, V, P, J> {
    ghost use Rattle.std.specs.Prelude.{◌≡◌, IsSome};
    ghost use Rattle.apx_core.specs.Claim.{IsWork};
    ghost use Rattle.apx_crew.specs.Crew.{claimed, MayStop};

    type Means = Needs;

    type Claim = Claim<J>;

    type Done = Done;

    type Refusal = Short;

    ghost plan = { J.run.plan };

    ghost stored = { J.run.stored };

    ghost from = { J.run.from };

    ghost machine = { λ crew. crew.core.stores.course.machine };

    ghost journal = { λ crew. crew.core.stores.course.journal };

    ghost serves = { λ needs. needs.job.value ≡ J.run.job };

    ghost claimed = { claimed };

    ghost is_whole = { λ claim. IsSome claim.state };

    ghost made = { λ claim done. IsWork J.run claim done };

    ghost may_stop = { MayStop J.run };

    fn work(needs: &Needs, claim: &mut Claim<J>) -> Result<Done, Short> {
        claim.work(needs.alloc, &needs.job)
    }

    fn no_memory() -> Short {
        Short::Memory
    }

    fn open_window(claim: &Claim<J>) -> OpenWindow {
        let id = claim.id();
        OpenWindow {
            op: id.op,
            part: id.part,
            window: claim.window(),
            worker: claim.worker(),
        }
    }

    fn count(&self) -> u64 {
        self.core.entries().len() as u64
    }

    fn facts(&self) {
        self.core.facts();
    }

    fn is_running(&self) -> bool {
        self.core.machine().is_running()
    }

    fn first_for(&self, worker: u8, claim: Option<(u16, u8)>) -> Option<Event> {
        self.core.machine().first_for(worker, claim)
    }

    fn start(&mut self, worker: u8, op: u16, part: u8, window: u32) -> Result<Claim<J>, Stopped> {
        self.core.start(worker, PartId { op, part }, window)
    }

    fn write(&mut self, claim: &Claim<J>, done: &Done) -> Result<(), Stopped> {
        self.core.write(claim, done)
    }

    fn finish(&mut self, claim: Claim<J>, done: Done) -> Result<(), Stopped> {
        self.core.finish(claim, done)
    }

    fn kill(&mut self, worker: u8, line: u32) -> Result<(), Stopped> {
        self.core.kill(worker, line, None)
    }

    fn give_up(&mut self, line: u32, claim: Claim<J>) -> Result<(), Stopped> {
        let worker = claim.worker();
        self.core.kill(worker, line, Some(claim))
    }

    fn act(&mut self, worker: u8, event: Event) -> Result<(), Stopped> {
        alone(&mut self.core, worker, event)
    }

    fn fail(&mut self, worker: u8, why: Short) -> Stopped {
        match why {
            Short::Memory => self.core.fail(worker, CoreFault::Memory),
            Short::Large => self.core.fail(worker, CoreFault::Large),
        }
    }
}
