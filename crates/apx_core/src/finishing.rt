//! The events that end a claim's window.
ghost use Rattle.std.specs.Prelude.{◌≡◌, ◌<◌, true, IfErr, OnOk, OnErr};
ghost use Rattle.apx_history.specs.Enabled.{can};
ghost use Rattle.apx_history.specs.declared.Event.TheVariants.{Write, Finish};
ghost use Rattle.apx_tuple.specs.Progress.{progress_size};
ghost use Rattle.apx_list.specs.Kept.{IsOfSpool};
ghost use Rattle.apx_course.specs.Course.{Did, Stops};
ghost use Rattle.apx_stores.specs.Crashes.{RowsFollow};
ghost use Rattle.apx_held.specs.Holding.{holding, put_holding, brought, IsHeld, AreNext};
ghost use Rattle.apx_core.specs.Claim.{IsOpenFor, IsWork};
ghost use Rattle.apx_core.specs.Ports.{IsUnbrought};

use crate::claims::Claim;
use crate::cores::{Core, known};
use apx_course::{CoreFault, Naming, Stopped};
use apx_device::{Keeper, Spool, Spools, Vault};
use apx_held::Contents;
use apx_history::Event;
use apx_list::{Block, ListFault};
use apx_part::{Done, PartId};
use apx_tuple::Progress;

/// The fault that the blocks of a list couldn't be moved to its spool.
fn unspilled<F: Drop>(fault: ListFault<F>) -> CoreFault<F>
    requires { IsOfSpool fault }
    ensures { IsUnbrought result }
{
    match fault {
        ListFault::Fault(fault) => CoreFault::Spool(fault),
        ListFault::Damaged {
            number: _,
            window: _,
            index: _,
            last: _,
            bytes: _,
        } => unreachable!(),
        ListFault::Memory => CoreFault::Memory,
    }
}

/// What a partition carries on comes back, with the blocks of its window. Of all its blocks the newest `keep` stay in memory.
fn bring<S: Spool + Drop>(
    contents: &mut Contents<S>,
    id: PartId,
    keep: usize,
    state: Progress,
    blocks: Vec<Block>,
) -> Result<(), CoreFault<S::Fault>>
    requires there { IsHeld contents.old id.op id.part }
    requires small { progress_size state < 4294967232 }
    requires next { AreNext (holding contents.old id.op id.part).list blocks.items }
    ensures brought { OnOk result
        (contents.new ≡ put_holding contents.old id.op id.part (brought state blocks.items (holding contents.old id.op id.part))) }
    ensures cause { IfErr result IsUnbrought }
{
    let (op, part) = (id.op as usize, id.part as usize);
    match contents.bring(op, part, state, blocks) {
        Ok(()) => match contents.spill(op, part, keep) {
            Ok(()) => Ok(()),
            Err(fault) => Err(unspilled(fault)),
        },
        Err(_) => Err(CoreFault::Memory),
    }
}

impl<K: Keeper + Drop, V: Vault + Drop, P: Spools + Drop, J: Naming> Core<K, V, P, J> {
    /// Write: the sink's store gets the rows of the sink's window.
    pub fn write(&mut self, claim: &Claim<J>, done: &Done) -> Result<(), Stopped>
        requires can { can J.run.plan self.old.stores.course.machine (Write claim.now.window) ≡ true }
        requires opened { IsOpenFor self.old.stores.course.machine claim.now }
        requires sink { claim.now.op ≡ J.run.plan.sink }
        requires work { IsWork J.run claim.now done.now }
        ensures did { OnOk result
            (Did J.run.plan self.old.stores.course self.new.stores.course claim.now.worker (Write claim.now.window)) }
        ensures stops { OnErr result (Stops J.run.plan self.old.stores.course self.new.stores.course claim.now.worker) }
        ensures crash { RowsFollow J.run K.tells self.old.stores.course.machine.stored K.time K.left
            self.old.stores.keeper self.new.stores.keeper }
        ensures vault { self.new.stores.vault ≡ self.old.stores.vault }
        ensures spools { self.new.stores.spools ≡ self.old.stores.spools }
        ensures held { self.new.held ≡ self.old.held }
    {
        self.stores.facts();
        known::<J>(&self.job);
        self.stores
            .write(claim.worker(), claim.window(), done.rows.tuples())
    }

    /// Finish: what the partition carries on comes back, and its list has the window.
    pub fn finish(&mut self, claim: Claim<J>, done: Done) -> Result<(), Stopped>
        requires can { can J.run.plan self.old.stores.course.machine (Finish claim.op claim.part claim.window) ≡ true }
        requires opened { IsOpenFor self.old.stores.course.machine claim }
        requires work { IsWork J.run claim done }
        ensures did { OnOk result (Did J.run.plan self.old.stores.course self.new.stores.course claim.worker
            (Finish claim.op claim.part claim.window)) }
        ensures stops { OnErr result (Stops J.run.plan self.old.stores.course self.new.stores.course claim.worker) }
        ensures keeper { self.new.stores.keeper ≡ self.old.stores.keeper }
        ensures vault { self.new.stores.vault ≡ self.old.stores.vault }
        ensures spools { self.new.stores.spools ≡ self.old.stores.spools }
        ensures held { OnOk result (self.new.held ≡ put_holding self.old.held claim.op claim.part
            (brought done.state done.blocks.items (holding self.old.held claim.op claim.part))) }
    {
        let id = claim.id();
        let worker = claim.worker();
        let event = Event::Finish {
            op: id.op,
            part: id.part,
            window: claim.window(),
        };
        self.stores.reserve(worker, event)?;
        known::<J>(&self.job);
        let Done {
            state,
            rows: _,
            blocks,
        } = done;
        let keep = self.job.settings().keep;
        match bring(&mut self.contents, id, keep, state, blocks) {
            Ok(()) => {
                self.stores.add(worker, event);
                Ok(())
            }
            Err(fault) => Err(self.stores.stop(worker, fault)),
        }
    }
}
