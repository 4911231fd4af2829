//! The event that stores a window's rows.
ghost use Rattle.std.specs.Prelude.{◌≡◌, ◌<◌, ◌+◌, true, IsTrue, OnOk, OnErr};
ghost use Rattle.apx_history.specs.Enabled.{can};
ghost use Rattle.apx_history.specs.Journals.{owed, bears};
ghost use Rattle.apx_history.specs.declared.Event.TheVariants.{Write};
ghost use Rattle.apx_tuple.specs.Size.{size_by};
ghost use Rattle.apx_tuple.specs.Tuple.{tuple_key};
ghost use Rattle.apx_pass.specs.Pass.{rows_at, sink_of};
ghost use Rattle.apx_course.specs.Course.{Did, Stops};
ghost use Rattle.apx_stores.specs.Crashes.{RowsFollow};

use crate::stores::Stores;
use apx_course::{CoreFault, Naming, Stopped};
use apx_device::{KeepRefusal, Keeper, Spools, Vault};
use apx_history::Event;
use apx_tuple::Tuple;

impl<K: Keeper + Drop, V: Vault + Drop, P: Spools + Drop, J: Naming> Stores<K, V, P, J> {
    /// Write: the sink's store gets a window's rows, in one transaction. Where the checkpoint store and the spools tell,
    /// they are those of the one pass.
    pub fn write(&mut self, worker: u8, window: u32, rows: &[Tuple]) -> Result<(), Stopped>
        requires can { can J.run.plan self.old.course.machine (Write window) ≡ true }
        requires bears { bears (owed J.run.plan self.old.course.machine (Write window)) worker ≡ true }
        requires rows { IsTrue J.run.told → rows.now ≡ rows_at J.run.job.flow window (sink_of J.run.job.flow.nodes) }
        requires small { size_by tuple_key rows.now < 4294967232 }
        ensures did { OnOk result (Did J.run.plan self.old.course self.new.course worker (Write window)) }
        ensures stops { OnErr result (Stops J.run.plan self.old.course self.new.course worker) }
        ensures crash { RowsFollow J.run K.tells self.old.course.machine.stored K.time K.left self.old.keeper self.new.keeper }
        ensures vault { self.new.vault ≡ self.old.vault }
        ensures spools { self.new.spools ≡ self.old.spools }
    {
        let event = Event::Write { window };
        self.reserve(worker, event)?;
        match self.keeper.commit(window, rows) {
            Ok(()) => {
                self.course.add(worker, event);
                Ok(())
            }
            Err(KeepRefusal::Failed) => Err(self.course.stop(worker, CoreFault::Keeper)),
            Err(KeepRefusal::Memory) => Err(self.course.stop(worker, CoreFault::Memory)),
        }
    }
}
