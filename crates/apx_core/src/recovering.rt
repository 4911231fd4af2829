//! The events of a script: a kill and a repartition.
ghost use Rattle.std.specs.Prelude.{◌≡◌, true, IsTrue, OnOk, OnErr};
ghost use Rattle.apx_history.specs.Enabled.{can};
ghost use Rattle.apx_history.specs.Plan.{line as line_at, count_or};
ghost use Rattle.apx_history.specs.declared.Event.TheVariants.{Kill, Repartition};
ghost use Rattle.apx_device.specs.Vault.{entry_at};
ghost use Rattle.apx_course.specs.Course.{Did, Stops};
ghost use Rattle.apx_renew.specs.Renewed.{KeepRenewed};
ghost use Rattle.apx_stores.specs.Crashes.{EntriesFollow, NoPut};
ghost use Rattle.apx_core.specs.Claim.{TakesClaim};
ghost use Rattle.apx_core.specs.Crashes.{IsOfRun};

use crate::claims::Claim;
use crate::cores::Core;
use crate::opening::cuts_of;
use apx_course::{Naming, Stopped};
use apx_device::{Keeper, Spools, Vault};
use apx_history::Event;
use apx_reset::{renew_operator, reset_tree};

impl<K: Keeper + Drop, V: Vault + Drop, P: Spools + Drop, J: Naming> Core<K, V, P, J> {
    /// Kill: the partitions in the tree of a line go back to their recovery checkpoints. Where the partition that the line names
    /// has a window open, its claim is taken, and is gone.
    pub fn kill(&mut self, worker: u8, line: u32, claim: Option<Claim<J>>) -> Result<(), Stopped>
        requires can { can J.run.plan self.old.stores.course.machine (Kill line) ≡ true }
        requires claim { TakesClaim J.run.plan self.old.stores.course.machine line worker claim }
        ensures did { OnOk result (Did J.run.plan self.old.stores.course self.new.stores.course worker (Kill line)) }
        ensures stops { OnErr result (Stops J.run.plan self.old.stores.course self.new.stores.course worker) }
        ensures keeper { self.new.stores.keeper ≡ self.old.stores.keeper }
        ensures vault { IsTrue V.tells → V.held self.new.stores.vault ≡ V.held self.old.stores.vault }
        ensures crash { IsTrue V.tells → EntriesFollow NoPut V.time V.left V.held self.old.stores.vault self.new.stores.vault }
    {
        drop(claim);
        let event = Event::Kill { line };
        self.stores.reserve(worker, event)?;
        let cuts = cuts_of::<J>(&self.job);
        reset_tree(
            self.alloc,
            cuts,
            &mut self.stores,
            &mut self.contents,
            worker,
            line,
        )?;
        self.stores.add(worker, event);
        Ok(())
    }

    /// Repartition: the operator that a line names goes on in other partitions, each with its cut of what the operator carried.
    pub fn repartition(&mut self, worker: u8, line: u32) -> Result<(), Stopped>
        requires { can J.run.plan self.old.stores.course.machine (Repartition line) ≡ true }
        ensures did { OnOk result (Did J.run.plan self.old.stores.course self.new.stores.course worker (Repartition line)) }
        ensures stops { OnErr result (Stops J.run.plan self.old.stores.course self.new.stores.course worker) }
        ensures vault { OnOk result (IsTrue V.tells →
            KeepRenewed J.run.job J.run.told (line_at J.run.plan line).op (line_at J.run.plan line).window
            (count_or 0 (line_at J.run.plan line).act) (entry_at (V.held self.old.stores.vault)) (entry_at (V.held self.new.stores.vault))) }
        ensures crash { IsTrue V.tells → EntriesFollow (IsOfRun J.run.job J.run.told)
            V.time V.left V.held self.old.stores.vault self.new.stores.vault }
        ensures keeper { self.new.stores.keeper ≡ self.old.stores.keeper }
    {
        let event = Event::Repartition { line };
        self.stores.reserve(worker, event)?;
        let cuts = cuts_of::<J>(&self.job);
        renew_operator(
            self.alloc,
            cuts,
            &mut self.stores,
            &mut self.contents,
            worker,
            line,
        )?;
        self.stores.try_add(worker, event)
    }
}
