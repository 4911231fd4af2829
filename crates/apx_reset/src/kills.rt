//! Kill: the partitions of a tree go back to their recovery checkpoints, one after the other.
ghost use Rattle.std.specs.Prelude.{◌≡◌, ◌<◌, ◌+◌, true, length, IsTrue, OnOk, OnErr};
ghost use Rattle.apx_device.specs.Vault.{entry_at};
ghost use Rattle.apx_history.specs.State.{running, parts as parts_at, IsPart};
ghost use Rattle.apx_history.specs.Effects.{next};
ghost use Rattle.apx_history.specs.declared.Event.TheVariants.{Kill};
ghost use Rattle.apx_list.specs.Plan.{IsPlan as IsCut};
ghost use Rattle.apx_job.specs.Job.{plan_of};
ghost use Rattle.apx_part.specs.Fed.{plan_in};
ghost use Rattle.apx_course.specs.Course.{Stops};
ghost use Rattle.apx_stores.specs.Crashes.{EntriesFollow, NoPut};
ghost use Rattle.apx_held.specs.Fits.{AreSaved};
ghost use Rattle.apx_held.specs.Partly.{Partly};
ghost use Rattle.apx_reset.specs.Kept.{FitsRun};

use crate::restoring::restored;
use apx_course::{Naming, Stopped};
use apx_device::{Keeper, SaveId, Spools, Vault};
use apx_held::{Contents, Held};
use apx_list::CutPlan;
use apx_part::PartId;
use apx_stores::Stores;
use std::alloc::Global;

/// How many operators there are.
fn operators<K: Keeper + Drop, V: Vault + Drop, P: Spools + Drop, J: Naming>(
    stores: &Stores<K, V, P, J>,
) -> u16
    ensures { result ≡ length stores.now.course.machine.ops }
{
    stores.facts();
    stores.machine().len() as u16
}

/// How many partitions an operator has.
#[tactic(auto, using(apx_machine::proofs::Few::parts_few))]
fn partitions<K: Keeper + Drop, V: Vault + Drop, P: Spools + Drop, J: Naming>(
    stores: &Stores<K, V, P, J>,
    op: u16,
) -> u8
    requires { op < length stores.now.course.machine.ops }
    ensures { result ≡ parts_at stores.now.course.machine op }
{
    stores.facts();
    stores.machine().parts(op as usize) as u8
}

/// A partition goes back, where it is in the tree of the line, and stays otherwise.
fn reset_part<K: Keeper + Drop, V: Vault + Drop, P: Spools + Drop, J: Naming>(
    alloc: Global,
    cuts: CutPlan,
    stores: &mut Stores<K, V, P, J>,
    contents: &mut Contents<P::S>,
    worker: u8,
    line: u32,
    id: PartId,
) -> Result<(), Stopped>
    requires cuts { cuts ≡ plan_in J.run.job }
    requires limits { IsCut cuts }
    requires planned { J.run.plan ≡ plan_of J.run.job }
    requires runs { running stores.old.course.machine ≡ true }
    requires there { IsPart stores.old.course.machine id.op id.part }
    requires saved { IsTrue V.tells → AreSaved J.run.job J.run.told (entry_at (V.held stores.old.vault)) stores.old.course.machine }
    requires partly { Partly J.run.job J.run.told J.run.plan stores.old.course.machine line id.op id.part contents.old }
    ensures partly { OnOk result (Partly J.run.job J.run.told J.run.plan stores.old.course.machine line id.op (id.part + 1) contents.new) }
    ensures course { OnOk result (stores.new.course ≡ stores.old.course) }
    ensures stops { OnErr result (Stops J.run.plan stores.old.course stores.new.course worker) }
    ensures held { IsTrue V.tells → V.held stores.new.vault ≡ V.held stores.old.vault }
    ensures crash { IsTrue V.tells → EntriesFollow NoPut V.time V.left V.held stores.old.vault stores.new.vault }
    ensures keeper { stores.new.keeper ≡ stores.old.keeper }
{
    stores.facts();
    let (op, part) = (id.op as usize, id.part as usize);
    if !stores.machine().in_tree(line as usize, op, part) {
        return Ok(());
    }
    let window = stores.machine().rc(op, part);
    let id = SaveId {
        op: id.op,
        boundary: stores.machine().boundary(op),
        part: id.part,
        window,
    };
    let progress = restored(alloc, stores, worker, id)?;
    let spool = stores.fresh(worker)?;
    let held = Held::new(alloc, cuts, window, progress, spool);
    contents.put(op, part, held);
    Ok(())
}

/// The partitions of an operator that are in the tree go back.
fn reset_group<K: Keeper + Drop, V: Vault + Drop, P: Spools + Drop, J: Naming>(
    alloc: Global,
    cuts: CutPlan,
    stores: &mut Stores<K, V, P, J>,
    contents: &mut Contents<P::S>,
    worker: u8,
    line: u32,
    op: u16,
) -> Result<(), Stopped>
    requires cuts { cuts ≡ plan_in J.run.job }
    requires limits { IsCut cuts }
    requires planned { J.run.plan ≡ plan_of J.run.job }
    requires runs { running stores.old.course.machine ≡ true }
    requires there { op < length stores.old.course.machine.ops }
    requires saved { IsTrue V.tells → AreSaved J.run.job J.run.told (entry_at (V.held stores.old.vault)) stores.old.course.machine }
    requires partly { Partly J.run.job J.run.told J.run.plan stores.old.course.machine line op 0 contents.old }
    ensures partly { OnOk result (Partly J.run.job J.run.told J.run.plan stores.old.course.machine line (op + 1) 0 contents.new) }
    ensures course { OnOk result (stores.new.course ≡ stores.old.course) }
    ensures stops { OnErr result (Stops J.run.plan stores.old.course stores.new.course worker) }
    ensures held { IsTrue V.tells → V.held stores.new.vault ≡ V.held stores.old.vault }
    ensures crash { IsTrue V.tells → EntriesFollow NoPut V.time V.left V.held stores.old.vault stores.new.vault }
    ensures keeper { stores.new.keeper ≡ stores.old.keeper }
{
    stores.facts();
    for part in 0..partitions(stores, op) {
        reset_part(
            alloc,
            cuts,
            stores,
            contents,
            worker,
            line,
            PartId { op, part },
        )?;
    }
    Ok(())
}

/// All partitions in the tree of a line go back to their recovery checkpoints: what they carried is read from the checkpoint store,
/// and their lists are empty. All others stay.
///
/// A fault stops the run: `Vault` and `Spools` where that device failed, `State` where a checkpoint spells no progress, `Memory`.
/// Then some partitions are back and some aren't.
pub fn reset_tree<K: Keeper + Drop, V: Vault + Drop, P: Spools + Drop, J: Naming>(
    alloc: Global,
    cuts: CutPlan,
    stores: &mut Stores<K, V, P, J>,
    contents: &mut Contents<P::S>,
    worker: u8,
    line: u32,
) -> Result<(), Stopped>
    requires cuts { cuts ≡ plan_in J.run.job }
    requires limits { IsCut cuts }
    requires planned { J.run.plan ≡ plan_of J.run.job }
    requires runs { running stores.old.course.machine ≡ true }
    requires fits { FitsRun J.run V.tells (V.held stores.old.vault) stores.old.course.machine contents.old }

    // What is kept fits the machine once the kill is added.
    ensures fits { OnOk result (FitsRun J.run V.tells (V.held stores.new.vault)
        (next J.run.plan stores.old.course.machine worker (Kill line)) contents.new) }
    ensures course { OnOk result (stores.new.course ≡ stores.old.course) }
    ensures stops { OnErr result (Stops J.run.plan stores.old.course stores.new.course worker) }
    ensures held { IsTrue V.tells → V.held stores.new.vault ≡ V.held stores.old.vault }
    ensures crash { IsTrue V.tells → EntriesFollow NoPut V.time V.left V.held stores.old.vault stores.new.vault }
    ensures keeper { stores.new.keeper ≡ stores.old.keeper }
{
    stores.facts();
    for op in 0..operators(stores) {
        reset_group(alloc, cuts, stores, contents, worker, line, op)?;
    }
    Ok(())
}
