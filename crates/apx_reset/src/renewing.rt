//! The partitions that an operator begins an epoch with, and their checkpoints.
ghost use Rattle.std.specs.Prelude.{◌≡◌, ℕ, ◌≤◌, ◌<◌, ◌∷◌, ◌++◌, [], true, Some, length, get_or, IsTrue, IfOk, OnOk, OnErr};
ghost use Rattle.apx_device.specs.Vault.{entry_at, with_entry};
ghost use Rattle.apx_history.specs.State.{running};
ghost use Rattle.apx_list.specs.Plan.{IsPlan as IsCut};
ghost use Rattle.apx_pass.specs.Pass.{at_start};
ghost use Rattle.apx_part.specs.Fed.{plan_in};
ghost use Rattle.apx_statebytes.specs.Spelling.{second_spelling, IsProgress};
ghost use Rattle.apx_tuple.specs.Progress.{progress_size};
ghost use Rattle.apx_course.specs.Course.{Stops};
ghost use Rattle.apx_stores.specs.Crashes.{EntriesFollow};
ghost use Rattle.apx_held.specs.Holding.{empty_list};
ghost use Rattle.apx_held.specs.Partition.{progress_at};
ghost use Rattle.apx_renew.specs.Renewed.{AreRenewed, KeepRenewed};
ghost use Rattle.apx_reset.specs.Put.{IsProgressPut, IsRenewal};

use apx_course::{CoreFault, Naming, Stopped};
use apx_device::{Keeper, SaveId, Spools, Vault};
use apx_held::Held;
use apx_list::CutPlan;
use apx_statebytes::encode;
use apx_stores::Stores;
use apx_tuple::Progress;
use std::alloc::Global;

/// One member more. Where memory is wanting the run stops.
pub(crate) fn add<K: Keeper + Drop, V: Vault + Drop, P: Spools + Drop, J: Naming, T: Drop>(
    stores: &mut Stores<K, V, P, J>,
    worker: u8,
    members: &mut Vec<T>,
    member: T,
) -> Result<(), Stopped>
    requires { running stores.old.course.machine ≡ true }
    ensures items { OnOk result (members.new.items ≡ members.old.items ++ member ∷ []) }
    ensures same { OnOk result (stores.new ≡ stores.old) }
    ensures stops { OnErr result (Stops J.run.plan stores.old.course stores.new.course worker) }
    ensures keeper { stores.new.keeper ≡ stores.old.keeper }
    ensures vault { stores.new.vault ≡ stores.old.vault }
{
    match members.push(member) {
        Ok(()) => Ok(()),
        Err(_) => Err(stores.stop(worker, CoreFault::Memory)),
    }
}

/// The checkpoint store gets the checkpoint of what a partition carries.
fn save<K: Keeper + Drop, V: Vault + Drop, P: Spools + Drop, J: Naming>(
    alloc: Global,
    stores: &mut Stores<K, V, P, J>,
    worker: u8,
    id: SaveId,
    progress: &Progress,
) -> Result<(), Stopped>
    requires runs { running stores.old.course.machine ≡ true }
    requires small { progress_size progress.now < 4294967232 }
    ensures progress { OnOk result (IsProgress progress.now) }
    ensures held { OnOk result (IsTrue V.tells →
        V.held stores.new.vault ≡ with_entry (V.held stores.old.vault) id (second_spelling progress.now)) }
    ensures crash { IsTrue V.tells → EntriesFollow (IsProgressPut id progress.now) V.time V.left V.held stores.old.vault stores.new.vault }
    ensures course { OnOk result (stores.new.course ≡ stores.old.course) }
    ensures stops { OnErr result (Stops J.run.plan stores.old.course stores.new.course worker) }
    ensures keeper { stores.new.keeper ≡ stores.old.keeper }
{
    stores.facts();
    match encode(alloc, progress) {
        Ok(bytes) => stores.keep(worker, id, &bytes),
        Err(_) => Err(stores.stop(worker, CoreFault::Memory)),
    }
}

/// A partition begins an epoch behind its checkpoint, which the checkpoint store gets.
fn renew_part<K: Keeper + Drop, V: Vault + Drop, P: Spools + Drop, J: Naming>(
    alloc: Global,
    cuts: CutPlan,
    stores: &mut Stores<K, V, P, J>,
    worker: u8,
    id: SaveId,
    progress: Progress,
) -> Result<Held<P::S>, Stopped>
    requires limits { IsCut cuts }
    requires within { id.window ≤ cuts.windows }
    requires runs { running stores.old.course.machine ≡ true }
    requires small { progress_size progress < 4294967232 }
    ensures kept { IfOk result (λ held. held ≡ record { state = Some progress; list = empty_list cuts id.window }) }
    ensures progress { OnOk result (IsProgress progress) }
    ensures held { OnOk result (IsTrue V.tells →
        V.held stores.new.vault ≡ with_entry (V.held stores.old.vault) id (second_spelling progress)) }
    ensures crash { IsTrue V.tells → EntriesFollow (IsProgressPut id progress) V.time V.left V.held stores.old.vault stores.new.vault }
    ensures course { OnOk result (stores.new.course ≡ stores.old.course) }
    ensures stops { OnErr result (Stops J.run.plan stores.old.course stores.new.course worker) }
    ensures keeper { stores.new.keeper ≡ stores.old.keeper }
{
    save(alloc, stores, worker, id, &progress)?;
    let spool = stores.fresh(worker)?;
    Ok(Held::new(alloc, cuts, id.window, progress, spool))
}

/// An operator's partitions begin an epoch, with what they carry; `first` is the id of the checkpoint of partition 0.
pub(crate) fn renew_parts<K: Keeper + Drop, V: Vault + Drop, P: Spools + Drop, J: Naming>(
    alloc: Global,
    cuts: CutPlan,
    stores: &mut Stores<K, V, P, J>,
    worker: u8,
    first: SaveId,
    parts: Vec<Progress>,
) -> Result<Vec<Held<P::S>>, Stopped>
    requires cuts { cuts ≡ plan_in J.run.job }
    requires limits { IsCut cuts }
    requires window { first.window ≡ first.boundary }
    requires within { first.window ≤ cuts.windows }
    requires runs { running stores.old.course.machine ≡ true }
    requires few { length parts.items ≤ 8 }
    requires small { (i : ℕ) → i < length parts.items → progress_size (get_or parts.items i at_start) < 4294967232 }
    requires carried { IsTrue J.run.told → (i : ℕ) → i < length parts.items →
        get_or parts.items i at_start ≡ progress_at J.run.job first.op first.boundary i first.window }
    ensures renewed { IfOk result (λ group.
        AreRenewed J.run.job J.run.told first.op first.boundary (length parts.items) group.items) }
    ensures kept { OnOk result (IsTrue V.tells → KeepRenewed J.run.job J.run.told first.op first.boundary (length parts.items)
        (entry_at (V.held stores.old.vault)) (entry_at (V.held stores.new.vault))) }
    ensures crash { IsTrue V.tells → EntriesFollow (IsRenewal J.run first.op first.boundary (length parts.items))
        V.time V.left V.held stores.old.vault stores.new.vault }
    ensures course { OnOk result (stores.new.course ≡ stores.old.course) }
    ensures stops { OnErr result (Stops J.run.plan stores.old.course stores.new.course worker) }
    ensures keeper { stores.new.keeper ≡ stores.old.keeper }
{
    stores.facts();
    let mut group = Vec::new(alloc);
    for progress in parts {
        let id = SaveId {
            op: first.op,
            boundary: first.boundary,
            part: group.len() as u8,
            window: first.window,
        };
        let held = renew_part(alloc, cuts, stores, worker, id, progress)?;
        add(stores, worker, &mut group, held)?;
    }
    Ok(group)
}
