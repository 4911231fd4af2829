//! Repartition: an operator goes on in other partitions, with what it carried.
ghost use Rattle.std.specs.Prelude.{◌≡◌, ℕ, ◌≤◌, ◌<◌, true, length, get_or, IsTrue, IfOk, IfSome, OnOk, OnErr};
ghost use Rattle.apx_device.specs.Vault.{entry_at};
ghost use Rattle.apx_history.specs.Plan.{line as line_at, count_or, number};
ghost use Rattle.apx_history.specs.State.{running, oper, parts as parts_at};
ghost use Rattle.apx_history.specs.Enabled.{can};
ghost use Rattle.apx_history.specs.Effects.{next};
ghost use Rattle.apx_history.specs.declared.Event.TheVariants.{Repartition};
ghost use Rattle.apx_list.specs.Plan.{IsPlan as IsCut};
ghost use Rattle.apx_pass.specs.Pass.{at_start};
ghost use Rattle.apx_rules.specs.Parts.{of_parts};
ghost use Rattle.apx_job.specs.Job.{plan_of};
ghost use Rattle.apx_part.specs.Fed.{plan_in};
ghost use Rattle.apx_shares.specs.Carried.{cut_progress, merge_progress};
ghost use Rattle.apx_shares.specs.Laws.{IsOrdered};
ghost use Rattle.apx_tuple.specs.declared.progress.Progress.{Progress};
ghost use Rattle.apx_tuple.specs.Progress.{progress_size, IsLargeProgress};
ghost use Rattle.apx_course.specs.Course.{Stops};
ghost use Rattle.apx_stores.specs.Caused.{IsTooLarge};
ghost use Rattle.apx_stores.specs.Crashes.{EntriesFollow, NoPut};
ghost use Rattle.apx_held.specs.Fits.{IsSaved, save_id};
ghost use Rattle.apx_held.specs.Partition.{progress_at};
ghost use Rattle.apx_renew.specs.Owned.{owned_of, repartitioned};
ghost use Rattle.apx_renew.specs.Renewed.{KeepRenewed};
ghost use Rattle.apx_reset.specs.Kept.{FitsRun};
ghost use Rattle.apx_reset.specs.Put.{IsRenewal};
ghost use Rattle.apx_reset.specs.Refused.{IsUnmoved};

use crate::renewing::{add, renew_parts};
use crate::restoring::restored;
use apx_course::{CoreFault, Naming, Stopped};
use apx_device::{Keeper, SaveId, Spools, Vault};
use apx_held::Contents;
use apx_history::Act;
use apx_list::CutPlan;
use apx_renew::repartition;
use apx_stores::Stores;
use apx_tuple::{Progress, Short};
use std::alloc::Global;

/// What each of so many partitions carried from the window of their checkpoints; `first` is the id of that of partition 0.
pub(crate) fn all_restored<K: Keeper + Drop, V: Vault + Drop, P: Spools + Drop, J: Naming>(
    alloc: Global,
    stores: &mut Stores<K, V, P, J>,
    worker: u8,
    first: SaveId,
    count: u8,
) -> Result<Vec<Progress>, Stopped>
    requires runs { running stores.old.course.machine ≡ true }
    requires saved { IsTrue V.tells → 0 < first.window → (i : ℕ) → i < count →
        IsSaved J.run.job J.run.told first.op first.boundary i first.window
        (entry_at (V.held stores.old.vault) (save_id first.op first.boundary i first.window)) }
    ensures count { IfOk result (λ parts. length parts.items ≡ count) }
    ensures carried { IsTrue J.run.told → IfOk result (λ parts.
        parts.items ≡ of_parts count (λ i. progress_at J.run.job first.op first.boundary i first.window)) }
    ensures course { OnOk result (stores.new.course ≡ stores.old.course) }
    ensures stops { OnErr result (Stops J.run.plan stores.old.course stores.new.course worker) }
    ensures held { IsTrue V.tells → V.held stores.new.vault ≡ V.held stores.old.vault }
    ensures crash { IsTrue V.tells → EntriesFollow NoPut V.time V.left V.held stores.old.vault stores.new.vault }
    ensures keeper { stores.new.keeper ≡ stores.old.keeper }
{
    stores.facts();
    let mut parts = Vec::new(alloc);
    for part in 0..count {
        let id = SaveId {
            op: first.op,
            boundary: first.boundary,
            part,
            window: first.window,
        };
        let progress = restored(alloc, stores, worker, id)?;
        add(stores, worker, &mut parts, progress)?;
    }
    Ok(parts)
}

/// What an operator carries in `count` partitions, of what it carried in these. All of it together is too large only where the
/// dataflow is, if the checkpoint store and the spools tell.
pub(crate) fn moved<K: Keeper + Drop, V: Vault + Drop, P: Spools + Drop, J: Naming>(
    alloc: Global,
    stores: &mut Stores<K, V, P, J>,
    worker: u8,
    parts: Vec<Progress>,
    count: u8,
) -> Result<Vec<Progress>, Stopped>
    requires runs { running stores.old.course.machine ≡ true }
    requires some { 1 ≤ length parts.items }
    requires few { length parts.items ≤ 8 }
    requires low { 1 ≤ count }
    requires high { count ≤ 8 }
    requires large { IsLargeProgress (merge_progress (owned_of parts.items)) → IsTooLarge J.run.job.flow J.run.told }
    ensures ok { IfOk result (λ cuts. cuts.items ≡ repartitioned parts.items count) }
    ensures small { IfOk result (λ cuts. (i : ℕ) → i < count → progress_size (get_or cuts.items i at_start) < 4294967232) }
    ensures whole { (g : Progress) → IsOrdered g →
        parts.items ≡ of_parts (length parts.items) (λ i. cut_progress (length parts.items) i g) →
        IfOk result (λ cuts. cuts.items ≡ of_parts count (λ i. cut_progress count i g)) }
    ensures same { OnOk result (stores.new ≡ stores.old) }
    ensures stops { OnErr result (Stops J.run.plan stores.old.course stores.new.course worker) }
    ensures why { OnErr result (IfSome stores.new.course.fault (IsUnmoved parts.items)) }
    ensures keeper { stores.new.keeper ≡ stores.old.keeper }
    ensures vault { stores.new.vault ≡ stores.old.vault }
{
    match repartition(alloc, parts, count) {
        Ok(cuts) => Ok(cuts),
        Err(Short::Memory) => Err(stores.stop(worker, CoreFault::Memory)),
        Err(Short::Large) => Err(stores.stop(worker, CoreFault::Large)),
    }
}

/// A repartition of an operator.
#[derive(Clone, Copy, Debug)]
struct Split {
    /// The id of the last checkpoint of the operator's partition 0 in the epoch that ends.
    last: SaveId,
    /// How many partitions the operator has.
    from: u8,
    /// The id of the checkpoint with which its partition 0 begins the next epoch.
    first: SaveId,
    /// With how many partitions the operator goes on.
    to: u8,
}

/// With how many partitions an operator goes on by what a line does: none where it doesn't repartition.
fn count_of(act: Act) -> u8
    ensures { result ≡ count_or 0 act }
{
    match act {
        Act::Splits { count } => count,
        Act::Fails { point: _, part: _ } => 0,
    }
}

/// The repartition of a line.
fn split_of<K: Keeper + Drop, V: Vault + Drop, P: Spools + Drop, J: Naming>(
    stores: &Stores<K, V, P, J>,
    line: u32,
) -> Split
    requires { can J.run.plan stores.now.course.machine (Repartition line) ≡ true }
    ensures there { (line_at J.run.plan line).op < length stores.now.course.machine.ops }
    ensures last { result.last ≡ save_id (line_at J.run.plan line).op
        (oper stores.now.course.machine (line_at J.run.plan line).op).boundary 0 (line_at J.run.plan line).window }
    ensures from { result.from ≡ parts_at stores.now.course.machine (line_at J.run.plan line).op }
    ensures some { 1 ≤ result.from }
    ensures few { result.from ≤ 8 }
    ensures first { result.first ≡ save_id (line_at J.run.plan line).op
        (line_at J.run.plan line).window 0 (line_at J.run.plan line).window }
    ensures to { result.to ≡ count_or 0 (line_at J.run.plan line).act }
    ensures low { 1 ≤ result.to }
    ensures high { result.to ≤ 8 }

    // Both are the numbers of partitions of their epochs, and the line's window is one of the job.
    ensures was { result.from ≡ number J.run.plan (line_at J.run.plan line).op
        (oper stores.now.course.machine (line_at J.run.plan line).op).boundary }
    ensures is { result.to ≡ number J.run.plan (line_at J.run.plan line).op (line_at J.run.plan line).window }
    ensures within { (line_at J.run.plan line).window ≤ J.run.plan.windows }
{
    stores.facts();
    let machine = stores.machine();
    machine.facts();
    let split = machine.line(line as usize);
    let last = SaveId {
        op: split.op,
        boundary: machine.boundary(split.op as usize),
        part: 0,
        window: split.window,
    };
    let first = SaveId {
        op: split.op,
        boundary: split.window,
        part: 0,
        window: split.window,
    };
    Split {
        last,
        from: machine.parts(split.op as usize) as u8,
        first,
        to: count_of(split.act),
    }
}

/// The operator that a line repartitions goes on in the number of partitions that the line gives it: what the operator carried is
/// read from the checkpoints of its partitions at the line's window, and cut anew; the checkpoint store gets a checkpoint of each
/// new partition under the new boundary, and their lists are empty.
///
/// Of what a checkpoint has only what its partition owns counts. A fault stops the run: `Vault` and `Spools` where that device
/// failed, `State` where a checkpoint spells no progress, `Large` where what the operator carried is, `Memory`. Then the
/// checkpoint store may have some of the new checkpoints, and what is kept for partitions stays.
pub fn renew_operator<K: Keeper + Drop, V: Vault + Drop, P: Spools + Drop, J: Naming>(
    alloc: Global,
    cuts: CutPlan,
    stores: &mut Stores<K, V, P, J>,
    contents: &mut Contents<P::S>,
    worker: u8,
    line: u32,
) -> Result<(), Stopped>
    requires cuts { cuts ≡ plan_in J.run.job }
    requires limits { IsCut cuts }
    requires planned { J.run.plan ≡ plan_of J.run.job }
    requires can { can J.run.plan stores.old.course.machine (Repartition line) ≡ true }
    requires fits { FitsRun J.run V.tells (V.held stores.old.vault) stores.old.course.machine contents.old }

    // What is kept fits the machine once the repartition is added.
    ensures fits { OnOk result (FitsRun J.run V.tells (V.held stores.new.vault)
        (next J.run.plan stores.old.course.machine worker (Repartition line)) contents.new) }
    ensures kept { OnOk result (IsTrue V.tells → KeepRenewed J.run.job J.run.told
        (line_at J.run.plan line).op (line_at J.run.plan line).window (count_or 0 (line_at J.run.plan line).act)
        (entry_at (V.held stores.old.vault)) (entry_at (V.held stores.new.vault))) }

    // Whatever is answered, it was asked to keep none but those.
    ensures crash { IsTrue V.tells → EntriesFollow (IsRenewal J.run
        (line_at J.run.plan line).op (line_at J.run.plan line).window (count_or 0 (line_at J.run.plan line).act))
        V.time V.left V.held stores.old.vault stores.new.vault }
    ensures course { OnOk result (stores.new.course ≡ stores.old.course) }
    ensures stops { OnErr result (Stops J.run.plan stores.old.course stores.new.course worker) }
    ensures stays { OnErr result (contents.new ≡ contents.old) }
    ensures keeper { stores.new.keeper ≡ stores.old.keeper }
{
    stores.facts();
    let split = split_of(stores, line);
    let parts = all_restored(alloc, stores, worker, split.last, split.from)?;
    let parts = moved(alloc, stores, worker, parts, split.to)?;
    let group = renew_parts(alloc, cuts, stores, worker, split.first, parts)?;
    contents.renew(split.first.op as usize, group);
    Ok(())
}
