//! What a partition carried, from its checkpoint.
ghost use Rattle.std.specs.Prelude.{◌≡◌, ◌<◌, true, IsTrue, IfOk, IfSome, OnOk, OnErr};
ghost use Rattle.apx_device.specs.Vault.{entry_at};
ghost use Rattle.apx_history.specs.State.{running};
ghost use Rattle.apx_statebytes.specs.Spelling.{Spells, IsProgress};
ghost use Rattle.apx_tuple.specs.declared.progress.Progress.{Progress};
ghost use Rattle.apx_tuple.specs.Progress.{progress_size};
ghost use Rattle.apx_course.specs.Course.{Stops};
ghost use Rattle.apx_stores.specs.Crashes.{EntriesFollow, NoPut};
ghost use Rattle.apx_held.specs.Fits.{IsSaved};
ghost use Rattle.apx_held.specs.Partition.{progress_at};
ghost use Rattle.apx_reset.specs.Refused.{IsUnspelled, SpellOne};

use apx_course::{CoreFault, Naming, Stopped};
use apx_device::{Keeper, SaveId, Spools, Vault};
use apx_statebytes::{StateFault, decode};
use apx_stores::Stores;
use apx_tuple::Progress;
use std::alloc::Global;

/// The progress that the bytes of a checkpoint spell. A checkpoint store that tells gives bytes that spell one.
fn spelled<K: Keeper + Drop, V: Vault + Drop, P: Spools + Drop, J: Naming>(
    alloc: Global,
    stores: &mut Stores<K, V, P, J>,
    worker: u8,
    id: SaveId,
    bytes: Vec<u8>,
) -> Result<Progress, Stopped>
    requires runs { running stores.old.course.machine ≡ true }
    requires spell { IsTrue V.tells → SpellOne bytes.items }
    ensures small { IfOk result (λ g. progress_size g < 4294967232) }
    ensures only { (g : Progress) → IsProgress g → Spells bytes.items g → IfOk result (λ x. x ≡ g) }
    ensures same { OnOk result (stores.new ≡ stores.old) }
    ensures stops { OnErr result (Stops J.run.plan stores.old.course stores.new.course worker) }
    ensures why { OnErr result (IfSome stores.new.course.fault (IsUnspelled id bytes.items)) }
    ensures keeper { stores.new.keeper ≡ stores.old.keeper }
    ensures vault { stores.new.vault ≡ stores.old.vault }
{
    match decode(alloc, &bytes) {
        Ok(progress) => Ok(progress),
        Err(StateFault::Bad { at: _ }) => Err(stores.stop(worker, CoreFault::State { id, bytes })),
        Err(StateFault::Memory) => Err(stores.stop(worker, CoreFault::Memory)),
    }
}

/// What a partition carried from a window, from its checkpoint. From window 0 it carried nothing.
pub(crate) fn restored<K: Keeper + Drop, V: Vault + Drop, P: Spools + Drop, J: Naming>(
    alloc: Global,
    stores: &mut Stores<K, V, P, J>,
    worker: u8,
    id: SaveId,
) -> Result<Progress, Stopped>
    requires runs { running stores.old.course.machine ≡ true }
    requires saved { IsTrue V.tells → 0 < id.window →
        IsSaved J.run.job J.run.told id.op id.boundary id.part id.window (entry_at (V.held stores.old.vault) id) }
    ensures carried { IsTrue J.run.told → IfOk result (λ g. g ≡ progress_at J.run.job id.op id.boundary id.part id.window) }
    ensures small { IfOk result (λ g. progress_size g < 4294967232) }
    ensures course { OnOk result (stores.new.course ≡ stores.old.course) }
    ensures stops { OnErr result (Stops J.run.plan stores.old.course stores.new.course worker) }
    ensures held { IsTrue V.tells → V.held stores.new.vault ≡ V.held stores.old.vault }
    ensures crash { IsTrue V.tells → EntriesFollow NoPut V.time V.left V.held stores.old.vault stores.new.vault }
    ensures keeper { stores.new.keeper ≡ stores.old.keeper }
{
    stores.facts();
    if id.window == 0 {
        return Ok(Progress::new(alloc));
    }
    let bytes = stores.fetch(alloc, worker, id)?;
    spelled(alloc, stores, worker, id, bytes)
}
