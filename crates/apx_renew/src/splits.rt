//! Repartition: what an operator carries, from the partitions that it had to those with which it goes on.
ghost use Rattle.std.specs.Prelude.{◌≡◌, ℕ, ◌≤◌, ◌<◌, Err, map, length, get_or, IfOk};
ghost use Rattle.apx_pass.specs.Pass.{at_start};
ghost use Rattle.apx_rules.specs.Parts.{of_parts};
ghost use Rattle.apx_shares.specs.Carried.{cut_progress, merge_progress};
ghost use Rattle.apx_shares.specs.Laws.{IsOrdered};
ghost use Rattle.apx_tuple.specs.declared.progress.Progress.{Progress};
ghost use Rattle.apx_tuple.specs.Progress.{progress_size, IsLargeProgress};
ghost use Rattle.apx_renew.specs.Owned.{IsOwn, AreOwn, owned_of, repartitioned};

use apx_split::{merge_progress, split_progress};
use apx_tuple::{Progress, Short};
use std::alloc::{AllocError, Global};

/// What a partition of so many owns of a progress.
fn owned(alloc: Global, progress: &Progress, count: u8, part: u8) -> Result<Progress, AllocError>
    requires low { 1 ≤ count }
    requires high { count ≤ 8 }
    requires there { part < count }
    ensures cut { IfOk result (λ g. g ≡ cut_progress count part progress.now) }
    ensures own { IfOk result (λ g. IsOwn count part g.state) }
{
    progress.state.len();
    match split_progress(alloc, progress, count, part) {
        Ok(cut) => Ok(cut),
        Err(Short::Memory) => Err(AllocError),
        Err(Short::Large) => unreachable!(),
    }
}

/// What one of some partitions owns of what it has.
fn own_of(alloc: Global, parts: &[Progress], part: u8) -> Result<Progress, AllocError>
    requires few { length parts.now ≤ 8 }
    requires there { part < length parts.now }
    ensures cut { IfOk result (λ g. g ≡ cut_progress (length parts.now) part (get_or parts.now part at_start)) }
    ensures own { IfOk result (λ g. IsOwn (length parts.now) part g.state) }
{
    owned(alloc, &parts[part as usize], parts.len() as u8, part)
}

/// What each of some partitions owns of what it has.
fn all_owned(alloc: Global, parts: &[Progress]) -> Result<Vec<Progress>, AllocError>
    requires { length parts.now ≤ 8 }
    ensures cut { IfOk result (λ own. own.items ≡ owned_of parts.now) }
    ensures own { IfOk result (λ own. AreOwn (length parts.now) (map (λ g. g.state) own.items)) }
{
    let mut own = Vec::new(alloc);
    for part in 0..parts.len() as u8 {
        let cut = own_of(alloc, parts, part)?;
        own.push(cut)?;
    }
    Ok(own)
}

/// What each of so many partitions owns of a progress.
fn all_cuts(alloc: Global, whole: &Progress, count: u8) -> Result<Vec<Progress>, AllocError>
    requires low { 1 ≤ count }
    requires high { count ≤ 8 }
    ensures { IfOk result (λ cuts. cuts.items ≡ of_parts count (λ i. cut_progress count i whole.now)) }
{
    let mut cuts = Vec::new(alloc);
    for part in 0..count {
        let cut = owned(alloc, whole, count, part)?;
        cuts.push(cut)?;
    }
    Ok(cuts)
}

/// What an operator carries in `count` partitions, of what it carried in these.
///
/// Of what a partition has, it gives what it owns. `Large` comes only where all of that together is too large.
pub fn repartition(alloc: Global, parts: Vec<Progress>, count: u8) -> Result<Vec<Progress>, Short>
    requires some { 1 ≤ length parts.items }
    requires few { length parts.items ≤ 8 }
    requires low { 1 ≤ count }
    requires high { count ≤ 8 }
    ensures ok { IfOk result (λ cuts. cuts.items ≡ repartitioned parts.items count) }

    // Each is small enough for a checkpoint.
    ensures small { IfOk result (λ cuts. (i : ℕ) → i < count → progress_size (get_or cuts.items i at_start) < 4294967232) }

    // Of the cuts of what an operator carries come the cuts of that.
    ensures whole { (g : Progress) → IsOrdered g →
        parts.items ≡ of_parts (length parts.items) (λ i. cut_progress (length parts.items) i g) →
        IfOk result (λ cuts. cuts.items ≡ of_parts count (λ i. cut_progress count i g)) }
    ensures large { result ≡ Err Short.Large → IsLargeProgress (merge_progress (owned_of parts.items)) }
{
    let own = all_owned(alloc, parts.as_slice())?;
    let whole = merge_progress(alloc, own)?;
    let cuts = all_cuts(alloc, &whole, count)?;
    Ok(cuts)
}
