//! Fetching a spilled block.
ghost use Rattle.std.specs.Prelude.{◌≡◌, ℕ, IsSome, IfOk, IfErr};
ghost use Rattle.apx_list.specs.Plan.{IsPlan, IsWindow};
ghost use Rattle.apx_list.specs.Kept.{IsOf, IsLatestOf, KeepsLatest, SpellsPut, IsDamagedBy};

use crate::block::{Block, Marks};
use crate::checking::spells;
use crate::fault::ListFault;
use crate::kept::Fetched;
use crate::plan::CutPlan;
use apx_device::Spool;
use bytes::Bytes;
use std::alloc::Global;

/// A spilled block: the one that was fetched last, if it has this number, or from the spool.
pub fn fetch_once<S: Spool>(
    alloc: Global,
    spool: &mut S,
    latest: &mut Option<Fetched>,
    plan: &CutPlan,
    number: u64,
    marks: Marks,
) -> Result<Block, ListFault<S::Fault>>
    requires plan { IsPlan plan.now }
    requires window { IsWindow plan.now marks.window }
    requires held { IsSome (S.held spool.old number) }
    requires spells { SpellsPut S.tells plan.now (S.held spool.old number) marks }
    requires latest { IsLatestOf S.tells plan.now number (S.held spool.old number) marks latest.old }
    ensures ok { IfOk result (IsOf S.tells plan.now (S.held spool.old number) marks) }
    ensures err { IfErr result (IsDamagedBy S.tells plan.now number marks) }
    ensures held { (other : ℕ) → S.held spool.new other ≡ S.held spool.old other }
    ensures latest { KeepsLatest S.tells plan.now number (S.held spool.old number) marks latest.old latest.new }
{
    if let Some(fetched) = latest.as_ref()
        && fetched.number == number
    {
        return Ok(fetched.block.share()?);
    }
    let block = fetch(alloc, spool, plan, number, marks)?;
    let shared = block.share()?;
    *latest = Some(Fetched { number, block });
    Ok(shared)
}

// A spilled block from the spool.
fn fetch<S: Spool>(
    alloc: Global,
    spool: &mut S,
    plan: &CutPlan,
    number: u64,
    marks: Marks,
) -> Result<Block, ListFault<S::Fault>>
    requires plan { IsPlan plan.now }
    requires window { IsWindow plan.now marks.window }
    requires held { IsSome (S.held spool.old number) }
    requires spells { SpellsPut S.tells plan.now (S.held spool.old number) marks }
    ensures ok { IfOk result (IsOf S.tells plan.now (S.held spool.old number) marks) }
    ensures err { IfErr result (IsDamagedBy S.tells plan.now number marks) }
    ensures held { (other : ℕ) → S.held spool.new other ≡ S.held spool.old other }
{
    let bytes = spool.fetch(alloc, number)?;
    if !spells(alloc, plan, marks, bytes.as_slice())? {
        return Err(ListFault::Damaged {
            number,
            window: marks.window,
            index: marks.index,
            last: marks.last,
            bytes,
        });
    }
    Ok(Block {
        window: marks.window,
        index: marks.index,
        last: marks.last,
        bytes: Bytes::from_vec(bytes)?,
    })
}
