//! Where a block of a list is.
ghost use Rattle.std.specs.Prelude.{◌≡◌, ◌<◌, ◌≤◌, ◌+◌, ◌^◌, ℕ, length, Some, slice_get, IfErr};
ghost use Rattle.apx_device.specs.Spool.{KeepsOthers};
ghost use Rattle.apx_list.specs.Kept.{all_of, ArePut, IsForgotten, IsOfSpool};
ghost use Rattle.apx_list.specs.Listed.{IsDropped};

use crate::block::{Block, Marks};
use crate::fault::ListFault;
use apx_device::Spool;
use bytes::Bytes;
use std::collections::VecDeque;
use std::snapshot::Snapshot;

/// A block of a list: in memory, or in the list's spool.
#[derive(Drop)]
pub enum Kept {
    /// In memory.
    Held(Block),
    /// What the block says, and what its bytes were when they went to the spool.
    Spilled(Marks, Snapshot<Bytes>),
}

impl Kept {
    ghost use Rattle.apx_list.specs.Kept.{block_of};

    /// The block's window, wherever it is.
    pub fn window(&self) -> u32
        ensures { result ≡ (block_of self.now).window }
    {
        match self {
            Kept::Held(block) => block.window,
            Kept::Spilled(marks, _) => marks.window,
        }
    }

    // Whether the block is in the spool.
    fn is_spilled(&self) -> bool {
        matches!(self, Kept::Spilled(..))
    }
}

/// The block that was fetched last, and its number.
#[derive(Drop)]
pub struct Fetched {
    /// The number that it has in the list.
    pub number: u64,
    /// The block, as the spool gave it.
    pub block: Block,
}

/// Moves the first blocks to the spool, as many as are named. The first of all has the number `first`. Those that are there
/// already stand before all others, and aren't gone over again.
pub fn spill_front<S: Spool>(
    kept: &mut VecDeque<Kept>,
    spool: &mut S,
    first: u64,
    count: usize,
) -> Result<(), ListFault<S::Fault>>
    requires there { count ≤ length kept.old.items }
    requires numbers { first + length kept.old.items < 2 ^ 64 }
    ensures blocks { all_of kept.new.items ≡ all_of kept.old.items }
    ensures put { ArePut S.tells (S.held spool.old) first kept.old.items → ArePut S.tells (S.held spool.new) first kept.new.items }
    ensures cause { IfErr result IsOfSpool }
{
    let spilled = kept.partition_point(Kept::is_spilled);
    for index in spilled..count {
        spill_one(kept, spool, first, index)?;
    }
    Ok(())
}

// Moves a block to the spool, if it isn't there.
fn spill_one<S: Spool>(
    kept: &mut VecDeque<Kept>,
    spool: &mut S,
    first: u64,
    index: usize,
) -> Result<(), ListFault<S::Fault>>
    requires there { index < length kept.old.items }
    requires numbers { first + length kept.old.items < 2 ^ 64 }
    ensures blocks { all_of kept.new.items ≡ all_of kept.old.items }
    ensures len { length kept.new.items ≡ length kept.old.items }
    ensures put { ArePut S.tells (S.held spool.old) first kept.old.items → ArePut S.tells (S.held spool.new) first kept.new.items }
    ensures cause { IfErr result IsOfSpool }
{
    let Kept::Held(block) = &kept[index] else {
        return Ok(());
    };
    spool.put(first + index as u64, block.bytes.as_slice())?;
    let spilled = Kept::Spilled(block.marks(), Snapshot::of(&block.bytes));
    kept[index] = spilled;
    Ok(())
}

/// Drops the blocks of windows up to one from the front, and tells how many. The spool forgets those that it has.
pub fn drop_front<S: Spool>(kept: &mut VecDeque<Kept>, spool: &mut S, first: u64, to: u32) -> u64
    requires { first + length kept.old.items < 2 ^ 64 }
    ensures dropped { IsDropped (all_of kept.old.items) (all_of kept.new.items) to result }
    ensures put { ArePut S.tells (S.held spool.old) first kept.old.items →
        ArePut S.tells (S.held spool.new) (first + result) kept.new.items }
    ensures forgotten { (k : ℕ) (one : Kept) → k < result → slice_get kept.old.items k ≡ Some one →
        IsForgotten (S.held spool.new (first + k)) one }
{
    let mut count = 0;
    while let Some(front) = kept.front() {
        if front.window() > to {
            break;
        }
        forget(spool, first + count, front);
        let _ = kept.pop_front();
        count += 1;
    }
    count
}

// Lets the spool forget a block, if it has it.
fn forget<S: Spool>(spool: &mut S, number: u64, kept: &Kept)
    ensures gone { IsForgotten (S.held spool.new number) kept.now }
    ensures others { KeepsOthers (S.held spool.old) (S.held spool.new) number }
{
    if let Kept::Spilled(..) = kept {
        spool.forget(number);
    }
}
