//! The numbered list of a partition's blocks, from which its readers take them.
ghost use Rattle.std.specs.Prelude.{◌≡◌, ◌≤◌, ◌+◌, ◌*◌, ◌^◌, [], List, Option, IfErr, OnOk, OnErr};
ghost use Rattle.apx_list.specs.Plan.{IsPlan};
ghost use Rattle.apx_list.specs.Listed.{IsNext, with_block, next_number, IsRow, IsPurged, start_of};
ghost use Rattle.apx_list.specs.Reads.{GivesBlock};
ghost use Rattle.apx_list.specs.Kept.{IsOfSpool};

use crate::block::Block;
use crate::fault::ListFault;
use crate::fetching::fetch_once;
use crate::kept::{Fetched, Kept, drop_front, spill_front};
use crate::plan::CutPlan;
use apx_device::Spool;
use std::alloc::{AllocError, Global};
use std::collections::VecDeque;
use std::marker::Model;

/// The name of a list.
pub trait Naming {
    ghost use Rattle.apx_list.specs.declared.block.Block.{Block};

    /// All blocks that the named list may get, by number, where the name tells them.
    ghost named: { Self → Option (List Block) };
}

/// What stands at a place of a list.
#[derive(Debug, Drop)]
pub enum Read {
    Block(Block),
    /// The place is the number of the block that comes next.
    NotYet,
}

/// A list of blocks, numbered from 0 since it was made.
///
/// It has the blocks of the windows above `floor` up to `top`, and those so far of the window after. Blocks that were spilled
/// stand in its spool, each under its number; its calls give them as before.
///
/// ```
/// for block in cut(alloc, &plan, window, &rows)? {
///     list.append(block)?;
/// }
/// let newest = list.next() - 1;
/// let read = list.read(newest)?;
/// ```
#[derive(Drop)]
pub struct DataList<S: Spool + Drop, N: Naming + Drop> {
    /// Whose list it is.
    name: N,
    /// How its windows are cut into blocks.
    plan: CutPlan,
    /// Where old blocks may go.
    spool: S,
    /// The windows up to this one were purged.
    floor: u32,
    /// The last whole window.
    top: u32,
    /// The number of the oldest block kept.
    first: u64,
    /// The blocks that are kept, the oldest first, in memory or spilled.
    kept: VecDeque<Kept>,
    /// The last block that was fetched, for the readers that follow.
    latest: Option<Fetched>,
    /// The window before the first of `starts`.
    from: u32,
    /// The number of block 0 of each window since the list was made.
    starts: Vec<u64>,
    /// The number of block 0 of the window after `top`.
    next_start: u64,
}

impl<S: Spool + Drop, N: Naming + Drop> Model for DataList<S, N> {
    ghost use Rattle.apx_list.specs.Listed.{Listed};
    ghost use Rattle.apx_list.specs.Kept.{all_of, IsStored};

    ghost Value = { Listed N };

    ghost view = { λ list. record {
      name = list.name;
      plan = list.plan;
      floor = list.floor;
      top = list.top;
      first = list.first;
      blocks = all_of list.kept.items;
    } };

    ghost invariant = { λ list. IsStored S.tells (S.held list.spool) (N.named list.name) list.plan list.floor list.top list.first
        list.kept.items list.from list.starts.items list.next_start list.latest };
}

impl<S: Spool + Drop, N: Naming + Drop> DataList<S, N> {
    /// An empty list whose first window is the one after `from`.
    pub fn new(alloc: Global, name: N, plan: CutPlan, from: u32, spool: S) -> Self
        requires plan { IsPlan plan }
        requires from { from ≤ plan.windows }
        ensures { result ≡ record { name = name; plan = plan; floor = from; top = from; first = 0; blocks = [] } }
    {
        DataList {
            name,
            plan,
            spool,
            floor: from,
            top: from,
            first: 0,
            kept: VecDeque::new(alloc),
            latest: None,
            from,
            starts: Vec::new(alloc),
            next_start: 0,
        }
    }

    /// The last window that was purged; where none was, the one before the list's first.
    pub fn floor(&self) -> u32
        ensures floor { result ≡ self.now.floor }
        ensures below { self.now.floor ≤ self.now.top }
    {
        self.floor
    }

    /// The last window that is whole; where none is, the one before the list's first.
    pub fn top(&self) -> u32
        ensures top { result ≡ self.now.top }
        ensures below { self.now.top ≤ self.now.plan.windows }
    {
        self.top
    }

    /// The number of the block that comes next: how many blocks were appended.
    pub fn next(&self) -> u64
        ensures next { result ≡ next_number self.now }
        ensures few { result ≤ (self.now.top + 1) * 2 ^ 32 }
        ensures row { IsRow self.now.floor self.now.top self.now.blocks }
    {
        self.first + self.kept.len() as u64
    }

    /// Appends the next block. A refused one is dropped.
    pub fn append(&mut self, block: Block) -> Result<(), AllocError>
        requires { IsNext N.named self.old block }
        ensures ok { OnOk result (self.new ≡ with_block self.old block) }
        ensures err { OnErr result (self.new ≡ self.old) }
    {
        self.starts.reserve(1)?;
        let last = block.last;
        self.kept.push_back(Kept::Held(block))?;
        if last {
            self.starts.push_reserved(self.next_start);
            self.next_start = self.first + self.kept.len() as u64;
            self.top += 1;
        }
        Ok(())
    }

    /// The block with a number, counted from the first that the list got. A spilled one is fetched, and kept for the readers that
    /// follow until another one is fetched.
    pub fn read(&mut self, place: u64) -> Result<Read, ListFault<S::Fault>>
        requires kept { self.old.first ≤ place }
        requires there { place ≤ next_number self.old }
        ensures read { GivesBlock S.tells (N.named self.old.name) self.old place result }
        ensures list { self.new ≡ self.old }
    {
        let Some(kept) = self.kept.get((place - self.first) as usize) else {
            return Ok(Read::NotYet);
        };
        let marks = match kept {
            Kept::Held(block) => return Ok(Read::Block(block.share()?)),
            Kept::Spilled(marks, _) => *marks,
        };
        let alloc = *self.starts.allocator();
        let spool = &mut self.spool;
        let block = fetch_once(alloc, spool, &mut self.latest, &self.plan, place, marks)?;
        Ok(Read::Block(block))
    }

    /// Moves all blocks but the newest `keep` to the spool. None is copied, and the list stays, also where the spool fails.
    pub fn spill(&mut self, keep: usize) -> Result<(), ListFault<S::Fault>>
        ensures list { self.new ≡ self.old }
        ensures cause { IfErr result IsOfSpool }
    {
        let count = self.kept.len().saturating_sub(keep);
        spill_front(&mut self.kept, &mut self.spool, self.first, count)
    }

    /// The number of block 0 of a window; None up to the floor and above the window after `top`.
    pub fn start(&self, window: u32) -> Option<u64>
        ensures { result ≡ start_of self.now window }
    {
        if window <= self.floor || window > self.top + 1 {
            return None;
        }
        if window == self.top + 1 {
            return Some(self.next_start);
        }
        Some(self.starts[(window - self.from) as usize - 1])
    }

    /// Removes the blocks of the windows up to one. The spool forgets those that it has. It takes no memory.
    pub fn purge(&mut self, to: u32)
        requires floor { self.old.floor ≤ to }
        requires top { to ≤ self.old.top }
        ensures { IsPurged self.old self.new to }
    {
        self.latest = None;
        self.first += drop_front(&mut self.kept, &mut self.spool, self.first, to);
        self.floor = to;
    }
}
