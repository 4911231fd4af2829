//! What is kept for one partition.
ghost use Rattle.std.specs.Prelude.{◌≡◌, ◌<◌, ◌≤◌, Some, length, IsSome, IfOk, IfErr, OnOk};
ghost use Rattle.apx_tuple.specs.Progress.{progress_size};
ghost use Rattle.apx_list.specs.Kept.{IsOfSpool};
ghost use Rattle.apx_list.specs.Plan.{IsPlan};
ghost use Rattle.apx_held.specs.Holding.{empty_list, with_blocks, taken, brought, dropped, IsSpelled, AreNext};
ghost use Rattle.apx_held.specs.Lent.{IsLent, CanLend, IsOfList};

use crate::reading::read_window;
use apx_device::Spool;
use apx_list::{Block, CutPlan, DataList, ListFault, Naming};
use apx_statebytes::encode;
use apx_tuple::Progress;
use std::alloc::{AllocError, Global};
use std::marker::Model;

/// The name of a list that tells nothing of its blocks.
#[derive(Drop)]
pub struct Unnamed;

impl Naming for Unnamed {
    ghost use Rattle.apx_held.specs.Holding.{untold};

    ghost named = { untold };
}

/// What is kept for a partition: its progress, unless a claim has it, and its list of blocks.
///
/// ```
/// let held = Held::new(alloc, plan, 0, Progress::new(alloc), spools.fresh()?);
/// ```
#[derive(Drop)]
pub struct Held<S: Spool + Drop> {
    /// What it carries to its next window, unless a claim has it.
    state: Option<Progress>,
    /// Its blocks.
    list: DataList<S, Unnamed>,
}

impl<S: Spool + Drop> Model for Held<S> {
    ghost use Rattle.std.specs.Prelude.{◌<◌, IfSome};
    ghost use Rattle.apx_tuple.specs.Progress.{progress_size};
    ghost use Rattle.apx_held.specs.Holding.{Holding};

    ghost Value = { Holding };

    ghost view = { λ h. record { state = h.state; list = h.list } };

    ghost invariant = { λ h. IfSome h.state (λ g. progress_size g < 4294967232) };
}

impl<S: Spool + Drop> Held<S> {
    /// What is kept for a partition that has its windows up to `from` behind it, none of whose blocks are kept.
    pub fn new(alloc: Global, plan: CutPlan, from: u32, state: Progress, spool: S) -> Held<S>
        requires plan { IsPlan plan }
        requires from { from ≤ plan.windows }
        requires small { progress_size state < 4294967232 }
        ensures { result ≡ record { state = Some state; list = empty_list plan from } }
    {
        Held {
            state: Some(state),
            list: DataList::new(alloc, Unnamed, plan, from, spool),
        }
    }

    /// Takes the progress out.
    pub(crate) fn take(&mut self) -> Progress
        requires { IsSome self.old.state }
        ensures state { self.old.state ≡ Some result }
        ensures out { self.new ≡ taken self.old }
        ensures small { progress_size result < 4294967232 }
    {
        match self.state.take() {
            Some(state) => state,
            None => unreachable!(),
        }
    }

    /// Takes a progress in, and blocks behind those of the list.
    pub(crate) fn bring(&mut self, state: Progress, blocks: Vec<Block>) -> Result<(), AllocError>
        requires small { progress_size state < 4294967232 }
        requires next { AreNext self.old.list blocks.items }
        ensures { OnOk result (self.new ≡ brought state blocks.items self.old) }
    {
        self.state = Some(state);
        append_all(&mut self.list, blocks)
    }

    /// The bytes of the progress.
    #[tactic(auto, using(crate::proofs::Lengths::spelled_small))]
    pub(crate) fn spelled(&self, alloc: Global) -> Result<Vec<u8>, AllocError>
        requires { IsSome self.now.state }
        ensures spelled { IfOk result (λ bytes. IsSpelled self.now bytes.items) }
        ensures small { IfOk result (λ bytes. length bytes.items < 4294967280) }
    {
        match &self.state {
            Some(state) => {
                let bytes = encode(alloc, state)?;
                Ok(bytes)
            }
            None => unreachable!(),
        }
    }

    /// Moves all blocks but the newest `keep` to the spool.
    pub(crate) fn spill(&mut self, keep: usize) -> Result<(), ListFault<S::Fault>>
        ensures same { self.new ≡ self.old }
        ensures cause { IfErr result IsOfSpool }
    {
        self.list.spill(keep)
    }

    /// Drops the blocks of the windows up to one.
    pub(crate) fn purge(&mut self, to: u32)
        requires floor { self.old.list.floor ≤ to }
        requires top { to ≤ self.old.list.top }
        ensures { self.new ≡ dropped to self.old }
    {
        self.list.purge(to);
    }

    /// The blocks of a window.
    pub(crate) fn lend(
        &mut self,
        alloc: Global,
        window: u32,
    ) -> Result<Vec<Block>, ListFault<S::Fault>>
        requires window { CanLend window self.old.list }
        requires few { window ≤ 20000 }
        ensures lent { IfOk result (λ blocks. IsLent S.tells window self.old.list blocks.items) }
        ensures fault { IfErr result (IsOfList S.tells self.old.list) }
        ensures same { self.new ≡ self.old }
    {
        read_window(alloc, &mut self.list, window)
    }
}

// Appends blocks to a list, one behind the other.
fn append_all<S: Spool + Drop>(
    list: &mut DataList<S, Unnamed>,
    blocks: Vec<Block>,
) -> Result<(), AllocError>
    requires { AreNext list.old blocks.items }
    ensures { OnOk result (list.new ≡ with_blocks list.old blocks.items) }
{
    for block in blocks {
        list.append(block)?;
    }
    Ok(())
}
