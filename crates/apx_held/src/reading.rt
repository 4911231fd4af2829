//! The blocks of a window, read from a list.
ghost use Rattle.std.specs.Prelude.{◌≡◌, ◌+◌, ◌*◌, ◌^◌, ◌<◌, ◌≤◌, [], ◌∷◌, ◌++◌, None, IfOk, IfErr, OnOk};
ghost use Rattle.apx_list.specs.Listed.{before, next_number, IsRow};
ghost use Rattle.apx_list.specs.Reads.{IsRead};
ghost use Rattle.apx_held.specs.Lent.{IsLent, CanLend, IsOfList, IsOfAnyList};

use crate::held::Unnamed;
use apx_device::Spool;
use apx_list::{Block, DataList, ListFault, Read};
use std::alloc::Global;

/// The number of a window's block 0.
fn start<S: Spool + Drop>(list: &DataList<S, Unnamed>, window: u32) -> u64
    requires floor { list.now.floor < window }
    requires top { window ≤ list.now.top + 1 }
    ensures start { result ≡ list.now.first + before window list.now.blocks }
    ensures row { IsRow list.now.floor list.now.top list.now.blocks }
    ensures few { next_number list.now ≤ (list.now.top + 1) * 2 ^ 32 }
{
    list.next();
    match list.start(window) {
        Some(place) => place,
        None => unreachable!(),
    }
}

/// The block with a number.
#[tactic(auto, using(crate::proofs::Copies::of_list))]
fn block_at<S: Spool + Drop>(
    list: &mut DataList<S, Unnamed>,
    place: u64,
) -> Result<Block, ListFault<S::Fault>>
    requires kept { list.old.first ≤ place }
    requires there { place < next_number list.old }
    ensures read { IfOk result (λ block. IsRead S.tells None list.old place block) }
    ensures fault { IfErr result (IsOfList S.tells list.old) }
    ensures list { list.new ≡ list.old }
{
    match list.read(place) {
        Ok(Read::Block(block)) => Ok(block),
        Ok(Read::NotYet) => unreachable!(),
        Err(fault) => Err(fault),
    }
}

/// One block more.
fn add<F: Drop>(blocks: &mut Vec<Block>, block: Block) -> Result<(), ListFault<F>>
    ensures items { OnOk result (blocks.new.items ≡ blocks.old.items ++ block ∷ []) }
    ensures fault { IfErr result IsOfAnyList }
{
    match blocks.push(block) {
        Ok(()) => Ok(()),
        Err(_) => Err(ListFault::Memory),
    }
}

/// All blocks of a whole window that is above the floor of the list.
pub(crate) fn read_window<S: Spool + Drop>(
    alloc: Global,
    list: &mut DataList<S, Unnamed>,
    window: u32,
) -> Result<Vec<Block>, ListFault<S::Fault>>
    requires window { CanLend window list.old }
    requires few { window ≤ 20000 }
    ensures lent { IfOk result (λ blocks. IsLent S.tells window list.old blocks.items) }
    ensures fault { IfErr result (IsOfList S.tells list.old) }
    ensures list { list.new ≡ list.old }
{
    let from = start(list, window);
    let to = start(list, window + 1);
    let mut blocks = Vec::new(alloc);
    for place in from..to {
        let block = block_at(list, place)?;
        add(&mut blocks, block)?;
    }
    Ok(blocks)
}
