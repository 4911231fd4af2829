//! The greedy cut: each message goes into the current block as long as the block doesn't pass the size.
ghost use Rattle.std.specs.Prelude.{◌≡◌, ◌^◌, ◌<◌, ◌≤◌, ◌∷◌, [], length, take, map, IfOk, OnOk};
ghost use Rattle.apx_tuple.specs.Tuple.{IsBag};
ghost use Rattle.apx_wire.specs.declared.message.Message.TheVariants.{Payload};
ghost use Rattle.apx_wire.specs.Spelling.{IsTuple};
ghost use Rattle.apx_list.specs.Plan.{IsPlan, IsWindow};
ghost use Rattle.apx_list.specs.Block.{AreMessages, AllSpell};
ghost use Rattle.apx_list.specs.Window.{SpellWindow};
ghost use Rattle.apx_list.specs.Cut.{pieces_of, numbered, blocks_of};
ghost use Rattle.apx_list.specs.Cutter.{pieces_with, Adds, Settles};

use crate::block::Block;
use crate::messages::{closing_messages, opening_messages};
use crate::plan::CutPlan;
use apx_tuple::{Bag, Tuple};
use apx_wire::{Message, write, write_payload};
use bytes::Bytes;
use std::alloc::{AllocError, Global};
use std::mem;

/// The blocks of a window with these tuples, in order.
pub fn cut(alloc: Global, plan: &CutPlan, window: u32, bag: &Bag) -> Result<Vec<Block>, AllocError>
    requires plan { IsPlan plan.now }
    requires window { IsWindow plan.now window }
    ensures blocks { IfOk result (λ blocks. blocks.items ≡ blocks_of plan.now window bag.now) }
    ensures spell { IfOk result (λ blocks. AllSpell plan.now blocks.items) }
    ensures window { IfOk result (λ blocks. SpellWindow plan.now window blocks.items bag.now) }
{
    number(alloc, window, pieces(alloc, plan, window, bag.tuples())?)
}

/// The bytes of a window's blocks. `current` is the last one so far, and the others are done.
#[derive(Drop)]
struct Cutter {
    size: usize,
    done: Vec<Vec<u8>>,
    current: Vec<u8>,
}

impl Cutter {
    fn new(alloc: Global, size: usize) -> Self
        ensures done { result.done.items ≡ [] }
        ensures current { result.current.items ≡ [] }
        ensures size { result.size ≡ size }
    {
        Cutter {
            size,
            done: Vec::new(alloc),
            current: Vec::new(alloc),
        }
    }

    fn add(&mut self, message: &Message) -> Result<(), AllocError>
        ensures { OnOk result (Adds self.old self.new (message.now ∷ [])) }
    {
        let before = self.current.len();
        write(message, &mut self.current)?;
        self.settle(before)
    }

    fn add_tuple(&mut self, tuple: &Tuple) -> Result<(), AllocError>
        ensures adds { OnOk result (Adds self.old self.new (Payload tuple.now ∷ [])) }
        ensures fits { IsTuple tuple.now }
    {
        let before = self.current.len();
        write_payload(tuple, &mut self.current)?;
        self.settle(before)
    }

    // Moves what was written from `before` on into a new block, where the current one passes the size.
    fn settle(&mut self, before: usize) -> Result<(), AllocError>
        requires { before ≤ length self.old.current.items }
        ensures { OnOk result (Settles self.old before self.new) }
    {
        if self.current.len() <= self.size {
            return Ok(());
        }
        let begun = self.current.split_off(before)?;
        let done = mem::replace(&mut self.current, begun);
        self.done.push(done)?;
        Ok(())
    }

    fn finish(self) -> Result<Vec<Vec<u8>>, AllocError>
        ensures { IfOk result (λ pieces. map (λ piece. piece.items) pieces.items ≡ pieces_with self []) }
    {
        let Cutter {
            mut done,
            current,
            size: _,
        } = self;
        done.push(current)?;
        Ok(done)
    }
}

// The messages around the tuples.
fn add_all(cutter: &mut Cutter, messages: &[Message]) -> Result<(), AllocError>
    ensures { OnOk result (Adds cutter.old cutter.new messages.now) }
{
    for message in messages {
        cutter.add(message)?;
    }
    Ok(())
}

// The tuples of a window.
fn add_tuples(cutter: &mut Cutter, tuples: &[Tuple]) -> Result<(), AllocError>
    ensures adds { OnOk result (Adds cutter.old cutter.new (map Payload tuples.now)) }
    ensures fit { OnOk result (AreMessages (map Payload tuples.now)) }
{
    for tuple in tuples {
        cutter.add_tuple(tuple)?;
    }
    Ok(())
}

// The bytes of the blocks.
fn pieces(
    alloc: Global,
    plan: &CutPlan,
    window: u32,
    tuples: &[Tuple],
) -> Result<Vec<Vec<u8>>, AllocError>
    requires plan { IsPlan plan.now }
    requires window { IsWindow plan.now window }
    ensures pieces { IfOk result (λ pieces. map (λ piece. piece.items) pieces.items ≡ pieces_of plan.now window tuples.now) }
    ensures fit { OnOk result (AreMessages (map Payload tuples.now)) }
{
    let mut cutter = Cutter::new(alloc, plan.size);
    add_all(&mut cutter, &opening_messages(alloc, plan, window)?)?;
    add_tuples(&mut cutter, tuples)?;
    add_all(&mut cutter, &closing_messages(alloc, plan, window)?)?;
    cutter.finish()
}

// The blocks over these pieces, numbered from 0.
fn number(alloc: Global, window: u32, pieces: Vec<Vec<u8>>) -> Result<Vec<Block>, AllocError>
    requires { length pieces.items < 2 ^ 32 }
    ensures { IfOk result (λ blocks. blocks.items ≡ numbered window (length pieces.items) 0 (map (λ piece. piece.items) pieces.items)) }
{
    let count = pieces.len();
    let mut blocks = Vec::new(alloc);
    for piece in pieces {
        let index = blocks.len();
        blocks.push(Block {
            window,
            index: index as u32,
            last: index + 1 == count,
            bytes: Bytes::from_vec(piece)?,
        })?;
    }
    Ok(blocks)
}
