//! Whether bytes spell a block.
ghost use Rattle.std.specs.Prelude.{◌≡◌, ◌<◌, ◌≤◌, ◌↔◌, ◌++◌, ℕ, List, Some, length, drop, slice_get, IsTrue, IfOk, IfSome, IfNone, MatchOption};
ghost use Rattle.std.specs.Option.{option_copied};
ghost use Rattle.apx_tuple.specs.declared.tuple.Tuple.{Tuple};
ghost use Rattle.apx_wire.specs.declared.message.Message.{Message};
ghost use Rattle.apx_wire.specs.Spelling.{IsMessage, BeginsWith, spelling, spellings};
ghost use Rattle.apx_list.specs.Plan.{IsPlan, IsWindow};
ghost use Rattle.apx_list.specs.Block.{Spells};
ghost use Rattle.apx_list.specs.Checking.{block_with, front_messages, Lacks, may_come, BeginsWithTuple, IsDivided, Ends, AreApart};

use crate::block::Marks;
use crate::messages::{closing_messages, opening_messages};
use crate::plan::CutPlan;
use apx_tuple::Tuple;
use apx_wire::{Message, WireFault, first_message, write};
use std::alloc::{AllocError, Global};

/// Whether these bytes spell a block with these marks.
pub fn spells(alloc: Global, plan: &CutPlan, marks: Marks, bytes: &[u8]) -> Result<bool, AllocError>
    requires plan { IsPlan plan.now }
    requires window { IsWindow plan.now marks.window }
    ensures { IfOk result (λ spells. IsTrue spells ↔ Spells plan.now (block_with marks bytes.now)) }
{
    if bytes.is_empty() {
        return Ok(false);
    }
    let Some(rest) = behind_front(alloc, plan, marks, bytes)? else {
        return Ok(false);
    };
    let Some(ends) = behind_tuples(alloc, rest)? else {
        return Ok(false);
    };
    let messages = closing_messages(alloc, plan, marks.window)?;
    are_ends(alloc, &messages, marks.last, ends)
}

// The bytes behind those of the messages that stand in front of a block's tuples.
fn behind_front<'a>(
    alloc: Global,
    plan: &CutPlan,
    marks: Marks,
    bytes: &'a [u8],
) -> Result<Option<&'a [u8]>, AllocError>
    requires plan { IsPlan plan.now }
    requires window { IsWindow plan.now marks.window }
    ensures { IfOk result (λ found. MatchOption found
        (Lacks (spellings (front_messages plan.now marks)) bytes.now)
        (λ rest. bytes.now ≡ spellings (front_messages plan.now marks) ++ rest.now)) }
{
    if marks.index != 0 {
        return Ok(Some(bytes));
    }
    let front = spelled(alloc, &opening_messages(alloc, plan, marks.window)?)?;
    Ok(bytes.strip_prefix(&front))
}

// The bytes of messages.
fn spelled(alloc: Global, messages: &[Message]) -> Result<Vec<u8>, AllocError>
    ensures { IfOk result (λ bytes. bytes.items ≡ spellings messages.now) }
{
    let mut bytes = Vec::new(alloc);
    for message in messages {
        write(message, &mut bytes)?;
    }
    Ok(bytes)
}

// The bytes behind the tuples that the bytes begin with. None where those aren't whole tuples in ascending order.
fn behind_tuples(alloc: Global, bytes: &[u8]) -> Result<Option<&[u8]>, AllocError>
    ensures found { IfOk result (λ found. IfSome found (λ rest. IsDivided bytes.now rest.now)) }
    ensures none { IfOk result (λ found. IfNone found ((rest : List ℕ) → IsDivided bytes.now rest → ⊥)) }
{
    let mut rest = bytes;
    let mut latest = None;
    while begins_as_tuple(rest) {
        let Some((tuple, len)) = first_tuple(alloc, rest)? else {
            return Ok(None);
        };
        if !may_follow(latest.as_ref(), &tuple) {
            return Ok(None);
        }
        rest = &rest[len..];
        latest = Some(tuple);
    }
    Ok(Some(rest))
}

// Whether the first byte is a tuple's type byte.
fn begins_as_tuple(bytes: &[u8]) -> bool
    ensures { IsTrue result ↔ (slice_get bytes.now 0 ≡ Some 1) }
{
    matches!(bytes, [1, ..])
}

// Whether a tuple may come behind the latest one.
fn may_follow(latest: Option<&Tuple>, tuple: &Tuple) -> bool
    ensures { result ≡ may_come (option_copied latest.entry) tuple.now }
{
    match latest {
        Some(latest) => latest <= tuple,
        None => true,
    }
}

// The tuple that the bytes begin with, and how many of them it has.
fn first_tuple(alloc: Global, bytes: &[u8]) -> Result<Option<(Tuple, usize)>, AllocError>
    ensures some { IfOk result (λ found. IfSome found (λ x. BeginsWithTuple bytes.now x.0 (drop x.1 bytes.now))) }
    ensures len { IfOk result (λ found. IfSome found (λ x. (0 < x.1) × (x.1 ≤ length bytes.now))) }
    ensures none { IfOk result (λ found. IfNone found ((tuple : Tuple) (rest : List ℕ) → BeginsWithTuple bytes.now tuple rest → ⊥)) }
{
    let Some((message, len)) = first_whole(alloc, bytes)? else {
        return Ok(None);
    };
    match message {
        Message::Payload(tuple) => Ok(Some((tuple, len))),
        _ => Ok(None),
    }
}

// The message that the bytes begin with, and how many of them it has.
fn first_whole(alloc: Global, bytes: &[u8]) -> Result<Option<(Message, usize)>, AllocError>
    ensures found { IfOk result (λ found. IfSome found (λ x. BeginsWith bytes.now x.0 x.1)) }
    ensures only { (m : Message) (rest : List ℕ) → IsMessage m → bytes.now ≡ spelling m ++ rest →
        IfOk result (λ found. found ≡ Some (m, length (spelling m))) }
{
    match first_message(alloc, 0, bytes) {
        Ok(found) => Ok(found),
        Err(WireFault::Memory) => Err(AllocError),
        Err(_) => Ok(None),
    }
}

// Whether the bytes are those of some of these messages, in their order, and of the last of them where the mark is set.
fn are_ends(
    alloc: Global,
    messages: &[Message],
    last: bool,
    bytes: &[u8],
) -> Result<bool, AllocError>
    requires { AreApart messages.now }
    ensures { IfOk result (λ are. IsTrue are ↔ Ends messages.now last bytes.now) }
{
    let [message, others @ ..] = messages else {
        return Ok(bytes.is_empty());
    };
    if let Some(rest) = behind(alloc, message, bytes)? {
        return are_ends(alloc, others, last, rest);
    }
    if last && others.is_empty() {
        return Ok(false);
    }
    are_ends(alloc, others, last, bytes)
}

// The bytes behind those of a message.
fn behind<'a>(
    alloc: Global,
    message: &Message,
    bytes: &'a [u8],
) -> Result<Option<&'a [u8]>, AllocError>
    ensures { IfOk result (λ found. MatchOption found (Lacks (spelling message.now) bytes.now)
        (λ rest. bytes.now ≡ spelling message.now ++ rest.now)) }
{
    let mut front = Vec::new(alloc);
    write(message, &mut front)?;
    Ok(bytes.strip_prefix(&front))
}
