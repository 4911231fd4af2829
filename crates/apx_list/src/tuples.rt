//! The tuples of a block.
ghost use Rattle.std.specs.Prelude.{◌≡◌, ◌≤◌, ◌∷◌, [], ◌++◌, ℕ, List, length, IfOk, OnOk, OnErr, MatchOption};
ghost use Rattle.apx_tuple.specs.declared.tuple.Tuple.{Tuple};
ghost use Rattle.apx_wire.specs.declared.message.Message.{Message};
ghost use Rattle.apx_wire.specs.Spelling.{IsMessage, spelling, spellings};
ghost use Rattle.apx_list.specs.declared.plan.CutPlan.{CutPlan};
ghost use Rattle.apx_list.specs.Block.{Spells, IsBlock, AreMessages};
ghost use Rattle.apx_list.specs.Tuples.{tuples_of, owned, owned_of, IsSpelled, Begins};

use crate::block::Block;
use apx_codec::owner_by_number;
use apx_tuple::Tuple;
use apx_wire::{Message, WireFault, first_message, payload_number};
use std::alloc::{AllocError, Global};

/// Appends the tuples of a block, in order.
pub fn payloads(alloc: Global, block: &Block, into: &mut Vec<Tuple>) -> Result<(), AllocError>
    requires { IsBlock block.now }
    ensures ok { (plan : CutPlan) (spells : Spells plan block.now) →
        OnOk result (into.new.items ≡ into.old.items ++ spells.tuples) }
    ensures err { OnErr result (into.new.items ≡ into.old.items) }
{
    owned_payloads(alloc, block, 1, 0, into)
}

/// Appends the tuples of a block whose keys part `i` of `n` owns, in order. The number of a payload tells its owner, so that
/// no key is made of the others.
pub fn owned_payloads(
    alloc: Global,
    block: &Block,
    n: u8,
    i: u8,
    into: &mut Vec<Tuple>,
) -> Result<(), AllocError>
    requires block { IsBlock block.now }
    requires low { 1 ≤ n }
    requires high { n ≤ 8 }
    ensures ok { (plan : CutPlan) (spells : Spells plan block.now) →
        OnOk result (into.new.items ≡ into.old.items ++ owned n i spells.tuples) }
    ensures err { OnErr result (into.new.items ≡ into.old.items) }
{
    let before = into.len();
    let appended = append_owned(alloc, block.bytes.as_slice(), n, i, into);
    if appended.is_err() {
        into.truncate(before);
    }
    appended
}

// Appends the tuples that a part owns among the messages that the bytes spell, or some of them.
fn append_owned(
    alloc: Global,
    bytes: &[u8],
    n: u8,
    i: u8,
    into: &mut Vec<Tuple>,
) -> Result<(), AllocError>
    requires bytes { IsSpelled bytes.now }
    requires low { 1 ≤ n }
    requires high { n ≤ 8 }
    ensures ok { (messages : List Message) → AreMessages messages → bytes.now ≡ spellings messages →
        OnOk result (into.new.items ≡ into.old.items ++ owned_of n i messages) }
    ensures some { (more : List Tuple) × (into.new.items ≡ into.old.items ++ more) }
{
    let mut rest = bytes;
    while !rest.is_empty() {
        rest = take_owned(alloc, rest, n, i, into)?;
    }
    Ok(())
}

// Appends the tuple of the first message, if it has one that the part owns, and hands back the bytes behind it.
fn take_owned<'a>(
    alloc: Global,
    bytes: &'a [u8],
    n: u8,
    i: u8,
    into: &mut Vec<Tuple>,
) -> Result<&'a [u8], AllocError>
    requires bytes { Begins bytes.now }
    requires low { 1 ≤ n }
    requires high { n ≤ 8 }
    ensures ok { (m : Message) (rest : List ℕ) → IsMessage m → bytes.now ≡ spelling m ++ rest →
        IfOk result (λ after. (after.now ≡ rest) × (into.new.items ≡ into.old.items ++ owned_of n i (m ∷ []))) }
    ensures some { OnOk result ((more : List Tuple) × (into.new.items ≡ into.old.items ++ more)) }
    ensures err { OnErr result (into.new.items ≡ into.old.items) }
{
    match len_of_others(bytes, n, i) {
        Some(len) => Ok(&bytes[len..]),
        None => take_message(alloc, bytes, into),
    }
}

// How many bytes the first message has, where it is a payload that another part owns.
fn len_of_others(bytes: &[u8], n: u8, i: u8) -> Option<usize>
    requires low { 1 ≤ n }
    requires high { n ≤ 8 }
    ensures { (m : Message) (rest : List ℕ) → IsMessage m → bytes.now ≡ spelling m ++ rest →
        MatchOption result (owned_of n i (m ∷ []) ≡ tuples_of (m ∷ []))
        (λ len. (owned_of n i (m ∷ []) ≡ []) × (len ≡ length (spelling m))) }
{
    let (number, len) = payload_number(bytes)?;
    if owner_by_number(n, number) == i {
        return None;
    }
    Some(len)
}

// Appends the tuple of the first message, if it has one, and hands back the bytes behind it.
fn take_message<'a>(
    alloc: Global,
    bytes: &'a [u8],
    into: &mut Vec<Tuple>,
) -> Result<&'a [u8], AllocError>
    requires { Begins bytes.now }
    ensures ok { (m : Message) (rest : List ℕ) → IsMessage m → bytes.now ≡ spelling m ++ rest →
        IfOk result (λ after. (after.now ≡ rest) × (into.new.items ≡ into.old.items ++ tuples_of (m ∷ []))) }
    ensures some { OnOk result ((more : List Tuple) × (into.new.items ≡ into.old.items ++ more)) }
    ensures err { OnErr result (into.new.items ≡ into.old.items) }
{
    let (message, rest) = first(alloc, bytes)?;
    if let Message::Payload(tuple) = message {
        into.push(tuple)?;
    }
    Ok(rest)
}

// The message that the bytes begin with, and the bytes behind it.
fn first(alloc: Global, bytes: &[u8]) -> Result<(Message, &[u8]), AllocError>
    requires { Begins bytes.now }
    ensures { (m : Message) (rest : List ℕ) → IsMessage m → bytes.now ≡ spelling m ++ rest →
        IfOk result (λ found. (found.0 ≡ m) × (found.1.now ≡ rest)) }
{
    let (message, len) = first_of(alloc, bytes)?;
    Ok((message, &bytes[len..]))
}

// The message that the bytes begin with, and how many of them it has.
fn first_of(alloc: Global, bytes: &[u8]) -> Result<(Message, usize), AllocError>
    requires { Begins bytes.now }
    ensures only { (m : Message) (rest : List ℕ) → IsMessage m → bytes.now ≡ spelling m ++ rest →
        IfOk result (λ found. (found.0 ≡ m) × (found.1 ≡ length (spelling m))) }
    ensures within { IfOk result (λ found. found.1 ≤ length bytes.now) }
{
    match first_message(alloc, 0, bytes) {
        Ok(Some(found)) => Ok(found),
        Err(WireFault::Memory) => Err(AllocError),
        _ => unreachable!(),
    }
}
