//! Reading the message at the front of some bytes.
ghost use Rattle.std.specs.Prelude.{◌≡◌, ◌≤◌, ◌++◌, ℕ, List, length, IfOk, IfErr, IfSome};
ghost use Rattle.std.specs.Int.{w32, w64};
ghost use Rattle.apx_wire.specs.declared.message.Message.{Message};
ghost use Rattle.apx_wire.specs.Spelling.{IsMessage, BeginsWith, spelling};
ghost use Rattle.apx_wire.specs.Judging.{judged, payload_judged, payload_head, head_of, field_in, GivesMessage};

use crate::fault::WireFault;
use crate::message::Message;
use apx_codec::hash;
use apx_tuple::{Key, Tuple};
use std::alloc::Global;

/// The message at the front of the bytes and how many of them it has, for bytes that begin with a
/// message's type byte at a place of the stream. `None` while the message isn't whole and nothing
/// is wrong with what has come of it.
pub fn first_message(
    alloc: Global,
    place: u64,
    bytes: &[u8],
) -> Result<Option<(Message, usize)>, WireFault>
    ensures exact { GivesMessage result (judged place bytes.now) }

    // What is read is spelled so, and what is spelled so is read, whatever follows it.
    ensures found { IfOk result (λ found. IfSome found (λ x. BeginsWith bytes.now x.0 x.1)) }
    ensures only { (m : Message) (rest : List ℕ) → IsMessage m → bytes.now ≡ spelling m ++ rest →
        GivesMessage result (Ok (Some (m, length (spelling m)))) }
{
    judge(alloc, place, bytes)
}

/// The number of the payload that the bytes begin with, and how many bytes it has, with no key made. `None` where they
/// begin with no payload.
pub fn payload_number(bytes: &[u8]) -> Option<(u32, usize)>
    ensures exact { result ≡ payload_head bytes.now }

    // Of bytes that begin with a message it is that message's.
    ensures only { (m : Message) (rest : List ℕ) → IsMessage m → bytes.now ≡ spelling m ++ rest → result ≡ head_of m }
{
    head(bytes)
}

fn head(bytes: &[u8]) -> Option<(u32, usize)>
    ensures { result ≡ payload_head bytes.now }
{
    let [1, rest @ ..] = bytes else {
        return None;
    };
    if rest.len() < 6 {
        return None;
    }
    let number = u32::from_be_bytes([rest[0], rest[1], rest[2], rest[3]]);
    let key_len = usize::from(u16::from_be_bytes([rest[4], rest[5]]));
    Some((number, 15 + key_len))
}

#[tactic(auto, unfolding(crate::specs::Judging::judged))]
fn judge(alloc: Global, place: u64, bytes: &[u8]) -> Result<Option<(Message, usize)>, WireFault>
    ensures { GivesMessage result (judged place bytes.now) }
{
    match bytes {
        [] => Ok(None),
        [1, rest @ ..] => first_payload(alloc, place, rest),
        [2, rest @ ..] => Ok(first_id(rest).map(|id| (Message::Begin(id), 9))),
        [3, rest @ ..] => Ok(first_id(rest).map(|id| (Message::End(id), 9))),
        [4, rest @ ..] => Ok(first_id(rest).map(|id| (Message::Checkpoint(id), 9))),
        [5, rest @ ..] => Ok(first_second(rest).map(|second| (Message::Reset(second), 5))),
        [6, ..] => Ok(Some((Message::EndOfStream, 1))),
        [_, ..] => Err(WireFault::BadType { at: place }),
    }
}

fn first_id(bytes: &[u8]) -> Option<u64>
    ensures { result ≡ field_in w64 bytes.now }
{
    if bytes.len() < 8 {
        return None;
    }
    Some(u64::from_be_bytes([
        bytes[0], bytes[1], bytes[2], bytes[3], bytes[4], bytes[5], bytes[6], bytes[7],
    ]))
}

fn first_second(bytes: &[u8]) -> Option<u32>
    ensures { result ≡ field_in w32 bytes.now }
{
    if bytes.len() < 4 {
        return None;
    }
    Some(u32::from_be_bytes([bytes[0], bytes[1], bytes[2], bytes[3]]))
}

/// As `first_message`, for a payload's bytes behind its type byte.
#[tactic(auto, unfolding(crate::specs::Judging::payload_judged))]
fn first_payload(
    alloc: Global,
    place: u64,
    bytes: &[u8],
) -> Result<Option<(Message, usize)>, WireFault>
    ensures { GivesMessage result (payload_judged place bytes.now) }
{
    if bytes.len() < 6 {
        return Ok(None);
    }
    let number = u32::from_be_bytes([bytes[0], bytes[1], bytes[2], bytes[3]]);
    let key_len = usize::from(u16::from_be_bytes([bytes[4], bytes[5]]));
    if key_len > Key::MAX_LEN {
        return Err(WireFault::BadKey { at: place });
    }
    if bytes.len() < 6 + key_len {
        return Ok(None);
    }
    let key = &bytes[6..6 + key_len];
    if hash(key) != number {
        return Err(WireFault::BadNumber { at: place });
    }
    let Some(value) = first_id(&bytes[6 + key_len..]) else {
        return Ok(None);
    };
    let key = make_key(alloc, key)?;
    let tuple = Tuple {
        key,
        value: value.cast_signed(),
    };
    Ok(Some((Message::Payload(tuple), 15 + key_len)))
}

fn make_key(alloc: Global, bytes: &[u8]) -> Result<Key, WireFault>
    requires { length bytes.now ≤ 1024 }
    ensures ok { IfOk result (λ key. key ≡ bytes.now) }
    ensures err { IfErr result (λ fault. fault ≡ WireFault.Memory) }
{
    match Key::of_few(alloc, bytes) {
        Ok(key) => Ok(key),
        Err(_) => Err(WireFault::Memory),
    }
}
