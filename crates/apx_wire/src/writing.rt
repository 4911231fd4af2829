//! Writing a message's bytes.
ghost use Rattle.std.specs.Prelude.{◌≡◌, ◌++◌, ◌∷◌, OnOk, OnErr};
ghost use Rattle.std.specs.Int.{w64, to_be_bytes};
ghost use Rattle.apx_wire.specs.Spelling.{IsMessage, IsTuple, spelling, tuple_spelling};

use crate::message::Message;
use apx_codec::hash;
use apx_tuple::Tuple;
use std::alloc::AllocError;

/// Appends the message's bytes: a type byte and the fields, numbers big-endian.
pub fn write(message: &Message, into: &mut Vec<u8>) -> Result<(), AllocError>
    ensures ok { OnOk result (into.new.items ≡ into.old.items ++ spelling message.now) }
    ensures err { OnErr result (into.new.items ≡ into.old.items) }

    // Every message fits the fields of its spelling.
    ensures fits { IsMessage message.now }
{
    match message {
        Message::Payload(tuple) => write_payload(tuple, into),
        Message::Begin(id) => write_id(2, *id, into),
        Message::End(id) => write_id(3, *id, into),
        Message::Checkpoint(id) => write_id(4, *id, into),
        Message::Reset(second) => {
            let [a, b, c, d] = second.to_be_bytes();
            into.extend_from_slice(&[5, a, b, c, d])
        }
        Message::EndOfStream => into.extend_from_slice(&[6]),
    }
}

fn write_id(kind: u8, id: u64, into: &mut Vec<u8>) -> Result<(), AllocError>
    ensures ok { OnOk result (into.new.items ≡ into.old.items ++ kind ∷ to_be_bytes w64 id) }
    ensures err { OnErr result (into.new.items ≡ into.old.items) }
{
    let [a, b, c, d, e, f, g, h] = id.to_be_bytes();
    into.extend_from_slice(&[kind, a, b, c, d, e, f, g, h])
}

/// Appends the bytes of the payload with this tuple.
pub fn write_payload(tuple: &Tuple, into: &mut Vec<u8>) -> Result<(), AllocError>
    ensures ok { OnOk result (into.new.items ≡ into.old.items ++ 1 ∷ tuple_spelling tuple.now) }
    ensures err { OnErr result (into.new.items ≡ into.old.items) }
    ensures fits { IsTuple tuple.now }
{
    let key = tuple.key.bytes();
    let [a, b, c, d] = hash(key).to_be_bytes();
    let [e, f] = (key.len() as u16).to_be_bytes();
    let value = tuple.value.cast_unsigned().to_be_bytes();
    into.reserve(15 + key.len())?;
    into.extend_from_slice(&[1, a, b, c, d, e, f])?;
    into.extend_from_slice(key)?;
    into.extend_from_slice(&value)
}
