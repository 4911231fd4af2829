//! Reading the whole messages at the front of some bytes.
ghost use Rattle.std.specs.Prelude.{◌≡◌, ◌+◌, ◌^◌, ◌<◌, ◌≤◌, None, IfOk, IfErr, MatchOption, IsTrue, length, drop};
ghost use Rattle.std.specs.Option.{option_copied};
ghost use Rattle.apx_wire.specs.Spelling.{BeginsWith};
ghost use Rattle.apx_wire.specs.Judging.{UnlessMemory};
ghost use Rattle.apx_wire.specs.Order.{may_follow, with_messages};
ghost use Rattle.apx_wire.specs.Stream.{IsUnfinished, IsWrong, RejectsFrom, ReadsTo, latest_after};

use crate::fault::WireFault;
use crate::message::Message;
use crate::order::{may_come, window_with};
use crate::reading::first_message;
use apx_tuple::Tuple;
use apx_window::WindowId;
use std::alloc::{AllocError, Global};
use std::collections::VecDeque;

/// Whole messages that were read.
#[derive(Drop)]
pub struct Whole {
    /// The messages, in order.
    pub messages: VecDeque<Message>,
    /// The id of the latest window behind them.
    pub window: Option<WindowId>,
    /// How many bytes they have.
    pub len: usize,
}

/// The whole messages at the front of bytes that begin at a place, behind the message right before
/// and the latest window.
pub fn whole_messages(
    alloc: Global,
    latest: Option<&Message>,
    window: Option<WindowId>,
    place: u64,
    bytes: &[u8],
) -> Result<Whole, WireFault>
    requires { place + length bytes.now < 2 ^ 64 }
    ensures ok { IfOk result (λ read. ReadsTo (record { latest = option_copied latest.entry; window = window })
        bytes.now read.messages.items (drop read.len bytes.now)) }
    ensures window { IfOk result (λ read. read.window ≡
        (with_messages (record { latest = option_copied latest.entry; window = window }) read.messages.items).window) }
    ensures len { IfOk result (λ read. read.len ≤ length bytes.now) }
    ensures err { IfErr result (λ fault. UnlessMemory fault
        (RejectsFrom (record { latest = option_copied latest.entry; window = window }) place bytes.now fault)) }
{
    let mut messages = VecDeque::new(alloc);
    let mut window = window;
    let mut place = place;
    let mut rest = bytes;
    'messages: while let Some((message, len)) = next_in_order(
        alloc,
        latest_of(&messages, latest),
        window,
        place,
        rest,
    )? {
        window = window_with(window, &message);
        messages.push_back(message)?;
        rest = rest.split_at(len).1;
        place += len as u64;
    }
    Ok(Whole {
        messages,
        window,
        len: bytes.len() - rest.len(),
    })
}

/// The message at the front of the bytes and how many of them it has, where it may come.
fn next_in_order(
    alloc: Global,
    latest: Option<&Message>,
    window: Option<WindowId>,
    place: u64,
    bytes: &[u8],
) -> Result<Option<(Message, usize)>, WireFault>
    ensures ok { IfOk result (λ found. MatchOption found (IsUnfinished bytes.now) (λ x.
        BeginsWith bytes.now x.0 x.1 × IsTrue (may_follow (record { latest = option_copied latest.entry; window = window }) x.0))) }
    ensures err { IfErr result (λ fault. UnlessMemory fault
        (IsWrong (record { latest = option_copied latest.entry; window = window }) place bytes.now fault)) }
{
    let Some((message, len)) = first_message(alloc, place, bytes)? else {
        return Ok(None);
    };
    if !may_come(latest, window, &message) {
        return Err(WireFault::BadOrder { at: place });
    }
    Ok(Some((message, len)))
}

/// The message right before, behind some messages.
fn latest_of<'a>(
    messages: &'a VecDeque<Message>,
    latest: Option<&'a Message>,
) -> Option<&'a Message>
    ensures { option_copied result ≡ latest_after (option_copied latest.entry) messages.now.items }
{
    messages.back().or(latest)
}

/// A copy of the last message.
pub fn last_copied(messages: &VecDeque<Message>) -> Result<Option<Message>, AllocError>
    ensures { IfOk result (λ last. last ≡ latest_after None messages.now.items) }
{
    match messages.back() {
        None => Ok(None),
        Some(message) => Ok(Some(copy_of(message)?)),
    }
}

fn copy_of(message: &Message) -> Result<Message, AllocError>
    ensures { IfOk result (λ copy. copy ≡ message.now) }
{
    Ok(match message {
        Message::Payload(tuple) => Message::Payload(Tuple {
            key: tuple.key.copy()?,
            value: tuple.value,
        }),
        Message::Begin(id) => Message::Begin(*id),
        Message::End(id) => Message::End(*id),
        Message::Checkpoint(id) => Message::Checkpoint(*id),
        Message::Reset(second) => Message::Reset(*second),
        Message::EndOfStream => Message::EndOfStream,
    })
}
