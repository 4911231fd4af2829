//! A decoder of streams that come in pieces, cut anywhere.
ghost use Rattle.std.specs.Prelude.{◌≡◌, ◌+◌, ◌-◌, ◌^◌, ◌<◌, ◌≤◌, ◌++◌, ◌∷◌, [], ◌⊎◌, ℕ, List, length, drop, vec_len, IfSome, IfNone, IfErr, OnOk, OnErr};
ghost use Rattle.apx_wire.specs.declared.message.Message.{Message};
ghost use Rattle.apx_wire.specs.declared.fault.WireFault.{WireFault};
ghost use Rattle.apx_wire.specs.Judging.{UnlessMemory};
ghost use Rattle.apx_wire.specs.Stream.{Decodes, Rejects, Settles, RejectsRest};

use crate::fault::WireFault;
use crate::message::Message;
use crate::whole::{last_copied, whole_messages};
use apx_window::WindowId;
use std::alloc::Global;
use std::collections::VecDeque;
use std::marker::Model;

/// Takes a stream piece by piece, and hands out its messages in order.
///
/// ```
/// let mut decoder = Decoder::new(alloc);
/// decoder.feed(piece)?;
/// while let Some(message) = decoder.next() {}
/// ```
#[derive(Debug, Drop)]
pub struct Decoder {
    /// Whole messages that weren't handed out yet, the earliest first.
    held: VecDeque<Message>,
    /// What has come of the message behind them.
    rest: Vec<u8>,
    /// The message right before that one.
    latest: Option<Message>,
    /// The id of the latest window, in progress or ended.
    window: Option<WindowId>,
    /// How many bytes were taken.
    fed: u64,
}

impl Model for Decoder {
    ghost use Rattle.std.specs.Prelude.{◌≤◌, length};
    ghost use Rattle.apx_wire.specs.Stream.{Decoding};

    ghost Value = { Decoding };

    ghost view = { λ d. record {
      held = d.held.items;
      rest = d.rest.items;
      before = record { latest = d.latest; window = d.window };
      fed = d.fed;
    } };

    ghost invariant = { λ d. length d.rest.items ≤ d.fed };
}

impl Decoder {
    /// A decoder that has taken nothing yet.
    pub fn new(alloc: Global) -> Decoder
        ensures { Decodes [] [] result }
    {
        Decoder {
            held: VecDeque::new(alloc),
            rest: Vec::new(alloc),
            latest: None,
            window: None,
            fed: 0,
        }
    }

    /// How many bytes were taken.
    pub fn fed(&self) -> u64
        ensures { result ≡ self.now.fed }
    {
        self.fed
    }

    /// Takes the next piece of the stream whole, or refuses it and changes nothing.
    ///
    /// What is refused is the first thing that is wrong with the stream up to the piece's end: a
    /// type byte that no message has, a key length above 1,024 once both its bytes are there, a
    /// number that isn't its key's once the key is whole, a whole message out of order.
    ///
    /// All pieces together take time in proportion to their bytes.
    pub fn feed(&mut self, piece: &[u8]) -> Result<(), WireFault>
        requires { self.old.fed + length piece.now < 2 ^ 64 }

        // A decoder that has taken a stream has taken it with the piece, or there is something
        // wrong with the stream and the piece: the first thing that is wrong, and no other.
        ensures taken { OnOk result ((stream : List ℕ) (handed : List Message) →
            Decodes stream handed self.old → Decodes (stream ++ piece.now) handed self.new) }
        ensures refused { IfErr result (λ fault. UnlessMemory fault ((stream : List ℕ) (handed : List Message) →
            Decodes stream handed self.old → Rejects (stream ++ piece.now) fault)) }
        ensures only { (stream : List ℕ) (handed : List Message) (fault : WireFault) →
            Decodes stream handed self.old → Rejects (stream ++ piece.now) fault →
            (result ≡ Err fault) ⊎ (result ≡ Err WireFault.Memory) }

        ensures fed { OnOk result (self.new.fed ≡ self.old.fed + length piece.now) }
        ensures err { OnErr result (self.new ≡ self.old) }
    {
        let kept = self.rest.len();
        self.rest.extend_from_slice(piece)?;
        self.fed += piece.len() as u64;
        let settled = self.settle();
        if settled.is_err() {
            self.rest.truncate(kept);
            self.fed -= piece.len() as u64;
        }
        settled
    }

    /// Hands out the earliest message that is held. `None` where no whole message is.
    pub fn next(&mut self) -> Option<Message>
        ensures some { IfSome result (λ m. (self.old.held ≡ m ∷ self.new.held) × ((stream : List ℕ) (handed : List Message) →
            Decodes stream handed self.old → Decodes stream (handed ++ m ∷ []) self.new)) }
        ensures none { IfNone result ((self.old.held ≡ []) × (self.new ≡ self.old)) }
    {
        self.held.pop_front()
    }

    /// Reads the whole messages at the front of the rest.
    fn settle(&mut self) -> Result<(), WireFault>
        requires { length self.old.rest ≤ self.old.fed }
        ensures ok { OnOk result (Settles self.old self.new) }
        ensures refused { IfErr result (λ fault. UnlessMemory fault (RejectsRest self.old fault)) }
        ensures err { OnErr result (self.new ≡ self.old) }
    {
        let alloc = *self.rest.allocator();
        let place = self.fed - self.rest.len() as u64;
        let mut read = whole_messages(alloc, self.latest.as_ref(), self.window, place, &self.rest)?;
        let latest = last_copied(&read.messages)?;
        self.held.append(&mut read.messages)?;
        self.latest = latest.or(self.latest.take());
        self.window = read.window;
        drop_front(&mut self.rest, read.len);
        Ok(())
    }
}

/// Drops the first `n` bytes.
fn drop_front(bytes: &mut Vec<u8>, n: usize)
    requires { n ≤ vec_len bytes.old }
    ensures { bytes.new.items ≡ drop n bytes.old.items }
{
    let left = bytes.len() - n;
    bytes.rotate_left(n);
    bytes.truncate(left);
}
