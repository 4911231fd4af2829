// An output of the system, as standard output is.
ghost use Rattle.std.specs.Prelude.{◌≡◌, ◌<◌, ◌≤◌, ◌+◌, ◌^◌, [], ⊤, false, min, length, IsTrue, IsFalse, IfOk, OnOk, IsErr};
ghost use Rattle.std.specs.Io.KnownBytes.{Appends};
ghost use Rattle.apx_cause.specs.Cause.{HasCause};
ghost use Rattle.apx_files.specs.Held.{HasTaken};

use apx_device::{Failed, Out};
use std::alloc::Global;
use std::io::Write;

/// A writer of the system, with what it is yet to get. It tells no content.
///
/// Bytes are held back as long as there is room for them, and then written together. Once a write has
/// failed nothing more is written: what is held back is dropped, and each later write fails.
///
/// ```
/// let mut out = RealOut::new(rt.alloc(), rt.stdout(), 65_536);
/// out.write(b"ok\n")?;
/// out.finish()?;
/// ```
#[derive(Drop)]
pub struct RealOut<W> {
    /// Where the bytes go.
    writer: W,
    /// What is held back.
    held: Vec<u8>,
    /// The most bytes that are held back.
    room: usize,
    /// How many writes have failed, up to the last value of the type.
    faults: u64,
}

impl<W: Write> RealOut<W> {
    /// The writer, with nothing held back and no fault counted. At most `room` bytes are held back.
    pub fn new(alloc: Global, writer: W, room: usize) -> Self
        ensures writer { result.writer ≡ writer }
        ensures held { result.held.items ≡ [] }
        ensures faults { result.faults ≡ 0 }
    {
        RealOut {
            writer,
            held: Vec::new(alloc),
            room,
            faults: 0,
        }
    }

    #[tactic(auto, using(crate::proofs::Holding::appends_kept))]
    /// Writes all that is held back. What can't be written is a fault, and is dropped.
    pub fn finish(&mut self) -> Result<(), Failed>
        ensures emptied { OnOk result (self.new.held.items ≡ []) }
        ensures written { OnOk result (Appends (W.contents self.old.writer) (W.contents self.new.writer) self.old.held.items) }
        ensures quiet { 0 < self.old.faults → W.contents self.new.writer ≡ W.contents self.old.writer }
        ensures sound { OnOk result (self.new.faults ≡ 0) }
        ensures cause { HasCause self.old.faults self.new.faults (IsErr result) }
    {
        if self.faults > 0 {
            return self.fail();
        }
        let whole = self.writer.write_all(&self.held).is_ok();
        self.held.clear();
        if whole && self.writer.flush().is_ok() {
            Ok(())
        } else {
            self.fail()
        }
    }

    #[tactic(auto, using(crate::proofs::Holding::taken_held, crate::proofs::Holding::taken_written))]
    // Holds the piece back where there is room for it, and else writes what is held back and then the piece.
    fn take(&mut self, piece: &[u8]) -> Result<usize, Failed>
        ensures within { IfOk result (λ taken. taken ≡ length piece.now) }
        ensures taken { OnOk result (HasTaken (W.contents self.old.writer) self.old.held.items
            (W.contents self.new.writer) self.new.held.items piece.now) }
        ensures quiet { 0 < self.old.faults → W.contents self.new.writer ≡ W.contents self.old.writer }
        ensures cause { HasCause self.old.faults self.new.faults (IsErr result) }
    {
        if self.faults > 0 {
            self.fail()?;
        }
        if piece.len() <= self.room.saturating_sub(self.held.len())
            && self.held.extend_from_slice(piece).is_ok()
        {
            return Ok(piece.len());
        }
        let whole = self.writer.write_all(&self.held).is_ok();
        self.held.clear();
        if whole && self.writer.write_all(piece).is_ok() {
            Ok(piece.len())
        } else {
            self.fail()?;
            Err(Failed)
        }
    }

    // Counts one fault, up to the last value, and drops what is held back.
    fn fail(&mut self) -> Result<(), Failed>
        ensures failed { IsErr result }
        ensures writer { self.new.writer ≡ self.old.writer }
        ensures dropped { self.new.held.items ≡ [] }
        ensures cause { HasCause self.old.faults self.new.faults ⊤ }
    {
        self.held.clear();
        self.faults = self.faults.saturating_add(1);
        Err(Failed)
    }
}

impl<W: Write> Out for RealOut<W> {
    ghost tells = { false };

    ghost written = { λ _. [] };

    ghost faults = { λ out. out.faults };

    fn faults(&self) -> u64 {
        self.faults
    }

    fn write(&mut self, piece: &[u8]) -> Result<usize, Failed> {
        self.take(piece)
    }
}
