//! Writing texts to an output, without taking memory.
ghost use Rattle.std.specs.Prelude.{◌≡◌, ◌≤◌, ◌++◌, List, ℕ, IsErr};
ghost use Rattle.apx_cause.specs.Cause.{Rose};
ghost use Rattle.apx_top.specs.Sent.{HasWritten};

use apx_device::{Failed, Out};

/// Writes the whole piece, or a front of it where the output fails.
pub(crate) fn write_all<O: Out>(out: &mut O, piece: &[u8]) -> Result<(), Failed>
    ensures written { HasWritten O.tells piece.now result (O.written out.old) (O.written out.new) }
    ensures later { O.faults out.old ≤ O.faults out.new }
    ensures cause { IsErr result → Rose (O.faults out.old) (O.faults out.new) }
{
    let mut rest = piece;
    while !rest.is_empty() {
        let taken = out.write(rest)?;
        rest = &rest[taken..];
    }
    Ok(())
}

/// A text in pieces, one behind the other: `("line ", (number, "\n"))`.
pub(crate) trait Text {
    /// Its bytes.
    ghost bytes: { Self → List ℕ };

    /// Writes the whole text, or a front of it where the output fails.
    fn write_to<O: Out>(&self, out: &mut O) -> Result<(), Failed>
        ensures written { HasWritten O.tells (bytes self.now) result (O.written out.old) (O.written out.new) }
        ensures later { O.faults out.old ≤ O.faults out.new }
        ensures cause { IsErr result → Rose (O.faults out.old) (O.faults out.new) };
}

/// One piece.
impl Text for &str {
    ghost bytes = { λ piece. piece.now };

    fn write_to<O: Out>(&self, out: &mut O) -> Result<(), Failed> {
        write_all(out, self.as_bytes())
    }
}

/// Two texts, one after the other.
impl<A: Text, B: Text> Text for (A, B) {
    ghost bytes = { λ pair. A.bytes pair.0 ++ B.bytes pair.1 };

    fn write_to<O: Out>(&self, out: &mut O) -> Result<(), Failed> {
        self.0.write_to(out)?;
        self.1.write_to(out)
    }
}
