// An output, as standard output is.
ghost use Rattle.std.specs.Prelude.{◌≡◌, ◌<◌, ◌≤◌, ◌++◌, Bool, ℕ, List, length, take, IsTrue, IsErr, IfOk, OnErr};
ghost use Rattle.apx_cause.specs.Cause.{HasCause};
ghost use Rattle.apx_device.specs.Out.{GotFront};

use thiserror::Error;

/// The output failed, and has counted that.
#[derive(Clone, Copy, Debug, PartialEq, Eq, Error)]
#[error("the output can't be written")]
pub struct Failed;

/// An output that bytes are written to.
pub trait Out {
    /// Whether the output tells what it has got.
    ghost tells: { Bool };

    /// All that the output has got, where it tells.
    ghost written: { Self → List ℕ };

    /// How many faults there were.
    ghost faults: { Self → ℕ };

    /// How many faults there were. The count stops at its type's last value.
    fn faults(&self) -> u64
        ensures { result ≡ faults self.now };

    /// Takes a front of the piece and answers its length, which isn't 0 for a piece that has bytes.
    fn write(&mut self, piece: &[u8]) -> Result<usize, Failed>
        ensures within { IfOk result (λ taken. taken ≤ length piece.now) }
        ensures some { IfOk result (λ taken. 0 < length piece.now → 0 < taken) }
        ensures taken { IsTrue tells → IfOk result (λ taken. written self.new ≡ written self.old ++ take taken piece.now) }
        ensures front { IsTrue tells → OnErr result (GotFront piece.now (written self.old) (written self.new)) }
        ensures cause { HasCause (faults self.old) (faults self.new) (IsErr result) };
}
