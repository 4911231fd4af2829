// Spools: where a list puts its older blocks, each under a number.
ghost use Rattle.std.specs.Prelude.{◌≡◌, Bool, ℕ, List, Option, Some, None, IsTrue, IsSome, IfOk, OnOk, OnErr};
ghost use Rattle.apx_cause.specs.Cause.{HasCause};
ghost use Rattle.apx_device.specs.Spool.{KeepsOthers};

use std::alloc::Global;
use std::fmt::Debug;
use thiserror::Error;

/// Why a spool didn't do what a call asks for.
#[derive(Debug, PartialEq, Eq, Drop, Error)]
#[error_bound(F: Debug + Drop)]
pub enum SpoolRefusal<F> {
    /// The spool failed, and this tells how.
    #[error("the spool failed")]
    Fault(F),
    /// There was no memory for it.
    #[error("out of memory")]
    Memory,
}

/// A store of pieces of bytes, each under a number.
pub trait Spool {
    /// How the spool fails. A value of it is made by the spool alone.
    type Fault: Debug + Drop;

    /// Whether the spool tells its pieces.
    ghost tells: { Bool };

    /// The piece under each number that was put and not forgotten, with its bytes where the spool tells.
    ghost held: { Self → ℕ → Option (List ℕ) };

    /// Puts a piece under a number. A refusal leaves all as it was.
    fn put(&mut self, number: u64, piece: &[u8]) -> Result<(), SpoolRefusal<Self::Fault>>
        ensures held { OnOk result (IsSome (held self.new number)) }
        ensures told { IsTrue tells → OnOk result (held self.new number ≡ Some piece.now) }
        ensures others { KeepsOthers (held self.old) (held self.new) number }
        ensures err { OnErr result (held self.new number ≡ held self.old number) };

    /// The piece under a number.
    fn fetch(&mut self, alloc: Global, number: u64) -> Result<Vec<u8>, SpoolRefusal<Self::Fault>>
        requires { IsSome (held self.old number) }
        ensures told { IsTrue tells → IfOk result (λ piece. held self.old number ≡ Some piece.items) }
        ensures held { (other : ℕ) → held self.new other ≡ held self.old other };

    /// Drops the piece under a number, if there is one. It takes no memory.
    fn forget(&mut self, number: u64)
        ensures gone { held self.new number ≡ None }
        ensures others { KeepsOthers (held self.old) (held self.new) number };
}

/// Why no spool was made.
#[derive(Clone, Copy, Debug, PartialEq, Eq, Error)]
pub enum SpoolsRefusal {
    /// The maker failed, and has counted that.
    #[error("no spool can be made")]
    Failed,
    /// There was no memory for it.
    #[error("out of memory")]
    Memory,
}

/// A maker of spools.
pub trait Spools {
    /// The spools that it makes.
    type S: Spool + Drop;

    /// How many faults there were in making spools.
    ghost faults: { Self → ℕ };

    /// How many faults there were in making spools. The count stops at its type's last value.
    fn faults(&self) -> u64
        ensures { result ≡ faults self.now };

    /// An empty spool.
    fn fresh(&mut self) -> Result<Self::S, SpoolsRefusal>
        ensures empty { IfOk result (λ spool. (number : ℕ) → Self.S.held spool number ≡ None) }
        ensures cause { HasCause (faults self.old) (faults self.new) (result ≡ Err SpoolsRefusal.Failed) };
}
