// The sink's store, called the keeper: the rows of each window, each window in one transaction.
ghost use Rattle.std.specs.Prelude.{◌≡◌, ◌<◌, ◌≤◌, ◌+◌, ◌-◌, ◌++◌, ◌∷◌, [], Bool, ℕ, List, Some, length, slice_get, IsTrue, IfOk};
ghost use Rattle.apx_tuple.specs.Size.{size_by};
ghost use Rattle.apx_tuple.specs.Tuple.{tuple_key};
ghost use Rattle.apx_tuple.specs.declared.tuple.Tuple.{Tuple};
ghost use Rattle.apx_cause.specs.Cause.{HasCause};
ghost use Rattle.apx_cause.specs.Steps.{Steps, OneOf};
ghost use Rattle.apx_device.specs.Keeper.{LeftBy, StaysSound};

use apx_tuple::Tuple;
use std::alloc::Global;
use thiserror::Error;

/// Why the keeper didn't do what a call asks for.
#[derive(Clone, Copy, Debug, PartialEq, Eq, Error)]
pub enum KeepRefusal {
    /// The keeper failed, and has counted that.
    #[error("the sink's store failed")]
    Failed,
    /// There was no memory for it.
    #[error("out of memory")]
    Memory,
}

/// The store of the sink: a list of transactions for the windows 1 to `last`.
pub trait Keeper {
    /// Whether the keeper tells its rows.
    ghost tells: { Bool };

    /// The rows of each window, from window 1 on, where the keeper tells.
    ghost stored: { Self → List (List Tuple) };

    /// The last window that is stored, 0 where there is none.
    ghost last: { Self → ℕ };

    /// Whether no call has failed in a way that forbids further ones.
    ghost sound: { Self → Bool };

    /// How many faults there were.
    ghost faults: { Self → ℕ };

    /// A time, which doesn't fall.
    ghost time: { Self → ℕ };

    /// A crash at some moment since that time might have left these windows.
    ghost left: { Self → ℕ → List (List Tuple) → Type 0 };

    /// How many faults there were. The count stops at its type's last value.
    fn faults(&self) -> u64
        ensures { result ≡ faults self.now };

    /// Whether the other calls may be made. It stays true until one of them answers `Failed`.
    fn sound(&self) -> bool
        ensures { result ≡ sound self.now };

    /// The last window that is stored, 0 where there is none.
    fn last(&self) -> u32
        ensures last { result ≡ last self.now }
        ensures told { IsTrue tells → length (stored self.now) ≡ result };

    /// Stores the next window's rows, all of them or none.
    fn commit(&mut self, window: u32, rows: &[Tuple]) -> Result<(), KeepRefusal>
        requires sound { IsTrue (sound self.old) }
        requires next { window ≡ last self.old + 1 }
        requires small { size_by tuple_key rows.now < 4294967232 }
        ensures stored { IsTrue tells → LeftBy result (stored self.old) (stored self.old ++ rows.now ∷ []) (stored self.new) }
        ensures last { LeftBy result (last self.old) (last self.old + 1) (last self.new) }
        ensures sound { StaysSound result (sound self.new) }
        ensures crash { IsTrue tells → Steps (time self.old) (time self.new) (left self.old) (left self.new)
            (OneOf (stored self.old) (stored self.old ++ rows.now ∷ [])) }
        ensures cause { HasCause (faults self.old) (faults self.new) (result ≡ Err KeepRefusal.Failed) };

    /// The rows of a stored window.
    fn rows(&mut self, alloc: Global, window: u32) -> Result<Vec<Tuple>, KeepRefusal>
        requires sound { IsTrue (sound self.old) }
        requires from_one { 1 ≤ window }
        requires there { window ≤ last self.old }
        ensures rows { IsTrue tells → IfOk result (λ rows. slice_get (stored self.old) (window - 1) ≡ Some rows.items) }
        ensures stored { stored self.new ≡ stored self.old }
        ensures last { last self.new ≡ last self.old }
        ensures sound { StaysSound result (sound self.new) }
        ensures crash { IsTrue tells → Steps (time self.old) (time self.new) (left self.old) (left self.new)
            (λ windows. windows ≡ stored self.old) }
        ensures cause { HasCause (faults self.old) (faults self.new) (result ≡ Err KeepRefusal.Failed) };

    /// The last window is that of the rows. So after a failed commit the rows and the last window are those
    /// from before it or those from after it, together.
    ghost counted: { (keeper : Self) → IsTrue tells → length (stored keeper) ≡ last keeper };

    /// Of a sound keeper a crash now leaves what it has.
    ghost settled: { (keeper : Self) (windows : List (List Tuple)) →
        IsTrue tells → IsTrue (sound keeper) → left keeper (time keeper) windows → windows ≡ stored keeper };

    /// This moment is one of those since an earlier time.
    ghost counts: { (keeper : Self) (t : ℕ) (windows : List (List Tuple)) →
        IsTrue tells → t ≤ time keeper → left keeper (time keeper) windows → left keeper t windows };
}
