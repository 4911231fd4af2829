// The checkpoint store, called the vault: the saved states of partitions, each under an id.
ghost use Rattle.std.specs.Prelude.{◌≡◌, ◌<◌, ◌≤◌, Bool, ℕ, List, length, IsTrue, IfOk};
ghost use Rattle.apx_cause.specs.Cause.{HasCause};
ghost use Rattle.apx_cause.specs.Steps.{Steps, OneOf};
ghost use Rattle.apx_device.specs.Vault.{Entry, bytes_at, with_entry, entries_from, IsInOrder, PutBy, DroppedBy, StaysSound};

use std::alloc::Global;
use thiserror::Error;

/// What a saved state is one of. Ids are ordered by operator, boundary, partition and window.
///
/// ```
/// let id = SaveId { op: 2, boundary: 0, part: 1, window: 4 };
/// ```
#[derive(Clone, Copy, Debug, PartialEq, Eq, PartialOrd, Ord, Drop)]
pub struct SaveId {
    /// The operator, by its place in the application.
    pub op: u16,
    /// The window from which on the operator has the number of partitions that it has.
    pub boundary: u32,
    /// The partition of the operator, from 0.
    pub part: u8,
    /// The window after which the state is that of the partition.
    pub window: u32,
}

/// Why the vault didn't do what a call asks for.
#[derive(Clone, Copy, Debug, PartialEq, Eq, Error)]
pub enum VaultRefusal {
    /// The vault failed, and has counted that.
    #[error("the checkpoint store failed")]
    Failed,
    /// There was no memory for it.
    #[error("out of memory")]
    Memory,
}

/// The checkpoint store: bytes under ids.
pub trait Vault {
    /// Whether the vault tells its entries.
    ghost tells: { Bool };

    /// The entries in the order of their ids, where the vault tells.
    ghost held: { Self → List Entry };

    /// Whether no call has failed in a way that forbids further ones.
    ghost sound: { Self → Bool };

    /// How many faults there were.
    ghost faults: { Self → ℕ };

    /// A time, which doesn't fall.
    ghost time: { Self → ℕ };

    /// A crash at some moment since that time might have left these entries.
    ghost left: { Self → ℕ → List Entry → Type 0 };

    /// How many faults there were. The count stops at its type's last value.
    fn faults(&self) -> u64
        ensures { result ≡ faults self.now };

    /// Whether the other calls may be made. It stays true until one of them answers `Failed`.
    fn sound(&self) -> bool
        ensures { result ≡ sound self.now };

    /// Keeps the bytes under the id, in place of what was kept there.
    fn put(&mut self, id: SaveId, bytes: &[u8]) -> Result<(), VaultRefusal>
        requires sound { IsTrue (sound self.old) }
        requires small { length bytes.now < 4294967280 }
        ensures held { IsTrue tells → PutBy result id bytes.now (held self.old) (held self.new) }
        ensures sound { StaysSound result (sound self.new) }
        ensures crash { IsTrue tells → Steps (time self.old) (time self.new) (left self.old) (left self.new)
            (OneOf (held self.old) (with_entry (held self.old) id bytes.now)) }
        ensures cause { HasCause (faults self.old) (faults self.new) (result ≡ Err VaultRefusal.Failed) };

    /// The bytes under the id, none where nothing is kept there.
    fn get(&mut self, alloc: Global, id: SaveId) -> Result<Vec<u8>, VaultRefusal>
        requires { IsTrue (sound self.old) }
        ensures bytes { IsTrue tells → IfOk result (λ bytes. bytes.items ≡ bytes_at (held self.old) id) }
        ensures held { IsTrue tells → held self.new ≡ held self.old }
        ensures sound { StaysSound result (sound self.new) }
        ensures crash { IsTrue tells → Steps (time self.old) (time self.new) (left self.old) (left self.new)
            (λ entries. entries ≡ held self.old) }
        ensures cause { HasCause (faults self.old) (faults self.new) (result ≡ Err VaultRefusal.Failed) };

    /// Removes the entries whose window is below the given one, and no others.
    fn drop_below(&mut self, window: u32) -> Result<(), VaultRefusal>
        requires { IsTrue (sound self.old) }
        ensures held { IsTrue tells → DroppedBy result window (held self.old) (held self.new) }
        ensures sound { StaysSound result (sound self.new) }
        ensures crash { IsTrue tells → Steps (time self.old) (time self.new) (left self.old) (left self.new)
            (OneOf (held self.old) (entries_from (held self.old) window)) }
        ensures cause { HasCause (faults self.old) (faults self.new) (result ≡ Err VaultRefusal.Failed) };

    /// The ids ascend.
    ghost ordered: { (vault : Self) → IsTrue tells → IsInOrder (held vault) };

    /// Of a sound vault a crash now leaves what it has.
    ghost settled: { (vault : Self) (entries : List Entry) →
        IsTrue tells → IsTrue (sound vault) → left vault (time vault) entries → entries ≡ held vault };

    /// This moment is one of those since an earlier time.
    ghost counts: { (vault : Self) (t : ℕ) (entries : List Entry) →
        IsTrue tells → t ≤ time vault → left vault (time vault) entries → left vault t entries };
}
