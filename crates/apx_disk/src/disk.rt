// A disk: one file, as what a read gives, and as what a crash may leave of it.
ghost use Rattle.std.specs.Prelude.{◌≡◌, ◌<◌, ◌≤◌, ◌+◌, ◌^◌, Bool, ℕ, List, length, take, drop, IsTrue, IfOk, OnOk};
ghost use Rattle.apx_cause.specs.Cause.{HasCause};
ghost use Rattle.apx_cause.specs.Steps.{Steps};
ghost use Rattle.apx_disk.specs.Disk.{Holds, Torn, CutTo, After, Only};

use std::alloc::Global;
use thiserror::Error;

/// Why a disk didn't do what a call asks for.
#[derive(Clone, Copy, Debug, PartialEq, Eq, Error)]
pub enum DiskRefusal {
    /// The disk failed, and has counted that.
    #[error("the disk failed")]
    Failed,
    /// There was no memory for it.
    #[error("out of memory")]
    Memory,
}

/// One file on a disk.
///
/// Until a sync has succeeded, a crash may leave any bytes in a range that was written, and what lies past a place
/// that was cut to may stay, be gone or hold any bytes. Bytes elsewhere stay.
pub trait Disk {
    /// Whether the disk tells its file.
    ghost tells: { Bool };

    /// What a read gives.
    ghost seen: { Self → List ℕ };

    /// A time, which doesn't fall.
    ghost time: { Self → ℕ };

    /// A crash at some moment since that time might have left this image.
    ghost left: { Self → ℕ → List ℕ → Type 0 };

    /// How many faults there were.
    ghost faults: { Self → ℕ };

    /// How many faults there were. The count stops at its type's last value.
    fn faults(&self) -> u64
        ensures { result ≡ faults self.now };

    /// How many bytes the file has.
    fn len(&mut self) -> Result<u64, DiskRefusal>
        ensures len { IsTrue tells → IfOk result (λ len. len ≡ length (seen self.old)) }
        ensures seen { IsTrue tells → seen self.new ≡ seen self.old }
        ensures crash { IsTrue tells → Steps (time self.old) (time self.new) (left self.old) (left self.new)
            (left self.old (time self.old)) }
        ensures no_memory { result ≡ Err DiskRefusal.Memory → ⊥ }
        ensures cause { HasCause (faults self.old) (faults self.new) (result ≡ Err DiskRefusal.Failed) };

    /// So many bytes from a place on, all of them within the file.
    fn read(&mut self, alloc: Global, at: u64, count: usize) -> Result<Vec<u8>, DiskRefusal>
        requires { IsTrue tells → at + count ≤ length (seen self.old) }
        ensures bytes { IsTrue tells → IfOk result (λ bytes. bytes.items ≡ take count (drop at (seen self.old))) }
        ensures seen { IsTrue tells → seen self.new ≡ seen self.old }
        ensures crash { IsTrue tells → Steps (time self.old) (time self.new) (left self.old) (left self.new)
            (left self.old (time self.old)) }
        ensures cause { HasCause (faults self.old) (faults self.new) (result ≡ Err DiskRefusal.Failed) };

    /// Writes over what is there, and past the end. A write that failed may have been done whole, in part or not at all.
    fn write_at(&mut self, at: u64, bytes: &[u8]) -> Result<(), DiskRefusal>
        requires { IsTrue tells → at ≤ length (seen self.old) }
        ensures written { IsTrue tells → OnOk result (Holds (seen self.old) at bytes.now (seen self.new)) }
        ensures fits { OnOk result (at + length bytes.now < 2 ^ 63) }
        ensures torn { IsTrue tells → Torn at (length bytes.now) (seen self.old) (seen self.new) }
        ensures memory { IsTrue tells → result ≡ Err DiskRefusal.Memory → seen self.new ≡ seen self.old }
        ensures crash { IsTrue tells → Steps (time self.old) (time self.new) (left self.old) (left self.new)
            (After (left self.old (time self.old)) (Torn at (length bytes.now))) }
        ensures crash_memory { IsTrue tells → result ≡ Err DiskRefusal.Memory →
            Steps (time self.old) (time self.new) (left self.old) (left self.new) (left self.old (time self.old)) }
        ensures cause { HasCause (faults self.old) (faults self.new) (result ≡ Err DiskRefusal.Failed) };

    /// Cuts the file to a length that it has. A cut that failed may have been done whole, in part or not at all.
    fn cut(&mut self, len: u64) -> Result<(), DiskRefusal>
        requires { IsTrue tells → len ≤ length (seen self.old) }
        ensures cut { IsTrue tells → OnOk result (seen self.new ≡ take len (seen self.old)) }
        ensures part { IsTrue tells → CutTo len (seen self.old) (seen self.new) }
        ensures crash { IsTrue tells → Steps (time self.old) (time self.new) (left self.old) (left self.new)
            (After (left self.old (time self.old)) (CutTo len)) }
        ensures no_memory { result ≡ Err DiskRefusal.Memory → ⊥ }
        ensures cause { HasCause (faults self.old) (faults self.new) (result ≡ Err DiskRefusal.Failed) };

    /// After it, a crash leaves what a read gives.
    fn sync(&mut self) -> Result<(), DiskRefusal>
        ensures synced { IsTrue tells → OnOk result (Only (seen self.old) (left self.new (time self.new))) }
        ensures seen { IsTrue tells → seen self.new ≡ seen self.old }
        ensures crash { IsTrue tells → Steps (time self.old) (time self.new) (left self.old) (left self.new)
            (left self.old (time self.old)) }
        ensures no_memory { result ≡ Err DiskRefusal.Memory → ⊥ }
        ensures cause { HasCause (faults self.old) (faults self.new) (result ≡ Err DiskRefusal.Failed) };

    /// What a read gives is one of the images.
    ghost shows: { (disk : Self) → IsTrue tells → left disk (time disk) (seen disk) };

    /// This moment is one of those since an earlier time.
    ghost counts: { (disk : Self) (t : ℕ) (image : List ℕ) → IsTrue tells → t ≤ time disk →
        left disk (time disk) image → left disk t image };
}
