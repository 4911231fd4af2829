// A folder of input files: each is read whole, up to a limit.
ghost use Rattle.std.specs.Prelude.{◌≡◌, ◌≤◌, ◌++◌, ◌∷◌, [], Bool, ℕ, List, Option, length, IsTrue, IfOk};
ghost use Rattle.apx_cause.specs.Cause.{HasCause};
ghost use Rattle.apx_device.specs.Folder.{Answer, Says, given, answer_of};

use std::alloc::Global;
use thiserror::Error;

/// Why a file wasn't read.
#[derive(Clone, Copy, Debug, PartialEq, Eq, Error)]
pub enum ReadRefusal {
    /// The folder has no file of that name.
    #[error("no such file")]
    Absent,
    /// More bytes than the limit were found.
    #[error("the file is too long")]
    TooLong,
    /// The folder failed, and has counted that.
    #[error("the file can't be read")]
    Failed,
    /// There was no memory for it.
    #[error("out of memory")]
    Memory,
}

/// A folder that files are read from. Its files stay as they are, whatever a call answers.
pub trait Folder {
    /// Whether the folder tells its files.
    ghost tells: { Bool };

    /// The file under each name, where the folder tells.
    ghost told: { Self → List ℕ → Option (List ℕ) };

    /// The answers to all reads so far may be these. It ties what a call makes of files to what the folder
    /// answered in it, whatever that was; a folder need keep no list for it.
    ghost heard: { Self → List Answer → Type 0 };

    /// How many faults there were.
    ghost faults: { Self → ℕ };

    /// How many faults there were. The count stops at its type's last value.
    fn faults(&self) -> u64
        ensures { result ≡ faults self.now };

    /// The bytes of a file of at most `limit` bytes.
    fn read(&mut self, alloc: Global, name: &str, limit: usize) -> Result<Vec<u8>, ReadRefusal>
        ensures answer { IsTrue tells → Says (told self.old name.now) limit (given result) }
        ensures within { IfOk result (λ bytes. length bytes.items ≤ limit) }
        ensures heard { (before : List Answer) → heard self.old before → heard self.new (before ++ answer_of name.now limit result ∷ []) }
        ensures files { told self.new ≡ told self.old }
        ensures cause { HasCause (faults self.old) (faults self.new) (result ≡ Err ReadRefusal.Failed) };
}
