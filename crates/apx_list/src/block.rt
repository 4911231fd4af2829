//! One block of a window's bytes.
ghost use Rattle.std.specs.Prelude.{◌≡◌, IfOk};

use bytes::Bytes;
use std::alloc::AllocError;

/// Some of a window's messages, spelled one behind the other.
#[derive(Debug, Drop)]
pub struct Block {
    /// The window, from 1.
    pub window: u32,
    /// The blocks of a window count from 0.
    pub index: u32,
    /// Whether it is the window's last block.
    pub last: bool,
    /// Shared by the copies of a block.
    pub bytes: Bytes,
}

/// What a block says beside its bytes.
#[derive(Clone, Copy, Debug, PartialEq, Eq)]
pub struct Marks {
    /// The window, from 1.
    pub window: u32,
    /// The blocks of a window count from 0.
    pub index: u32,
    /// Whether it is the window's last block.
    pub last: bool,
}

impl Block {
    ghost use Rattle.apx_list.specs.Checking.{marks_of};

    /// What it says beside its bytes.
    pub(crate) fn marks(&self) -> Marks
        ensures { result ≡ marks_of self.now }
    {
        Marks {
            window: self.window,
            index: self.index,
            last: self.last,
        }
    }

    /// An equal block over the same bytes.
    pub fn share(&self) -> Result<Block, AllocError>
        ensures { IfOk result (λ block. block ≡ self.now) }
    {
        Ok(Block {
            window: self.window,
            index: self.index,
            last: self.last,
            bytes: self.bytes.clone()?,
        })
    }
}
