//! The unit of data: a key with a value.
ghost use Rattle.std.specs.Prelude.{◌≡◌, IfOk};

use crate::key::Key;
use std::alloc::AllocError;

/// A key and its value, ordered by key and then by value.
#[derive(Debug, PartialEq, Eq, PartialOrd, Ord, Drop)]
pub struct Tuple {
    /// Its key.
    pub key: Key,
    /// Its value.
    pub value: i64,
}

impl Tuple {
    /// A tuple with the same key and value.
    pub fn copy(&self) -> Result<Tuple, AllocError>
        ensures { IfOk result (λ tuple. tuple ≡ self.now) }
    {
        Ok(Tuple {
            key: self.key.copy()?,
            value: self.value,
        })
    }
}
