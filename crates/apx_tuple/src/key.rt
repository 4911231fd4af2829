//! Keys: short byte strings, ordered as bytes.
ghost use Rattle.std.specs.Prelude.{◌≡◌, ℕ, ◌≤◌, ◌<◌, List, length, slice_index_or, nat_eq, refl, Some, IfOk, OnOk};
ghost use Rattle.std.specs.Ordering.{nat_cmp};
ghost use Rattle.std.specs.Cmp.Lexicographic.{pointwise, slice_cmp, nat_list_eq_equiv, nat_list_cmp_total, texts_ties, texts_po};
ghost use Rattle.std.specs.Cmp.{partial_equiv_from_equiv};
ghost use Rattle.apx_tuple.specs.Key.{IsFront};

use crate::refusal::KeyRefusal;
use smallvec::SmallVec;
use std::alloc::{AllocError, Global};
use std::cmp::Ordering;
use std::marker::Model;

/// How many bytes the front of a key has.
const FRONT_LEN: usize = 8;

/// A key: 0 to 1,024 bytes, compared byte by byte, with a proper prefix first.
///
/// Keys of up to 15 bytes lie in the value itself.
///
/// ```
/// let key = Key::of(alloc, b"a key")?;
/// let bytes = key.bytes();
/// ```
#[derive(Debug, Drop)]
pub struct Key {
    /// The first eight bytes as a number, so that most comparisons end at it. Where two fronts are equal the
    /// bytes decide: `a` and `a` with a zero byte behind it have one front.
    front: u64,
    /// All its bytes.
    bytes: SmallVec<u8, 15>,
}

impl Model for Key {
    ghost use Rattle.std.specs.Prelude.{ℕ, ◌≤◌, List, length};
    ghost use Rattle.apx_tuple.specs.Key.{IsFront};

    ghost Value = { List ℕ };

    ghost view = { λ k. k.bytes.items };

    ghost invariant = { λ k. (length k.bytes.items ≤ 1024) × IsFront k.front k.bytes.items };
}

impl Key {
    /// The most bytes that a key has.
    pub const MAX_LEN: usize = 1024;

    /// The key with these bytes.
    ///
    /// `TooLong` comes exactly where there are more than 1,024 of them.
    pub fn of(alloc: Global, bytes: &[u8]) -> Result<Key, KeyRefusal>
        ensures ok { IfOk result (λ key. key ≡ bytes.now) }
        ensures fits { OnOk result (length bytes.now ≤ 1024) }
        ensures too_long { (len : ℕ) → result ≡ Err (KeyRefusal.TooLong len) → (len ≡ length bytes.now) × (1024 < length bytes.now) }
        ensures long { 1024 < length bytes.now → result ≡ Err (KeyRefusal.TooLong (length bytes.now)) }
    {
        if bytes.len() > Key::MAX_LEN {
            return Err(KeyRefusal::TooLong { len: bytes.len() });
        }
        match Key::of_few(alloc, bytes) {
            Ok(key) => Ok(key),
            Err(_) => Err(KeyRefusal::Memory),
        }
    }

    /// The key with these bytes, of which there are few enough.
    pub fn of_few(alloc: Global, bytes: &[u8]) -> Result<Key, AllocError>
        requires { length bytes.now ≤ 1024 }
        ensures { IfOk result (λ key. key ≡ bytes.now) }
    {
        Ok(Key {
            front: front_of(bytes),
            bytes: SmallVec::from_slice(alloc, bytes)?,
        })
    }

    /// The key's bytes.
    pub fn bytes(&self) -> &[u8]
        ensures bytes { result.now ≡ self.now }
        ensures short { length self.now ≤ 1024 }
    {
        self.bytes.as_slice()
    }

    /// A key with the same bytes.
    pub fn copy(&self) -> Result<Key, AllocError>
        ensures { IfOk result (λ key. key ≡ self.now) }
    {
        Ok(Key {
            front: self.front,
            bytes: SmallVec::from_slice(*self.bytes.allocator(), self.bytes.as_slice())?,
        })
    }

    /// What most comparisons of keys end at.
    pub(crate) fn front(&self) -> u64 {
        self.front
    }
}

/// The front of a key with these bytes.
fn front_of(bytes: &[u8]) -> u64
    ensures { IsFront result bytes.now }
{
    let mut front = 0u64;
    for place in 0..FRONT_LEN {
        front = front * 256 + u64::from(byte_at(bytes, place));
    }
    front
}

/// The byte at the place, or a zero behind the end.
fn byte_at(bytes: &[u8], place: usize) -> u8
    ensures { result ≡ slice_index_or bytes.now place 0 }
{
    match bytes.get(place) {
        Some(byte) => *byte,
        None => 0,
    }
}

impl Clone for Key {
    ghost is_clone = { λ key copy. copy ≡ key };

    fn clone(&self) -> Result<Key, AllocError> {
        self.copy()
    }
}

impl PartialEq for Key {
    ghost eq = { pointwise nat_eq };

    ghost laws = { partial_equiv_from_equiv nat_list_eq_equiv };

    fn eq(&self, other: &Self) -> bool {
        self.front == other.front && self.bytes() == other.bytes()
    }
}

impl Eq for Key {
    ghost laws = { nat_list_eq_equiv };
}

impl PartialOrd for Key {
    ghost partial_cmp = { λ x y. Some (slice_cmp nat_cmp x y) };

    ghost laws = { texts_po };

    fn partial_cmp(&self, other: &Self) -> Option<Ordering> {
        Some(self.cmp(other))
    }
}

impl Ord for Key {
    ghost cmp = { slice_cmp nat_cmp };

    ghost total = { nat_list_cmp_total };

    ghost matches_partial_cmp = { λ x y. refl };

    ghost matches_eq = { texts_ties };

    fn cmp(&self, other: &Self) -> Ordering {
        match self.front.cmp(&other.front) {
            Ordering::Equal => self.bytes().cmp(other.bytes()),
            unequal => unequal,
        }
    }
}
