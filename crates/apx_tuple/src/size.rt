//! How large bags and states may be.
ghost use Rattle.std.specs.Prelude.{◌≡◌, ◌<◌, IfSome, OnSome, IfNone};
ghost use Rattle.apx_tuple.specs.Size.{size_by, IsLarge};
ghost use Rattle.apx_tuple.specs.State.{pair_key};
ghost use Rattle.apx_tuple.specs.Tuple.{tuple_key};

use crate::key::Key;
use crate::tuple::Tuple;

/// The size from which on a bag or a state is too large: so a bag's messages fit fewer than 2^32 blocks.
pub(crate) const LARGE: u64 = 4294967232;

/// What a member counts beside its key's length: the two bytes of that length and the eight of its value.
pub(crate) const BESIDE_KEY: u64 = 10;

/// The size of these tuples; None where they are too large for a bag.
pub(crate) fn tuples_size(tuples: &[Tuple]) -> Option<u64>
    ensures size { IfSome result (λ size. size ≡ size_by tuple_key tuples.now) }
    ensures small { OnSome result (size_by tuple_key tuples.now < 4294967232) }
    ensures large { IfNone result (IsLarge tuple_key tuples.now) }
{
    let mut size = 0u64;
    for tuple in tuples {
        size += tuple.key.bytes().len() as u64 + BESIDE_KEY;
        if size >= LARGE {
            return None;
        }
    }
    Some(size)
}

/// The size of these pairs; None where they are too large for a state.
pub(crate) fn pairs_size(pairs: &[(Key, i64)]) -> Option<u64>
    ensures size { IfSome result (λ size. size ≡ size_by pair_key pairs.now) }
    ensures small { OnSome result (size_by pair_key pairs.now < 4294967232) }
    ensures large { IfNone result (IsLarge pair_key pairs.now) }
{
    let mut size = 0u64;
    for pair in pairs {
        size += pair.0.bytes().len() as u64 + BESIDE_KEY;
        if size >= LARGE {
            return None;
        }
    }
    Some(size)
}
