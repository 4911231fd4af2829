//! How large what is carried may be.
ghost use Rattle.std.specs.Prelude.{◌≡◌, ◌<◌};
ghost use Rattle.std.specs.Bool.{OnFalse, OnTrue};
ghost use Rattle.apx_tuple.specs.Progress.{progress_size, IsLargeProgress};
ghost use Rattle.apx_tuple.specs.Size.{size_by};
ghost use Rattle.apx_tuple.specs.State.{pair_key, IsState};
ghost use Rattle.apx_tuple.specs.Tuple.{tuple_key, IsBag};

use apx_tuple::{Bag, Progress, State};

/// The size from which on what is carried is too large.
const LARGE: u64 = 4294967232;

/// What a pair or a tuple counts beside its key's length.
const BESIDE_KEY: u64 = 10;

/// Over the tuples, the length of each one's key and 10.
fn bag_size(bag: &Bag) -> u64
    ensures size { result ≡ size_by tuple_key bag.now }
    ensures bag { IsBag bag.now }
{
    let mut size = 0u64;
    for tuple in bag.tuples() {
        size += tuple.key.bytes().len() as u64 + BESIDE_KEY;
    }
    size
}

/// Over the pairs, the length of each one's key and 10.
fn state_size(state: &State) -> u64
    ensures size { result ≡ size_by pair_key state.now }
    ensures state { IsState state.now }
{
    let mut size = 0u64;
    for (key, _value) in state.pairs() {
        size += key.bytes().len() as u64 + BESIDE_KEY;
    }
    size
}

/// Whether what is carried is too large.
///
/// A state alone never is, so that its keys are gone through only where tuples were gathered.
pub fn is_large(progress: &Progress) -> bool
    ensures large { OnTrue result (IsLargeProgress progress.now) }
    ensures small { OnFalse result (progress_size progress.now < 4294967232) }
{
    let gathered = bag_size(&progress.left) + bag_size(&progress.right);
    if gathered == 0 {
        progress.state.len();
        return false;
    }
    state_size(&progress.state) + gathered >= LARGE
}
