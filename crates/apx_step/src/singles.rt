//! Kinds that look at one tuple at a time, on a bag that is given away: it is changed in place, with no key copied.
ghost use Rattle.std.specs.Prelude.{◌≡◌, ◌&&◌, int_le, map, filter, IfOk};
ghost use Rattle.apx_tuple.specs.Size.{IsLarge};
ghost use Rattle.apx_tuple.specs.Tuple.{tuple_key, tuple_order, bag_of};
ghost use Rattle.apx_order.specs.Sorted.{IsAscending};
ghost use Rattle.apx_step.specs.Singles.{scaled};

use crate::rules::is_within;
use apx_tuple::{Bag, Short, Tuple};

/// The tuples whose value is from `min` to `max`.
///
/// `Large` comes only where these are too large for a bag.
pub(crate) fn keep(min: i64, max: i64, bag: Bag) -> Result<Bag, Short>
    ensures ok { IfOk result (λ rows. rows ≡ filter (λ t. int_le min t.value && int_le t.value max) bag) }
    ensures large { result ≡ Err Short.Large → IsLarge tuple_key (filter (λ t. int_le min t.value && int_le t.value max) bag) }
    ensures ascends { IsAscending tuple_order bag }
{
    let mut tuples = bag.into_tuples();
    tuples.retain(|tuple| is_within(min, max, tuple.value));
    Bag::from_ascending(tuples)
}

/// The tuples with their values multiplied by `factor`.
///
/// `Large` comes only where these are too large for a bag.
pub(crate) fn scale(factor: i64, bag: Bag) -> Result<Bag, Short>
    ensures ok { IfOk result (λ rows. rows ≡ bag_of (map (scaled factor) bag)) }
    ensures large { result ≡ Err Short.Large → IsLarge tuple_key (bag_of (map (scaled factor) bag)) }
{
    Bag::of(multiplied(factor, bag.into_tuples()))
}

fn multiplied(factor: i64, mut tuples: Vec<Tuple>) -> Vec<Tuple>
    ensures { result.items ≡ map (scaled factor) tuples.items }
{
    for place in 0..tuples.len() {
        let tuple = &mut tuples[place];
        tuple.value = tuple.value.wrapping_mul(factor);
    }
    tuples
}
