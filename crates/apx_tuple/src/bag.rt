//! Bags: what a window holds, in ascending order.
ghost use Rattle.std.specs.Prelude.{◌≡◌, ◌<◌, [], IfOk, IfErr, OnOk};
ghost use Rattle.std.specs.Bool.{OnTrue};
ghost use Rattle.std.specs.List.{flat_map};
ghost use Rattle.apx_tuple.specs.Size.{size_by, IsLarge};
ghost use Rattle.apx_tuple.specs.Tuple.{bag_of, tuple_key, tuple_order, IsBag};
ghost use Rattle.apx_order.specs.Sorted.{IsAscending};

use crate::refusal::Short;
use crate::size::tuples_size;
use crate::tuple::Tuple;
use std::alloc::{AllocError, Global};
use std::marker::Model;

/// Tuples in ascending order, repeats kept; its size stays below 4294967232.
///
/// ```
/// let mut tuples = Vec::new(alloc);
/// tuples.push(Tuple { key: Key::of(alloc, b"b")?, value: 1 })?;
/// let bag = Bag::of(tuples)?;
/// ```
#[derive(Debug, Drop)]
pub struct Bag {
    /// The tuples, in order.
    tuples: Vec<Tuple>,
    /// Over the tuples, the length of each one's key and 10.
    size: u64,
}

impl Model for Bag {
    ghost use Rattle.std.specs.Prelude.{List};
    ghost use Rattle.apx_tuple.specs.declared.tuple.Tuple.{Tuple};

    ghost Value = { List Tuple };

    ghost use Rattle.std.specs.Prelude.{◌≡◌};
    ghost use Rattle.apx_tuple.specs.Size.{size_by};
    ghost use Rattle.apx_tuple.specs.Tuple.{tuple_key, IsBag};

    ghost view = { λ b. b.tuples.items };

    ghost invariant = { λ b. (b.size ≡ size_by tuple_key b.tuples.items) × IsBag b.tuples.items };
}

impl Bag {
    /// The bag without tuples.
    pub fn new(alloc: Global) -> Bag
        ensures { result ≡ [] }
    {
        Bag {
            tuples: Vec::new(alloc),
            size: 0,
        }
    }

    /// The bag of these tuples, which ascend already.
    ///
    /// It takes no memory: `Large` comes exactly where they are too large for a bag. They are dropped then.
    pub fn from_ascending(tuples: Vec<Tuple>) -> Result<Bag, Short>
        requires { IsAscending tuple_order tuples.items }
        ensures ok { IfOk result (λ bag. bag ≡ tuples.items) }
        ensures small { OnOk result (size_by tuple_key tuples.items < 4294967232) }
        ensures large { IfErr result (λ short. (short ≡ Short.Large) × IsLarge tuple_key tuples.items) }
    {
        let Some(size) = tuples_size(tuples.as_slice()) else {
            return Err(Short::Large);
        };
        Ok(Bag { tuples, size })
    }

    /// The bag of these tuples.
    ///
    /// `Large` comes only where they are too large for a bag. The tuples are dropped on a refusal.
    pub fn of(tuples: Vec<Tuple>) -> Result<Bag, Short>
        ensures ok { IfOk result (λ bag. bag ≡ bag_of tuples.items) }
        ensures small { OnOk result (size_by tuple_key (bag_of tuples.items) < 4294967232) }
        ensures large { result ≡ Err Short.Large → IsLarge tuple_key (bag_of tuples.items) }
    {
        let Some(size) = tuples_size(&tuples) else {
            return Err(Short::Large);
        };
        Ok(Bag {
            tuples: in_order(tuples)?,
            size,
        })
    }

    /// The bag of the tuples of all the parts.
    ///
    /// `Large` comes only where these are too large for a bag. The parts are dropped on a refusal.
    pub fn merge(alloc: Global, parts: Vec<Bag>) -> Result<Bag, Short>
        ensures ok { IfOk result (λ bag. bag ≡ bag_of (flat_map (λ part. part) parts.items)) }
        ensures small { OnOk result (size_by tuple_key (bag_of (flat_map (λ part. part) parts.items)) < 4294967232) }
        ensures large { result ≡ Err Short.Large → IsLarge tuple_key (bag_of (flat_map (λ part. part) parts.items)) }
    {
        Bag::of(all_tuples(alloc, parts)?)
    }

    /// A bag with the same tuples.
    pub fn copy(&self, alloc: Global) -> Result<Bag, AllocError>
        ensures { IfOk result (λ bag. bag ≡ self.now) }
    {
        Ok(Bag {
            tuples: copied(alloc, &self.tuples)?,
            size: self.size,
        })
    }

    /// Over the tuples, the length of each one's key and 10. No tuple is looked at.
    pub fn size(&self) -> u64
        ensures size { result ≡ size_by tuple_key self.now }
        ensures bag { IsBag self.now }
    {
        self.size
    }

    /// The tuples, in ascending order.
    pub fn tuples(&self) -> &[Tuple]
        ensures tuples { result.now ≡ self.now }
        ensures bag { IsBag self.now }
    {
        &self.tuples
    }

    /// The tuples, in ascending order, taken out of the bag.
    pub fn into_tuples(self) -> Vec<Tuple>
        ensures tuples { result.items ≡ self }
        ensures bag { IsBag self }
    {
        self.tuples
    }
}

/// Whether no tuple is above one that comes after it.
fn ascends(tuples: &[Tuple]) -> bool
    ensures { OnTrue result (IsAscending tuple_order tuples.now) }
{
    for place in 1..tuples.len() {
        if tuples[place - 1].cmp(&tuples[place]).is_gt() {
            return false;
        }
    }
    true
}

/// The tuples in ascending order.
///
/// They mostly come in runs: in the order of their keys' fronts these are long, and the stable sort finds them.
fn in_order(mut tuples: Vec<Tuple>) -> Result<Vec<Tuple>, AllocError>
    ensures { IfOk result (λ ordered. ordered.items ≡ bag_of tuples.items) }
{
    if ascends(&tuples) {
        return Ok(tuples);
    }
    tuples.sort_by_cached_key(|tuple| tuple.key.front())?;
    tuples.sort()?;
    Ok(tuples)
}

/// The tuples of all the parts, one part after the other.
fn all_tuples(alloc: Global, parts: Vec<Bag>) -> Result<Vec<Tuple>, AllocError>
    ensures { IfOk result (λ all. all.items ≡ flat_map (λ part. part) parts.items) }
{
    let mut all = Vec::new(alloc);
    for part in parts {
        let mut tuples = part.tuples;
        all.append(&mut tuples)?;
    }
    Ok(all)
}

/// The same tuples, in the same order.
fn copied(alloc: Global, tuples: &[Tuple]) -> Result<Vec<Tuple>, AllocError>
    ensures { IfOk result (λ copies. copies.items ≡ tuples.now) }
{
    let mut copies = Vec::with_capacity(alloc, tuples.len())?;
    for tuple in tuples {
        copies.push(tuple.copy()?)?;
    }
    Ok(copies)
}
