//! The rows of an operator in a window, on their way to those that read them.
ghost use Rattle.std.specs.Prelude.{◌≡◌, [], IfOk};
ghost use Rattle.apx_tuple.specs.Size.{IsLarge};
ghost use Rattle.apx_tuple.specs.Tuple.{bag_of, tuple_key};

use apx_tuple::{Bag, Short, Tuple};
use std::alloc::{AllocError, Global};
use std::marker::Model;

/// Rows in any order, which stand for the bag of them: they are sorted only where they are told.
#[derive(Drop)]
pub(crate) struct Rows {
    /// The rows, in the order in which they were made.
    tuples: Vec<Tuple>,
}

impl Model for Rows {
    ghost use Rattle.std.specs.Prelude.{List};
    ghost use Rattle.apx_tuple.specs.declared.tuple.Tuple.{Tuple};
    ghost use Rattle.apx_tuple.specs.Tuple.{bag_of};

    ghost Value = { List Tuple };

    ghost view = { λ r. bag_of r.tuples.items };
}

impl Rows {
    /// No rows.
    pub(crate) fn new(alloc: Global) -> Rows
        ensures { result ≡ [] }
    {
        Rows {
            tuples: Vec::new(alloc),
        }
    }

    /// These rows.
    pub(crate) fn of(tuples: Vec<Tuple>) -> Rows
        ensures { result ≡ bag_of tuples.items }
    {
        Rows { tuples }
    }

    /// The rows of a bag.
    pub(crate) fn of_bag(bag: Bag) -> Rows
        ensures { result ≡ bag }
    {
        Rows {
            tuples: bag.into_tuples(),
        }
    }

    /// The same rows.
    pub(crate) fn copy(&self, alloc: Global) -> Result<Rows, AllocError>
        ensures { IfOk result (λ rows. rows ≡ self.now) }
    {
        Ok(Rows {
            tuples: copied(alloc, &self.tuples)?,
        })
    }

    /// The rows themselves, in any order.
    pub(crate) fn into_tuples(self) -> Vec<Tuple>
        ensures { bag_of result.items ≡ self }
    {
        self.tuples
    }

    /// The rows in ascending order.
    ///
    /// `Large` comes only where they are too large for a bag.
    pub(crate) fn sorted(self) -> Result<Bag, Short>
        ensures ok { IfOk result (λ bag. bag ≡ self) }
        ensures large { result ≡ Err Short.Large → IsLarge tuple_key self }
    {
        Bag::of(self.tuples)
    }
}

/// The same tuples, in the same order.
fn copied(alloc: Global, tuples: &[Tuple]) -> Result<Vec<Tuple>, AllocError>
    ensures { IfOk result (λ copies. copies.items ≡ tuples.now) }
{
    let mut copies = Vec::with_capacity(alloc, tuples.len())?;
    for tuple in tuples {
        copies.push(tuple.copy()?)?;
    }
    Ok(copies)
}
