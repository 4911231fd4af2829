//! The places of one operator's partitions.
ghost use Rattle.std.specs.Prelude.{◌≡◌, ◌<◌, Option, Some, None, length, get_or, set, replicate, IfOk, IfSome, IfNone};

use std::alloc::{AllocError, Global};
use std::marker::Model;

/// A place for each partition of an operator.
#[derive(Drop)]
pub(crate) struct Row<T> {
    /// What stands there, by the numbers of the partitions.
    cells: Vec<Option<T>>,
}

impl<T> Model for Row<T> {
    ghost use Rattle.std.specs.Prelude.{List, Option};

    ghost Value = { List (Option T) };

    ghost view = { λ r. r.cells.items };
}

impl<T: Drop> Row<T> {
    /// Empty places for so many partitions.
    pub(crate) fn new(alloc: Global, count: usize) -> Result<Row<T>, AllocError>
        ensures { IfOk result (λ r. r ≡ replicate count None) }
    {
        let mut cells = Vec::new(alloc);
        for done in 0..count {
            cells.push(None)?;
        }
        Ok(Row { cells })
    }

    /// Something stands for a partition, in place of what stood there.
    pub(crate) fn put(&mut self, part: usize, value: T)
        requires { part < length self.old }
        ensures { self.new ≡ set self.old part (Some value) }
    {
        self.cells[part] = Some(value);
    }

    /// Takes out what stands for a partition, if anything.
    pub(crate) fn take(&mut self, part: usize) -> Option<T>
        requires { part < length self.old }
        ensures out { result ≡ get_or self.old part None }
        ensures rest { self.new ≡ set self.old part None }
    {
        let cell = &mut self.cells[part];
        cell.take()
    }

    /// What stands for a partition, if anything.
    pub(crate) fn get(&self, part: usize) -> Option<&T>
        requires { part < length self.now }
        ensures some { IfSome result (λ value. get_or self.now part None ≡ Some value.now) }
        ensures none { IfNone result (get_or self.now part None ≡ None) }
    {
        let cell = &self.cells[part];
        cell.as_ref()
    }
}
