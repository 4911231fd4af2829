//! The table.
ghost use Rattle.std.specs.Prelude.{◌≡◌, ◌<◌, Option, Some, None, length, get_or, IfOk, IfSome, IfNone};
ghost use Rattle.apx_hands.specs.Table.{empty, cell, put_cell, IsTable};

use crate::row::Row;
use std::alloc::{AllocError, Global};
use std::marker::Model;

/// How many operators a job has at most.
const OPERATORS: usize = 16;

/// How many partitions an operator has at most.
const PARTITIONS: usize = 8;

/// A table with a place for each partition that a job can have. All its places are taken as it is made, so that nothing wants
/// memory later.
///
/// ```text
/// let mut table = Table::new(alloc)?;
/// table.put(1, 0, hand);
/// let hand = table.take(1, 0);
/// ```
#[derive(Drop)]
pub struct Table<T> {
    /// The places of each operator's partitions.
    rows: Vec<Row<T>>,
}

impl<T> Model for Table<T> {
    ghost use Rattle.std.specs.Prelude.{List, Option};
    ghost use Rattle.apx_hands.specs.Table.{IsTable};

    ghost Value = { List (List (Option T)) };

    ghost view = { λ t. t.rows.items };

    ghost invariant = { λ t. IsTable t.rows.items };
}

impl<T: Drop> Table<T> {
    /// An empty table.
    pub fn new(alloc: Global) -> Result<Table<T>, AllocError>
        ensures { IfOk result (λ t. t ≡ empty) }
    {
        let mut rows = Vec::new(alloc);
        for done in 0..OPERATORS {
            rows.push(Row::new(alloc, PARTITIONS)?)?;
        }
        Ok(Table { rows })
    }

    /// Something stands for a partition, in place of what stood there.
    pub fn put(&mut self, op: u16, part: u8, value: T)
        requires op { op < 16 }
        requires part { part < 8 }
        ensures { self.new ≡ put_cell self.old op part (Some value) }
    {
        let row = &mut self.rows[op as usize];
        row.put(part as usize, value);
    }

    /// Takes out what stands for a partition, if anything.
    pub fn take(&mut self, op: u16, part: u8) -> Option<T>
        requires op { op < 16 }
        requires part { part < 8 }
        ensures out { result ≡ cell self.old op part }
        ensures rest { self.new ≡ put_cell self.old op part None }
    {
        let row = &mut self.rows[op as usize];
        row.take(part as usize)
    }

    /// What stands for a partition, if anything.
    pub fn get(&self, op: u16, part: u8) -> Option<&T>
        requires op { op < 16 }
        requires part { part < 8 }
        ensures some { IfSome result (λ value. cell self.now op part ≡ Some value.now) }
        ensures none { IfNone result (cell self.now op part ≡ None) }
    {
        let row = &self.rows[op as usize];
        row.get(part as usize)
    }

    /// What is known of each table: it has all its places.
    pub fn facts(&self)
        ensures { IsTable self.now }
    {
        let _ = &self.rows;
    }
}
