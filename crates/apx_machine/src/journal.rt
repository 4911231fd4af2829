//! The journal of a run.
ghost use Rattle.std.specs.Prelude.{◌≡◌, [], ◌∷◌, ◌++◌, IfOk, OnOk, OnErr};

use apx_history::Entry;
use std::alloc::{AllocError, Global};
use std::marker::Model;

/// A run has many entries: each is small.
const _: () = prove!(size_of::<Entry>() <= 16);

/// What happened in a run, in order, each entry with the worker who did it.
///
/// ```text
/// let mut journal = Journal::new(alloc);
/// journal.add(Entry { worker: 0, event: Event::Start { op: 0, part: 0, window: 1 } })?;
/// ```
#[derive(Debug, Drop)]
pub struct Journal {
    /// What happened, the first first.
    entries: Vec<Entry>,
}

impl Model for Journal {
    ghost use Rattle.std.specs.Prelude.{List};
    ghost use Rattle.apx_history.specs.declared.Entry as entry;

    ghost Value = { List entry.Entry };

    ghost view = { λ j. j.entries.items };
}

impl Journal {
    /// The journal of a run in which nothing has happened.
    pub fn new(alloc: Global) -> Journal
        ensures { result ≡ [] }
    {
        Journal {
            entries: Vec::new(alloc),
        }
    }

    /// The journal of a run in which this happened, in this order.
    pub fn of(entries: Vec<Entry>) -> Journal
        ensures { result ≡ entries.items }
    {
        Journal { entries }
    }

    /// Adds what happened next. For want of memory the journal stays as it is.
    pub fn add(&mut self, entry: Entry) -> Result<(), AllocError>
        ensures ok { OnOk result (self.new ≡ self.old ++ entry ∷ []) }
        ensures err { OnErr result (self.new ≡ self.old) }
    {
        self.entries.push(entry)?;
        Ok(())
    }

    /// Its entries, in order.
    pub fn entries(&self) -> &[Entry]
        ensures { result.now ≡ self.now }
    {
        &self.entries
    }
}
