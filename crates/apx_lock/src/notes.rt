//! The smallest value that a lock keeps: a list of notes. It shows how such a value is written, and how a
//! thread changes it under its turn.
ghost use Rattle.std.specs.Prelude.{◌≡◌, ◌++◌, ◌∷◌, ◌⊎◌, [], true, false, OnOk, OnErr};
ghost use Rattle.apx_lock.specs.Seats.{IsSeatOf, IsTurnOf};
ghost use Rattle.apx_lock.specs.Steps.{IsSameSeat};

use crate::kept::Kept;
use crate::seat::Seat;
use crate::turn::Turn;
use std::alloc::{AllocError, Global};

/// A number that a thread wrote. It lets nothing go.
///
/// ```
/// let note = Note { by: 0, number: 5 };
/// ```
#[derive(Clone, Copy)]
pub struct Note {
    /// The number of the seat.
    pub by: u8,
    /// What was written.
    pub number: u32,
}

/// All notes, in the order in which they were written. The list is its own log, and has no name.
///
/// ```
/// let mut notes = Notes::new(alloc);
/// notes.add(Note { by: 0, number: 5 })?;
/// ```
#[derive(Drop)]
pub struct Notes {
    /// The notes.
    list: Vec<Note>,
}

impl Kept for Notes {
    type Name = ();

    type Entry = Note;

    ghost stands = { λ notes name log. notes.list.items ≡ log };

    ghost seat = { λ note. note.by };

    ghost bound = { λ note. 0 };

    ghost grows = { λ notes note next. next.list.items ≡ notes.list.items ++ note ∷ [] };

    fn count(&self) -> u64 {
        self.list.len() as u64
    }

    ghost use Rattle.std.proofs.Common.{ap, ◌∙◌};

    ghost one_more = { λ value next name log entry stands grows. grows ∙ ap (λ l. l ++ entry ∷ []) stands };
}

impl Notes {
    /// No note.
    pub fn new(alloc: Global) -> Notes
        ensures { result.list.items ≡ [] }
    {
        Notes {
            list: Vec::new(alloc),
        }
    }

    /// The notes so far.
    pub fn notes(&self) -> &[Note]
        ensures { result.now ≡ self.now.list.items }
    {
        self.list.as_slice()
    }

    /// Adds a note, or nothing where there is no memory.
    pub fn add(&mut self, note: Note) -> Result<(), AllocError>
        ensures ok { OnOk result (self.new.list.items ≡ self.old.list.items ++ note ∷ []) }
        ensures err { OnErr result (self.new.list.items ≡ self.old.list.items) }
        ensures change { (self.new.list.items ≡ self.old.list.items) ⊎ (self.new.list.items ≡ self.old.list.items ++ note ∷ []) }
    {
        self.list.push(note)?;
        Ok(())
    }
}

/// Writes a number under the turn, and gives the turn back. Where there is no memory nothing is written.
pub fn write_and_leave(mut turn: Turn<'_, Notes>, seat: &mut Seat<Notes>, number: u32)
    requires turn { IsTurnOf turn.lock.now.table.shared.table_id turn.lock.now.table.shared.key turn.base seat.old }
    requires holds { seat.old.view.holds ≡ true }
    requires value { turn.value.list.items ≡ seat.old.view.seen }
    ensures seat { IsSeatOf turn.entry.lock.now.table.shared.table_id turn.entry.lock.now.table.shared.key seat.new }
    ensures same { IsSameSeat seat.old.view seat.new.view }
    ensures idle { seat.new.view.holds ≡ false }
{
    let by = seat.number();
    let _ = turn.value().add(Note { by, number });
    turn.leave(seat);
}
