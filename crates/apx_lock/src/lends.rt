//! The value of a turn. Its clause names the row of `TurnOver`, which the file that declares it can't import.
ghost use Rattle.std.specs.Prelude.{◌≡◌};
ghost use types.Logic.{sem};
ghost use denote.Follow.{follows};
ghost use Rattle.apx_lock.specs.contracts.turn.TurnOver.{the_row};
ghost use Rattle.apx_lock.specs.Lent.{turn_with};

use crate::turn::TurnOver;

impl<L, V> TurnOver<L, V> {
    /// The value under the turn. When the borrow ends, the turn has what was written through it.
    pub fn value(&mut self) -> &mut V
        ensures* lends { sem 𝓛 (follows (the_row L.row V.row) V.row self.entry.ghost_name result.ghost_name (turn_with self.old)) }
        ensures value { result.now ≡ self.old.value }
    {
        &mut self.value
    }
}
