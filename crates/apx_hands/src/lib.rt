//! What a driver holds between the begin and the end of a window: a table with a place for each partition, and how it goes with
//! what the machine has open.
//!
//! `specs/Opened.antt` says what an event opens and closes, and when a table covers what is open. The functions of this file
//! do nothing: each states a law in its contract.
#![tactic(auto)]

ghost use Rattle.apx_hands.specs.Opened.{OpensByStart, Closes};

pub use table::Table;

mod row;
mod table;
#[cfg(test)]
mod tests;

/// A window that is open behind an event was open before it, or the event is its Start.
pub fn opens_by_start()
    ensures { OpensByStart }
{}

/// A Finish and a Kill close their partition.
pub fn closes()
    ensures { Closes }
{}
