//! A lock whose value stands for a log, with marks that bound what may leave it. Each thread enters with a
//! seat of its own; a turn changes the value by one entry of that seat, or by none.
#![tactic(auto)]

pub use kept::Kept;
pub use lock::MarkLock;
pub use notes::{Note, Notes, write_and_leave};
pub use rule::Terms;
pub use seat::{Seat, SeatOver};
pub use turn::{Turn, TurnOver};
pub use view::{Mark, Part, View};

mod handing;
mod kept;
mod lends;
mod lock;
mod making;
mod notes;
mod plays;
mod rule;
mod seat;
#[cfg(test)]
mod tests;
mod turn;
mod view;
