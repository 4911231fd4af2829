//! What a run does for a kill and for a repartition: what partitions carried is read back from their checkpoints, and what is kept
//! for them begins anew behind these.
//!
//! Neither call is an event. A caller takes the event's place before (`Stores::reserve`), and adds it behind the call
//! (`Stores::add`, `Stores::try_add`). Where a call meets a fault the run stops, and what is kept for partitions is no matter then.
#![tactic(auto)]

pub use kills::reset_tree;
pub use splits::renew_operator;

mod kills;
mod renewing;
mod restoring;
mod splits;
#[cfg(test)]
mod tests;
