//! The workers of a run: threads that do its events behind one lock.
//!
//! What a worker has open follows from its own entries alone, whatever the others add to the journal
//! (`specs/Own.antt`). So a worker that leaves the lock with a claim knows, when it enters again, that the window is
//! still open for it.
#![tactic(auto)]

pub use bench::Bench;
pub use hands::OpenWindow;
pub use laws::{claim_ends, claim_is_open, free_ends_none, open_stays, own_tells};
pub use shop::Shop;
pub use threads::run_threads;
pub use worker::work;

mod bench;
mod hands;
mod laws;
mod shop;
#[cfg(test)]
mod tests;
mod threads;
mod turns;
mod worker;
