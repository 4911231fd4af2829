//! What a partition makes of one window, from blocks to blocks.
//!
//! [`work_window_of`] takes what the partition carries and the blocks of all partitions of its sources, and gives what it
//! carries on, its rows and its blocks. It calls no device.
#![tactic(auto)]

pub use window::{Done, PartId, plan_of, work_window, work_window_of};

mod closing;
mod operator;
mod payload;
mod port;
mod window;
