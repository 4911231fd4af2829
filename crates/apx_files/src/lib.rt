//! The system's files and streams as devices: a folder, an output, a disk and a maker of spools.
//!
//! They tell no content: that a file gives what it holds, and takes what is written, is taken from the system.
#![tactic(auto)]

mod disk;
mod folder;
mod out;
mod places;
mod spools;

pub use disk::FileDisk;
pub use folder::{RealFolder, read_opened, unopened};
pub use out::RealOut;
pub use spools::{FileFault, FileSpool, FileSpools};

#[cfg(test)]
mod tests;
