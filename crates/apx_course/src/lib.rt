//! The course of a run: its machine, its journal and the fault that it keeps, as one value.
//!
//! This is the only place that writes a journal. A change is one event of the machine and one entry, or it is no
//! change; a fault is the event that stops the machine, and the course keeps what it was. So the journal is a
//! history of the run's plan, the machine is in the state after it, and the status that the machine stopped with is
//! that of the fault: `specs/Course.antt` says so of each course.
//!
//! The run that a course is of is named by a type (`Naming`), so that "of this run" holds by type.
#![tactic(auto)]

mod course;
mod faults;
mod naming;

pub use course::Course;
pub use faults::{CoreFault, Stopped};
pub use naming::Naming;

#[cfg(test)]
mod tests;
