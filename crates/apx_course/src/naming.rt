//! What names a run in contracts.

use std::marker::Brand;

/// The name of a run: what was fixed as it began. No value has it; a type does.
///
/// A caller that makes a course picks its run at the marker type `Brand`, so that no other course is of that run.
pub trait Naming {
    ghost use Rattle.apx_course.specs.Run.{Run};

    /// The plan of the run, where it began, and what its devices had counted by then.
    ghost run: { Run };
}

impl Naming for Brand {
    ghost use Rattle.apx_course.specs.Run.{no_run};

    ghost run = { no_run };
}
