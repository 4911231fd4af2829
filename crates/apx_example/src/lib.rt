//! The job of a generated example: what its files spell, and that none of them is refused.
//!
//! `apx_gen` makes the files of an example from a number and a size. Here stands, as definitions, which job they are, and as
//! a law that whoever judges them finds nothing to refuse. The function does nothing: it states the law in its contract.
#![tactic(auto)]

ghost use Rattle.apx_example.specs.Example.{ExamplesAreAccepted};

/// The files of each example with 1 to 200,000 lines are accepted, and spell its job.
pub fn examples_are_accepted()
    ensures { ExamplesAreAccepted }
{}
