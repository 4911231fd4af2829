//! Causes of faults, and what calls may leave to a crash: definitions and laws, and no code.
//!
//! `specs/Cause.antt` says when a device may tell a fault: where its count of faults rose.
//! `specs/Steps.antt` says what calls do to the contents that a crash might have left. Both compose:
//! `proofs/Causes.antt` and `proofs/Going.antt` have the laws from one call to a run of calls.
#![tactic(auto)]
