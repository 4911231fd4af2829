//! What a run computes: definitions and laws, and no code.
//!
//! `specs/Lines.antt` cuts a file into lines and windows, and the files beside it say what one pass over
//! an application gives.
#![tactic(auto)]
