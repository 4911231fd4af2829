//! What the partitions of an operator carry and give: definitions and laws, and no code.
//!
//! `specs/Carried.antt` cuts and merges what is carried from window to window, `specs/Given.antt` says what a
//! partition makes of a window and what its blocks are, and `specs/Laws.antt` has the laws that tie the partitions to
//! the operator as a whole.
#![tactic(auto)]
