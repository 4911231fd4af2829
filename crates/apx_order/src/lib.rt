//! Orders, sorting and counting: definitions and laws over lists of any type, and no code.
//!
//! `specs/Sorted.antt` says what the sorted list of a list is, and `proofs/Sorting.antt` shows that
//! two ascending lists are one list where each member stands in them equally often.
#![tactic(auto)]
