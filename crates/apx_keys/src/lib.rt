//! Which keys the tuples of a run have: definitions and laws, and no code.
#![tactic(auto)]
