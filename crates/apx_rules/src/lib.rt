//! What operators do: definitions and laws, and no code.
//!
//! `specs/Rule.antt` says for each kind of operator what becomes of one key in one window, and
//! `specs/Step.antt` what that makes of a whole window. `specs/Parts.antt` says what the partitions of an
//! operator own and make together.
#![tactic(auto)]
