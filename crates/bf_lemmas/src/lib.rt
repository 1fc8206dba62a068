//! Lemmas on tests and lists that several crates need and std lacks. There is no code.
//!
//! `proofs/Tests.antt` has those on tests, `proofs/Lists.antt` those on lists of anything.
#![tactic(auto)]
