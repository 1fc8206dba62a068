//! Who owns which pieces of the domain, in every order of events.
//!
//! A rank owns what its local holds, what the messages hold that wait for it, and what the parcel holds that it has given.
//! Nothing here runs: the laws say of every journal of every round program that no unit of the domain ever has two live owners,
//! and that each has exactly one while every member lives and has memory, and once the run has finished.
#![tactic(auto)]

pub mod laws;
