//! Programs whose rounds are stages, and whose locals are told by who owns what.
//!
//! Such a program says how its locals are told (a view of its items and snapshots, with work of its own beside it), which
//! leaves there are at each time, and of each stage of an epoch how it is played, how owners change and what its course
//! is. Two good vectors then differ only in who owns what, and who has what of the agreed snapshot. From a few small
//! records, of any local, of the ends of epochs, of pieces, and that each stage leads to the next, all laws of round
//! programs follow. A stage that is played on a part of the local, in which a rank is alone, in which the snapshot is
//! made, or in which items move, leads to the next by a lemma of its kind. Three laws more are for stages in which leaves
//! become others, as where they are refined and merge; they are for programs whose leaves regrid.
#![tactic(auto)]

pub mod laws;
mod spans;

pub use spans::span;
