//! Items that ranks keep in parts, each the items of the keys that a rank owns, in rising order, with copies in snapshots.
//!
//! All that can differ is who owns which key, and who is the home of which key of the agreed snapshot: a rank's part and
//! its side of the snapshot, which has its own part and that of the home whose buddy it is, are told by these. Each key
//! is in one part. Who is to hold a home's part has it; a restore gives each stored part to its heir and to no one else,
//! and a live rank then goes on with exactly its part by the heirs, in rising order, with dead owners in links replaced.
//!
//! A commit leads from told parts to told parts, where the new snapshot is of the leaves that the ranks have, and so does a
//! restore. Where that loses nothing, each leaf's heir is live and each filled home still has a live holder, so that
//! another may follow: all restores in a row go back to the one agreed snapshot.
#![tactic(auto)]

pub mod laws;
mod merging;
mod restore;
mod side;

pub use bf_items::Items;
pub use merging::{append, merge};
pub use restore::{Linked, heir, regained};
pub use side::{Side, gives, source_of};

#[cfg(test)]
mod tests;
