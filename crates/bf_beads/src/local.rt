use crate::Bead;
use bf_items::Items;
use bf_parts::Side;

/// What one rank holds.
#[derive(Drop)]
pub struct BeadLocal {
    pub rank: u32,
    /// Its own beads in rising order.
    pub beads: Items<Bead>,
    /// What its neighbours told of theirs in this step.
    pub heard: Items<Bead>,
    /// The agreed snapshot.
    pub active: Side<Bead>,
    /// The new snapshot, from its round on.
    pub spare: Side<Bead>,
}
