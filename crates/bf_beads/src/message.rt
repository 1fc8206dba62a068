use crate::Bead;
use bf_items::Items;

/// What one rank sends another.
#[derive(Drop)]
pub enum BeadMessage {
    /// Beads as they are, which stay where they are.
    Told(Items<Bead>),
    /// Beads that go to the other.
    Moved(Items<Bead>),
    /// All beads of the sender, for its buddy alone.
    Copied(Option<Items<Bead>>),
}
