use bf_ghost::Strip;
use bf_items::Items;
use bf_msg::LinkedBlock;
use bf_snap::Buffers;

/// What one rank holds.
#[derive(Drop)]
pub struct ForestLocal {
    pub(crate) rank: u32,
    /// Its own blocks, by rising id, each with its links.
    pub(crate) blocks: Items<LinkedBlock>,
    /// What its blocks were told in this step by those of other ranks.
    pub(crate) heard: Items<Strip>,
    /// The agreed snapshot, and from its round on the new one.
    pub(crate) buffers: Buffers<LinkedBlock>,
}
