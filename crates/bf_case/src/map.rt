use bf_cells::Cells;
use bf_id::Id;
use bf_items::Items;

/// The leaves of a forest with their cells, at one time. They stand in rising order of their ids.
#[derive(Drop)]
pub struct Map {
    /// Cells along the edge of each leaf.
    pub side: u32,
    pub leaves: Items<(Id, Cells)>,
}
