use bf_id::Id;

/// A leaf that touches another, and the rank that owns it.
#[derive(Clone, Copy, Debug, PartialEq, Eq)]
pub struct Link {
    pub id: Id,
    pub owner: u32,
}

/// A link for places that aren't filled yet.
impl Default for Link {
    fn default() -> Link {
        Link {
            id: Id::root_of(0),
            owner: 0,
        }
    }
}
