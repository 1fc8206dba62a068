//! Where an own leaf likely stands, so that it is mostly found without a search.
use bf_block::Memory;
use bf_id::Id;
use std::alloc::Global;

/// For each id a place among some leaves: mostly that of the leaf which has the id, if one has. It may be any place, or
/// none, so whoever asks looks whether the leaf stands there.
#[derive(Drop)]
pub(crate) struct Hints {
    // The place of a leaf by its slot: the last one's, where several leaves have one slot.
    places: Vec<u32>,
}

// How many slots are made for so many leaves: a power of two, twice as many as there are leaves or more.
fn slots_for(leaves: usize) -> usize {
    leaves
        .saturating_mul(2)
        .checked_next_power_of_two()
        .unwrap_or(1)
}

// The slot of an id, of so many. Blocks of one level have theirs in a row, and each level begins an eighth of all slots
// after the next coarser one, so that leaves of two levels seldom share a slot.
fn slot_of(id: Id, slots: usize) -> usize {
    let number = id
        .octants()
        .iter()
        .fold(id.root() as usize, |number, octant| {
            number.wrapping_mul(8).wrapping_add(*octant as usize)
        });
    let first = (slots / 8).wrapping_mul(id.level() as usize);
    number.wrapping_add(first) & slots.wrapping_sub(1)
}

impl Hints {
    /// Hints at the places of some leaves.
    pub(crate) fn of(alloc: Global, leaves: &[Id]) -> Result<Hints, Memory> {
        let slots = slots_for(leaves.len());
        let mut places = vec![in alloc; 0u32; slots]?;
        for (place, id) in leaves.iter().enumerate() {
            let slot = slot_of(*id, slots);
            if slot < places.len() {
                places[slot] = u32::try_from(place).unwrap_or(0);
            }
        }
        Ok(Hints { places })
    }

    /// The place at which the leaf of an id likely stands.
    pub(crate) fn place_of(&self, id: Id) -> usize {
        let slot = slot_of(id, self.places.len());
        if slot < self.places.len() {
            self.places[slot] as usize
        } else {
            0
        }
    }
}
