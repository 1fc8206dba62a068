//! One message a round.
ghost use Rattle.std.specs.Prelude.{◌≡◌, ◌%◌, ◌^◌, sum};
ghost use Rattle.bf_msg.specs.Messages.{measured, sum_of_blocks, sum_of_strips};

use crate::LinkedBlock;
use bf_ghost::{Strip, sum_of};
use bf_id::Id;
use bf_items::Items;
use bf_program::Measure;

/// What one rank sends another in a round.
#[derive(Drop)]
pub enum Message {
    /// What the sender's blocks tell those of the receiver that share a face with them, by the ids of the sender's blocks and
    /// then of the receiver's.
    Step(Items<Strip>),
    /// The sender's part of the new snapshot, for its buddy alone.
    Snapshot(Option<Items<LinkedBlock>>),
    /// Ids of those of the sender's leaves that are refined and that the receiver's leaves are linked with, rising.
    Force(Items<Id>),
    /// Ids of those of the sender's leaves of one level that may merge as far as their links tell, rising.
    May(Items<Id>),
    /// Ids of those of the sender's leaves of one level that merge, rising.
    Merges(Items<Id>),
}

// The sum of the cells of blocks.
fn sum_of_blocks(blocks: &[LinkedBlock]) -> u64
    ensures { result ≡ sum_of_blocks blocks.now % 2 ^ 64 }
{
    let mut sum = 0u64;
    for linked in blocks {
        sum = sum.wrapping_add(sum_of(linked.block.cells().values()));
    }
    sum
}

// The sum of what strips tell.
fn sum_of_strips(strips: &[Strip]) -> u64
    ensures { result ≡ sum_of_strips strips.now % 2 ^ 64 }
{
    let mut sum = 0u64;
    for strip in strips {
        sum = sum.wrapping_add(strip.sum());
    }
    sum
}

impl Message {
    /// How many whole blocks the message has, modulo 2^32, and the sum of all cells and values in it, modulo 2^64. What is
    /// empty, and a list of ids, has 0 of both.
    #[tactic(auto, unfolding(crate::specs::Messages::measured))]
    pub fn measure(&self) -> Measure
        ensures { result ≡ measured self.now }
    {
        match self {
            Message::Step(strips) => Measure {
                blocks: 0,
                sum: sum_of_strips(strips.as_slice()),
            },
            Message::Snapshot(Some(part)) => Measure {
                blocks: (part.len() % 4294967296) as u32,
                sum: sum_of_blocks(part.as_slice()),
            },
            Message::Snapshot(None) => Measure { blocks: 0, sum: 0 },
            Message::Force(_) | Message::May(_) | Message::Merges(_) => {
                Measure { blocks: 0, sum: 0 }
            }
        }
    }
}
