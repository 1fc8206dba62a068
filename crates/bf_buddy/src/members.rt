ghost use Rattle.std.specs.Prelude.{◌≡◌, ◌≢◌, ◌<◌, ◌≤◌, IsTrue, All, length, slice_get, slice_index};
ghost use Rattle.std.specs.List.{range_with_len};
ghost use Rattle.std.specs.List.Sorted.{IsStrictlyIncreasing};
ghost use Rattle.bf_buddy.specs.Members.{is_member, place_in, with_member, without, has_bit, ranks_in};
ghost use Rattle.bf_buddy.specs.Buddy.{place_of, buddy_place, buddy_of, predecessor_place, predecessor_of};

use std::marker::Model;

/// A set of ranks below 32, which contracts see as the rising list of them.
#[derive(Clone, Copy)]
pub struct Members {
    bits: u32,
}

impl Model for Members {
    ghost use Rattle.std.specs.Prelude.{ℕ, List, ◌<◌, ◌^◌};
    ghost use Rattle.bf_buddy.specs.Members.{ranks_in, bits_of};
    ghost use Rattle.bf_buddy.specs.Bits.{bits_of-ranks_in};

    ghost Value = { List ℕ };

    ghost view = { λ m. ranks_in m.bits };

    ghost invariant = { λ m. m.bits < 2 ^ 32 };

    ghost inverse = { λ ranks. record { bits = bits_of ranks } };

    ghost inverse_ok = { λ m valid. Prim.rw (bits_of-ranks_in m.bits valid) };
}

// Whether the bit of a rank is 1.
#[tactic(auto, using(crate::proofs::BitLemmas::has_bit_test))]
fn has_bit(bits: u32, rank: u32) -> bool
    requires { rank < 32 }
    ensures { result ≡ has_bit bits rank }
{
    (bits >> rank) & 1 == 1
}

// How many bits are 1.
#[tactic(auto, using(crate::proofs::BitLemmas::ranks_steps))]
fn count_bits(bits: u32) -> u32
    ensures count { result ≡ length (ranks_in bits) }
    ensures within { result ≤ 32 }
{
    let mut count = 0;
    for rank in 0..32u32 {
        if has_bit(bits, rank) {
            count += 1;
        }
    }
    count
}

// The place of a rank among those whose bits are 1.
#[tactic(auto, using(crate::proofs::BitLemmas::place_steps))]
fn place_of_bit(bits: u32, rank: u32) -> Option<u32>
    ensures { result ≡ place_in (ranks_in bits) rank }
{
    let mut place = 0;
    for member in 0..32u32 {
        if has_bit(bits, member) {
            if member == rank {
                return Some(place);
            }
            place += 1;
        }
    }
    None
}

// The rank at a place among those whose bits are 1.
#[tactic(auto, using(crate::proofs::BitLemmas::at_steps))]
fn bit_at_place(bits: u32, place: u32) -> Option<u32>
    ensures { result ≡ slice_get (ranks_in bits) place }
{
    let mut left = place;
    for rank in 0..32u32 {
        if has_bit(bits, rank) {
            if left == 0 {
                return Some(rank);
            }
            left -= 1;
        }
    }
    None
}

// The place of the buddy of the member at a place.
#[tactic(auto, using(crate::proofs::BuddyLemmas::lone_buddy), unfolding(crate::specs::Buddy::buddy_place))]
fn place_of_buddy(count: u32, place: u32, shift: u32) -> u32
    requires place { place < count }
    requires count { count ≤ 32 }
    ensures place { result ≡ buddy_place count place shift }
    ensures within { result < count }
{
    if count == 1 {
        0
    } else {
        (place + 1 + shift % (count - 1)) % count
    }
}

// The place of the member whose buddy stands at a place.
#[tactic(auto, using(crate::proofs::BuddyLemmas::lone_predecessor), unfolding(crate::specs::Buddy::predecessor_place))]
fn place_of_predecessor(count: u32, place: u32, shift: u32) -> u32
    requires place { place < count }
    requires count { count ≤ 32 }
    ensures place { result ≡ predecessor_place count place shift }
    ensures within { result < count }
{
    if count == 1 {
        0
    } else {
        (place + (count - 1 - shift % (count - 1))) % count
    }
}

impl Members {
    /// The ranks below `ranks`.
    #[tactic(auto, using(crate::proofs::BitLemmas::ranks_of_ones, crate::proofs::BitLemmas::ones_fit))]
    pub fn all(ranks: u32) -> Self
        requires { ranks ≤ 32 }
        ensures { result ≡ range_with_len 0 ranks }
    {
        Members {
            bits: ((1u64 << ranks) - 1) as u32,
        }
    }

    // The bits of the members.
    pub(crate) fn bits(self) -> u32
        ensures { self ≡ ranks_in result }
    {
        self.bits
    }

    /// Whether a rank is a member.
    #[tactic(auto, using(crate::proofs::BitLemmas::member_steps))]
    pub fn has(self, rank: u32) -> bool
        ensures { result ≡ is_member self rank }
    {
        rank < 32 && has_bit(self.bits, rank)
    }

    /// How many members there are. They rise, and each is below 32.
    #[tactic(auto, using(crate::proofs::BitLemmas::rank_facts))]
    pub fn count(self) -> u32
        ensures count { result ≡ length self }
        ensures within { length self ≤ 32 }
        ensures rising { IsStrictlyIncreasing self }
        ensures below { All (λ rank. rank < 32) self }
    {
        count_bits(self.bits)
    }

    /// The members but this rank. A rank that is no member changes nothing.
    #[tactic(auto, using(crate::proofs::BitLemmas::without_steps))]
    pub fn without(self, rank: u32) -> Self
        ensures { result ≡ without self rank }
    {
        if rank < 32 {
            Members {
                bits: self.bits & !(1 << rank),
            }
        } else {
            self
        }
    }

    /// The members and one rank more. A member changes nothing.
    #[tactic(auto, using(crate::proofs::BitLemmas::with_steps))]
    pub fn with(self, rank: u32) -> Self
        requires { rank < 32 }
        ensures { result ≡ with_member self rank }
    {
        Members {
            bits: self.bits | (1 << rank),
        }
    }

    /// The place of a rank among the members, if it is one.
    pub fn place(self, rank: u32) -> Option<u32>
        ensures { result ≡ place_in self rank }
    {
        place_of_bit(self.bits, rank)
    }

    /// The member at a place, if there is one.
    pub fn at(self, place: u32) -> Option<u32>
        ensures { result ≡ slice_get self place }
    {
        bit_at_place(self.bits, place)
    }

    // The place of a member.
    #[tactic(auto, using(crate::proofs::BuddyLemmas::place_facts))]
    fn place_of_member(self, rank: u32) -> u32
        requires { IsTrue (is_member self rank) }
        ensures place { result ≡ place_of self rank }
        ensures within { result < length self }
    {
        match self.place(rank) {
            Some(place) => place,
            None => unreachable!(),
        }
    }

    // The member at a place where there is one.
    #[tactic(auto, using(crate::proofs::BuddyLemmas::at_facts))]
    fn member_at(self, place: u32) -> u32
        requires { place < length self }
        ensures rank { result ≡ slice_index self place }
        ensures member { IsTrue (is_member self result) }
    {
        match self.at(place) {
            Some(rank) => rank,
            None => unreachable!(),
        }
    }

    /// The member that keeps a second copy of a member's part. It stands `1 + shift mod (count - 1)` places on, round
    /// the end; a lone member is its own buddy.
    #[tactic(auto, using(crate::proofs::LawLemmas::buddy_facts))]
    pub fn buddy(self, rank: u32, shift: u32) -> u32
        requires { IsTrue (is_member self rank) }
        ensures buddy { result ≡ buddy_of self rank shift }
        ensures member { IsTrue (is_member self result) }
        ensures another { 2 ≤ length self → result ≢ rank }
        ensures back { predecessor_of self result shift ≡ rank }
    {
        let place = self.place_of_member(rank);
        self.member_at(place_of_buddy(self.count(), place, shift))
    }

    /// The member whose buddy a member is.
    #[tactic(auto, using(crate::proofs::LawLemmas::predecessor_facts))]
    pub fn predecessor(self, rank: u32, shift: u32) -> u32
        requires { IsTrue (is_member self rank) }
        ensures predecessor { result ≡ predecessor_of self rank shift }
        ensures member { IsTrue (is_member self result) }
        ensures back { buddy_of self result shift ≡ rank }
    {
        let place = self.place_of_member(rank);
        self.member_at(place_of_predecessor(self.count(), place, shift))
    }
}
