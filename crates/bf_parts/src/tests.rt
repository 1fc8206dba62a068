//! Who has whose copy beside a dead one of three, what a rank goes on with, and lists merged.
ghost use Rattle.std.specs.Prelude.{IsTrue, IfOk, All};
ghost use Rattle.bf_buddy.specs.Members.{is_member};
ghost use Rattle.bf_parts.specs.declared.tests.Knot.{Knot};

use crate::{Linked, Side, gives, heir, merge, regained, source_of};
use bf_buddy::Members;
use bf_items::Items;
use bf_program::Memory;
use std::alloc::Global;
use std::process::Abort;
use std::test::Fail;

#[test]
fn without_one_of_three_the_others_have_each_others_copies(rt: HostRuntime) -> Result<(), Fail> {
    let two = Members::all(3).without(1);
    assert!(rt; gives(two, 0, 2, 0));
    assert!(rt; !gives(two, 0, 1, 2));
    assert_eq!(rt; source_of(two, 0, 0), 2);
    assert_eq!(rt; source_of(two, 0, 1), 1);
    Ok(())
}

/// A numbered knot, tied to one that a rank owns.
#[derive(Clone, Copy)]
struct Knot {
    number: u32,
    owner: u32,
}

impl Linked for Knot {
    ghost use Rattle.std.specs.Prelude.{ℕ, List, nat_lt, IsTrue};
    ghost use Rattle.bf_buddy.specs.Members.{is_member};
    ghost use Rattle.bf_parts.specs.declared.tests.Knot.{Knot};

    ghost kind = { record { first = λ (a : Knot). λ (b : Knot). nat_lt a.number b.number; remap = λ (f : ℕ → ℕ). λ (knot : Knot). record knot { owner = f knot.owner } } };

    ghost is_among = { λ (homes : List ℕ). λ (knot : Knot). IsTrue (is_member homes knot.owner) };

    fn comes_first(&self, other: &Self) -> bool {
        self.number < other.number
    }

    fn with_heirs(
        &self,
        _: Global,
        homes: Members,
        live: Members,
        shift: u32,
    ) -> Result<Self, Memory> {
        Ok(Knot {
            number: self.number,
            owner: heir(homes, live, shift, self.owner),
        })
    }
}

// Knots in this order, each of which a home has to own.
fn knots(
    rt: &impl Abort,
    alloc: Global,
    homes: Members,
    ties: &[(u32, u32)],
) -> Result<Items<Knot>, Memory>
    ensures { IfOk result (λ items. All (λ (knot : Knot). IsTrue (is_member homes knot.owner)) items) }
{
    let mut all = Vec::new(alloc);
    for (number, owner) in ties {
        if homes.has(*owner) {
            all.push(Knot {
                number: *number,
                owner: *owner,
            })?;
        }
    }
    assert_eq!(rt; all.len(), ties.len());
    Ok(Items::of(all))
}

// The numbers and owners of knots, in their order.
fn ties_of(alloc: Global, knots: &Items<Knot>) -> Result<Vec<(u32, u32)>, Memory> {
    let mut all = Vec::new(alloc);
    for knot in knots.as_slice() {
        all.push((knot.number, knot.owner))?;
    }
    Ok(all)
}

// What rank 1 of three goes on with, whose predecessor is rank 0.
fn gone_on(rt: &impl Abort, alloc: Global, live: Members) -> Result<Vec<(u32, u32)>, Memory> {
    let homes = Members::all(3);
    let side = Side {
        time: 7,
        homes,
        source: 0,
        own: knots(rt, alloc, homes, &[(2, 0), (5, 2)])?,
        other: knots(rt, alloc, homes, &[(1, 1), (4, 0), (7, 2)])?,
    };
    ties_of(alloc, &regained(alloc, &side, live, 0)?)
}

#[test]
fn beside_a_dead_predecessor_both_parts_are_merged(rt: HostRuntime) -> Result<(), Fail> {
    let all = gone_on(&rt, rt.alloc(), Members::all(3).without(0))?;
    assert_eq!(rt;
        all.as_slice(),
        [(1, 1), (2, 1), (4, 1), (5, 2), (7, 2)].as_slice()
    );
    Ok(())
}

#[test]
fn beside_a_live_predecessor_a_rank_keeps_its_own(rt: HostRuntime) -> Result<(), Fail> {
    let all = gone_on(&rt, rt.alloc(), Members::all(3).without(2))?;
    assert_eq!(rt; all.as_slice(), [(2, 0), (5, 0)].as_slice());
    Ok(())
}

#[test]
fn with_another_shift_another_goes_on(rt: HostRuntime) {
    let homes = Members::all(3);
    assert_eq!(rt; heir(homes, homes.without(0), 0, 0), 1);
    assert_eq!(rt; heir(homes, homes.without(0), 1, 0), 2);
    assert_eq!(rt; heir(homes, homes.without(0), 1, 1), 1);
}

#[test]
fn two_lists_are_merged_in_their_order(rt: HostRuntime) -> Result<(), Fail> {
    let homes = Members::all(3);
    let own = knots(&rt, rt.alloc(), homes, &[(1, 0), (6, 0)])?;
    let other = knots(&rt, rt.alloc(), homes, &[(2, 1), (4, 1), (9, 1)])?;
    let both = ties_of(rt.alloc(), &merge(rt.alloc(), own, other)?)?;
    assert_eq!(rt;
        both.as_slice(),
        [(1, 0), (2, 1), (4, 1), (6, 0), (9, 1)].as_slice()
    );
    Ok(())
}
