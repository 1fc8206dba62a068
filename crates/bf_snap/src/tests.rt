//! What rank 1 of three goes back to while a new snapshot is made, and after the swap. Its predecessor is rank 0.
ghost use Rattle.std.specs.Prelude.{◌≡◌, IsTrue, IfOk, All};
ghost use Rattle.bf_buddy.specs.Members.{is_member};
ghost use Rattle.bf_snap.specs.declared.tests.Knot.{Knot};

use crate::Buffers;
use bf_buddy::Members;
use bf_items::Items;
use bf_parts::{Linked, Side, heir};
use bf_program::Memory;
use std::alloc::Global;
use std::process::Abort;
use std::test::Fail;

/// A numbered knot, tied to one that a rank owns.
#[derive(Clone, Copy)]
struct Knot {
    number: u32,
    owner: u32,
}

impl Linked for Knot {
    ghost use Rattle.std.specs.Prelude.{ℕ, List, nat_lt, IsTrue};
    ghost use Rattle.bf_buddy.specs.Members.{is_member};
    ghost use Rattle.bf_snap.specs.declared.tests.Knot.{Knot};

    ghost kind = { record { first = λ (a : Knot). λ (b : Knot). nat_lt a.number b.number; remap = λ (f : ℕ → ℕ). λ (knot : Knot). record knot { owner = f knot.owner } } };

    ghost is_among = { λ (homes : List ℕ). λ (knot : Knot). IsTrue (is_member homes knot.owner) };

    fn comes_first(&self, other: &Self) -> bool {
        self.number < other.number
    }

    fn with_heirs(
        &self,
        _: Global,
        homes: Members,
        live: Members,
        shift: u32,
    ) -> Result<Self, Memory> {
        Ok(Knot {
            number: self.number,
            owner: heir(homes, live, shift, self.owner),
        })
    }
}

// Knots in this order, each of which a home has to own.
fn knots(
    rt: &impl Abort,
    alloc: Global,
    homes: Members,
    ties: &[(u32, u32)],
) -> Result<Items<Knot>, Memory>
    ensures { IfOk result (λ items. All (λ (knot : Knot). IsTrue (is_member homes knot.owner)) items) }
{
    let mut all = Vec::new(alloc);
    for (number, owner) in ties {
        if homes.has(*owner) {
            all.push(Knot {
                number: *number,
                owner: *owner,
            })?;
        }
    }
    assert_eq!(rt; all.len(), ties.len());
    Ok(Items::of(all))
}

// The numbers and owners of knots, in their order.
fn ties_of(alloc: Global, knots: &Items<Knot>) -> Result<Vec<(u32, u32)>, Memory> {
    let mut all = Vec::new(alloc);
    for knot in knots.as_slice() {
        all.push((knot.number, knot.owner))?;
    }
    Ok(all)
}

// The agreed snapshot of time 7.
fn agreed(rt: &impl Abort, alloc: Global, homes: Members) -> Result<Side<Knot>, Memory>
    ensures homes { IfOk result (λ side. side.homes ≡ homes) }
    ensures own { IfOk result (λ side. All (λ (knot : Knot). IsTrue (is_member homes knot.owner)) side.own) }
    ensures other { IfOk result (λ side. All (λ (knot : Knot). IsTrue (is_member homes knot.owner)) side.other) }
{
    Ok(Side {
        time: 7,
        homes,
        source: 0,
        own: knots(rt, alloc, homes, &[(2, 0), (5, 2)])?,
        other: knots(rt, alloc, homes, &[(1, 1), (4, 0)])?,
    })
}

#[test]
fn until_the_swap_a_restore_gives_the_old_snapshot(rt: HostRuntime) -> Result<(), Fail> {
    let homes = Members::all(3);
    let alloc = rt.alloc();
    let mut buffers = Buffers::first(alloc, agreed(&rt, alloc, homes)?);
    assert!(rt; !buffers.is_filled());
    buffers.hear_other(knots(&rt, alloc, homes, &[(3, 0)])?);
    buffers.write_spare(9, homes, 0, knots(&rt, alloc, homes, &[(6, 1)])?);
    assert!(rt; buffers.is_filled());
    assert_eq!(rt; buffers.active().time, 7);
    let all = buffers.restore(alloc, homes.without(0), 0)?;
    assert_eq!(rt;
        ties_of(alloc, &all)?.as_slice(),
        [(1, 1), (2, 1), (4, 1), (5, 2)].as_slice()
    );
    Ok(())
}

#[test]
fn after_the_swap_a_restore_gives_the_new_snapshot(rt: HostRuntime) -> Result<(), Fail> {
    let homes = Members::all(3);
    let alloc = rt.alloc();
    let mut buffers = Buffers::first(alloc, agreed(&rt, alloc, homes)?);
    buffers.hear_other(knots(&rt, alloc, homes, &[(3, 0), (8, 2)])?);
    buffers.write_spare(9, homes, 0, knots(&rt, alloc, homes, &[(6, 1)])?);
    buffers.swap();
    assert!(rt; !buffers.is_filled());
    assert_eq!(rt; buffers.active().time, 9);
    let all = buffers.restore(alloc, homes.without(0), 0)?;
    assert_eq!(rt;
        ties_of(alloc, &all)?.as_slice(),
        [(3, 1), (6, 1), (8, 2)].as_slice()
    );
    Ok(())
}

#[test]
fn a_new_snapshot_that_is_let_go_leaves_the_old_one(rt: HostRuntime) -> Result<(), Fail> {
    let homes = Members::all(3);
    let alloc = rt.alloc();
    let mut buffers = Buffers::first(alloc, agreed(&rt, alloc, homes)?);
    buffers.hear_other(knots(&rt, alloc, homes, &[(3, 0)])?);
    buffers.write_spare(9, homes, 0, knots(&rt, alloc, homes, &[(6, 1)])?);
    buffers.clear_spare();
    assert!(rt; !buffers.is_filled());
    let all = buffers.restore(alloc, homes.without(2), 0)?;
    assert_eq!(rt;
        ties_of(alloc, &all)?.as_slice(),
        [(2, 0), (5, 0)].as_slice()
    );
    Ok(())
}
