// The rule that the table keeps, and what each step on it tells.
ghost use Rattle.std.specs.Prelude.{◌≡◌, ℕ};
ghost use Rattle.bf_turn.specs.Views.{first_view, left_view, right_view, joined_view, spent_view};
ghost use Rattle.bf_turn.specs.Order.{IsOrderly, Tried, Passed, Recalled};

use crate::logged::Logged;
use crate::view::View;
use atomic_table::{Join, Play, Split, TableRule};
use std::marker::{Brand, PhantomData};
use std::snapshot::Snapshot;

/// What the table is told once: the number of parties, and the state at first.
#[derive(Drop)]
pub struct Key<S> {
    pub parties: u32,
    pub first: Snapshot<S>,
}

// The rule.
pub struct InTurn<S>(PhantomData<S>);

impl<S: Logged> TableRule<Option<S>, View<S::Entry, S::Name>, Key<S>> for InTurn<S> {
    ghost holds = { λ key table. IsOrderly S.log S.name S.party key.parties (S.name key.first.value) table };

    ghost first = { λ key. first_view key.parties (S.name key.first.value) };
}

// Takes the turn, and the state with it.
pub struct Try;

impl<S: Logged> Play<Option<S>, View<S::Entry, S::Name>> for Try {
    ghost then = { λ step me found after. Tried S.log S.name S.party me found after };
}

// Gives the state back, and passes the turn on.
pub struct Pass;

impl<S: Logged> Play<Option<S>, View<S::Entry, S::Name>> for Pass {
    ghost then = { λ step me found after. Passed S.log me after };
}

// Tells that what was seen begins one log.
pub struct Recall;

impl<S: Logged> Play<Option<S>, View<S::Entry, S::Name>> for Recall {
    ghost then = { λ step me found after. Recalled me after };
}

/// A party that is picked.
pub trait Picked {
    ghost party: { ℕ };
}

impl Picked for Brand {
    ghost party = { 0 };
}

// Cuts the picked party off.
pub struct Cut<B>(PhantomData<B>);

impl<E, N, B: Picked> Split<View<E, N>> for Cut<B> {
    ghost left = { left_view B.party };

    ghost right = { right_view B.party };
}

// Puts two seats together.
pub struct Both;

impl<E, N> Join<View<E, N>> for Both {
    ghost both = { joined_view };

    ghost spent = { spent_view };
}
