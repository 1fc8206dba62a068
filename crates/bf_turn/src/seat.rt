use crate::logged::Logged;
use crate::view::View;
use std::marker::Model;

/// The right to take turns for some parties.
#[derive(Drop)]
pub struct Seat<S: Logged> {
    pub(crate) inner: atomic_table::Seat<Option<S>, View<S::Entry, S::Name>>,
}

impl<S: Logged> Model for Seat<S> {
    ghost use Rattle.bf_turn.specs.Seats.{Sitting};
    ghost use Rattle.bf_turn.specs.Views.{IsAtRest};

    ghost Value = { Sitting S.Entry S.Name };

    ghost view = { λ s. record { lock = s.inner.table_id; known = s.inner.me.0.known } };

    ghost invariant = { λ s. IsAtRest s.inner.me };
}
