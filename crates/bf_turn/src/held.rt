use crate::logged::Logged;
use crate::view::View;
use std::marker::Model;

/// The turn, with the state. It is not let go but given back.
pub struct Held<S: Logged> {
    pub grip: Grip<S>,
    pub state: S,
}

/// The seat that has the turn.
pub struct Grip<S: Logged> {
    pub(crate) inner: atomic_table::Seat<Option<S>, View<S::Entry, S::Name>>,
}

impl<S: Logged> Model for Grip<S> {
    ghost use Rattle.bf_turn.specs.Seats.{Sitting};
    ghost use Rattle.bf_turn.specs.Views.{HasTurn};

    ghost Value = { Sitting S.Entry S.Name };

    ghost view = { λ g. record { lock = g.inner.table_id; known = g.inner.me.0.known } };

    ghost invariant = { λ g. HasTurn g.inner.me };
}
