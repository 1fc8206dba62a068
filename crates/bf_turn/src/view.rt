use crate::known::Known;
use std::collections::LinkedList;

/// What the table keeps of a seat. No value of it is made.
pub struct View<E, N> {
    /// Whether the seat has the turn.
    pub turn: bool,
    /// Where two seats were joined, the shorter of what both had seen.
    pub past: LinkedList<E>,
    pub known: Known<E, N>,
}
