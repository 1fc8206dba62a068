use std::collections::LinkedList;

/// What a seat knows. No value of it is made: contracts alone see it.
pub struct Known<E, N> {
    /// Whose calls the seat makes.
    pub parties: LinkedList<u32>,
    /// The name of the state.
    pub name: Option<N>,
    /// A beginning of the log.
    pub seen: LinkedList<E>,
    /// The entries that the seat has added.
    pub calls: LinkedList<E>,
    /// How often the seat has given the state back.
    pub passes: u64,
}
