/// A value handed back by a call that found no memory.
#[derive(Debug, Drop)]
pub struct Kept<T> {
    pub value: T,
}
