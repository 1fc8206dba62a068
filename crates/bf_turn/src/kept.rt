/// A value that is handed back, since there was no memory.
#[derive(Drop)]
pub struct Kept<T> {
    pub value: T,
}
