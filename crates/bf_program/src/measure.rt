/// What a message weighs.
#[derive(Clone, Copy, Debug, PartialEq, Eq)]
pub struct Measure {
    /// How many whole blocks it has, modulo 2^32.
    pub blocks: u32,
    /// The sum of its cell values, modulo 2^64.
    pub sum: u64,
}
