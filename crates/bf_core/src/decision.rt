/// How an epoch may be decided.
#[derive(Clone, Copy, Debug, PartialEq, Eq)]
pub enum Decision {
    /// Both holders of a home's part are dead.
    Lose { home: u32, buddy: u32 },
    /// A live member found no memory.
    WantMemory,
    /// Every member has done all rounds.
    Commit,
    /// The live members go back to the agreed snapshot.
    Restore,
}
