/// How a run ends.
#[derive(Clone, Copy, Debug, PartialEq, Eq)]
pub enum Outcome {
    /// The snapshot of the last step is agreed.
    Finished,
    /// Both holders of a part of the agreed snapshot are dead: the snapshot's time, the part's home, and its buddy.
    Lost { time: u32, home: u32, buddy: u32 },
    /// A live member found no memory.
    Memory,
}
