/// What is found out of a leaf in rounds.
#[derive(Clone, Copy, Debug, PartialEq, Eq)]
pub enum Flag {
    /// It wishes to be refined, or a refined leaf one level finer forces it.
    Refined,
    /// By itself and the leaves that touch it, it may merge with its seven siblings.
    May,
    /// It merges with its seven siblings, since all eight may.
    Merges,
}
