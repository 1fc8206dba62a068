//! What a rank finds out at the end of a round, where that is more than one call of its marks.
ghost use Rattle.std.specs.Prelude.{◌≡◌, ℕ, length, map};
ghost use Rattle.bf_mark_rounds.specs.Plays.{last_force_play, merges_play};

use bf_marks::{HasLinks, Marks};

/// Ends the last force round of a case with so many levels: it is found, too, which leaves of the finest level may merge.
/// The links are those of the own leaves, in the order of these.
pub fn end_last_force_round<L: HasLinks>(marks: &mut Marks, links: &[L], levels: u32)
    requires { length links.now ≡ length marks.old.leaves }
    ensures { (rank : ℕ)
        → marks.new ≡ ((last_force_play levels).finish (record { rank = rank; links = map L.linked links.now; marks = marks.old })).marks }
{
    marks.force_round(links);
    marks.may_round(links, levels);
}

/// Ends the round in which it was told which leaves merge of the level after this one: it is found which of this level may.
/// At level 0 there is nothing more to find. The links are those of the own leaves, in the order of these.
pub fn end_merges_round<L: HasLinks>(marks: &mut Marks, links: &[L], before: u32)
    requires { length links.now ≡ length marks.old.leaves }
    ensures { (rank : ℕ)
        → marks.new ≡ ((merges_play before).finish (record { rank = rank; links = map L.linked links.now; marks = marks.old })).marks }
{
    if 0 < before {
        marks.may_round(links, before);
    }
}
