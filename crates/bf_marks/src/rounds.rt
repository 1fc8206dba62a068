//! The flags of the own leaves after a round, by their places.
ghost use Rattle.std.specs.Prelude.{◌≡◌, length, map};
ghost use Rattle.bf_marks.specs.FlagFields.{with_flag};
ghost use Rattle.bf_marks.specs.Rounds.{forced_marks, may_marks, merging_marks};

use crate::flag::Flag;
use crate::has_links::HasLinks;
use crate::known::Known;

/// Which leaves are refined after a force round.
pub(crate) fn mark_forced<L: HasLinks>(next: &mut Vec<bool>, known: &Known, links: &[L])
    requires links { length links.now ≡ length known.now.leaves }
    requires room { length next.old.items ≡ length known.now.leaves }
    ensures marks { with_flag known.now.leaves next.new.items ≡ (forced_marks (map L.linked links.now) known.now).refined.own }
    ensures room { length next.new.items ≡ length known.now.leaves }
{
    for (place, id) in known.leaves().iter().enumerate() {
        next[place] = known.has_at(Flag::Refined, place) || known.is_forced(*id, &links[place]);
    }
}

/// Which leaves may merge after the round that finds out those of a level.
pub(crate) fn mark_may<L: HasLinks>(next: &mut Vec<bool>, known: &Known, links: &[L], level: u32)
    requires links { length links.now ≡ length known.now.leaves }
    requires room { length next.old.items ≡ length known.now.leaves }
    ensures marks { with_flag known.now.leaves next.new.items ≡ (may_marks level (map L.linked links.now) known.now).may.own }
    ensures room { length next.new.items ≡ length known.now.leaves }
{
    for (place, id) in known.leaves().iter().enumerate() {
        next[place] = if id.level() == level {
            known.may_merge(place, *id, &links[place])
        } else {
            known.has_at(Flag::May, place)
        };
    }
}

/// Which leaves merge after the round that finds out those of a level.
pub(crate) fn mark_merging(next: &mut Vec<bool>, known: &Known, level: u32)
    requires room { length next.old.items ≡ length known.now.leaves }
    ensures marks { with_flag known.now.leaves next.new.items ≡ (merging_marks level known.now).merging.own }
    ensures room { length next.new.items ≡ length known.now.leaves }
{
    for (place, id) in known.leaves().iter().enumerate() {
        next[place] = known.merges_after(level, place, *id);
    }
}
