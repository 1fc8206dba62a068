//! Laws over every order of events, each the contract of a call that does nothing.
//!
//! A state is reached where some journal leads to it from an opening; at each move of a journal the rank may stand at
//! any place whatever, so the laws hold of the places that real work gives.
ghost use Rattle.std.specs.Prelude.{◌≡◌, ◌↔◌, ℕ, IsTrue, Bool, List, Some, None, false, is_some};
ghost use Rattle.bf_buddy.specs.Members.{is_member};
ghost use Rattle.bf_core.specs.declared.event.Event.{Event};
ghost use Rattle.bf_core.specs.declared.outcome.Outcome.{Outcome};
ghost use Rattle.bf_core.specs.declared.outcome.Outcome.TheVariants.{Finished, Lost, Memory};
ghost use Rattle.bf_core.specs.declared.place.Place.{Place};
ghost use Rattle.bf_core.specs.Stages.{has_finished_rounds, goes_on};
ghost use Rattle.bf_core.specs.States.{State, stage, is_finished, first_lost};
ghost use Rattle.bf_core.specs.Legal.{actor, is_legal};
ghost use Rattle.bf_core.specs.declared.decision.Decision.TheVariants.{Commit, Restore};
ghost use Rattle.bf_core.specs.Next.{Decides, happened, next};
ghost use Rattle.bf_core.specs.Journals.{Move, are_legal, after};
ghost use Rattle.bf_core.specs.Orders.{AreInOrder, CanMove, IsReached};
ghost use Rattle.bf_core.specs.Laws.{IsFinal, LosesAt, OnlyLoses, remaining, DecidesWhole, SomebodyWants, AllAreDone, SomebodyIsUndone};

use bf_buddy::laws::nothing_is_lost_where_holders_live;

/// The decision that ends the run is the last: no later event decides anything, and the outcome and the epoch stay.
#[tactic(auto, using(crate::proofs::LawLemmas::end_stays))]
pub fn an_end_is_final()
    ensures { (state : State) (moves : List Move) (outcome : Outcome) → state.outcome ≡ Some outcome → IsFinal state moves outcome }
{}

/// A commit is decided only where every member lives and has arrived with all rounds done.
#[tactic(auto, using(crate::proofs::LawLemmas::commit_needs_all))]
pub fn a_commit_needs_everyone()
    ensures { (state : State) (event : Event) (place : Place) (filled : Bool) → IsReached state → IsTrue (is_legal state event place)
        → Decides state event filled Commit → (rank : ℕ) → IsTrue (is_member state.epoch.members rank)
        → IsTrue (has_finished_rounds (stage (happened state event filled) rank)) }
{}

/// A commit is decided exactly where, once every live member has arrived, no part of the agreed snapshot is lost and every
/// member has done all rounds.
#[tactic(auto, using(crate::proofs::DecideLemmas::commits_where))]
pub fn commit_exactly_where_all_are_done()
    ensures { (state : State) (event : Event) (place : Place) (filled : Bool) → IsReached state → IsTrue (is_legal state event place)
        → (Decides state event filled Commit ↔ (DecidesWhole state event filled × AllAreDone state.epoch.members (happened state event filled))) }
{}

/// A run ends Finished exactly where a commit is decided in the epoch that goes to the last step.
#[tactic(auto, using(crate::proofs::DecideLemmas::finishes_where))]
pub fn finished_exactly_where_all_are_done()
    ensures { (state : State) (event : Event) (place : Place) (filled : Bool) → IsReached state → IsTrue (is_legal state event place) → state.outcome ≡ None
        → ((next state event filled).outcome ≡ Some Finished
        ↔ (DecidesWhole state event filled × (AllAreDone state.epoch.members (happened state event filled) × (state.epoch.target ≡ state.steps)))) }
{}

/// A restore is decided exactly where, once every live member has arrived, no part of the agreed snapshot is lost, nobody
/// wants memory, and some member is dead or has not done all rounds.
#[tactic(auto, using(crate::proofs::DecideLemmas::restores_where))]
pub fn restore_exactly_where_some_are_undone()
    ensures { (state : State) (event : Event) (place : Place) (filled : Bool) → IsReached state → IsTrue (is_legal state event place)
        → (Decides state event filled Restore
        ↔ (DecidesWhole state event filled × ((SomebodyWants (happened state event filled) → ⊥) × SomebodyIsUndone state.epoch.members (happened state event filled)))) }
{}

/// A run ends for want of memory exactly where, once every live member has arrived, no part of the agreed snapshot is lost
/// and some member has arrived for want of memory.
#[tactic(auto, using(crate::proofs::DecideLemmas::wants_where))]
pub fn memory_exactly_where_wanting()
    ensures { (state : State) (event : Event) (filled : Bool) → state.outcome ≡ None
        → ((next state event filled).outcome ≡ Some Memory ↔ (DecidesWhole state event filled × SomebodyWants (happened state event filled))) }
{}

/// A run ends Lost exactly where, once every live member has arrived, both holders of some part of the agreed snapshot
/// are dead; the part named is that of the first such home.
pub fn lost_exactly_where_holders_died()
    ensures { (state : State) (event : Event) (filled : Bool) (time home buddy : ℕ) → state.outcome ≡ None
        → ((next state event filled).outcome ≡ Some (Lost time home buddy)) ↔ LosesAt state event filled time home buddy }
{}

/// Once both holders of a part have died, no commit and no restore comes, and no end but Lost.
pub fn nothing_but_loss_follows_a_loss()
    ensures { (state : State) (moves : List Move) → state.outcome ≡ None → IsTrue (is_some (first_lost state))
        → IsTrue (are_legal state moves) → OnlyLoses state (after state moves) }
{
    nothing_is_lost_where_holders_live();
}

/// A complete journal has an end, where some home of the agreed snapshot has a block.
pub fn a_complete_journal_has_an_end()
    ensures { (state : State) → IsReached state → IsTrue (is_finished state) → (home : ℕ) → IsTrue (is_member state.epoch.homes home)
        → IsTrue (is_member state.stored home) → IsTrue (is_some state.outcome) }
{
    nothing_is_lost_where_holders_live();
}

/// A rank that is dead or has left an ended run has no legal event.
#[tactic(auto, using(crate::proofs::LawLemmas::nothing_legal))]
pub fn the_dead_and_the_ended_do_nothing()
    ensures { (state : State) (event : Event) (place : Place) → goes_on (stage state (actor event)) ≡ false
        → is_legal state event place ≡ false }
{}

/// While the run goes on, the members are the ranks that have not died before the present epoch.
#[tactic(auto, using(crate::proofs::LawLemmas::members_remain))]
pub fn members_are_those_that_remain()
    ensures { (state : State) → IsReached state → state.outcome ≡ None → state.epoch.members ≡ remaining state }
{}

/// While some rank lives and has not ended, some rank is offered an event, where places are in order.
#[tactic(auto, using(crate::proofs::MoveLemmas::can_move))]
pub fn somebody_can_move()
    ensures { (state : State) (places : ℕ → Place) → IsReached state → AreInOrder state places → is_finished state ≡ false
        → CanMove state places }
{}
