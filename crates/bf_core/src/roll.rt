ghost use Rattle.std.specs.Prelude.{◌≡◌, ◌≤◌, ◌<◌, ◌+◌, ◌-◌, ◌^◌, ◌||◌, ◌==◌, IfOk, cond, length};
ghost use Rattle.std.specs.List.{list_any, list_all};
ghost use Rattle.std.specs.Map.{lookup};
ghost use Rattle.bf_core.specs.Rolls.{standing_in, with_stage_in, dissolved_in, opening_in, IsCounted};
ghost use Rattle.bf_core.specs.Stages.{is_awaited, is_short, is_dead, is_gone, goes_on, has_finished_rounds};

use crate::{Stage, Standing};
use bf_program::Memory;
use std::alloc::Global;
use std::marker::Model;

// How the ranks stand, with counts of those that decisions ask for.
#[derive(Drop)]
pub(crate) struct Roll {
    standings: Vec<Standing>,
    awaited: u32,
    dead: u32,
    short: u32,
    going: u32,
}

impl Model for Roll {
    ghost use Rattle.std.specs.Prelude.{List};
    ghost use Rattle.bf_core.specs.declared.standing.Standing.{Standing};
    ghost use Rattle.bf_core.specs.Rolls.{IsCounted};

    ghost Value = { List Standing };

    ghost view = { λ r. r.standings.items };

    ghost invariant = { λ r. IsCounted r.standings.items r.awaited r.dead r.short r.going };
}

// After how many events a rank dies, if it does.
fn death_of(dies: &[(u32, u32)], rank: u32) -> Option<u32>
    ensures { result ≡ lookup (λ other. other == rank) dies.now }
{
    for death in dies {
        if death.0 == rank {
            return Some(death.1);
        }
    }
    None
}

// A count in which one element passes or not that passed or not before.
fn recount(count: u32, was: bool, is: bool) -> u32
    requires some { cond was 1 0 ≤ count }
    requires few { count ≤ 32 }
    ensures { result + cond was 1 0 ≡ count + cond is 1 0 }
{
    count - u32::from(was) + u32::from(is)
}

// Each who has arrived must leave, and the dead are members no more.
fn dissolve_each(standings: &mut [Standing])
    ensures { standings.new ≡ dissolved_in standings.old }
{
    for standing in standings.iter_mut() {
        standing.stage = standing.stage.after_decision();
    }
}

impl Roll {
    // The roll at the opening.
    pub(crate) fn running(alloc: Global, ranks: u32, dies: &[(u32, u32)]) -> Result<Roll, Memory>
        requires { ranks ≤ 32 }
        ensures { IfOk result (λ roll. roll ≡ opening_in ranks dies.now) }
    {
        let mut standings = Vec::with_capacity(alloc, ranks as usize)?;
        for rank in 0..ranks {
            standings.push(Standing {
                stage: Stage::Running,
                death: death_of(dies, rank),
                events: 0,
            })?;
        }
        Ok(Roll {
            standings,
            awaited: ranks,
            dead: 0,
            short: 0,
            going: ranks,
        })
    }

    // How a rank stands.
    pub(crate) fn get(&self, rank: u32) -> Standing
        requires { rank < length self.now }
        ensures { result ≡ standing_in self.now rank }
    {
        self.standings[rank as usize]
    }

    // One event more of a rank, which is at this stage then.
    pub(crate) fn set(&mut self, rank: u32, stage: Stage)
        requires within { rank < length self.old }
        requires room { (standing_in self.old rank).events < 2 ^ 64 - 1 }
        ensures { self.new ≡ with_stage_in self.old rank stage }
    {
        let was = self.standings[rank as usize].stage;
        self.awaited = recount(self.awaited, was.is_awaited(), stage.is_awaited());
        self.dead = recount(self.dead, was.is_dead(), stage.is_dead());
        self.short = recount(self.short, was.is_short(), stage.is_short());
        self.going = recount(self.going, was.goes_on(), stage.goes_on());
        let standing = &mut self.standings[rank as usize];
        standing.stage = stage;
        standing.events += 1;
    }

    // The epoch is decided: who has arrived must leave, and the dead are members no more.
    pub(crate) fn dissolve(&mut self)
        ensures { self.new ≡ dissolved_in self.old }
    {
        dissolve_each(&mut self.standings);
        self.awaited = self.going;
        self.dead = 0;
        self.short = 0;
    }

    // Whether some live rank has not arrived.
    pub(crate) fn has_awaited(&self) -> bool
        ensures { result ≡ list_any (λ s. is_awaited s.stage) self.now }
    {
        self.awaited > 0
    }

    // Whether a member has died.
    pub(crate) fn has_dead(&self) -> bool
        ensures { result ≡ list_any (λ s. is_dead s.stage) self.now }
    {
        self.dead > 0
    }

    // Whether a member has arrived for want of memory.
    pub(crate) fn has_short(&self) -> bool
        ensures { result ≡ list_any (λ s. is_short s.stage) self.now }
    {
        self.short > 0
    }

    // Whether some rank goes on.
    pub(crate) fn has_going(&self) -> bool
        ensures { result ≡ list_any (λ s. goes_on s.stage) self.now }
    {
        self.going > 0
    }

    // Whether every member has done all rounds and arrived.
    pub(crate) fn is_done(&self) -> bool
        ensures { result ≡ list_all (λ s. is_gone s.stage || has_finished_rounds s.stage) self.now }
    {
        self.standings
            .iter()
            .all(|s| s.stage.is_gone() || s.stage.has_finished_rounds())
    }
}
