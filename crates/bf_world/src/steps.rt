ghost use Rattle.std.specs.Prelude.{◌≡◌, ℕ, ◌<◌, ◌≤◌, ◌+◌, ◌*◌, not, ◌==◌, [], ◌∷◌, ◌++◌, ◌-◌, ◌^◌, length, filter, IfOk, IfErr, OnOk, OnErr, if◌then◌else◌};
ghost use Rattle.bf_core.specs.Stages.{is_arrived};
ghost use Rattle.bf_core.specs.States.{stage, standing, queue};
ghost use Rattle.bf_core.specs.Legal.{actor, IsLegalSomewhere};
ghost use Rattle.bf_core.specs.Next.{next};
ghost use Rattle.bf_world.specs.Settled.{is_decided, is_restored, waiting_settled, parcels_settled, restores_settled, given};

use crate::journal::Journal;
use crate::queues::Queues;
use bf_core::{CoreState, Event, Stage};
use bf_program::{Kept, Memory, RankProgram};
use std::alloc::Global;

/// How many events the journal has memory for once it has room for one more than may have to follow.
pub(crate) fn room_for<M: Drop>(queues: &Queues<M>) -> usize
    ensures { result ≡ 3 * queues.now.ranks + 1 }
{
    3 * queues.ranks() as usize + 1
}

/// One legal event, for which the journal has room.
pub(crate) fn step(core: &mut CoreState, journal: &mut Journal, event: Event, filled: bool)
    requires legal { IsLegalSomewhere core.old event }
    requires events { (standing core.old (actor event)).events ≤ length journal.old.events }
    requires queues { (from to : ℕ) → queue core.old from to ≤ length journal.old.events }
    requires room { 0 < journal.old.room }
    ensures core { core.new ≡ next core.old event filled }
    ensures events { journal.new.events ≡ journal.old.events ++ event ∷ [] }
    ensures room { journal.new.room + 1 ≡ journal.old.room }
{
    // its contract bounds all counts
    let _ = journal.len();
    core.apply(event, filled);
    journal.note(event);
}

// Whether the last arrival or death, that of this rank, brought a decision.
fn is_decided(core: &CoreState, rank: u32) -> bool
    requires { rank < core.now.ranks }
    ensures { result ≡ is_decided core.now rank }
{
    match core.stage(rank) {
        Stage::Arrived { .. } | Stage::Dead => false,
        _ => true,
    }
}

// Whether the run goes on from a restore.
fn is_restored(core: &CoreState) -> bool
    ensures { result ≡ is_restored core.now }
{
    core.outcome().is_none() && core.epoch().restored
}

/// What the last arrival or death, that of this rank, changes beside the core: after a decision no message waits, and
/// after a restore no parcel is there.
pub(crate) fn settle<M: Drop, T: Drop>(
    core: &CoreState,
    rank: u32,
    queues: &mut Queues<M>,
    parcels: &mut Vec<(u32, T)>,
    restores: &mut u32,
)
    requires rank { rank < core.now.ranks }
    requires few { restores.old < 2 ^ 32 - 1 }
    ensures queues { queues.new ≡ waiting_settled core.now rank queues.old }
    ensures parcels { parcels.new.items ≡ parcels_settled core.now rank parcels.old.items }
    ensures restores { restores.new ≡ restores_settled core.now rank restores.old }
{
    if is_decided(core, rank) {
        queues.clear();
        if is_restored(core) {
            parcels.clear();
            *restores += 1;
        }
    }
}

// Drops what a rank has given.
fn drop_parcel<T: Drop>(parcels: &mut Vec<(u32, T)>, rank: u32)
    ensures { parcels.new.items ≡ filter (λ parcel. not (parcel.0 == rank)) parcels.old.items }
{
    parcels.retain(|parcel| parcel.0 != rank);
}

/// Drops what a rank has given that has arrived in an epoch that is not decided.
pub(crate) fn forget<T: Drop>(core: &CoreState, parcels: &mut Vec<(u32, T)>, rank: u32)
    requires { rank < core.now.ranks }
    ensures { parcels.new.items ≡ (if is_arrived (stage core.now rank) then filter (λ parcel. not (parcel.0 == rank)) parcels.old.items else parcels.old.items) }
{
    if let Stage::Arrived { .. } = core.stage(rank) {
        drop_parcel(parcels, rank);
    }
}

/// Adds what a rank gives, if anything. Without memory it comes back.
pub(crate) fn give<T: Drop>(
    parcels: &mut Vec<(u32, T)>,
    rank: u32,
    parcel: Option<T>,
) -> Result<(), Kept<Option<T>>>
    ensures ok { OnOk result (parcels.new.items ≡ parcels.old.items ++ given rank parcel) }
    ensures err { OnErr result (parcels.new.items ≡ parcels.old.items) }
    ensures kept { IfErr result (λ kept. kept.value ≡ parcel) }
{
    if let Some(part) = parcel {
        if parcels.reserve(1).is_err() {
            return Err(Kept { value: Some(part) });
        }
        parcels.push_reserved((rank, part));
    }
    Ok(())
}
