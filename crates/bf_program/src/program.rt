ghost use Rattle.std.specs.Prelude.{◌≡◌, ℕ, List, IfOk, OnOk};
ghost use Rattle.bf_program.specs.declared.epoch.Epoch.{Epoch};
ghost use Rattle.bf_program.specs.Epochs.{target_of};
ghost use Rattle.bf_program.specs.Laws.{Laws};
ghost use Rattle.bf_program.specs.Meanings.{Meanings, Regions};
ghost use Rattle.bf_program.specs.Points.{IsFirst, IsSending, IsReceiving, IsFinishing, IsRestoring};

use crate::{Epoch, Measure, Memory};
use bf_buddy::Members;
use std::alloc::Global;

/// A program whose ranks work in rounds, with a snapshot at the end of each epoch.
///
/// In a round a rank sends one message to each of its peers in rising order, then takes one from each in rising order,
/// then finishes the round; a round without peers is finished too. Each call equals its meaning on plain values, and
/// the meanings keep the laws. A call that takes a local and a round is made only at its point of the lockstep. After
/// want of memory in `out`, `take`, `finish` or `restore` the local is only dropped.
pub trait RankProgram {
    /// What all ranks know: the case. The laws range over every setup, so each value must itself carry that its case is
    /// valid.
    type Setup: Drop;
    /// What one rank holds.
    type Local: Drop;
    /// What one rank sends another in a round.
    type Msg: Drop;
    /// Finished blocks.
    type Part: Drop;

    // what a restore reads of a local; the boxes of pieces; the units of the domain
    ghost Saved: { Type 0 };

    ghost Cube: { Type 0 };

    ghost Spot: { Type 0 };

    ghost meanings: { Meanings Self.Setup Self.Local Self.Msg Self.Part Saved };

    ghost regions: { Regions Self.Setup Self.Local Self.Msg Self.Part Saved Cube Spot };

    // what holds of the members' locals at the beginning of a round of an epoch
    ghost good: { Self.Setup → Epoch → ℕ → List Self.Local → Type 0 };

    /// How many ranks there are: 1 to 32.
    fn ranks(setup: &Self::Setup) -> u32
        ensures { result ≡ meanings.ranks setup.now };

    /// The time at which the run ends, at most 128.
    fn steps(setup: &Self::Setup) -> u32
        ensures { result ≡ meanings.steps setup.now };

    /// The shift in the choice of buddies, at most 1000.
    fn shift(setup: &Self::Setup) -> u32
        ensures { result ≡ meanings.shift setup.now };

    /// How much time lies between two snapshots: 1 to 128.
    fn snapshot(setup: &Self::Setup) -> u32
        ensures { result ≡ meanings.interval setup.now };

    /// The time to which an epoch runs that begins at `time` and that no restore began.
    fn target(setup: &Self::Setup, time: u32) -> u32
        ensures { result ≡ target_of (meanings.steps setup.now) (meanings.interval setup.now) time };

    /// The ranks that die, rising, and how many events each has by then.
    fn dies(setup: &Self::Setup) -> &[(u32, u32)]
        ensures { result.now ≡ meanings.deaths setup.now };

    /// The number of rounds of an epoch. It follows the epoch's target, so an epoch that a restore began has no more of them
    /// than its snapshot takes.
    fn rounds(setup: &Self::Setup, epoch: Epoch) -> u32
        ensures { result ≡ meanings.rounds setup.now epoch };

    /// The peers of a local in a round, at whose beginning it stands.
    fn peers(setup: &Self::Setup, local: &Self::Local, epoch: Epoch, round: u32) -> Members
        requires { IsFirst meanings good setup.now epoch round local.now }
        ensures { result ≡ meanings.peers setup.now local.now epoch round };

    /// The message to a peer.
    fn out(
        alloc: Global,
        setup: &Self::Setup,
        local: &mut Self::Local,
        epoch: Epoch,
        round: u32,
        to: u32,
    ) -> Result<Self::Msg, Memory>
        requires { IsSending meanings good setup.now epoch round to local.old }
        ensures msg { IfOk result (λ msg. msg ≡ (meanings.out setup.now local.old epoch round to).1) }
        ensures local { OnOk result (local.new ≡ (meanings.out setup.now local.old epoch round to).0) };

    /// Takes a peer's message of the same round.
    fn take(
        alloc: Global,
        setup: &Self::Setup,
        local: &mut Self::Local,
        epoch: Epoch,
        round: u32,
        peer: u32,
        msg: Self::Msg,
    ) -> Result<(), Memory>
        requires { IsReceiving meanings good setup.now epoch round peer msg local.old }
        ensures { OnOk result (local.new ≡ meanings.take setup.now local.old epoch round peer msg) };

    /// Ends a round, after its last receive. Called once a round, also where it has no peers.
    fn finish(
        alloc: Global,
        setup: &Self::Setup,
        local: &mut Self::Local,
        epoch: Epoch,
        round: u32,
    ) -> Result<(), Memory>
        requires { IsFinishing meanings good setup.now epoch round local.old }
        ensures { OnOk result (local.new ≡ meanings.finish setup.now local.old epoch round) };

    /// Whether the part of the new snapshot has a block.
    fn filled(local: &Self::Local) -> bool
        ensures { result ≡ meanings.filled local.now };

    /// Moves the finished blocks out.
    fn parcel(local: &mut Self::Local) -> Self::Part
        ensures part { result ≡ (meanings.parcel local.old).1 }
        ensures local { local.new ≡ (meanings.parcel local.old).0 };

    /// Makes the new snapshot the agreed one.
    fn keep(local: &mut Self::Local)
        ensures { local.new ≡ meanings.keep local.old };

    /// Goes back to the agreed snapshot, as a member of the epoch that the restore begins.
    fn restore(
        alloc: Global,
        setup: &Self::Setup,
        local: &mut Self::Local,
        rank: u32,
        epoch: Epoch,
    ) -> Result<(), Memory>
        requires { IsRestoring meanings good setup.now epoch rank local.old }
        ensures { OnOk result (local.new ≡ meanings.restore setup.now local.old rank epoch) };

    /// How many whole blocks a message has, and the sum of its cell values.
    fn measure(msg: &Self::Msg) -> Measure
        ensures { result ≡ meanings.measure msg.now };

    ghost lawful: { (setup : Self.Setup) → Laws meanings regions good setup };
}
