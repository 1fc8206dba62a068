ghost use Rattle.std.specs.Prelude.{◌≡◌, ℕ, ◌≤◌, IfOk, [], length};
ghost use Rattle.bf_program.specs.Epochs.{first_epoch};
ghost use Rattle.bf_drive.specs.Drives.{AreAt};

use bf_program::{Epoch, Memory, RankProgram};
use bf_rank::Rank;
use std::alloc::Global;

/// All ranks before their first events. `locals` are those of the opening, in rising order of the ranks, and `epoch` is
/// the first.
pub fn opened_ranks<P: RankProgram>(
    alloc: Global,
    locals: Vec<P::Local>,
    epoch: &Epoch,
) -> Result<Vec<Rank<P>>, Memory>
    requires few { length locals.items ≤ 32 }
    ensures at { IfOk result (λ ranks. (setup : P.Setup) → locals.items ≡ P.meanings.opening setup
        → epoch.now ≡ first_epoch (P.meanings.ranks setup) (P.meanings.steps setup) (P.meanings.interval setup)
        → AreAt P.meanings P.good setup [] ranks.items) }
{
    let mut ranks = Vec::new(alloc);
    for local in locals {
        let rank = ranks.len() as u32;
        ranks.push(Rank::<P>::new(rank, local, *epoch))?;
    }
    Ok(ranks)
}
