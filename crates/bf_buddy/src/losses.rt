ghost use Rattle.std.specs.Prelude.{◌≡◌, IsTrue};
ghost use Rattle.bf_buddy.specs.Members.{is_member};
ghost use Rattle.bf_buddy.specs.Losses.{is_lost, first_lost_of};

use crate::Members;

// Whether a home is filled, and both it and its buddy are dead.
#[tactic(auto, unfolding(crate::specs::Losses::is_lost))]
fn is_lost(homes: Members, filled: Members, live: Members, shift: u32, home: u32) -> bool
    requires { IsTrue (is_member homes home) }
    ensures { result ≡ is_lost homes filled live shift home }
{
    filled.has(home) && !live.has(home) && !live.has(homes.buddy(home, shift))
}

/// The first home whose part is lost, with its buddy: a home in `filled` that is not live, and whose buddy among the
/// homes is not live. Members of `filled` that are no homes don't count. `None` where no part is lost.
#[tactic(auto, using(crate::proofs::LossLemmas::loss_steps))]
pub fn first_lost(homes: Members, filled: Members, live: Members, shift: u32) -> Option<(u32, u32)>
    ensures { result ≡ first_lost_of homes filled live shift }
{
    let bits = homes.bits();
    for home in 0..32u32 {
        if homes.has(home) && is_lost(homes, filled, live, shift, home) {
            return Some((home, homes.buddy(home, shift)));
        }
    }
    None
}
