//! The round of siblings: what a rank gathers.
ghost use Rattle.std.specs.Prelude.{◌≡◌, map, OnOk};
ghost use Rattle.bf_proxy.specs.declared.proxy.Proxy.{Proxy};
ghost use Rattle.bf_proxy_rounds.specs.Calls.{CanGather, IsGatherable, ProxiesRise};
ghost use Rattle.bf_proxy_rounds.specs.Plays.{all_gathered, gathered_at};

use crate::outer::Outer;
use bf_links::Memory;
use bf_proxy::{Proxy, gather};
use std::alloc::Global;

// The proxy of their parent, if it is among some, gathers outer links.
fn gather_one(alloc: Global, proxies: &mut [Proxy], outer: &Outer) -> Result<(), Memory>
    requires rising { ProxiesRise proxies.old }
    requires gatherable { IsGatherable outer.now proxies.old }
    ensures { OnOk result (proxies.new ≡ map (λ (proxy : Proxy). gathered_at proxy outer.now) proxies.old) }
{
    match proxies.binary_search_by_key(&outer.parent(), |proxy| proxy.id) {
        Ok(place) => gather(alloc, &mut proxies[place], outer.links()),
        Err(_) => Ok(()),
    }
}

/// Each proxy, of some by rising id, gathers the outer links that are for it: what a rank does with what it hears of a peer, and at the
/// end of the round of siblings with what it would tell itself.
pub fn gather_all(alloc: Global, proxies: &mut [Proxy], outers: &[Outer]) -> Result<(), Memory>
    requires { CanGather outers.now proxies.old }
    ensures { OnOk result (proxies.new ≡ map (all_gathered outers.now) proxies.old) }
{
    for outer in outers {
        gather_one(alloc, proxies, outer)?;
    }
    Ok(())
}
