ghost use Rattle.std.specs.Prelude.{◌≡◌, ◌≤◌, ◌↔◌, ◌⊎◌, length, Contains, OnErr, OnOk};
ghost use Rattle.bf_links.specs.declared.link.Link.{Link};
ghost use Rattle.bf_proxy.specs.Joined.{joined, AgreeOnOwners};
ghost use Rattle.bf_proxy.specs.Proxies.{gathered};

use crate::Proxy;
use crate::joining::join;
use bf_links::{Links, Memory};
use std::alloc::Global;

/// Joins the outer links of a sibling into those of the proxy of its octet. Outer links are to the proxies that come of the
/// leaves with which the sibling is linked, and touch the proxy.
pub fn gather(alloc: Global, proxy: &mut Proxy, links: &Links) -> Result<(), Memory>
    requires few { length (joined links.now proxy.old.links) ≤ 56 }
    requires agree { AgreeOnOwners links.now proxy.old.links }
    ensures ok { OnOk result (proxy.new ≡ gathered links.now proxy.old) }
    ensures both { OnOk result ((link : Link) → (Contains proxy.new.links link ↔ (Contains proxy.old.links link ⊎ Contains links.now link))) }
    ensures err { OnErr result (proxy.new ≡ proxy.old) }
{
    let all = join(alloc, links.as_slice(), proxy.links.as_slice())?;
    proxy.links = Links::of(alloc, all.as_slice())?;
    Ok(())
}
