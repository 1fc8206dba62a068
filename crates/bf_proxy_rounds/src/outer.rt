ghost use Rattle.std.specs.Prelude.{◌≡◌};

use bf_id::Id;
use bf_links::Links;
use std::marker::Model;

/// A merging leaf's outer links, for the proxy of its parent: to the proxies that touch it and come of the leaves with which the
/// leaf is linked.
#[derive(Drop)]
pub struct Outer {
    parent: Id,
    links: Links,
}

impl Model for Outer {
    ghost use Rattle.std.specs.Prelude.{List};
    ghost use Rattle.bf_id.specs.Id.{BlockId};
    ghost use Rattle.bf_links.specs.declared.link.Link.{Link};

    ghost Value = { BlockId × List Link };

    ghost view = { λ o. (o.parent, o.links) };
}

impl Outer {
    /// These links, for this parent.
    pub fn of(parent: Id, links: Links) -> Outer
        ensures { result ≡ (parent, links) }
    {
        Outer { parent, links }
    }

    /// The parent of the leaf.
    pub fn parent(&self) -> Id
        ensures { result ≡ self.now.0 }
    {
        self.parent
    }

    /// The links.
    pub fn links(&self) -> &Links
        ensures { result.now ≡ self.now.1 }
    {
        &self.links
    }
}
