ghost use Rattle.std.specs.Prelude.{◌≡◌, IfOk};

use bf_links::{Link, Memory};
use smallvec::SmallVec;
use std::alloc::Global;
use std::marker::Model;

/// The leaves of which a proxy comes, each with the rank that owns it: one, or the eight that merge, by octant.
#[derive(Drop)]
pub struct Sources {
    // A single source stays in the value.
    items: SmallVec<Link, 1>,
}

impl Model for Sources {
    ghost use Rattle.std.specs.Prelude.{List};
    ghost use Rattle.bf_links.specs.declared.link.Link.{Link};

    ghost Value = { List Link };

    ghost view = { λ s. s.items.items };
}

impl Sources {
    /// These sources.
    pub fn of(alloc: Global, sources: &[Link]) -> Result<Sources, Memory>
        ensures { IfOk result (λ made. made ≡ sources.now) }
    {
        let items = SmallVec::from_slice(alloc, sources)?;
        Ok(Sources { items })
    }

    /// The sources in their order.
    pub fn as_slice(&self) -> &[Link]
        ensures { result.now ≡ self.now }
    {
        self.items.as_slice()
    }
}
