use bf_links::{Link, Links};

/// What has the links of a leaf.
pub trait HasLinks {
    ghost use Rattle.std.specs.Prelude.{◌≡◌, List};
    ghost use Rattle.bf_links.specs.declared.link.Link.{Link};

    ghost linked: { Self → List Link };

    fn links(&self) -> &[Link]
        ensures { result.now ≡ linked self.now };
}

impl HasLinks for Links {
    ghost linked = { λ links. links };

    fn links(&self) -> &[Link] {
        self.as_slice()
    }
}
