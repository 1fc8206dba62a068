use bf_cells::Cells;
use bf_id::Id;

/// What has an id and cells, as a leaf of a map has.
pub trait AsLeaf {
    ghost use Rattle.std.specs.Prelude.{◌≡◌};
    ghost use Rattle.bf_case.specs.Map.{Leaf};

    ghost leaf: { Self → Leaf };

    fn id(&self) -> Id
        ensures { result ≡ (leaf self.now).0 };

    fn cells(&self) -> &Cells
        ensures { result.now ≡ (leaf self.now).1 };
}

impl AsLeaf for (Id, Cells) {
    ghost leaf = { λ leaf. leaf };

    fn id(&self) -> Id {
        self.0
    }

    fn cells(&self) -> &Cells {
        &self.1
    }
}

impl<L: AsLeaf> AsLeaf for &L {
    ghost leaf = { λ leaf. L.leaf leaf.now };

    fn id(&self) -> Id {
        (**self).id()
    }

    fn cells(&self) -> &Cells {
        (**self).cells()
    }
}
