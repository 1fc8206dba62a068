use std::marker::Model;

/// A unit of space, of which a root's edge has 16, by its low corner.
#[derive(Clone, Copy, Debug, PartialEq, Eq)]
pub struct Voxel {
    pub x: u32,
    pub y: u32,
    pub z: u32,
}

impl Model for Voxel {
    ghost use Rattle.bf_id.specs.Cube.{Voxel};

    ghost Value = { Voxel };

    ghost view = { λ v. record { x = v.x; y = v.y; z = v.z } };

    ghost inverse = { λ v. record { x = v.x; y = v.y; z = v.z } };
}
