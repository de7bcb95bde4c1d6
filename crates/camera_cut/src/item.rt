use std::marker::Model;

/// A thing that is drawn: a point, or the cell of a voxel.
#[derive(Clone, Copy, Debug, PartialEq, Eq)]
pub struct Item {
    pub x: i32,
    pub y: i32,
    pub z: i32,
    /// 0 for a point; for a voxel the side of its cell.
    pub side: u32,
    /// The colour number, below 2^24.
    pub rgb: u32,
}

impl Model for Item {
    ghost use Rattle.std.specs.Prelude.{◌<◌, ◌^◌};
    ghost use Rattle.picture_model.specs.Items.{ItemValue};

    ghost Value = { ItemValue };

    ghost view = { λ i. record { x = i.x; y = i.y; z = i.z; side = i.side; rgb = i.rgb } };

    ghost invariant = { λ i. i.rgb < 2 ^ 24 };

    ghost inverse = { λ v. record { x = v.x; y = v.y; z = v.z; side = v.side; rgb = v.rgb } };
}
