//! Aims of one item.
use crate::Aims;

/// The item 0 was admitted before the lists 0 and 1 were opened. The leaf of the first is split, and the second is its new
/// leaf's.
pub struct OneItem;

impl Aims for OneItem {
    ghost use Rattle.std.specs.Prelude.{◌&&◌, nat_lt};

    ghost leaf = { λ aims x. 1 };

    ghost covers = { λ aims l x. nat_lt l 2 && nat_lt x 1 };

    ghost guest = { λ aims l x. nat_lt l 2 && nat_lt x 1 };

    fn aim(&self, from: u32, item: u32) -> Option<u32> {
        if from < 2 && item < 1 { Some(1) } else { None }
    }

    fn is_guest(&self, list: u32, item: u32) -> bool {
        list < 2 && item < 1
    }
}
