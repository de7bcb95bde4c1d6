ghost use Rattle.std.specs.Prelude.{◌≡◌, ℕ, List, length};
ghost use Rattle.cube_math.specs.Points.{PointValue};
ghost use Rattle.cube_math.specs.declared.config.Config.{Config};
ghost use Rattle.item_moves.specs.Aimed.{AreAimed};
ghost use Rattle.item_moves.specs.Homes.{AreHomed};
ghost use Rattle.leaf_aims.specs.Listed.{AreListed, covers_of, guest_of};

use leaf_counts::leaves_of_a_point_are_one;
use list_words::LeafLists;

/// A law of every kind of lists: while the lists of split leaves are still to be swept, and those of new leaves are open, the
/// lists of leaves are where items belong.
pub fn lists_of_leaves_are_aimed<L: LeafLists>(lists: &L)
    ensures { (config : Config) (before batch : List PointValue) (point : ℕ → PointValue) (lists_opened : ℕ) (path : ℕ → List ℕ) (born ended leaf : ℕ → ℕ)
        (homes splits : List ℕ) → AreListed config before batch point (length homes) lists_opened path born ended (L.store lists.now) leaf splits
        → AreHomed (L.store lists.now) (L.knows lists.now) (guest_of config point path born) homes
        → AreAimed (L.store lists.now) leaf (covers_of config point ended lists_opened path) (guest_of config point path born) homes splits }
{
    leaves_of_a_point_are_one();
}
