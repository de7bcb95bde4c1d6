ghost use Rattle.std.specs.Prelude.{◌≡◌, ◌+◌, ◌≤◌, IsTrue, length, drop};
ghost use Rattle.cube_math.specs.Cubes.{contains};
ghost use Rattle.leaf_counts.specs.Descent.{IsCountedIn, IsLeafBelow};
ghost use Rattle.leaf_counts.specs.Growths.{grown};
ghost use Rattle.leaf_counts.specs.Nodes.{count_at};

use crate::counts::Counts;
use crate::growth::Growth;
use cube_math::{Cube, Path, Point};

/// The path of the leaf in which the point lies, at or below a node with this path and cube.
pub(crate) fn leaf_below(counts: &Counts, path: Path, cube: Cube, p: &Point) -> Path
    requires counted { IsCountedIn cube counts.now }
    requires room { length path + cube.bits ≤ 31 }
    requires contained { IsTrue (contains cube p.now) }
    ensures { IsLeafBelow counts.now path cube p.now result }
{
    match counts {
        Counts::Leaf(_) => path,
        Counts::Inner(_, children) => {
            let octant = cube.octant(p);
            let below = &children.as_slice()[usize::from(octant)];
            leaf_below(below, path.child(octant), cube.child(octant), p)
        }
    }
}

/// The path of the leaf in which the point lies once the counts have changed, at or below a node with this
/// path and cube.
pub(crate) fn leaf_once_grown(
    counts: &Counts,
    growth: &Growth,
    path: Path,
    cube: Cube,
    p: &Point,
) -> Path
    requires counted { IsCountedIn cube (grown growth.now counts.now) }
    requires room { length path + cube.bits ≤ 31 }
    requires contained { IsTrue (contains cube p.now) }
    ensures { IsLeafBelow (grown growth.now counts.now) path cube p.now result }
{
    match growth {
        Growth::Same => leaf_below(counts, path, cube, p),
        Growth::New(new) => leaf_below(new, path, cube, p),
        Growth::Each(_, growths, places) => match counts {
            Counts::Leaf(_) => path,
            Counts::Inner(_, children) => {
                let octant = cube.octant(p);
                let place = &places.as_slice()[usize::from(octant)];
                let (further, smaller) = (path.child(octant), cube.child(octant));
                match growths.get(usize::from(octant)) {
                    Some(change) => match children.get(usize::from(octant)) {
                        Some(below) => leaf_once_grown(below, change, further, smaller, p),
                        None => leaf_below(place, further, smaller, p),
                    },
                    None => leaf_below(place, further, smaller, p),
                }
            }
        },
    }
}

/// The count of the node to which the path leads from a node that it reaches after so many steps.
pub(crate) fn count_below(counts: &Counts, path: &Path, steps: u32) -> Option<u64>
    requires { steps ≤ length path.now }
    ensures { result ≡ count_at counts.now (drop steps path.now) }
{
    if steps == path.len() {
        return Some(u64::from(counts.count()));
    }
    match counts {
        Counts::Leaf(_) => None,
        Counts::Inner(_, children) => {
            let octant = usize::from(path.octant(steps));
            match children.get(octant) {
                Some(below) => count_below(below, path, steps + 1),
                None => None,
            }
        }
    }
}
