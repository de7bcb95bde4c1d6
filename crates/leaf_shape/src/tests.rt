ghost use Rattle.std.specs.Prelude.{◌+◌, ◌≤◌, All, Contains, IsTrue, length};

use crate::LeafShape;
use cube_math::{Cube, Path, Point};
use dice::Dice;
use std::alloc::{AllocError, Global};
use std::test::Fail;

/// A point without colour.
fn at(x: i32, y: i32, z: i32) -> Point {
    Point::new(x, y, z, 0, 0, 0)
}

/// The list of a point, or None where it lies outside of the root's cube.
fn list_at(shape: &LeafShape, p: &Point) -> Option<u32> {
    if shape.root_cube().contains(p) {
        Some(shape.list_of(p))
    } else {
        None
    }
}

/// The list of a point, where another one is tried first.
fn list_by(shape: &LeafShape, p: &Point, hint: u32) -> Option<u32> {
    if shape.root_cube().contains(p) {
        Some(shape.list_near(p, hint))
    } else {
        None
    }
}

/// The path and the cube of a list, and whether it stands for a leaf.
fn told(shape: &LeafShape, list: u32) -> Option<(Path, Cube, bool)> {
    if list < shape.lists() {
        Some((shape.path(list), shape.cube(list), shape.is_leaf(list)))
    } else {
        None
    }
}

/// The list of a point, found by a look at each list.
fn slow_list(shape: &LeafShape, p: &Point) -> Option<u32> {
    let mut found = None;
    let mut longest = 0;
    for list in 0..shape.lists() {
        let steps = shape.path(list).len();
        if shape.cube(list).contains(p) && steps >= longest {
            found = Some(list);
            longest = steps;
        }
    }
    found
}

/// Whether a cube has room for all of these paths.
fn fits(cube: &Cube, paths: &[Path]) -> bool
    ensures { IsTrue result → All (λ path. length path + 7 ≤ cube.now.bits) paths.now }
{
    paths.iter().all(|path| path.len() + 7 <= cube.bits)
}

/// Opens lists for these paths. Answers the first one's number.
fn open_lists(alloc: Global, shape: &mut LeafShape, paths: &[Path]) -> Result<u32, Fail> {
    if !fits(&shape.root_cube(), paths) {
        return Err("a path below 7 bits".into());
    }
    shape.reserve(alloc, paths)?;
    Ok(shape.open_ready())
}

/// Whether a list was opened for each of these paths.
fn are_opened(shape: &LeafShape, paths: &[Path]) -> bool
    ensures { IsTrue result → All (Contains shape.now.paths) paths.now }
{
    for path in paths {
        if shape.list_at(path).is_none() {
            return false;
        }
    }
    true
}

/// The lists of these paths, where each has one.
fn lists_of(alloc: Global, shape: &LeafShape, paths: &[Path]) -> Result<Vec<u32>, Fail> {
    if !are_opened(shape, paths) {
        return Err("a path without a list".into());
    }
    Ok(shape.lists_at(alloc, paths)?)
}

/// The paths of the eight octants below a path.
fn octants(alloc: Global, path: &Path) -> Result<Vec<Path>, AllocError> {
    let mut paths = Vec::new(alloc);
    if path.len() < 24 {
        for octant in 0..8u8 {
            paths.push(path.child(octant))?;
        }
    }
    Ok(paths)
}

#[test]
fn the_root_is_a_leaf_with_list_0(rt: HostRuntime) -> Result<(), Fail> {
    let cube = Cube::new(0, 0, 0, 9).ok_or("fits")?;
    let shape = LeafShape::new(rt.alloc(), cube)?;
    assert_eq!(rt; shape.lists(), 1);
    assert_eq!(rt; told(&shape, 0), Some((Path::root(), cube, true)));
    assert_eq!(rt; list_at(&shape, &at(511, 0, 300)), Some(0));
    assert_eq!(rt; list_by(&shape, &at(511, 0, 300), 7), Some(0));
    Ok(())
}

#[test]
fn a_leaf_below_a_leaf_has_the_longer_path(rt: HostRuntime) -> Result<(), Fail> {
    let cube = Cube::new(0, 0, 0, 9).ok_or("fits")?;
    let mut shape = LeafShape::new(rt.alloc(), cube)?;
    // The root is split, and its octant 1 at once.
    let mut paths = octants(rt.alloc(), &Path::root())?;
    if paths.len() != 8 {
        return Err("not eight octants".into());
    }
    let below = octants(rt.alloc(), &paths.remove(1))?;
    paths.extend_from_slice(&below)?;
    assert_eq!(rt; open_lists(rt.alloc(), &mut shape, &paths)?, 1);
    assert_eq!(rt; shape.lists(), 16);
    assert_eq!(rt; list_at(&shape, &at(0, 0, 0)), Some(1));
    assert_eq!(rt; list_at(&shape, &at(0, 256, 0)), Some(2));
    assert_eq!(rt; list_at(&shape, &at(256, 0, 0)), Some(8));
    assert_eq!(rt; list_at(&shape, &at(511, 255, 0)), Some(11));
    let corner = Cube::new(384, 128, 128, 7).ok_or("fits")?;
    assert_eq!(rt;
        told(&shape, 15),
        Some((Path::root().child(1).child(7), corner, true))
    );
    let Some((_, _, is_leaf)) = told(&shape, 0) else {
        return Err("no list 0".into());
    };
    assert!(rt; !is_leaf);
    Ok(())
}

#[test]
fn of_two_lists_for_a_path_the_later_counts(rt: HostRuntime) -> Result<(), Fail> {
    let cube = Cube::new(0, 0, 0, 8).ok_or("fits")?;
    let mut shape = LeafShape::new(rt.alloc(), cube)?;
    let path = Path::root().child(3);
    assert_eq!(rt;
        open_lists(rt.alloc(), &mut shape, &[path, Path::root(), path])?,
        1
    );
    assert_eq!(rt; list_at(&shape, &at(0, 0, 0)), Some(2));
    assert_eq!(rt; list_by(&shape, &at(200, 200, 0), 1), Some(3));
    Ok(())
}

/// Whether each of forty points that are drawn has the list that a look at each list finds, whatever list is tried first.
fn agrees(shape: &LeafShape, dice: &mut Dice) -> bool {
    for _point in 0..40usize {
        let side = 1 << dice.below(13);
        let p = at(
            dice.below(side) as i32,
            dice.below(side) as i32,
            dice.below(side) as i32,
        );
        let list = list_at(shape, &p);
        let hint = dice.below(shape.lists() as usize + 1) as u32;
        if list != slow_list(shape, &p) || list != list_by(shape, &p, hint) {
            return false;
        }
    }
    true
}

/// Splits the leaf of a point that is drawn, and a child of it now and then. Answers whether it has more than 7 bits.
fn split_one(alloc: Global, shape: &mut LeafShape, dice: &mut Dice) -> Result<bool, Fail> {
    let side = 256 << dice.below(5);
    let p = at(dice.below(side) as i32, dice.below(side) as i32, 0);
    let list = list_at(shape, &p).unwrap_or(0);
    let Some((path, cube, _)) = told(shape, list) else {
        return Err("no list".into());
    };
    if cube.bits < 9 {
        return Ok(false);
    }
    let mut paths = octants(alloc, &path)?;
    if dice.below(2) == 1 && !paths.is_empty() {
        let below = octants(alloc, &paths.remove(0))?;
        paths.extend_from_slice(&below)?;
    }
    open_lists(alloc, shape, &paths)?;
    Ok(true)
}

#[test]
fn points_have_the_lists_that_a_look_at_each_finds(rt: HostRuntime) -> Result<(), Fail> {
    let cube = Cube::new(0, 0, 0, 12).ok_or("fits")?;
    let mut shape = LeafShape::new(rt.alloc(), cube)?;
    let mut dice = Dice::new(2026);
    let mut older = shape.try_clone(rt.alloc())?;
    for turn in 0..30usize {
        split_one(rt.alloc(), &mut shape, &mut dice)?;
        assert!(rt; agrees(&shape, &mut dice));
        if turn % 3 == 0 {
            older.catch_up(rt.alloc(), &shape)?;
            assert_eq!(rt; older.lists(), shape.lists());
            assert!(rt; agrees(&older, &mut dice));
        }
    }
    assert!(rt; shape.lists() > 100);
    Ok(())
}

#[test]
fn an_older_copy_catches_up(rt: HostRuntime) -> Result<(), Fail> {
    let cube = Cube::new(0, 0, 0, 9).ok_or("fits")?;
    let mut shape = LeafShape::new(rt.alloc(), cube)?;
    let mut older = shape.try_clone(rt.alloc())?;
    let paths = octants(rt.alloc(), &Path::root())?;
    open_lists(rt.alloc(), &mut shape, &paths)?;
    assert_eq!(rt; list_at(&older, &at(300, 0, 0)), Some(0));
    older.catch_up(rt.alloc(), &shape)?;
    assert_eq!(rt; older.lists(), 9);
    assert_eq!(rt; list_at(&older, &at(300, 0, 0)), Some(2));
    assert_eq!(rt; list_at(&older, &at(300, 300, 300)), Some(8));
    older.catch_up(rt.alloc(), &shape)?;
    assert_eq!(rt; older.lists(), 9);
    let mut another = LeafShape::new(rt.alloc(), Cube::new(5, 5, 5, 9).ok_or("fits")?)?;
    another.catch_up(rt.alloc(), &shape)?;
    assert_eq!(rt; another.root_cube(), cube);
    assert_eq!(rt; list_at(&another, &at(0, 0, 300)), Some(5));
    Ok(())
}

#[test]
fn a_path_has_the_list_opened_last_for_it(rt: HostRuntime) -> Result<(), Fail> {
    let cube = Cube::new(0, 0, 0, 9).ok_or("fits")?;
    let mut shape = LeafShape::new(rt.alloc(), cube)?;
    let near = Path::root().child(3);
    let far = near.child(5);
    assert_eq!(rt; shape.list_at(&Path::root()), Some(0));
    assert_eq!(rt; shape.list_at(&near), None);
    assert!(rt; !shape.is_split(&Path::root()));
    open_lists(rt.alloc(), &mut shape, &[far, Path::root(), far])?;
    assert_eq!(rt; shape.list_at(&far), Some(3));
    assert_eq!(rt; shape.list_at(&Path::root()), Some(2));
    // A list was opened below this path and beside that one, and none for them.
    assert_eq!(rt; shape.list_at(&near), None);
    assert_eq!(rt; shape.list_at(&near.child(4)), None);
    assert_eq!(rt; shape.list_at(&far.child(0)), None);
    assert!(rt; shape.is_split(&Path::root()));
    assert!(rt; shape.is_split(&near));
    assert!(rt; !shape.is_split(&far));
    assert!(rt; !shape.is_split(&near.child(4)));
    assert!(rt; !shape.is_split(&Path::root().child(2)));
    let lists = lists_of(rt.alloc(), &shape, &[far, Path::root(), far])?;
    assert_eq!(rt; lists.as_slice(), [3, 2, 3].as_slice());
    Ok(())
}
