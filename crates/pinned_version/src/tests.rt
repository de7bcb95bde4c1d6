ghost use Rattle.std.specs.Prelude.{◌<◌, ◌≤◌, ◌≡◌, All, IsTrue};
ghost use Rattle.cube_math.specs.Cubes.{contains};
ghost use Rattle.pinned_version.specs.Books.{AreInOrder, end_of};
ghost use Rattle.pinned_version.specs.Pinned.{AreInPathOrder, StandsBefore};

use crate::{BatchRow, BookBatch, Chains, NodeRow, PointBook, Role, Runs, Version};
use cube_math::{Cube, Path, Point};
use least_runs::{CellTable, LeastRun};
use octree_model::{OutlineNode, Voxel};
use std::alloc::{AllocError, Global};
use std::cmp::Ordering;
use std::marker::Brand;
use std::sync::Arc;
use std::sync::ledger::{Blank, Ledger};
use std::test::Fail;
use step_count::Steps;

/// A cube of side 256, whose cells have side 2.
const CUBE: Cube = Cube {
    ox: 0,
    oy: 0,
    oz: 0,
    bits: 8,
};

/// Two batches, of which the second was admitted first.
const BATCHES: [BatchRow; 2] = [
    BatchRow {
        number: 1,
        input: 5,
        loader: 1,
        first: 20,
        len: 8,
    },
    BatchRow {
        number: 2,
        input: 4,
        loader: 0,
        first: 0,
        len: 20,
    },
];

// ---- versions

/// Whether each of the rows stands before the path.
fn stand_before(rows: &[NodeRow], path: &Path) -> bool
    ensures { IsTrue result → All (λ row. StandsBefore row.path path.now) rows.now }
{
    for row in rows {
        match row.path.cmp(path) {
            Ordering::Less => {}
            Ordering::Equal | Ordering::Greater => return false,
        }
    }
    true
}

/// Whether each row stands before all later ones.
fn in_path_order(rows: &[NodeRow]) -> bool
    ensures { IsTrue result → AreInPathOrder rows.now }
{
    for (at, row) in rows.iter().enumerate() {
        if !stand_before(&rows[..at], &row.path) {
            return false;
        }
    }
    true
}

/// A leaf in an octant of the cube: its numbers and chunks tell the octant.
fn leaf_row(alloc: Global, cube: &Cube, octant: u8) -> Result<NodeRow, AllocError>
    requires octant { octant < 8 }
    requires splits { 7 < cube.now.bits }
{
    let chunk = u32::from(octant);
    let claimed = vec![in alloc; chunk]?;
    let owned = vec![in alloc; chunk + 8, chunk + 16]?;
    Ok(NodeRow {
        path: Path::root().child(octant),
        cube: cube.child(octant),
        count: u64::from(octant),
        admitted: u64::from(octant) + 10,
        role: Role::Leaf(Chains::new(claimed, owned)),
    })
}

/// The rows of an inner node with eight leaves.
fn nine_rows(alloc: Global, cube: &Cube, runs: Runs) -> Result<Vec<NodeRow>, AllocError>
    requires { 7 < cube.now.bits }
{
    let mut rows = Vec::new(alloc);
    rows.push(NodeRow {
        path: Path::root(),
        cube: *cube,
        count: 28,
        admitted: 108,
        role: Role::Inner(runs),
    })?;
    for octant in 0..8u8 {
        rows.push(leaf_row(alloc, cube, octant)?)?;
    }
    Ok(rows)
}

/// The version of an inner node with eight leaves.
fn nine_nodes(alloc: Global, cube: &Cube, runs: Runs) -> Result<Version, Fail> {
    if cube.bits < 8 {
        return Err("the cube does not split".into());
    }
    let rows = nine_rows(alloc, cube, runs)?;
    if !in_path_order(&rows) {
        return Err("a row stands behind a later one".into());
    }
    let batches = BATCHES.to_vec(alloc)?;
    if batches.len() > 2 {
        return Err("there are too many batches".into());
    }
    Ok(Version::new(*cube, rows, batches))
}

#[test]
fn a_version_lends_its_rows(rt: HostRuntime) -> Result<(), Fail> {
    let version = nine_nodes(rt.alloc(), &CUBE, Runs::new(Vec::new(rt.alloc())))?;
    assert_eq!(rt; version.cube(), CUBE);
    assert_eq!(rt; version.entries(), 2);
    assert_eq!(rt; version.batches(), BATCHES.as_slice());
    assert_eq!(rt; version.nodes().len(), 9);
    for (row, count) in version.nodes().iter().zip([28, 0, 1, 2, 3, 4, 5, 6, 7]) {
        assert_eq!(rt; row.count, count);
    }
    Ok(())
}

#[test]
fn an_outline_has_each_node_with_its_role(rt: HostRuntime) -> Result<(), Fail> {
    let version = nine_nodes(rt.alloc(), &CUBE, Runs::new(Vec::new(rt.alloc())))?;
    let outline = version.outline(rt.alloc())?;
    assert_eq!(rt; outline.len(), 9);
    let root = OutlineNode {
        path: Path::root(),
        cube: CUBE,
        inner: true,
    };
    let last = OutlineNode {
        path: Path::root().child(7),
        cube: Cube {
            ox: 128,
            oy: 128,
            oz: 128,
            bits: 7,
        },
        inner: false,
    };
    assert_eq!(rt; outline[0], root);
    assert_eq!(rt; outline[8], last);
    Ok(())
}

#[test]
fn a_leaf_is_found_with_its_chains_and_no_other_node_is_one(rt: HostRuntime) -> Result<(), Fail> {
    let version = nine_nodes(rt.alloc(), &CUBE, Runs::new(Vec::new(rt.alloc())))?;
    let path = Path::root().child(3);
    let (row, chains) = version.leaf(&path).ok_or("no leaf")?;
    assert_eq!(rt; (row.count, row.admitted), (3, 13));
    assert_eq!(rt; chains.claimed(), [3].as_slice());
    assert_eq!(rt; chains.owned(), [11, 19].as_slice());
    assert!(rt; version.inner(&path).is_none());
    assert!(rt; version.leaf(&Path::root()).is_none());
    assert!(rt; version.leaf(&Path::root().child(3).child(0)).is_none());
    assert!(rt; version.inner(&Path::root().child(3).child(0)).is_none());
    Ok(())
}

// ---- runs

fn has_all(cube: &Cube, points: &[Point]) -> bool
    ensures { IsTrue result → All (λ p. IsTrue (contains cube.now p)) points.now }
{
    points.iter().all(|p| cube.contains(p))
}

/// The run of points that the cube has.
fn run(
    alloc: Global,
    table: &mut CellTable,
    cube: &Cube,
    points: &[Point],
) -> Result<Arc<LeastRun>, Fail> {
    if cube.bits < 8 || !has_all(cube, points) {
        return Err("a point lies outside".into());
    }
    let run = table.run_of(alloc, cube, points)?;
    Ok(Arc::new(alloc, run)?)
}

#[test]
fn voxels_have_the_nearest_colours_over_all_runs(rt: HostRuntime) -> Result<(), Fail> {
    let mut table = CellTable::new(rt.alloc())?;
    // The middles of the cells 0 and 2 are at 1 and 5.
    let far = [
        Point::new(0, 0, 0, 255, 0, 0),
        Point::new(5, 1, 1, 0, 255, 0),
    ];
    let near = [Point::new(1, 1, 1, 0, 0, 255), Point::new(4, 0, 0, 0, 0, 0)];
    let mut runs = Vec::new(rt.alloc());
    runs.push(run(rt.alloc(), &mut table, &CUBE, &far)?)?;
    runs.push(run(rt.alloc(), &mut table, &CUBE, &near)?)?;
    let version = nine_nodes(rt.alloc(), &CUBE, Runs::new(runs))?;
    let (row, runs) = version.inner(&Path::root()).ok_or("no inner node")?;
    assert_eq!(rt; (row.count, row.admitted), (28, 108));
    assert_eq!(rt; runs.runs().len(), 2);
    let blue = Voxel {
        cell: 0,
        rgb: 0x0000ff,
    };
    let green = Voxel {
        cell: 2,
        rgb: 0x00ff00,
    };
    let voxels = runs.voxels(rt.alloc(), &mut table)?;
    assert_eq!(rt; voxels.as_slice(), [blue, green].as_slice());
    Ok(())
}

// ---- books

/// Whether the batch ends at the number or before it.
fn ends_by(batch: &BookBatch, number: u32) -> bool
    ensures { IsTrue result → end_of batch.now ≤ number }
{
    batch.first() <= number && batch.points().len() <= (number - batch.first()) as usize
}

/// Whether each of the batches ends at the number or before it.
fn end_by(batches: &[BookBatch], number: u32) -> bool
    ensures { IsTrue result → All (λ b. end_of b ≤ number) batches.now }
{
    for batch in batches {
        if !ends_by(batch, number) {
            return false;
        }
    }
    true
}

/// Whether each batch ends before all later ones begin.
fn in_book_order(batches: &[BookBatch]) -> bool
    ensures { IsTrue result → AreInOrder batches.now }
{
    for (at, batch) in batches.iter().enumerate() {
        if !end_by(&batches[..at], batch.first()) {
            return false;
        }
    }
    end_by(batches, u32::MAX)
}

/// A batch with items from `first` on and below `end`, each of which has its number as its point's x.
fn numbered(alloc: Global, first: u16, end: u16) -> Result<BookBatch, AllocError> {
    let mut points = Vec::new(alloc);
    for item in first..end {
        points.push(Point::new(i32::from(item), 0, 0, 0, 0, 0))?;
    }
    Ok(BookBatch::new(u32::from(first), Arc::new(alloc, points)?))
}

/// A book with the items 3, 4, 7, 8 and 9 in two batches, and with an empty batch between them.
fn five_items(alloc: Global) -> Result<PointBook, Fail> {
    let mut batches = Vec::new(alloc);
    for (first, end) in [(3, 5), (5, 5), (7, 10)] {
        batches.push(numbered(alloc, first, end)?)?;
    }
    if !in_book_order(&batches) {
        return Err("a batch begins before an earlier one ends".into());
    }
    Ok(PointBook::new(batches))
}

/// The x of each item below 12, or -1 where the book has none. Each look begins at the same place.
fn xs_of<L: Ledger>(
    alloc: Global,
    book: &PointBook,
    near: usize,
    blank: Blank,
) -> Result<Vec<i32>, AllocError>
    requires name { blank.name ≡ L.name }
    requires parts { blank.parts ≡ L.parts }
    requires some { 0 < blank.parts }
{
    let mut steps: Steps<L> = Steps::new(blank);
    let mut xs = Vec::new(alloc);
    for item in 0..12u32 {
        let mut place = near;
        let found = book.get(item, &mut place, &mut steps);
        xs.push(found.map_or(-1, |p| p.x))?;
    }
    Ok(xs)
}

#[test]
fn a_book_tells_each_item_wherever_a_look_begins(rt: HostRuntime) -> Result<(), Fail> {
    let book = five_items(rt.alloc())?;
    for near in [0, 1, 2, 3, usize::MAX] {
        let xs = xs_of::<Brand>(rt.alloc(), &book, near, Blank::new(1))?;
        assert_eq!(rt;
            xs.as_slice(),
            [-1, -1, -1, 3, 4, -1, -1, 7, 8, 9, -1, -1].as_slice()
        );
    }
    Ok(())
}

#[test]
fn a_batch_lends_its_parts(rt: HostRuntime) -> Result<(), Fail> {
    let batch = numbered(rt.alloc(), 7, 9)?;
    assert_eq!(rt; batch.first(), 7);
    let points = [Point::new(7, 0, 0, 0, 0, 0), Point::new(8, 0, 0, 0, 0, 0)];
    assert_eq!(rt; batch.points(), points.as_slice());
    Ok(())
}
