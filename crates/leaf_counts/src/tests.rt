ghost use Rattle.std.specs.Prelude.{◌≡◌, ◌++◌, All, IsTrue, IfOk, IfSome, OnOk, map};
ghost use Rattle.cube_math.specs.Cubes.{contains};
ghost use Rattle.octree_model.specs.Bags.{IsSameBag};
ghost use Rattle.octree_model.specs.Octree.{inside};
ghost use Rattle.leaf_counts.specs.Nodes.{cube_at};
ghost use Rattle.leaf_counts.specs.Plans.{IsPlanOf, planned};
ghost use Rattle.leaf_counts.specs.Skeletons.{skeleton_of};

use crate::{Plan, PlanRefusal, Skeleton, Spill};
use cube_math::{Batch, Cube, Path, Point};
use dice::Dice;
use octree_plain::{Tree, build};
use std::alloc::{AllocError, Global};
use std::test::Fail;

/// A point without colour on the x axis.
fn at(x: i32) -> Point {
    Point::new(x, 0, 0, 0, 0, 0)
}

/// The cube at a path that begins in this cube, or None where the way leads below 7 bits.
fn cube_below(cube: &Cube, path: &Path) -> Option<Cube>
    ensures { IfSome result (λ below. below ≡ cube_at cube.now path.now) }
{
    if path.len() + 7 <= cube.bits {
        Some(cube.at(path))
    } else {
        None
    }
}

/// The points that the cube contains.
fn points_in(alloc: Global, cube: &Cube, points: &[Point]) -> Result<Vec<Point>, AllocError>
    ensures { IfOk result (λ list. list.items ≡ inside cube.now points.now) }
{
    let mut list = Vec::new(alloc);
    for p in points {
        if cube.contains(p) {
            list.push(*p)?;
        }
    }
    Ok(list)
}

/// The spills of these leaves, of all points so far.
fn spills_of(
    alloc: Global,
    cube: Cube,
    paths: &[Path],
    points: &[Point],
) -> Result<Vec<Spill>, Fail>
    ensures paths { IfOk result (λ spills. map (λ spill. spill.path) spills.items ≡ paths.now) }
    ensures bags { IfOk result (λ spills. All (λ spill. IsSameBag spill.points.items (inside (cube_at cube spill.path) points.now)) spills.items) }
{
    let mut spills = Vec::new(alloc);
    for path in paths {
        let Some(below) = cube_below(&cube, path) else {
            return Err("no cube at the path".into());
        };
        let points = points_in(alloc, &below, points)?;
        spills.push(Spill {
            path: *path,
            points,
        })?;
    }
    Ok(spills)
}

/// Plans a batch for the skeleton of these points.
fn plan_batch(
    alloc: Global,
    skeleton: &Skeleton,
    points: &[Point],
    batch: &Batch,
    most: u32,
) -> Result<Result<Plan, PlanRefusal>, Fail>
    requires kept { skeleton.now ≡ skeleton_of skeleton.now.leaf skeleton.now.cube points.now }
    requires cube { batch.now.cube ≡ skeleton.now.cube }
    ensures of { IfOk result (λ answer. IfOk answer (λ plan. IsPlanOf skeleton.now plan)) }
    ensures after { IfOk result (λ answer. IfOk answer (λ plan. planned skeleton.now plan ≡ skeleton_of skeleton.now.leaf skeleton.now.cube (points.now ++ batch.now.points))) }
{
    if points.len() > 1000 || batch.points().len() > 1000 {
        return Err("too many points".into());
    }
    let paths = skeleton.overfull(alloc, batch)?;
    let spills = spills_of(alloc, batch.cube(), paths.as_slice(), points)?;
    Ok(skeleton.plan(alloc, batch, spills.as_slice(), most))
}

/// The path of the leaf of a point in the skeleton's cube, or None where the point lies outside.
fn leaf_in(skeleton: &Skeleton, cube: &Cube, p: &Point) -> Option<Path>
    requires { cube.now ≡ skeleton.now.cube }
{
    if cube.contains(p) {
        Some(skeleton.leaf_of(p))
    } else {
        None
    }
}

/// The path that the leaf of a point will have by the plan, or None where the point lies outside.
fn leaf_planned(plan: &Plan, skeleton: &Skeleton, cube: &Cube, p: &Point) -> Option<Path>
    requires of { IsPlanOf skeleton.now plan.now }
    requires cube { cube.now ≡ skeleton.now.cube }
{
    if cube.contains(p) {
        Some(plan.leaf_of(skeleton, p))
    } else {
        None
    }
}

/// Plans and commits a batch for the skeleton of these points, and takes the batch's points to them.
fn publish(
    alloc: Global,
    skeleton: &mut Skeleton,
    points: &mut Vec<Point>,
    batch: &Batch,
) -> Result<(), Fail>
    requires kept { skeleton.old ≡ skeleton_of skeleton.old.leaf skeleton.old.cube points.old.items }
    requires cube { batch.now.cube ≡ skeleton.old.cube }
    ensures kept { OnOk result (skeleton.new ≡ skeleton_of skeleton.new.leaf skeleton.new.cube points.new.items) }
    ensures cube { OnOk result (skeleton.new.cube ≡ skeleton.old.cube) }
{
    let Ok(plan) = plan_batch(alloc, skeleton, points.as_slice(), batch, 100_000)? else {
        return Err("refused".into());
    };
    skeleton.commit(plan);
    points.extend_from_slice(batch.points())?;
    Ok(())
}

#[test]
fn one_point_above_the_limit_splits_the_root(rt: HostRuntime) -> Result<(), Fail> {
    let cube = Cube::new(0, 0, 0, 8).ok_or("fits")?;
    let mut skeleton = Skeleton::new(rt.alloc(), cube, 2)?;
    let mut points = Vec::new(rt.alloc());
    let Ok(batch) = Batch::new(0, [at(0), at(200)].to_vec(rt.alloc())?, &cube, 10) else {
        return Err("no batch".into());
    };
    let Ok(plan) = plan_batch(rt.alloc(), &skeleton, &points, &batch, 1)? else {
        return Err("refused".into());
    };
    assert!(rt; plan.splits().is_empty() && plan.leaves().is_empty());
    skeleton.commit(plan);
    points.extend_from_slice(batch.points())?;
    let Ok(batch) = Batch::new(1, [at(1)].to_vec(rt.alloc())?, &cube, 10) else {
        return Err("no batch".into());
    };
    let root = Path::root();
    let paths = skeleton.overfull(rt.alloc(), &batch)?;
    assert_eq!(rt; paths.as_slice(), [root].as_slice());
    let refusal = plan_batch(rt.alloc(), &skeleton, &points, &batch, 8)?.err();
    assert_eq!(rt; refusal, Some(PlanRefusal::NodesFull { need: 9, most: 8 }));
    assert_eq!(rt; skeleton.nodes(), 1);
    let Ok(plan) = plan_batch(rt.alloc(), &skeleton, &points, &batch, 9)? else {
        return Err("refused".into());
    };
    assert_eq!(rt; plan.splits(), [root].as_slice());
    assert_eq!(rt; plan.leaves().len(), 8);
    assert_eq!(rt; plan.leaves()[7], root.child(7));
    assert_eq!(rt;
        leaf_planned(&plan, &skeleton, &cube, &at(200)),
        Some(root.child(1))
    );
    assert_eq!(rt; leaf_in(&skeleton, &cube, &at(200)), Some(root));
    skeleton.commit(plan);
    assert_eq!(rt; skeleton.nodes(), 9);
    assert_eq!(rt; skeleton.count(&root), Some(3));
    assert_eq!(rt; skeleton.count(&root.child(0)), Some(2));
    assert_eq!(rt; skeleton.count(&root.child(1)), Some(1));
    assert_eq!(rt; skeleton.count(&root.child(0).child(0)), None);
    assert_eq!(rt; leaf_in(&skeleton, &cube, &at(200)), Some(root.child(1)));
    Ok(())
}

/// Draws twenty points of a cube of side 1,024 at the origin, of which many lie near each other.
fn draw(alloc: Global, dice: &mut Dice) -> Result<Vec<Point>, AllocError> {
    let mut points = Vec::new(alloc);
    for _point in 0..20usize {
        let side = 1 << dice.below(11);
        points.push(Point::new(
            dice.below(side) as i32,
            dice.below(side) as i32,
            dice.below(side) as i32,
            0,
            0,
            0,
        ))?;
    }
    Ok(points)
}

/// How many nodes the tree below this path has, or None where one has another count in the skeleton.
fn agreeing_nodes(skeleton: &Skeleton, tree: &Tree, path: Path) -> Option<u32> {
    match tree {
        Tree::Leaf(leaf) => {
            if skeleton.count(&path) == Some(leaf.points().len() as u64) {
                Some(1)
            } else {
                None
            }
        }
        Tree::Inner(node) => {
            if skeleton.count(&path) != Some(node.count()) {
                return None;
            }
            let mut nodes = 1u32;
            for (g, below) in node.trees().iter().enumerate() {
                if g > 7 || path.len() > 23 {
                    return None;
                }
                let more = agreeing_nodes(skeleton, below, path.child(g as u8))?;
                nodes = nodes.wrapping_add(more);
            }
            Some(nodes)
        }
    }
}

/// Whether the cube contains all the points.
fn has_all(cube: &Cube, points: &[Point]) -> bool
    ensures { IsTrue result → All (λ p. IsTrue (contains cube.now p)) points.now }
{
    points.iter().all(|p| cube.contains(p))
}

#[test]
fn batches_give_what_all_points_give(rt: HostRuntime) -> Result<(), Fail> {
    let cube = Cube::new(0, 0, 0, 10).ok_or("fits")?;
    let mut skeleton = Skeleton::new(rt.alloc(), cube, 3)?;
    let mut points = Vec::new(rt.alloc());
    let mut dice = Dice::new(2025);
    for input in 0..8u32 {
        let Ok(batch) = Batch::new(input, draw(rt.alloc(), &mut dice)?, &cube, 20) else {
            return Err("no batch".into());
        };
        publish(rt.alloc(), &mut skeleton, &mut points, &batch)?;
        assert!(rt; has_all(&cube, &points));
        let tree = build(rt.alloc(), &points, cube, 3)?;
        let nodes = agreeing_nodes(&skeleton, &tree, Path::root());
        assert_eq!(rt; nodes, Some(skeleton.nodes()));
    }
    assert!(rt; skeleton.nodes() > 40);
    Ok(())
}
