ghost use Rattle.std.specs.Prelude.{◌≡◌, ◌*◌, ◌<◌, ◌≤◌, ◌^◌, ◌++◌, IfOk, OnOk, string_bytes, length};
ghost use Rattle.octree_model.specs.Shapes.{IsOctreeIn};
ghost use Rattle.octree_plain.specs.Summary.{demo_text, leaf_count, inner_count, voxel_count, voxel_sum, cells_and_colours, number_line, kinds_line};

use crate::count::node_count;
use crate::listing::{point_count, write_cube};
use cube_math::Cube;
use octree_model::{Tree, Voxel};
use std::alloc::{AllocError, Global};

/// The text of what an octree has, whose points came in so many batches: the numbers of points and batches, the
/// cube, the numbers of nodes, of inner nodes, of leaves and of voxels, and the sum of all cell numbers and colour
/// numbers of voxels.
pub fn demo_text(
    alloc: Global,
    tree: &Tree,
    cube: &Cube,
    batches: usize,
) -> Result<Vec<u8>, AllocError>
    requires { IsOctreeIn cube.now tree.now }
    ensures { IfOk result (λ text. text.items ≡ demo_text batches tree.now cube.now) }
{
    // So that each point lies in at most 24 inner nodes.
    prove!(cube.bits <= 31);
    let totals = totals_of(tree);
    let mut out = String::new(alloc);
    write_number(&mut out, "points", point_count(tree))?;
    write_number(&mut out, "batches", batches as u64)?;
    write_cube(&mut out, cube)?;
    write_kinds(&mut out, node_count(tree), totals.inner, totals.leaves)?;
    write_number(&mut out, "voxels", totals.voxels)?;
    write_number(&mut out, "sum", totals.sum)?;
    Ok(out.into_bytes())
}

/// Appends a word and a number.
fn write_number(out: &mut String, word: &str, n: u64) -> Result<(), AllocError>
    ensures { OnOk result (string_bytes out.new ≡ string_bytes out.old ++ number_line word.now n) }
{
    writeln!(out, "{word} {n}")
}

/// Appends how many nodes there are, and how many of each kind.
fn write_kinds(out: &mut String, all: u64, inner: u64, leaves: u64) -> Result<(), AllocError>
    ensures { OnOk result (string_bytes out.new ≡ string_bytes out.old ++ kinds_line all inner leaves) }
{
    writeln!(out, "nodes {all} inner {inner} leaf {leaves}")
}

/// What a tree has: leaves, inner nodes, voxels, and the sum of the voxels' cell and colour numbers.
#[derive(Clone, Copy)]
struct Totals {
    leaves: u64,
    inner: u64,
    voxels: u64,
    sum: u64,
}

/// What the nodes of a tree have together. The sum fits, since a cell number is below 2^21 and a colour number
/// below 2^24.
fn totals_of(tree: &Tree) -> Totals
    requires leaves { leaf_count tree.now < 2 ^ 64 }
    requires inner { inner_count tree.now < 2 ^ 64 }
    requires voxels { voxel_count tree.now ≤ 2 ^ 38 }
    ensures leaves { result.leaves ≡ leaf_count tree.now }
    ensures inner { result.inner ≡ inner_count tree.now }
    ensures voxels { result.voxels ≡ voxel_count tree.now }
    ensures sum { result.sum ≡ voxel_sum tree.now }
    ensures fits { result.sum ≤ 2 ^ 25 * result.voxels }
{
    match tree {
        Tree::Leaf(_) => Totals {
            leaves: 1,
            inner: 0,
            voxels: 0,
            sum: 0,
        },
        Tree::Inner(node) => {
            let voxels = node.voxels();
            let mut all = Totals {
                leaves: 0,
                inner: 1,
                voxels: voxels.len() as u64,
                sum: cells_and_colours(voxels),
            };
            for t in node.trees() {
                let below = totals_of(t);
                all.leaves += below.leaves;
                all.inner += below.inner;
                all.voxels += below.voxels;
                all.sum += below.sum;
            }
            all
        }
    }
}

/// The sum of the cell numbers and the colour numbers of voxels.
fn cells_and_colours(voxels: &[Voxel]) -> u64
    requires { length voxels.now ≤ 2 ^ 38 }
    ensures value { result ≡ cells_and_colours voxels.now }
    ensures fits { result ≤ 2 ^ 25 * length voxels.now }
{
    let mut sum = 0u64;
    for voxel in voxels {
        let Voxel { cell, rgb } = *voxel;
        sum += u64::from(cell) + u64::from(rgb);
    }
    sum
}
