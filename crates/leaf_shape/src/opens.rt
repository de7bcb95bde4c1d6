ghost use Rattle.std.specs.Prelude.{◌≡◌, ℕ, ◌+◌, ◌*◌, ◌≤◌, ◌<◌, ◌^◌, ◌++◌, ◌∷◌, [], All, length, vec_len};
ghost use Rattle.std.specs.Vec.{vec_capacity};
ghost use Rattle.leaf_shape.specs.Kept.{ArePlaced};
ghost use Rattle.leaf_shape.specs.Openings.{AreShared, blocks, paths_of};
ghost use Rattle.leaf_shape.specs.declared.opening.Opening.{Opening};

use crate::node::{Node, open_node};
use crate::opening::Opening;
use crate::place::Place;
use cube_math::{Cube, Path};

/// Opens a list for each path that is ready, in their order.
pub(crate) fn open_all(
    cube: &Cube,
    nodes: &mut Vec<Node>,
    paths: &mut Vec<Path>,
    places: &mut Vec<Place>,
    ready: &[Opening],
)
    requires placed { ArePlaced cube.now nodes.old.items paths.old.items places.old.items }
    requires fit { All (λ (o : Opening). length o.path + 7 ≤ cube.now.bits) ready.now }
    requires shared { AreShared ready.now }
    requires node_room { vec_len nodes.old + 8 * blocks ready.now ≤ vec_capacity nodes.old }
    requires few_nodes { vec_len nodes.old + 8 * blocks ready.now < 2 ^ 32 }
    requires path_room { vec_len paths.old + length ready.now ≤ vec_capacity paths.old }
    requires place_room { vec_len places.old + length ready.now ≤ vec_capacity places.old }
    requires few_lists { vec_len paths.old + length ready.now < 2 ^ 32 }
    ensures placed { ArePlaced cube.now nodes.new.items paths.new.items places.new.items }
    ensures paths { paths.new.items ≡ paths.old.items ++ paths_of ready.now }
    ensures node_room { vec_len nodes.new ≤ vec_capacity nodes.new }
    ensures few_nodes { vec_len nodes.new < 2 ^ 32 }
    ensures path_room { vec_len paths.new ≤ vec_capacity paths.new }
    ensures place_room { vec_len places.new ≤ vec_capacity places.new }
    ensures few_lists { vec_len paths.new < 2 ^ 32 }
{
    for opening in ready {
        let node = open_node(nodes, &opening.path, paths.len() as u32);
        add_list(
            paths,
            places,
            opening.path,
            Place {
                cube: cube.at(&opening.path),
                node,
            },
        );
    }
}

/// Notes one list more.
fn add_list(paths: &mut Vec<Path>, places: &mut Vec<Place>, path: Path, place: Place)
    requires path_room { vec_len paths.old < vec_capacity paths.old }
    requires place_room { vec_len places.old < vec_capacity places.old }
    ensures path { paths.new.items ≡ paths.old.items ++ path ∷ [] }
    ensures place { places.new.items ≡ places.old.items ++ place ∷ [] }
    ensures paths_len { vec_len paths.new ≡ vec_len paths.old + 1 }
    ensures places_len { vec_len places.new ≡ vec_len places.old + 1 }
    ensures path_capacity { vec_capacity paths.old ≤ vec_capacity paths.new }
    ensures place_capacity { vec_capacity places.old ≤ vec_capacity places.new }
{
    let Ok(()) = paths.push(path) else {
        unreachable!()
    };
    let Ok(()) = places.push(place) else {
        unreachable!()
    };
}
