ghost use Rattle.std.specs.Prelude.{◌≡◌, ◌≢◌, ℕ, ◌+◌, ◌≤◌, ◌<◌, ◌↔◌, List, [], ◌∷◌, ◌++◌, All, Contains, IsSome, IsTrue, IfOk, IfSome, OnOk, OnErr, length};
ghost use Rattle.std.specs.List.{AllZip};
ghost use Rattle.cube_math.specs.Cubes.{contains, cube_at};
ghost use Rattle.leaf_shape.specs.Shapes.{caught_up, IsLatest, IsListOf, IsPathIn, IsSplit, ShapeValue, path_of};

use crate::node::{Node, bare_node, find_node};
use crate::opening::{Opening, count_blocks, openings};
use crate::opens::open_all;
use crate::place::Place;
use cube_math::{Cube, Path, Point};
use std::alloc::{AllocError, Global};
use std::marker::Model;

/// The shape of an octree as its lists stand: for each list the path, and the cube, for which it was opened. Lists are
/// numbered from 0 on as they are opened. The first is the root's. Lists are opened and never closed: where a leaf was
/// split, lists stand for longer paths below its own.
#[derive(Drop)]
pub struct LeafShape {
    cube: Cube,
    nodes: Vec<Node>,
    paths: Vec<Path>,
    places: Vec<Place>,
    ready: Vec<Opening>,
}

impl Model for LeafShape {
    ghost use Rattle.leaf_shape.specs.Shapes.{ShapeValue};

    ghost Value = { ShapeValue };

    ghost use Rattle.leaf_shape.specs.Kept.{shape_of, IsKept};

    ghost view = { shape_of };

    ghost invariant = { IsKept };
}

impl LeafShape {
    /// The shape of a root with this cube, which is a leaf: its list has the number 0.
    pub fn new(alloc: Global, cube: Cube) -> Result<LeafShape, AllocError>
        ensures { IfOk result (λ shape. shape ≡ record { cube = cube; paths = [] ∷ []; ready = [] }) }
    {
        // So that the root's path fits the cube.
        prove!(cube.bits >= 7);
        let mut nodes = Vec::with_capacity(alloc, 1)?;
        nodes.push(Node {
            below: None,
            list: Some(0),
        })?;
        let mut paths = Vec::with_capacity(alloc, 1)?;
        paths.push(Path::root())?;
        let mut places = Vec::with_capacity(alloc, 1)?;
        places.push(Place { cube, node: 0 })?;
        Ok(LeafShape {
            cube,
            nodes,
            paths,
            places,
            ready: Vec::new(alloc),
        })
    }

    /// The cube of the root.
    pub fn root_cube(&self) -> Cube
        ensures { result ≡ self.now.cube }
    {
        self.cube
    }

    /// How many lists were opened.
    pub fn lists(&self) -> u32
        ensures number { result ≡ length self.now.paths }
        ensures paths { All (IsPathIn self.now.cube) self.now.paths }
    {
        self.paths.len() as u32
    }

    /// The path for which a list was opened.
    pub fn path(&self, list: u32) -> Path
        requires { list < length self.now.paths }
        ensures { result ≡ path_of self.now.paths list }
    {
        self.paths[list as usize]
    }

    /// The cube of the path for which a list was opened.
    pub fn cube(&self, list: u32) -> Cube
        requires { list < length self.now.paths }
        ensures { result ≡ cube_at self.now.cube (path_of self.now.paths list) }
    {
        self.places[list as usize].cube
    }

    /// The list that was opened last for exactly this path; None where none was.
    pub fn list_at(&self, path: &Path) -> Option<u32>
        ensures found { IsSome result ↔ Contains self.now.paths path.now }
        ensures latest { IfSome result (IsLatest self.now.paths path.now) }
    {
        let node = find_node(&self.nodes, path)?;
        self.nodes[node as usize].list
    }

    /// Whether some list was opened below a path.
    pub fn is_split(&self, path: &Path) -> bool
        ensures { IsTrue result ↔ IsSplit self.now.paths path.now }
    {
        match find_node(&self.nodes, path) {
            Some(node) => self.nodes[node as usize].below.is_some(),
            None => false,
        }
    }

    /// For each of some paths the list that was opened last for it.
    pub fn lists_at(&self, alloc: Global, paths: &[Path]) -> Result<Vec<u32>, AllocError>
        requires { All (Contains self.now.paths) paths.now }
        ensures { IfOk result (λ lists. AllZip (IsLatest self.now.paths) paths.now lists.items) }
    {
        let mut lists = Vec::with_capacity(alloc, paths.len())?;
        for path in paths {
            let Some(list) = self.list_at(path) else {
                unreachable!()
            };
            lists.push(list)?;
        }
        Ok(lists)
    }

    /// Whether no list was opened below the path of this one.
    pub fn is_leaf(&self, list: u32) -> bool
        requires { list < length self.now.paths }
        ensures { IsTrue result ↔ (IsSplit self.now.paths (path_of self.now.paths list) → ⊥) }
    {
        let place = self.places[list as usize];
        self.nodes[place.node as usize].below.is_none()
    }

    /// The list of a point: that of the longest path whose cube contains the point. It walks down by octants.
    pub fn list_of(&self, p: &Point) -> u32
        requires { IsTrue (contains self.now.cube p.now) }
        ensures { IsListOf self.now.cube self.now.paths p.now result }
    {
        let mut node = self.nodes[0];
        let mut list = node.list.unwrap_or(0);
        let mut cube = self.cube;
        while let Some(first) = node.below {
            let octant = cube.octant(p);
            node = self.nodes[(first + u32::from(octant)) as usize];
            cube = cube.child(octant);
            list = node.list.unwrap_or(list);
        }
        list
    }

    /// The list of a point, where a list is tried first, as that of the point before. The answer does not depend on it.
    pub fn list_near(&self, p: &Point, hint: u32) -> u32
        requires { IsTrue (contains self.now.cube p.now) }
        ensures { IsListOf self.now.cube self.now.paths p.now result }
    {
        if self.is_leaf_of(hint, p) {
            hint
        } else {
            self.list_of(p)
        }
    }

    /// Makes room to open lists for these paths, in this order, in place of what was ready before.
    pub fn reserve(&mut self, alloc: Global, paths: &[Path]) -> Result<(), AllocError>
        requires { All (λ path. length path + 7 ≤ self.old.cube.bits) paths.now }
        ensures ok { OnOk result (self.new ≡ record self.old { ready = paths.now }) }
        ensures err { OnErr result (self.new ≡ self.old) }
    {
        let most = u32::MAX as usize;
        if paths.len() > most || self.paths.len() > most - paths.len() {
            return Err(AllocError);
        }
        let ready = openings(alloc, paths)?;
        let nodes = 8 * count_blocks(&ready) as usize;
        if nodes > most || self.nodes.len() > most - nodes {
            return Err(AllocError);
        }
        self.nodes.reserve(nodes)?;
        self.paths.reserve(paths.len())?;
        self.places.reserve(paths.len())?;
        self.ready = ready;
        Ok(())
    }

    /// Opens lists for the paths that are ready, in their order, and answers the number of the first. It takes no memory.
    pub fn open_ready(&mut self) -> u32
        ensures first { result ≡ length self.old.paths }
        ensures opened { self.new ≡ record self.old { paths = self.old.paths ++ self.old.ready; ready = [] } }
    {
        let first = self.lists();
        open_all(
            &self.cube,
            &mut self.nodes,
            &mut self.paths,
            &mut self.places,
            &self.ready,
        );
        self.ready.clear();
        first
    }

    /// A copy, with nothing ready.
    pub fn try_clone(&self, alloc: Global) -> Result<LeafShape, AllocError>
        ensures { IfOk result (λ copy. copy ≡ record self.now { ready = [] }) }
    {
        Ok(LeafShape {
            cube: self.cube,
            nodes: Vec::from_slice(alloc, &self.nodes)?,
            paths: Vec::from_slice(alloc, &self.paths)?,
            places: Vec::from_slice(alloc, &self.places)?,
            ready: Vec::new(alloc),
        })
    }

    /// Opens the lists that a newer shape of the same cube has beyond the number of lists here: an older state of
    /// it becomes as it is now. Of a shape of another cube it becomes a copy. What was ready is let go.
    pub fn catch_up(&mut self, alloc: Global, newer: &LeafShape) -> Result<(), AllocError>
        ensures caught { newer.now.cube ≡ self.old.cube → OnOk result (self.new ≡ caught_up self.old newer.now) }
        ensures older { (more : List (List ℕ)) → newer.now.cube ≡ self.old.cube
            → newer.now.paths ≡ self.old.paths ++ more → OnOk result (self.new ≡ record newer.now { ready = [] }) }
        ensures copied { newer.now.cube ≢ self.old.cube → OnOk result (self.new ≡ record newer.now { ready = [] }) }
        ensures err { OnErr result (self.new ≡ self.old) }
    {
        if !is_same_cube(&self.cube, &newer.cube) {
            *self = newer.try_clone(alloc)?;
            return Ok(());
        }
        let known = self.paths.len().min(newer.paths.len());
        self.reserve(alloc, &newer.paths[known..])?;
        self.open_ready();
        Ok(())
    }

    /// Whether the list stands for a leaf in whose cube the point lies, and is the last that was opened for it.
    fn is_leaf_of(&self, list: u32, p: &Point) -> bool
        ensures { IsTrue result → IsListOf self.now.cube self.now.paths p.now list }
    {
        let Some(place) = self.places.get(list as usize) else {
            return false;
        };
        let node = self.nodes[place.node as usize];
        if node.below.is_some() {
            return false;
        }
        match node.list {
            Some(latest) => (latest == list) & place.cube.contains(p),
            None => false,
        }
    }
}

/// Whether two cubes are the same.
fn is_same_cube(cube: &Cube, other: &Cube) -> bool
    ensures { IsTrue result ↔ (cube.now ≡ other.now) }
{
    cube == other
}
