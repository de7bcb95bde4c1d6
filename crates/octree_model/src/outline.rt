use cube_math::{Cube, Path};

/// A node of an octree without its points and voxels: where it stands, its cube, and whether it is inner.
#[derive(Clone, Copy, Debug, PartialEq, Eq)]
pub struct OutlineNode {
    pub path: Path,
    pub cube: Cube,
    pub inner: bool,
}
