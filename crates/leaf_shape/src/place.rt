use cube_math::Cube;

/// Where a list stands: the cube of its path, and the number of its path's node.
#[derive(Clone, Copy, Debug)]
pub(crate) struct Place {
    pub(crate) cube: Cube,
    pub(crate) node: u32,
}
