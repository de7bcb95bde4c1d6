/// The limits on an octree that is made batch by batch.
#[derive(Clone, Copy, Debug, PartialEq, Eq)]
pub struct Limits {
    /// The most points of a leaf.
    pub leaf: u32,
    /// The most nodes.
    pub nodes: u32,
    /// The most points.
    pub points: u32,
}
