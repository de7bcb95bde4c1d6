/// The place of a chunk: a list, which of its two chains, and the rank there. Once the chunk is free again it
/// names a place where the chunk no longer is.
#[derive(Clone, Copy)]
pub struct Home {
    pub list: u32,
    pub owned: bool,
    pub rank: u32,
}
