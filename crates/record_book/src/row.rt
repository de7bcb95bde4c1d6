/// Where an admitted batch stands.
#[derive(Clone, Copy, Debug, PartialEq, Eq)]
pub enum Standing {
    /// It was neither published nor abandoned.
    Out,
    /// It was published.
    Published,
    /// It was given up: its points stay admitted, and are never published.
    Abandoned,
}

/// What a pass did: it admitted or published the kept batch at a place, or it looked and has this number.
#[derive(Clone, Copy, Debug, PartialEq, Eq)]
pub enum Row {
    Admits(u32),
    Publishes(u32),
    Looks(u32),
}
