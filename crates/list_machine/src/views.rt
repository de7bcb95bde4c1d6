//! What the seats know of the lists. No value of these types is made: contracts speak of them.

use std::collections::LinkedList;

/// Leave to claim `n` places in the claimed chain of a list.
#[derive(Clone, Copy, Debug, PartialEq, Eq)]
pub struct Grant {
    pub list: u32,
    pub n: u32,
}

/// A link word: the one of a list, which leads to the first chunk of its claimed chain, or the one of a
/// chunk, which leads to the next.
pub enum LinkWord {
    OfList,
    OfChunk(u64),
}

/// What is known for good of a word of a list, until the list is cleared.
pub enum Fact {
    /// The slot has the item, whether it was moved or not.
    Item {
        list: u64,
        chunk: u64,
        slot: u64,
        item: u64,
    },
    /// The link word leads to the chunk, which has this rank in the claimed chain.
    Link {
        list: u64,
        from: LinkWord,
        rank: u64,
        chunk: u64,
    },
    /// The list is shut.
    Closed {
        list: u64,
    },
    /// The slot was marked as moved while it had no item, so it gets none.
    Empty {
        list: u64,
        chunk: u64,
        slot: u64,
    },
}

/// How far the life of a list has come.
pub enum Stage {
    /// It was not shut yet.
    Open,
    /// It is shut. `place` is its place in the order of shut lists, `found` is the count of claims that
    /// the shut found, and `marks` is how many of its slots are marked.
    Swept { place: u64, found: u64, marks: u64 },
    /// Its clearing has begun, and `words` of its words are cleared.
    Cleared { place: u64, words: u64 },
}

/// What the owner knows of a list: its two chains of chunks, how many places of the claimed chain were
/// granted, and how many slots of the owned chain are used.
pub struct Leaf {
    pub claimed: LinkedList<u64>,
    pub owned: LinkedList<u64>,
    pub granted: u64,
    pub used: u64,
    pub stage: Stage,
}

/// The owner's book: all lists, the shut ones in the order in which they were shut, and how many of
/// these are cleared.
pub struct Book {
    pub leaves: LinkedList<Leaf>,
    pub order: LinkedList<u64>,
    pub cleared: u64,
}

/// The view of the owner's seat: the book, for each number how many seats are out that were born when
/// so many lists were shut, and its facts.
pub struct Owner {
    pub book: Book,
    pub out: LinkedList<u64>,
    pub facts: LinkedList<Fact>,
}

/// The place that a filer has claimed and not filed into yet.
pub enum Unfiled {
    Nothing,
    Place { list: u64, index: u64 },
}

/// The view of a filer's or a reader's seat: whether it is out, how many lists were shut when it was
/// made, what it may still claim, and its facts.
pub struct Guest {
    pub out: bool,
    pub birth: u64,
    pub grants: LinkedList<Grant>,
    pub claim: Unfiled,
    pub facts: LinkedList<Fact>,
}
