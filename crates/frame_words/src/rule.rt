//! The rule of a canvas's table, and what its steps tell.
//! Each pixel has one word: the least key drawn there.

use atomic_table::{Join, Play, Seat, Split, Table, TableRule};
use std::alloc::Global;
use std::collections::LinkedList;
use std::marker::{Brand, PhantomData};

/// What a seat knows: its shares of the right to know the whole canvas, and the least key that it drew at each
/// pixel. No value of it is made.
pub struct Hand {
    pub shares: u64,
    pub keys: LinkedList<u64>,
}

pub struct Rule;

impl TableRule<(), Hand, usize> for Rule {
    ghost use Rattle.frame_words.specs.Hands.{IsKept, first_hand};

    ghost holds = { λ pixels. IsKept pixels };

    ghost first = { λ pixels. first_hand pixels };
}

pub type Desk = Table<(), Hand, usize, Rule, Global>;

pub type Chair = Seat<(), Hand>;

/// A key is drawn at a pixel.
pub struct Draw;

impl Play<(), Hand> for Draw {
    ghost use Rattle.frame_words.specs.Hands.{Drew};

    ghost then = { Drew };
}

/// A key, which a call picks.
pub trait Key {
    ghost use Rattle.std.specs.Prelude.{ℕ};

    ghost key: { ℕ };
}

impl Key for Brand {
    ghost key = { 0 };
}

/// It is seen whether a key would lower a word.
pub struct Look<K> {
    key: PhantomData<K>,
}

impl<K: Key> Play<(), Hand> for Look<K> {
    ghost use Rattle.frame_words.specs.Hands.{Looked};

    ghost then = { Looked K.key };
}

/// The key of a pixel is read.
pub struct Load;

impl Play<(), Hand> for Load {
    ghost use Rattle.frame_words.specs.Hands.{Read};

    ghost then = { Read };
}

/// A pixel is wiped.
pub struct Wipe;

impl Play<(), Hand> for Wipe {
    ghost use Rattle.frame_words.specs.Hands.{Wiped};

    ghost then = { Wiped };
}

/// A seat gives half of its shares to a new one.
pub struct Halve;

impl Split<Hand> for Halve {
    ghost use Rattle.frame_words.specs.Hands.{giver, taker};

    ghost left = { giver };

    ghost right = { taker };
}

/// A seat takes in another.
pub struct Unite;

impl Join<Hand> for Unite {
    ghost use Rattle.frame_words.specs.Hands.{united, spent};

    ghost both = { united };

    ghost spent = { spent };
}
