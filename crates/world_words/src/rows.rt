ghost use Rattle.std.specs.Prelude.{◌≡◌, ℕ, suc, ◌++◌, replicate, vec_len, ◌+◌, ◌-◌, ◌*◌, ◌<◌, ◌^◌, IfOk, OnOk, OnErr, if◌then◌else◌, Option, None, Some};
ghost use Rattle.list_machine.specs.Words.{blank, decode, holding, item_in, link_to, one_more, raised};
ghost use Rattle.list_machine.specs.State.{link_at, put_claim, put_link, put_slot, zero_words};
ghost use Rattle.list_machine.specs.Moves.{is_blank};
ghost use Rattle.list_machine.specs.declared.words.Claimed.TheVariants.{Index, Shut};
ghost use Rattle.world_words.specs.WordRows.{HasLink, Hold, link_behind, list_count, made_count, words_in};

use list_machine::{Claimed, item_of, link};
use std::alloc::{AllocError, Global};
use std::marker::Model;

/// How many slots a chunk has.
const SLOTS: usize = 256;

/// The bit of a claim word that says that its list is shut.
const SHUT: u64 = 1 << 63;

/// The words of all lists, and of the chunks that were made.
#[derive(Drop)]
pub struct Rows {
    claims: Vec<u64>,
    firsts: Vec<u64>,
    nexts: Vec<u64>,
    slots: Vec<u64>,
}

impl Model for Rows {
    ghost use Rattle.world_words.specs.WordRows.{WordRows};

    ghost Value = { WordRows };

    ghost use Rattle.world_words.specs.WordsKept.{rows_of, IsEven};

    ghost view = { rows_of };

    ghost invariant = { IsEven };
}

impl Rows {
    /// The words of so many lists, all 0. No chunk is made yet.
    pub fn new(alloc: Global, lists: u32) -> Result<Rows, AllocError>
        ensures { IfOk result (λ rows. Hold rows lists 0 zero_words) }
    {
        let claims = vec![in alloc; 0u64; lists as usize]?;
        let firsts = vec![in alloc; 0u64; lists as usize]?;
        Ok(Rows {
            claims,
            firsts,
            nexts: Vec::new(alloc),
            slots: Vec::new(alloc),
        })
    }

    /// For how many lists there are words.
    pub fn lists(&self) -> usize
        ensures { result ≡ list_count self.now }
    {
        self.claims.len()
    }

    /// How many chunks were made: those with the numbers below.
    pub fn made(&self) -> usize
        ensures { result ≡ made_count self.now }
    {
        self.nexts.len()
    }

    /// Makes the words of the next chunk, all 0.
    pub fn make_chunk(&mut self) -> Result<(), AllocError>
        ensures ok { OnOk result (Hold self.new (list_count self.old) (suc (made_count self.old)) (words_in self.old)) }
        ensures err { OnErr result (self.new ≡ self.old) }
    {
        self.nexts.reserve(1)?;
        append_zeros(&mut self.slots, SLOTS)?;
        let Ok(()) = self.nexts.push(0) else {
            unreachable!()
        };
        Ok(())
    }

    /// Claims the next place of a list.
    pub fn claim(&mut self, list: u32) -> Claimed
        requires list { list < list_count self.old }
        requires room { ((words_in self.old).claim list).value < 2 ^ 63 - 1 }
        ensures words { Hold self.new (list_count self.old) (made_count self.old) (put_claim (words_in self.old) list (one_more ((words_in self.old).claim list))) }
        ensures answer { result ≡ (if ((words_in self.old).claim list).high then Shut else Index ((words_in self.old).claim list).value) }
    {
        let (word, claimed) = list_machine::claim(self.claims[list as usize]);
        self.claims[list as usize] = word;
        claimed
    }

    /// How many places were claimed in a list.
    pub fn claims(&self, list: u32) -> u64
        requires { list < list_count self.now }
        ensures { result ≡ ((words_in self.now).claim list).value }
    {
        self.claims[list as usize] & !SHUT
    }

    /// Shuts a list. Answers how many places were claimed in it.
    pub fn shut(&mut self, list: u32) -> u64
        requires { list < list_count self.old }
        ensures words { Hold self.new (list_count self.old) (made_count self.old) (put_claim (words_in self.old) list (raised ((words_in self.old).claim list))) }
        ensures found { result ≡ ((words_in self.old).claim list).value }
    {
        let word = self.claims[list as usize];
        self.claims[list as usize] = list_machine::shut(word);
        word & !SHUT
    }

    /// The link of a list, or the one behind a chunk of its claimed chain.
    pub fn link(&self, list: u32, last: Option<u32>) -> u64
        requires { HasLink self.now list last }
        ensures { result ≡ link_at (words_in self.now) list (link_behind last) }
    {
        match last {
            None => self.firsts[list as usize],
            Some(chunk) => self.nexts[chunk as usize],
        }
    }

    /// Lets that link lead to a chunk, which has this rank in the chain.
    pub fn link_to(&mut self, list: u32, last: Option<u32>, rank: u32, chunk: u32)
        requires link { HasLink self.old list last }
        requires chunk { chunk < 2 ^ 32 - 1 }
        ensures { Hold self.new (list_count self.old) (made_count self.old) (put_link (words_in self.old) list (link_behind last) (link_to rank chunk)) }
    {
        let Some(word) = link(0, rank, chunk) else {
            unreachable!()
        };
        self.set_link(list, last, word);
    }

    /// Clears that link.
    pub fn clear_link(&mut self, list: u32, last: Option<u32>)
        requires { HasLink self.old list last }
        ensures { Hold self.new (list_count self.old) (made_count self.old) (put_link (words_in self.old) list (link_behind last) 0) }
    {
        self.set_link(list, last, 0);
    }

    fn set_link(&mut self, list: u32, last: Option<u32>, word: u64)
        requires { HasLink self.old list last }
        ensures { Hold self.new (list_count self.old) (made_count self.old) (put_link (words_in self.old) list (link_behind last) word) }
    {
        match last {
            None => self.firsts[list as usize] = word,
            Some(chunk) => self.nexts[chunk as usize] = word,
        }
    }

    /// The item in a slot of a chunk, whether it was moved or not, if the slot has one.
    pub fn item(&self, chunk: u32, slot: u32) -> Option<u32>
        requires chunk { chunk < made_count self.now }
        requires slot { slot < 256 }
        ensures { result ≡ item_in ((words_in self.now).slot chunk slot) }
    {
        item_of(self.slots[SLOTS * chunk as usize + slot as usize])
    }

    /// Files an item into a slot that has neither an item nor a mark, and says whether it was so.
    pub fn file(&mut self, chunk: u32, slot: u32, item: u32) -> bool
        requires chunk { chunk < made_count self.old }
        requires slot { slot < 256 }
        ensures words { Hold self.new (list_count self.old) (made_count self.old) (if is_blank ((words_in self.old).slot chunk slot) then put_slot (words_in self.old) chunk slot (holding item) else words_in self.old) }
        ensures filed { result ≡ is_blank ((words_in self.old).slot chunk slot) }
    {
        let word = self.slots[SLOTS * chunk as usize + slot as usize];
        let Some(filed) = list_machine::file(word, item) else {
            return false;
        };
        self.set_slot(chunk, slot, filed);
        true
    }

    /// Puts an item into a slot, whatever the slot has.
    pub fn place(&mut self, chunk: u32, slot: u32, item: u32)
        requires chunk { chunk < made_count self.old }
        requires slot { slot < 256 }
        ensures { Hold self.new (list_count self.old) (made_count self.old) (put_slot (words_in self.old) chunk slot (holding item)) }
    {
        let Some(filed) = list_machine::file(0, item) else {
            unreachable!()
        };
        self.set_slot(chunk, slot, filed);
    }

    /// Marks a slot as moved. Answers its item, if it has one.
    pub fn mark(&mut self, chunk: u32, slot: u32) -> Option<u32>
        requires chunk { chunk < made_count self.old }
        requires slot { slot < 256 }
        ensures words { Hold self.new (list_count self.old) (made_count self.old) (put_slot (words_in self.old) chunk slot (raised ((words_in self.old).slot chunk slot))) }
        ensures item { result ≡ item_in ((words_in self.old).slot chunk slot) }
    {
        let word = self.slots[SLOTS * chunk as usize + slot as usize];
        self.set_slot(chunk, slot, list_machine::mark(word));
        item_of(word)
    }

    /// Clears a slot.
    pub fn clear_slot(&mut self, chunk: u32, slot: u32)
        requires chunk { chunk < made_count self.old }
        requires slot { slot < 256 }
        ensures { Hold self.new (list_count self.old) (made_count self.old) (put_slot (words_in self.old) chunk slot blank) }
    {
        self.set_slot(chunk, slot, 0);
    }

    fn set_slot(&mut self, chunk: u32, slot: u32, word: u64)
        requires chunk { chunk < made_count self.old }
        requires slot { slot < 256 }
        ensures { Hold self.new (list_count self.old) (made_count self.old) (put_slot (words_in self.old) chunk slot (decode word)) }
    {
        self.slots[SLOTS * chunk as usize + slot as usize] = word;
    }
}

/// Appends so many zeros.
fn append_zeros(numbers: &mut Vec<u64>, n: usize) -> Result<(), AllocError>
    requires { vec_len numbers.old + n < 2 ^ 63 }
    ensures ok { OnOk result (numbers.new.items ≡ numbers.old.items ++ replicate n 0) }
    ensures err { OnErr result (numbers.new.items ≡ numbers.old.items) }
{
    let len = numbers.len() + n;
    numbers.resize(len, 0)?;
    Ok(())
}
