ghost use Rattle.std.specs.Prelude.{◌≡◌, ◌≢◌, ℕ, ◌+◌, ◌-◌, ◌^◌, ◌<◌, ◌↔◌, IsSome, IfSome, true, false, if◌then◌else◌};
ghost use Rattle.list_machine.specs.Words.{decode, encode, one_more, raised, holding, link_to, item_in};
ghost use Rattle.list_machine.specs.declared.words.Claimed.TheVariants.{Index, Shut};

/// The bit of a claim word that says that its list is shut.
const SHUT: u64 = 1 << 63;

/// The bit of a slot that says that its item was moved.
const MOVED: u64 = 1 << 63;

/// What a claim gave.
#[derive(Clone, Copy, Debug, PartialEq, Eq)]
pub enum Claimed {
    /// The place in the claimed chain that is the claimer's from now on.
    Index(u64),
    /// The list is shut, and there is no place.
    Shut,
}

/// The claim word after one more claim, and what the claim gave. A claim counts in a shut list too.
pub fn claim(word: u64) -> (u64, Claimed)
    requires { (decode word).value < 2 ^ 63 - 1 }
    ensures word { decode result.0 ≡ one_more (decode word) }
    ensures answer { result.1 ≡ (if (decode word).high then Shut else Index (decode word).value) }
{
    let answer = if word < SHUT {
        Claimed::Index(word)
    } else {
        Claimed::Shut
    };
    (word + 1, answer)
}

/// The slot with an item in it, or None where the slot is not 0, so that it has an item or was marked.
pub fn file(word: u64, item: u32) -> Option<u64>
    ensures free { IsSome result ↔ (word ≡ 0) }
    ensures item { IfSome result (λ n. decode n ≡ holding item) }
{
    (word == 0).then_some(u64::from(item) + 1)
}

/// The link to a chunk that has this rank in its chain, or None where the link word is not 0.
pub fn link(word: u64, rank: u32, chunk: u32) -> Option<u64>
    requires { chunk < 2 ^ 32 - 1 }
    ensures free { IsSome result ↔ (word ≡ 0) }
    ensures link { IfSome result (λ n. n ≡ link_to rank chunk) }
{
    let found = (u64::from(rank) << 32) + u64::from(chunk) + 1;
    if word == 0 { Some(found) } else { None }
}

/// The claim word of the list once it is shut. Its count stays.
pub fn shut(word: u64) -> u64
    ensures { decode result ≡ raised (decode word) }
{
    word | SHUT
}

/// The slot once it is marked as moved. Its item stays.
pub fn mark(word: u64) -> u64
    ensures { decode result ≡ raised (decode word) }
{
    word | MOVED
}

/// The slot or link once it is cleared.
pub fn clear(_word: u64) -> u64
    ensures { result ≡ 0 }
{
    0
}

/// The item of a slot, whether it was moved or not, or None where the slot has none: its value part is
/// not 1 to 2^32.
pub fn item_of(word: u64) -> Option<u32>
    ensures { result ≡ item_in (decode word) }
{
    let value = word & !MOVED;
    if value == 0 || value > 1 << 32 {
        None
    } else {
        Some((value - 1) as u32)
    }
}

/// A law: a word of 64 bits is its value and its top bit. So what a contract says of a decoded word
/// says which word it is.
pub fn word_is_value_and_bit(word: u64)
    ensures { encode (decode word) ≡ word }
{}
