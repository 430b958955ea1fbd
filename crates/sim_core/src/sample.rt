//! Two sets that are made: nearly equal, with their differences all over the order.

ghost use Rattle.std.specs.Prelude.{◌≡◌, ◌+◌, ◌*◌, ◌-◌, ◌<◌, ◌≤◌, ◌++◌, length, take, drop, IfOk};
ghost use Rattle.std.specs.Int.{w32, to_be_bytes};
ghost use Rattle.definitions.specs.Sets.{IsSet, set_of};
ghost use Rattle.sim_core.specs.Samples.{AreMade, IsSample, item_text, items_from, word_after};

use item_core::Item;
use std::alloc::{AllocError, Global};
use store_core::set_laws;
use store_core::spans::distinct;

/// The words of four bytes of the longest item.
const WORDS: usize = 16;

/// Two sets of items of one length. Half of the differences are on each side.
#[derive(Clone, Copy, Debug, PartialEq, Eq)]
pub struct Sample {
    /// The items of the responder's set, up to 65,536. The initiator's has one less if the differences are odd.
    pub items: u32,
    /// The items that one set has and the other lacks: no more than `items`.
    pub differences: u32,
    /// The bytes of an item, 4 to 64.
    pub length: u32,
}

/// The word after a word of the item of this number.
fn word_after(number: u32, word: u32) -> u32
    ensures { result ≡ word_after number word }
{
    word.wrapping_mul(69_069)
        .wrapping_add(number.wrapping_mul(514_229))
        .wrapping_add(1)
}

/// Puts a word at its place.
fn put_word(bytes: &mut [u8; 4 * WORDS], place: usize, word: u32)
    requires { place < 16 }
    ensures { bytes.new ≡ take (4 * place) bytes.old ++ (to_be_bytes w32 word ++ drop (4 * place + 4) bytes.old) }
{
    bytes[4 * place..4 * place + 4].copy_from_slice(&word.to_be_bytes());
}

/// The item of a number: a first word by which numbers that follow one another are scattered, and words that look like
/// any. `examples/make-items` makes the same.
fn item_of(number: u32, size: usize) -> Item
    requires { (4 ≤ size) × (size ≤ 64) }
    ensures { result ≡ item_text size number }
{
    let mut bytes = [0u8; 4 * WORDS];
    let mut word = number.wrapping_mul(2_654_435_769);
    let mut next = number.wrapping_mul(2_246_822_519).wrapping_add(12_345);
    for place in 0..WORDS {
        put_word(&mut bytes, place, word);
        word = next;
        next = word_after(number, next);
    }
    Item::of(&bytes[..size])
}

/// The items of the numbers from `first` to before `end`.
fn items_between(alloc: Global, first: u32, end: u32, size: usize) -> Result<Vec<Item>, AllocError>
    requires size { (4 ≤ size) × (size ≤ 64) }
    requires order { first ≤ end }
    ensures { IfOk result (λ v. v.items ≡ items_from size first (end - first)) }
{
    let mut items = Vec::new(alloc);
    for number in first..end {
        items.push(item_of(number, size))?;
    }
    Ok(items)
}

/// The same as a set.
fn set_between(alloc: Global, first: u32, end: u32, size: usize) -> Result<Vec<Item>, AllocError>
    requires size { (4 ≤ size) × (size ≤ 64) }
    requires order { first ≤ end }
    ensures { IfOk result (λ v. v.items ≡ set_of (items_from size first (end - first))) }
{
    let items = items_between(alloc, first, end, size)?;
    Ok(distinct(items))
}

/// The two sets: the responder's, and then the initiator's. `examples/make-items` makes the same in its shape `spread`,
/// as the left file and the right one.
pub fn sets_of(alloc: Global, sample: Sample) -> Result<(Vec<Item>, Vec<Item>), AllocError>
    requires { IsSample sample }
    ensures made { IfOk result (λ sets. AreMade sample sets.0.items sets.1.items) }
    ensures rise { IfOk result (λ sets. IsSet sets.0.items × IsSet sets.1.items) }
    ensures few { IfOk result (λ sets. (length sets.0.items ≤ sample.items)
        × (length sets.1.items ≤ sample.items)) }
{
    set_laws::set_of_a_list();
    let size = sample.length as usize;
    let more = sample.differences / 2;
    let only_theirs = sample.differences - more;
    let theirs = set_between(alloc, 0, sample.items, size)?;
    let ours = set_between(alloc, only_theirs, sample.items + more, size)?;
    Ok((theirs, ours))
}
