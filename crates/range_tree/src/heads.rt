//! The first bytes of an item as a number. Two items whose numbers differ are in the order of these.

ghost use Rattle.std.specs.Prelude.{◌≡◌, get_or};
ghost use Rattle.definitions.specs.Items.{IsBytes};
ghost use Rattle.range_tree.specs.Heads.{head_number};

use item_core::Item;

/// The byte at a place; past the end it is 0.
fn byte_at(bytes: &[u8], place: usize) -> u8
    ensures { result ≡ get_or bytes.now place 0 }
{
    if place < bytes.len() {
        return bytes[place];
    }
    0
}

/// The number of the first 8 bytes, the highest first, with zeros after a shorter item.
pub fn head_of(item: &Item) -> u64
    ensures number { result ≡ head_number item.now }
    ensures bytes { IsBytes item.now }
{
    let bytes = item.bytes();
    let mut number = 0u64;
    for place in 0..8 {
        number = number * 256 + byte_at(bytes, place) as u64;
    }
    number
}
