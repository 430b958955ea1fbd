//! The items that come first and rise.

ghost use Rattle.std.specs.Prelude.{◌≤◌, length, take};
ghost use Rattle.definitions.specs.Sets.{IsSet};

use item_core::Item;

/// How many of the items come first and rise, of so many at most.
pub(crate) fn rising_front(items: &[Item], most: usize) -> usize
    ensures within { result ≤ length items.now }
    ensures most { result ≤ most }
    ensures rises { IsSet (take result items.now) }
{
    let most = most.min(items.len());
    for place in 1..most {
        if items[place - 1] >= items[place] {
            return place;
        }
    }
    most
}
