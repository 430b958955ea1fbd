//! A binary search that counts its comparisons.

ghost use Rattle.std.specs.Prelude.{◌≡◌, ◌≤◌, ◌<◌, List, [], length, get_or};
ghost use Rattle.std.specs.List.Sorted.{IsPartitionedBy};
ghost use Rattle.definitions.specs.Items as items;
ghost use Rattle.definitions.specs.Items.{IsBytes, comes_before};
ghost use Rattle.range_tree.specs.Heads.{head_number};
ghost use Rattle.range_tree.specs.Nodes.{PassFirst};

use crate::heads::head_of;
use item_core::Item;

/// What has items at places.
pub trait HasItems {
    /// The items.
    ghost leads: { Self → List items.Item };

    /// How many there are.
    fn count(&self) -> usize
        ensures { result ≡ length (leads self.now) };

    /// Whether the item at a place comes before this one, whose first bytes are the head.
    fn is_before(&self, place: usize, item: &Item, head: u64) -> bool
        requires place { place < length (leads self.now) }
        requires head { head ≡ head_number item.now }
        requires bytes { IsBytes item.now }
        ensures { result ≡ comes_before (get_or (leads self.now) place []) item.now };
}

/// How many of the items come before this one, and how many comparisons with it were made.
pub fn search<L: HasItems>(list: &L, item: &Item) -> (usize, usize)
    requires { IsPartitionedBy (λ z. comes_before z item.now) (L.leads list.now) }
    ensures parted { PassFirst (λ z. comes_before z item.now) (L.leads list.now) result.0 }
    ensures within { result.0 ≤ length (L.leads list.now) }
    ensures steps { length (L.leads list.now) ≤ 64 → result.1 ≤ 7 }
{
    let head = head_of(item);
    let mut low = 0;
    let mut high = list.count();
    let mut steps = 0;
    while low < high {
        let middle = low + (high - low) / 2;
        if list.is_before(middle, item, head) {
            low = middle + 1;
        } else {
            high = middle;
        }
        steps += 1;
    }
    (low, steps)
}
