//! Items that are kept packed.

ghost use Rattle.std.specs.Prelude.{◌≡◌, ◌≤◌, ◌<◌, ◌++◌, length, take, Some, slice_get, OnOk};
ghost use Rattle.std.specs.List.{AllByRecursion};
ghost use Rattle.std.specs.List.Sorted.{IsPartitionedBy};
ghost use Rattle.definitions.specs.Items.{IsItem, comes_before};
ghost use Rattle.definitions.specs.Fingerprints.{two_lanes};
ghost use Rattle.range_tree.specs.Nodes.{span, PassFirst};
ghost use Rattle.range_tree.specs.Packs.{joined, IsPack};

use crate::search::HasItems;
use digest_core::Fingerprint;
use item_core::Item;
use std::alloc::AllocError;
use std::marker::Model;
use store_core::sums;

/// Fewer than 1,024 items in order. The bytes of all stand one after another. A contract sees the items.
#[derive(Drop)]
pub(crate) struct Packed {
    pub(crate) bytes: Vec<u8>,
    // Where each item ends.
    pub(crate) ends: Vec<u16>,
    // Of each item the fingerprint of all up to and with it.
    pub(crate) sums: Vec<Fingerprint>,
}

impl Model for Packed {
    ghost use Rattle.std.specs.Prelude.{List};
    ghost use Rattle.definitions.specs.Items.{Item};
    ghost use Rattle.range_tree.specs.Packs.{pieces, IsPack};

    ghost Value = { List Item };

    ghost view = { λ a. pieces 0 a.ends.items a.bytes.items };

    ghost invariant = { λ a.
        IsPack (pieces 0 a.ends.items a.bytes.items) a.bytes.items a.ends.items a.sums.items };
}

impl Packed {
    /// How many items there are.
    pub(crate) fn len(&self) -> usize
        ensures length { result ≡ length self.now }
        ensures are_items { AllByRecursion IsItem self.now }
        ensures few { length self.now < 1024 }
    {
        self.ends.len()
    }

    /// Where the item at a place begins among the bytes; at the end, where a next one would.
    pub(crate) fn start(&self, place: usize) -> usize
        requires { place ≤ length self.now }
        ensures { result ≡ length (joined (take place self.now)) }
    {
        if place == 0 {
            return 0;
        }
        self.ends[place - 1] as usize
    }

    /// The bytes of the item at a place.
    fn bytes(&self, place: usize) -> &[u8]
        requires { place < length self.now }
        ensures bytes { slice_get self.now place ≡ Some result.now }
        ensures item { IsItem result.now }
    {
        &self.bytes[self.start(place)..self.start(place + 1)]
    }

    /// The item at a place.
    pub(crate) fn item(&self, place: usize) -> Item
        requires { place < length self.now }
        ensures { slice_get self.now place ≡ Some result }
    {
        Item::of(self.bytes(place))
    }

    /// The fingerprint of the items before a place. A place past the end stands for the end.
    pub(crate) fn sum_before(&self, place: usize) -> Fingerprint
        ensures { result ≡ two_lanes.of (take place self.now) }
    {
        let fitted = place.min(self.len());
        sums::before(&self.sums, fitted)
    }

    /// Puts the items from one place on and before another after what is held. A place past the end stands for the
    /// end.
    pub(crate) fn push_between(
        &self,
        held: &mut Vec<Item>,
        from: usize,
        to: usize,
    ) -> Result<(), AllocError>
        ensures { OnOk result (held.new.items ≡ held.old.items ++ span from to self.now) }
    {
        let end = to.min(self.len());
        let start = from.min(end);
        for place in start..end {
            held.push(self.item(place))?;
        }
        Ok(())
    }
}

impl HasItems for Packed {
    ghost leads = { λ items. items };

    fn count(&self) -> usize {
        self.len()
    }

    fn is_before(&self, place: usize, item: &Item, head: u64) -> bool {
        let _ = head; // a leaf keeps none
        self.bytes(place).cmp(item.bytes()).is_lt()
    }
}
