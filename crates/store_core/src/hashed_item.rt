ghost use Rattle.std.specs.Prelude.{◌≡◌, ◌∷◌, []};
ghost use Rattle.definitions.specs.Items.{IsItem};
ghost use Rattle.definitions.specs.Fingerprints.{two_lanes};

use digest_core::{Fingerprint, Summary};
use item_core::Item;
use std::cmp::Ordering;
use std::marker::Model;

/// An item with its fingerprint beside it, so that it is hashed once.
#[derive(Clone, Copy, Debug)]
pub struct HashedItem {
    item: Item,
    fingerprint: Fingerprint,
}

impl Model for HashedItem {
    ghost use Rattle.std.specs.Prelude.{◌≡◌, ◌∷◌, []};
    ghost use Rattle.std.proofs.Common.{sym};
    ghost use Rattle.definitions.specs.Items as items;
    ghost use Rattle.definitions.specs.Fingerprints.{two_lanes};

    ghost Value = { items.Item };

    ghost view = { λ a. a.item };

    ghost invariant = { λ a. a.fingerprint ≡ two_lanes.of (a.item ∷ []) };

    ghost inverse = { λ x. record { item = x; fingerprint = two_lanes.of (x ∷ []) } };

    ghost inverse_ok = { λ a h i. record { item = a.item; fingerprint = sym h i } };
}

impl HashedItem {
    /// The item with its fingerprint.
    pub fn new(item: Item) -> HashedItem
        ensures item { result ≡ item }
        ensures is_item { IsItem item }
    {
        let _ = item.bytes(); // proof only: it is an item
        HashedItem {
            item,
            fingerprint: Fingerprint::of_item(&item),
        }
    }

    /// The item.
    pub fn item(&self) -> &Item
        ensures item { result.now ≡ self.now }
        ensures is_item { IsItem self.now }
    {
        let _ = self.item.bytes(); // proof only: it is an item
        &self.item
    }

    /// The fingerprint of the item alone.
    pub fn fingerprint(&self) -> Fingerprint
        ensures { result ≡ two_lanes.of (self.now ∷ []) }
    {
        self.fingerprint
    }
}
