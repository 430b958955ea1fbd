ghost use Rattle.std.specs.Prelude.{◌≡◌, ◌<◌, ◌≤◌, ◌∷◌, ◌++◌, ℕ, List, length, take, drop, Some, slice_get, IfOk, OnOk};
ghost use Rattle.std.specs.List.{flat_map};
ghost use Rattle.definitions.specs.Items as items;
ghost use Rattle.definitions.specs.Sets.{IsSet};
ghost use Rattle.definitions.specs.Fingerprints.{two_lanes};
ghost use Rattle.range_tree.specs.Nodes.{span, first_item, count_before};
ghost use Rattle.range_tree.specs.Grown.{grown_nodes, GrewWide};

use digest_core::Fingerprint;
use item_core::Item;
use std::alloc::{AllocError, Global};
use store_core::HashedItem;

/// What a node with one more item is.
#[derive(Drop)]
pub enum Grown<P> {
    /// It is one node still.
    One(P),
    /// It became two, the first one before the second.
    Two(P, P),
}

/// A node of a tree: some items in order. No call changes it.
pub trait Node: Drop + Sized {
    /// The items, in order.
    ghost content: { Self → List items.Item };

    /// How many nodes of its own it has; a leaf, how many items.
    ghost width: { Self → ℕ };

    /// How many comparisons `rank` makes at most.
    ghost most_steps: { ℕ };

    /// How many items there are.
    fn len(&self) -> usize
        ensures { result ≡ length (content self.now) };

    /// The fingerprint of the items.
    fn total(&self) -> Fingerprint
        ensures { result ≡ two_lanes.of (content self.now) };

    /// The first item.
    fn first(&self) -> &Item
        ensures { result.now ≡ first_item (content self.now) };

    /// The item at a place.
    fn item_at(&self, place: usize) -> Item
        requires { place < length (content self.now) }
        ensures { slice_get (content self.now) place ≡ Some result };

    /// The fingerprint of the items before a place. A place past the end stands for the end.
    fn sum_before(&self, place: usize) -> Fingerprint
        ensures { result ≡ two_lanes.of (take place (content self.now)) };

    /// Puts the items from one place on and before another after what is held.
    fn push_between(&self, held: &mut Vec<Item>, from: usize, to: usize) -> Result<(), AllocError>
        ensures { OnOk result (held.new.items
            ≡ held.old.items ++ span from to (content self.now)) };

    /// How many items come before this one, and how many comparisons with it were made.
    fn rank(&self, item: &Item) -> (usize, usize)
        requires { IsSet (content self.now) }
        ensures place { result.0 ≡ count_before item.now (content self.now) }
        ensures steps { result.1 ≤ most_steps };

    /// The node with a hashed item at a place.
    fn with_at(
        &self,
        alloc: Global,
        place: usize,
        hashed: HashedItem,
    ) -> Result<Grown<Self>, AllocError>
        requires { place ≤ length (content self.now) }
        ensures items { IfOk result (λ g. flat_map content (grown_nodes g) ≡
            take place (content self.now) ++ hashed ∷ drop place (content self.now)) }
        ensures widths { IfOk result (GrewWide width (width self.now)) };

    /// There is an item.
    ghost has_some: { (p : Self) → 0 < length (content p) };
}
