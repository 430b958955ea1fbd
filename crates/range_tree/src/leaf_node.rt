ghost use Rattle.std.specs.Prelude.{◌≡◌, ◌≤◌, ◌<◌, ◌+◌, ◌++◌, length, IfOk};
ghost use Rattle.std.specs.List.{flat_map};
ghost use Rattle.range_tree.specs.Nodes.{span};
ghost use Rattle.range_tree.specs.Grown.{grown_nodes, GrewWide};
ghost use Rattle.range_tree.specs.Leaves.{leaf_items, leaf_width};

use crate::leaf::Leaf;
use crate::node::{Grown, Node};
use crate::packed::Packed;
use crate::search::search;
use digest_core::Fingerprint;
use item_core::Item;
use std::alloc::{AllocError, Global};
use store_core::HashedItem;

impl Leaf {
    /// The leaf of these items.
    pub(crate) fn of(packed: Packed) -> Leaf
        requires some { 0 < length packed }
        requires small { length packed ≤ 64 }
        ensures { leaf_items result ≡ packed }
    {
        let first = packed.item(0);
        Leaf { first, packed }
    }

    /// The leaf of these items or, where they are more than 64, two leaves, each of at least 32.
    fn one_or_two(alloc: Global, packed: Packed) -> Result<Grown<Leaf>, AllocError>
        requires some { 0 < length packed }
        requires few { length packed ≤ 96 }
        ensures items { IfOk result (λ g. flat_map leaf_items (grown_nodes g) ≡ packed) }
        ensures widths { IfOk result (GrewWide leaf_width (length packed)) }
    {
        if packed.len() <= 64 {
            return Ok(Grown::One(Leaf::of(packed)));
        }
        let front = packed.part(alloc, 0, 32)?;
        let back = packed.part(alloc, 32, packed.len())?;
        Ok(Grown::Two(Leaf::of(front), Leaf::of(back)))
    }

    /// What this leaf becomes with the items of another after its own. None is hashed.
    pub(crate) fn followed_by(&self, alloc: Global, other: &Leaf) -> Result<Grown<Leaf>, AllocError>
        requires { leaf_width self.now + leaf_width other.now ≤ 96 }
        ensures items { IfOk result (λ g. flat_map leaf_items (grown_nodes g)
            ≡ leaf_items self.now ++ leaf_items other.now) }
        ensures widths { IfOk result (GrewWide leaf_width (leaf_width self.now + leaf_width other.now)) }
    {
        Leaf::one_or_two(alloc, self.packed.followed_by(alloc, &other.packed)?)
    }

    /// The leaf of the items from one place on and before another. None is hashed.
    pub(crate) fn part(&self, alloc: Global, from: usize, to: usize) -> Result<Leaf, AllocError>
        requires from { from < to }
        requires to { to ≤ leaf_width self.now }
        ensures { IfOk result (λ leaf. leaf_items leaf ≡ span from to (leaf_items self.now)) }
    {
        Ok(Leaf::of(self.packed.part(alloc, from, to)?))
    }
}

impl Node for Leaf {
    ghost content = { leaf_items };

    ghost width = { leaf_width };

    ghost most_steps = { 7 };

    ghost has_some = { λ l. l.some };

    fn len(&self) -> usize {
        self.packed.len()
    }

    fn total(&self) -> Fingerprint {
        self.packed.sum_before(self.packed.len())
    }

    fn first(&self) -> &Item {
        &self.first
    }

    fn item_at(&self, place: usize) -> Item {
        self.packed.item(place)
    }

    fn sum_before(&self, place: usize) -> Fingerprint {
        self.packed.sum_before(place)
    }

    fn push_between(&self, held: &mut Vec<Item>, from: usize, to: usize) -> Result<(), AllocError> {
        self.packed.push_between(held, from, to)
    }

    fn rank(&self, item: &Item) -> (usize, usize) {
        search(&self.packed, item)
    }

    fn with_at(
        &self,
        alloc: Global,
        place: usize,
        hashed: HashedItem,
    ) -> Result<Grown<Leaf>, AllocError> {
        Leaf::one_or_two(alloc, self.packed.with(alloc, place, &hashed)?)
    }
}
