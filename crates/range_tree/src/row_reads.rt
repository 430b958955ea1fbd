//! Places in a row of nodes, and the row's nodes with one grown.

ghost use Rattle.std.specs.Prelude.{◌≡◌, ◌<◌, ◌≤◌, ◌+◌, ◌∷◌, ◌++◌, leb, length, take, drop, map, Some, slice_get};
ghost use Rattle.std.specs.Prelude.{IfOk, OnOk};
ghost use Rattle.std.specs.List.{flat_map};
ghost use Rattle.std.specs.List.Sorted.{IsNonDecreasingBy};
ghost use Rattle.definitions.specs.Sets.{IsSet};
ghost use Rattle.definitions.specs.Fingerprints.{two_lanes};
ghost use Rattle.range_tree.specs.Nodes.{span, first_item, items_of, count_before, IsSpot, IsGap, IsFull};
ghost use Rattle.range_tree.specs.Nodes.{PassFirst};

use crate::node::Node;
use crate::nodes;
use crate::row::Row;
use crate::search::{HasItems, search};
use digest_core::{Fingerprint, Summary};
use item_core::Item;
use std::alloc::{AllocError, Global};
use std::sync::Arc;
use store_core::{HashedItem, Span};

/// The first item of each node.
impl<P: Node> HasItems for Row<P> {
    ghost leads = { λ ps. map (λ p. first_item (P.content p)) ps };

    fn count(&self) -> usize {
        self.nodes.len()
    }

    fn is_before(&self, place: usize, item: &Item, head: u64) -> bool {
        let own = self.heads[place];
        if own != head {
            return own < head;
        }
        self.nodes[place].first().cmp(item).is_lt()
    }
}

/// How many of the ends are not past a place.
fn ended(ends: &[usize], place: usize) -> usize
    requires { IsNonDecreasingBy (λ end. end) ends.now }
    ensures parted { PassFirst (λ end. leb end place) ends.now result }
    ensures within { result ≤ length ends.now }
{
    ends.partition_point(|end| *end <= place)
}

impl<P: Node> Row<P> {
    /// Which node holds the item at a place, and at which place of its own.
    fn spot(&self, place: usize) -> (usize, usize)
        requires { place < length (flat_map P.content self.now) }
        ensures { IsSpot P.content self.now place result.0 result.1 }
    {
        let index = ended(&self.ends, place);
        (index, place - self.len_of_first(index))
    }

    /// Where an item goes that is to stand at a place: which node, and at which place of its own.
    fn gap(&self, place: usize) -> (usize, usize)
        requires some { 0 < length self.now }
        requires within { place ≤ length (flat_map P.content self.now) }
        ensures { IsGap P.content self.now place result.0 result.1 }
    {
        if place == 0 {
            return (0, 0);
        }
        let (index, own) = self.spot(place - 1);
        (index, own + 1)
    }

    /// The item at a place.
    pub(crate) fn item_at(&self, place: usize) -> Item
        requires { place < length (flat_map P.content self.now) }
        ensures { slice_get (flat_map P.content self.now) place ≡ Some result }
    {
        let (index, own) = self.spot(place);
        self.nodes[index].item_at(own)
    }

    /// The fingerprint of the items before a place. A place past the end stands for the end.
    pub(crate) fn sum_before(&self, place: usize) -> Fingerprint
        ensures { result ≡ two_lanes.of (take place (flat_map P.content self.now)) }
    {
        if place >= self.len() {
            return self.total();
        }
        let (index, own) = self.spot(place);
        let front = self.total_of_first(index);
        front.join(self.nodes[index].sum_before(own))
    }

    /// The nodes from the one on that holds the first item of a span, and where the span stands in what they hold.
    pub(crate) fn nodes_at(&self, at: Span) -> (&[Arc<P>], Span)
        ensures { span result.1.from result.1.to (items_of P.content result.0.now)
            ≡ span at.from at.to (flat_map P.content self.now) }
    {
        let index = ended(&self.ends, at.from);
        let begun = self.len_of_first(index);
        let to = at.to.saturating_sub(begun);
        let from = at.from - begun;
        (&self.nodes[index..], Span { from, to })
    }

    /// Puts the items from one place on and before another after what is held.
    pub(crate) fn push_between(
        &self,
        held: &mut Vec<Item>,
        from: usize,
        to: usize,
    ) -> Result<(), AllocError>
        ensures { OnOk result (held.new.items ≡ held.old.items ++ span from to (flat_map P.content self.now)) }
    {
        let (nodes, at) = self.nodes_at(Span { from, to });
        nodes::push_between(nodes, held, at.from, at.to)
    }

    /// How many items come before this one, and how many comparisons with it were made.
    pub(crate) fn rank(&self, item: &Item) -> (usize, usize)
        requires { IsSet (flat_map P.content self.now) }
        ensures place { result.0 ≡ count_before item.now (flat_map P.content self.now) }
        ensures steps { length self.now ≤ 64 → result.1 ≤ 7 + P.most_steps }
    {
        let (begun, steps) = search(self, item);
        if begun == 0 {
            return (0, steps);
        }
        let _ = self.len(); // proof only: no place is past the greatest number
        let (own, more) = self.nodes[begun - 1].rank(item);
        (
            self.len_of_first(begun - 1) + own,
            steps.saturating_add(more),
        )
    }

    /// The row with a hashed item at a place. All nodes but one are shared, and not read.
    pub(crate) fn with_at(
        &self,
        alloc: Global,
        place: usize,
        hashed: HashedItem,
    ) -> Result<Row<P>, AllocError>
        requires some { 0 < length self.now }
        requires within { place ≤ length (flat_map P.content self.now) }
        ensures length { IfOk result (λ row. length row ≤ length self.now + 1) }
        ensures wider { IfOk result (λ row. length self.now ≤ length row) }
        ensures full { IfOk result (λ row. IsFull P.width self.now → IsFull P.width row) }
        ensures items { IfOk result (λ row. flat_map P.content row ≡
            take place (flat_map P.content self.now) ++ hashed ∷ drop place (flat_map P.content self.now)) }
    {
        let (index, own) = self.gap(place);
        let grown = self.nodes[index].with_at(alloc, own, hashed)?;
        self.renewed(alloc, index, grown)
    }
}
