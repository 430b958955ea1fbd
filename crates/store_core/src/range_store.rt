ghost use Rattle.std.specs.Prelude.{◌≡◌, ◌<◌, ◌≤◌, ◌↔◌, List, [], length, not, take, Some, slice_get, IfOk, IsTrue};
ghost use Rattle.std.specs.List.{AllByRecursion};
ghost use Rattle.definitions.specs.Items as items;
ghost use Rattle.definitions.specs.Items.{IsItem};
ghost use Rattle.definitions.specs.Sets.{IsSet, has, items_in, add_item, set_of};
ghost use Rattle.definitions.specs.Fingerprints.{two_lanes};
ghost use Rattle.store_core.specs.Stores.{span, IfNew, is_new};

use crate::span::Span;
use crate::{set_laws, spans};
use digest_core::Fingerprint;
use item_core::{Item, Range};
use std::alloc::{AllocError, Global};

/// What `RangeStore::with` gives.
#[derive(Drop)]
pub enum Insertion<S> {
    /// The store with the item.
    New(S),
    /// The store has the item already.
    Already,
}

/// A set of items, however it is kept. No call changes it: `with` makes another.
pub trait RangeStore: Drop + Sized {
    /// The items, in rising order.
    ghost content: { Self → List items.Item };

    /// A store of no items.
    fn empty(alloc: Global) -> Self
        ensures { content result ≡ [] };

    /// The store of the items of a set, in their order. Each one is hashed once.
    fn from_rising(alloc: Global, items: &[Item]) -> Result<Self, AllocError>
        requires { IsSet items.now }
        ensures { IfOk result (λ s. content s ≡ items.now) };

    /// The store of these items, each one once.
    fn from_items(alloc: Global, items: Vec<Item>) -> Result<Self, AllocError>
        ensures { IfOk result (λ s. content s ≡ set_of items.items) }
    {
        set_laws::set_of_a_list();
        Self::from_rising(alloc, &spans::distinct(items))
    }

    /// How many items there are.
    fn len(&self) -> usize
        ensures { result ≡ length (content self.now) };

    /// Whether there is none.
    fn is_empty(&self) -> bool
        ensures { IsTrue result ↔ (content self.now ≡ []) }
    {
        self.len() == 0
    }

    /// Where the items of the range stand.
    fn span_of(&self, range: &Range) -> Span
        ensures items { span result.from result.to (content self.now) ≡ items_in (content self.now) range.now }
        ensures within { result.to ≤ length (content self.now) };

    /// The fingerprint of the items before a place. A place past the end stands for the end.
    fn sum_before(&self, place: usize) -> Fingerprint
        ensures { result ≡ two_lanes.of (take place (content self.now)) };

    /// The fingerprint of the items of a span.
    fn sum_at(&self, at: Span) -> Fingerprint
        ensures { result ≡ two_lanes.of (span at.from at.to (content self.now)) }
    {
        let Span { from, to } = at.fitted(self.len());
        self.sum_before(to).without(self.sum_before(from))
    }

    /// The items of a span, in rising order.
    fn items_at(&self, alloc: Global, at: Span) -> Result<Vec<Item>, AllocError>
        ensures { IfOk result (λ held. held.items ≡ span at.from at.to (content self.now)) };

    /// The item at a place, from 0.
    fn item_at(&self, place: usize) -> Item
        requires { place < length (content self.now) }
        ensures { slice_get (content self.now) place ≡ Some result };

    /// How many items the range holds.
    fn count(&self, range: &Range) -> usize
        ensures { result ≡ length (items_in (content self.now) range.now) }
    {
        self.span_of(range).len()
    }

    /// The fingerprint of the items in the range.
    fn sum(&self, range: &Range) -> Fingerprint
        ensures { result ≡ two_lanes.of (items_in (content self.now) range.now) }
    {
        self.sum_at(self.span_of(range))
    }

    /// How many items the range holds, and their fingerprint.
    fn count_and_sum(&self, range: &Range) -> (usize, Fingerprint)
        ensures count { result.0 ≡ length (items_in (content self.now) range.now) }
        ensures sum { result.1 ≡ two_lanes.of (items_in (content self.now) range.now) }
    {
        let at = self.span_of(range);
        (at.len(), self.sum_at(at))
    }

    /// The item at this place among those in the range, from 0.
    fn nth(&self, range: &Range, place: usize) -> Item
        requires { place < length (items_in (content self.now) range.now) }
        ensures { slice_get (items_in (content self.now) range.now) place ≡ Some result }
    {
        let _ = self.len(); // proof only: a place is below 2^64
        self.item_at(self.span_of(range).from + place)
    }

    /// The items in the range, in rising order.
    fn items(&self, alloc: Global, range: &Range) -> Result<Vec<Item>, AllocError>
        ensures { IfOk result (λ held. held.items ≡ items_in (content self.now) range.now) }
    {
        self.items_at(alloc, self.span_of(range))
    }

    /// Whether the item is there.
    fn has(&self, item: &Item) -> bool
        ensures { result ≡ has (content self.now) item.now };

    /// The store with the item, unless it is there already.
    fn with(&self, alloc: Global, item: Item) -> Result<Insertion<Self>, AllocError>
        ensures store { IfOk result (λ w. IfNew w (λ s. content s ≡ add_item (content self.now) item)) }
        ensures new { IfOk result (λ w. is_new w ≡ not (has (content self.now) item)) };

    /// The same set again.
    fn copy(&self, alloc: Global) -> Result<Self, AllocError>
        ensures { IfOk result (λ s. content s ≡ content self.now) };

    /// Each item is before all later ones.
    ghost rises: { (s : Self) → IsSet (content s) };

    ghost are_items: { (s : Self) → AllByRecursion IsItem (content s) };
}
