ghost use Rattle.std.specs.Prelude.{◌≡◌, ◌≤◌, ◌∷◌, ◌++◌, length, take, drop, IfSome, is_none};
ghost use Rattle.definitions.specs.Items.{comes_before, is_below};
ghost use Rattle.definitions.specs.Sets.{has, items_in, add_item};
ghost use Rattle.definitions.specs.Fingerprints.{two_lanes};
ghost use Rattle.item_core.specs.Bounds.{upper_value};
ghost use Rattle.range_tree.specs.Nodes.{span, PassFirst};
ghost use Rattle.range_tree.specs.Trees.{tree_items};

use crate::tree::Tree;
use digest_core::Fingerprint;
use item_core::{Item, Lower, Range, Upper};
use store_core::{RangeStore, Span};

impl Tree {
    /// How many items come before this one, and how many comparisons with it were made.
    fn rank(&self, item: &Item) -> (usize, usize)
        ensures places { PassFirst (λ z. comes_before z item.now) (tree_items self.now) result.0 }
        ensures within { result.0 ≤ length (tree_items self.now) }
        ensures steps { length self.now.branches ≤ 64 → result.1 ≤ 21 }
    {
        self.branches.rank(item)
    }

    /// How many items are below the bound, and how many comparisons with it were made.
    fn below_lower(&self, lower: &Lower) -> (usize, usize)
        ensures places { PassFirst (λ z. comes_before z lower.now) (tree_items self.now) result.0 }
        ensures steps { length self.now.branches ≤ 64 → result.1 ≤ 21 }
    {
        if lower.bytes().is_empty() {
            return (0, 0);
        }
        self.rank(&Item::of(lower.bytes()))
    }

    /// How many items are below the bound, and how many comparisons with it were made.
    fn below_upper(&self, upper: &Upper) -> (usize, usize)
        ensures places { PassFirst (λ z. is_below z (upper_value upper.now))
            (tree_items self.now) result.0 }
        ensures within { result.0 ≤ length (tree_items self.now) }
        ensures steps { length self.now.branches ≤ 64 → result.1 ≤ 21 }
    {
        match upper {
            Upper::Before(item) => self.rank(item),
            Upper::End => (self.branches.len(), 0),
        }
    }

    /// The places from which on and before which the items of the range stand, and how many
    /// comparisons with a bound were made.
    pub(crate) fn places(&self, range: &Range) -> (usize, usize, usize)
        ensures places { span result.0 result.1 (tree_items self.now)
            ≡ items_in (tree_items self.now) range.now }
        ensures within { result.1 ≤ length (tree_items self.now) }
        ensures steps { length self.now.branches ≤ 64 → result.2 ≤ 42 }
    {
        let (from, some) = self.below_lower(range.lower());
        let (to, more) = self.below_upper(range.upper());
        (from, to, some.saturating_add(more))
    }

    /// How many items stand from one place on and before another.
    pub(crate) fn between(&self, from: usize, to: usize) -> usize
        ensures { result ≡ length (span from to (tree_items self.now)) }
    {
        to.min(self.branches.len()).saturating_sub(from)
    }

    /// The fingerprint of the items in the range, and how many comparisons of a node's item with a
    /// bound were made: at most 44 where there are at most 65,536 items.
    pub fn sum_counted(&self, range: &Range) -> (Fingerprint, usize)
        ensures sum { result.0 ≡ two_lanes.of (items_in (tree_items self.now) range.now) }
        ensures steps { length (tree_items self.now) ≤ 65536 → result.1 ≤ 44 }
    {
        let (from, to, compared) = self.places(range);
        (self.sum_at(Span { from, to }), compared)
    }

    /// How many items the range holds, their fingerprint, and how many comparisons of a node's item
    /// with a bound were made: at most 44 where there are at most 65,536 items.
    pub fn count_and_sum_counted(&self, range: &Range) -> (usize, Fingerprint, usize)
        ensures count { result.0 ≡ length (items_in (tree_items self.now) range.now) }
        ensures sum { result.1 ≡ two_lanes.of (items_in (tree_items self.now) range.now) }
        ensures steps { length (tree_items self.now) ≤ 65536 → result.2 ≤ 44 }
    {
        let (from, to, compared) = self.places(range);
        let sum = self.sum_at(Span { from, to });
        (self.between(from, to), sum, compared)
    }

    /// Where the item would go, unless it is there.
    pub(crate) fn gap_for(&self, item: &Item) -> Option<usize>
        ensures found { is_none result ≡ has (tree_items self.now) item.now }
        ensures gap { IfSome result (λ i. add_item (tree_items self.now) item.now ≡
            take i (tree_items self.now) ++ item.now ∷ drop i (tree_items self.now)) }
        ensures within { IfSome result (λ i. i ≤ length (tree_items self.now)) }
    {
        let (place, _) = self.rank(item);
        if place >= self.branches.len() {
            return Some(place);
        }
        if *item == self.branches.item_at(place) {
            return None;
        }
        Some(place)
    }
}
