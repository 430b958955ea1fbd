//! Cutting a range.

ghost use Rattle.std.specs.Prelude.{◌≡◌, ◌+◌, ◌∷◌, ◌<◌, ◌≤◌, ℕ, List, length, map, take, drop, [], IfOk, IsTrue};
ghost use Rattle.std.specs.Prelude.{IsFalse};
ghost use Rattle.std.specs.List.{AllByRecursion};
ghost use Rattle.definitions.specs.Items.{cut_range as cut, Rises, is_below, separator};
ghost use Rattle.definitions.specs.Replies.{bound_at};
ghost use Rattle.item_core.specs.Bounds.{upper_value};
ghost use Rattle.strategy_core.specs.Rules.{bounds_of};
ghost use Rattle.store_core.specs.Stores.{span};

use item_core::{Item, Lower, Range, Upper};
use std::alloc::{AllocError, Global};
use store_core::{RangeStore, Span};
use strategy_core::Bounds;

/// Whether this byte stands at the place.
fn has_at(bytes: &[u8], place: usize, byte: u8) -> bool
    ensures yes { IsTrue result → drop place bytes.now ≡ byte ∷ drop (place + 1) bytes.now }
    ensures no { IsFalse result → (tail : List ℕ) → separator (drop place bytes.now) (byte ∷ tail) ≡ byte ∷ [] }
{
    place < bytes.len() && bytes[place] == byte
}

/// The length of the beginning of an item that ends with its first byte that the one before it does not have there.
fn separator_length(before: &[u8], item: &[u8]) -> usize
    requires { 0 < length item.now }
    ensures some { 1 ≤ result }
    ensures few { result ≤ length item.now }
    ensures value { take result item.now ≡ separator before.now item.now }
{
    for place in 0..item.len() {
        if !has_at(before, place, item[place]) {
            return place + 1;
        }
    }
    item.len()
}

/// The shortest bound after one item and not after another that is above it.
fn separator_of(before: &Item, item: &Item) -> Item
    ensures { result ≡ separator before.now item.now }
{
    let bytes = item.bytes();
    Item::of(&bytes[..separator_length(before.bytes(), bytes)])
}

/// The bound of a part that begins at this place of the span, counted from its first.
fn bound_of<S: RangeStore>(bounds: Bounds, store: &S, at: Span, place: usize) -> Item
    requires { place < length (span at.from at.to (S.content store.now)) }
    ensures { result ≡ bound_at (bounds_of bounds) (span at.from at.to (S.content store.now)) place }
{
    let _ = store.len(); // proof only: a place is below 2^64
    let item = store.item_at(at.from + place);
    match bounds {
        Bounds::Items => item,
        Bounds::Short => separator_of(&store.item_at(at.from + place.saturating_sub(1)), &item),
    }
}

/// The bounds of the parts that begin at these places of the span, counted from its first.
pub(crate) fn bounds_at<S: RangeStore>(
    alloc: Global,
    bounds: Bounds,
    store: &S,
    at: Span,
    places: &[usize],
) -> Result<Vec<Item>, AllocError>
    requires { AllByRecursion (λ place. place < length (span at.from at.to (S.content store.now))) places.now }
    ensures { IfOk result (λ held. held.items
        ≡ map (bound_at (bounds_of bounds) (span at.from at.to (S.content store.now))) places.now) }
{
    let mut held = Vec::with_capacity(alloc, places.len())?;
    for place in places {
        held.push(bound_of(bounds, store, at, *place))?;
    }
    Ok(held)
}

/// The range between two bounds.
fn between(lower: Lower, upper: Upper) -> Range
    requires { IsTrue (is_below lower (upper_value upper)) }
    ensures { result ≡ record { lower = lower; upper = upper_value upper } }
{
    match Range::new(lower, upper) {
        Ok(range) => range,
        Err(_) => unreachable!(),
    }
}

/// The parts that a range is cut into at these bounds.
pub(crate) fn cut_range(
    alloc: Global,
    range: &Range,
    bounds: &[Item],
) -> Result<Vec<Range>, AllocError>
    requires { AllByRecursion Rises (cut range.now bounds.now) }
    ensures { IfOk result (λ parts. parts.items ≡ cut range.now bounds.now) }
{
    let mut parts = Vec::with_capacity(alloc, bounds.len() + 1)?;
    let mut lower = *range.lower();
    for bound in bounds {
        parts.push(between(lower, Upper::from(*bound)))?;
        lower = Lower::from(*bound);
    }
    parts.push(between(lower, *range.upper()))?;
    Ok(parts)
}
