//! Sorted slices of items: the part in a range, and the slice with one more item.

ghost use Rattle.std.specs.Prelude.{◌≡◌, ◌≤◌, ◌-◌, ◌^◌, ◌∷◌, ◌++◌, true, false, take, drop, length, filter, min};
ghost use Rattle.std.specs.Prelude.{sum_by, is_none, IfOk, IfSome};
ghost use Rattle.std.specs.List.Sorted.{IsPartitionPoint};
ghost use Rattle.definitions.specs.Items.{comes_before, is_below};
ghost use Rattle.definitions.specs.Sets.{IsSet, has, items_in, add_item, set_of};
ghost use Rattle.item_core.specs.Bounds.{upper_value};
ghost use Rattle.store_core.specs.Stores.{span};

use crate::span::Span;
use item_core::{Item, Lower, Range, Upper};
use std::alloc::{AllocError, Global};

/// How many of the items are before the bound.
fn place(items: &[Item], lower: &Lower) -> usize
    requires { IsSet items.now }
    ensures within { result ≤ length items.now }
    ensures parted { IsPartitionPoint (λ z. comes_before z lower.now ≡ true) (λ z. comes_before z lower.now ≡ false)
        items.now result }
{
    items.partition_point(|item| lower.is_above(item))
}

/// How many of the items are before the bound.
fn end(items: &[Item], upper: &Upper) -> usize
    requires { IsSet items.now }
    ensures within { result ≤ length items.now }
    ensures front { filter (λ z. is_below z (upper_value upper.now)) items.now ≡ take result items.now }
{
    items.partition_point(|item| upper.is_above(item))
}

/// Where the items of the range stand.
pub fn within(items: &[Item], range: &Range) -> Span
    requires { IsSet items.now }
    ensures order { result.from ≤ result.to }
    ensures end { result.to ≤ length items.now }
    ensures items { span result.from result.to items.now ≡ items_in items.now range.now }
{
    let from = place(items, range.lower());
    let to = from + end(&items[from..], range.upper());
    Span { from, to }
}

/// Where the item would go, unless it is there.
pub fn gap_for(items: &[Item], item: &Item) -> Option<usize>
    requires { IsSet items.now }
    ensures found { is_none result ≡ has items.now item.now }
    ensures gap { IfSome result (λ i. add_item items.now item.now ≡ take i items.now ++ item.now ∷ drop i items.now) }
    ensures within { IfSome result (λ i. i ≤ length items.now) }
{
    let place = place(items, &Lower::from(*item));
    match items.get(place) {
        Some(other) if *item == *other => None,
        _ => Some(place),
    }
}

/// The items with one more at a place.
pub fn with_item(
    alloc: Global,
    items: &[Item],
    place: usize,
    item: Item,
) -> Result<Vec<Item>, AllocError>
    requires { place ≤ length items.now }
    ensures { IfOk result (λ held. held.items ≡ take place items.now ++ item ∷ drop place items.now) }
{
    let (front, back) = items.split_at(place);
    let mut held = Vec::with_capacity(alloc, items.len() + 1)?;
    held.extend_from_slice(front)?;
    held.push(item)?;
    held.extend_from_slice(back)?;
    Ok(held)
}

/// How many bytes the items have, for which a caller makes room; 2^64 - 1 if they have more.
pub fn bytes_in(items: &[Item]) -> usize
    ensures { result ≡ min (2 ^ 64 - 1) (sum_by length items.now) }
{
    let mut bytes = 0usize;
    for item in items {
        bytes = bytes.saturating_add(item.bytes().len());
    }
    bytes
}

/// Each item once, in rising order.
pub fn distinct(mut items: Vec<Item>) -> Vec<Item>
    ensures { result.items ≡ set_of items.items }
{
    items.sort_unstable();
    items.dedup();
    items
}
