//! Running sums: beside each item the fingerprint of all items up to and with it. So the fingerprint of the items
//! between two places is a difference of two sums.

ghost use Rattle.std.specs.Prelude.{◌≡◌, ◌≤◌, ◌∷◌, ◌++◌, List, take, drop, length, IfOk};
ghost use Rattle.std.specs.List.{AllByRecursion};
ghost use Rattle.definitions.specs.Items as items;
ghost use Rattle.definitions.specs.Items.{IsItem};
ghost use Rattle.definitions.specs.Fingerprints.{two_lanes};
ghost use Rattle.store_core.specs.Stores.{span};
ghost use Rattle.store_core.specs.Sums.{running_sums, sums_after};

use crate::hashed_item::HashedItem;
use digest_core::{Fingerprint, Summary};
use item_core::Item;
use std::alloc::{AllocError, Global};

/// The running sums of the items. Each item is hashed once.
pub fn running(alloc: Global, items: &[Item]) -> Result<Vec<Fingerprint>, AllocError>
    ensures sums { IfOk result (λ sums. sums.items ≡ running_sums items.now) }
    ensures are_items { IfOk result (λ sums. AllByRecursion IsItem items.now) }
{
    let mut sums = Vec::with_capacity(alloc, items.len())?;
    let mut total = Fingerprint::zero();
    for item in items {
        let _ = item.bytes(); // proof only: it is an item
        total = total.join(Fingerprint::of_item(item));
        sums.push(total)?;
    }
    Ok(sums)
}

/// The fingerprint of the items before a place.
pub fn before(sums: &[Fingerprint], place: usize) -> Fingerprint
    requires { place ≤ length sums.now }
    ensures { (A : List items.Item) → sums.now ≡ running_sums A → result ≡ two_lanes.of (take place A) }
{
    match place.checked_sub(1) {
        None => Fingerprint::zero(),
        Some(last) => sums[last],
    }
}

/// The running sums of the items with a hashed item at a place. None of them is hashed.
pub fn with_hashed(
    alloc: Global,
    sums: &[Fingerprint],
    place: usize,
    hashed: &HashedItem,
) -> Result<Vec<Fingerprint>, AllocError>
    requires { place ≤ length sums.now }
    ensures { (A : List items.Item) → sums.now ≡ running_sums A →
        IfOk result (λ held. held.items ≡ running_sums (take place A ++ hashed.now ∷ drop place A)) }
{
    let own = hashed.fingerprint();
    let (front, back) = sums.split_at(place);
    let mut held = Vec::with_capacity(alloc, sums.len() + 1)?;
    held.extend_from_slice(front)?;
    held.push(before(sums, place).join(own))?;
    for sum in back {
        held.push(sum.join(own))?;
    }
    Ok(held)
}

/// The running sums of items that follow others, from the sums of both and the fingerprint of those others.
fn later(
    alloc: Global,
    sums: &[Fingerprint],
    front: Fingerprint,
) -> Result<Vec<Fingerprint>, AllocError>
    ensures { (A B : List items.Item) → front ≡ two_lanes.of A → sums.now ≡ sums_after two_lanes.of A B →
        IfOk result (λ held. held.items ≡ running_sums B) }
{
    let mut held = Vec::with_capacity(alloc, sums.len())?;
    for sum in sums {
        held.push(sum.without(front))?;
    }
    Ok(held)
}

/// The running sums of the items from one place on and before another.
pub fn part(
    alloc: Global,
    sums: &[Fingerprint],
    from: usize,
    to: usize,
) -> Result<Vec<Fingerprint>, AllocError>
    requires from { from ≤ to }
    requires to { to ≤ length sums.now }
    ensures { (A : List items.Item) → sums.now ≡ running_sums A →
        IfOk result (λ held. held.items ≡ running_sums (span from to A)) }
{
    let front = before(sums, from);
    later(alloc, &sums[from..to], front)
}
