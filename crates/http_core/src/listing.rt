//! The items of a range of several sets, one set after the other, some at a time.

ghost use Rattle.std.specs.Prelude.{◌≡◌, ◌++◌, ◌≤◌, [], List, drop, false, flat_map, length, take};
ghost use Rattle.std.specs.Prelude.{IfNone, IfOk, IfSome};
ghost use Rattle.definitions.specs.Items.{Item as Bytes, is_below};
ghost use Rattle.definitions.specs.Sets.{items_in};
ghost use Rattle.store_core.specs.Stores.{span};
ghost use Rattle.http_core.specs.Listings.{between};

use item_core::{Item, Lower, Range, Upper};
use std::alloc::{AllocError, Global};
use std::marker::Model;
use store_core::{RangeStore, Span};

/// How many items are given at a time, at most.
pub const PAGE: usize = 2_048;

/// The range from the first item on and before the second one, where they are given. None where it has no item.
pub fn range_between(from: Option<Item>, to: Option<Item>) -> Option<Range>
    ensures range { IfSome result (λ X. X ≡ between from to) }
    ensures empty { IfNone result (is_below (between from to).lower (between from to).upper ≡ false) }
{
    let lower = match from {
        Some(item) => Lower::from(item),
        None => Lower::start(),
    };
    let upper = match to {
        Some(item) => Upper::from(item),
        None => Upper::End,
    };
    Range::new(lower, upper).ok()
}

/// Of what stands at these places the next part after the first so many.
fn part_of(at: Span, given: usize) -> Span
    ensures end { result.to ≤ at.to }
    ensures part { (A : List Bytes) → at.to ≤ length A
        → span result.from result.to A ≡ take 2048 (drop given (span at.from at.to A)) }
{
    let from = at.from.saturating_add(given).min(at.to);
    Span {
        from,
        to: from.saturating_add(PAGE).min(at.to),
    }
}

/// The items of a range of several sets that are still to be given.
#[derive(Drop)]
pub struct Listing<S: RangeStore> {
    stores: Vec<S>,
    range: Range,
    /// The set whose turn it is, and how many of its items were given.
    turn: usize,
    given: usize,
}

impl<S: RangeStore> Model for Listing<S> {
    ghost use Rattle.std.specs.Prelude.{List, drop};
    ghost use Rattle.definitions.specs.Items.{Item as Bytes};
    ghost use Rattle.http_core.specs.Listings.{left};

    ghost Value = { List Bytes };

    ghost view = { λ l. left S.content l.range l.given (drop l.turn l.stores.items) };
}

impl<S: RangeStore> Listing<S> {
    /// The items of this range of these sets.
    pub fn new(stores: Vec<S>, range: Range) -> Listing<S>
        ensures { result ≡ flat_map (λ s. items_in (S.content s) range) stores.items }
    {
        Listing {
            stores,
            range,
            turn: 0,
            given: 0,
        }
    }

    /// The next items; there may be none, though more are to come. None at the end.
    pub fn next(&mut self, alloc: Global) -> Result<Option<Vec<Item>>, AllocError>
        ensures items { IfOk result (λ found. IfSome found (λ v. self.old ≡ v.items ++ self.new)) }
        ensures end { IfOk result (λ found. IfNone found (self.old ≡ [])) }
    {
        let Some(store) = self.stores.get(self.turn) else {
            return Ok(None);
        };
        let items = store.items_at(alloc, part_of(store.span_of(&self.range), self.given))?;
        if items.is_empty() {
            self.turn += 1;
            self.given = 0;
        } else {
            self.given += items.len();
        }
        Ok(Some(items))
    }
}
