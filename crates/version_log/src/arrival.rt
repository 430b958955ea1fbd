//! Where the items of a history came into its store.

ghost use Rattle.std.specs.Prelude.{◌≡◌, ◌+◌, ◌<◌, ◌≤◌, List, [], length, filter, get_or, slice_get, Some};
ghost use Rattle.definitions.specs.Items.{Item as Bytes, comes_before};
ghost use Rattle.version_log.specs.Arrivals.{before, HaveCome, entries_of, history_of};

use crate::entry::Entry;
use item_core::{EmptyRange, Item, Lower, Range, Upper};
use store_core::RangeStore;

/// An entry that a log did not open with. Its item is in the store.
#[derive(Clone, Copy, Debug, PartialEq, Eq)]
pub struct Arrival {
    /// The number of the writer.
    pub writer: u32,
    /// The place in the store at which the item came.
    pub place: u32,
}

/// How many items of the store are before this one.
pub(crate) fn place_of<S: RangeStore>(store: &S, item: &Item) -> usize
    ensures { result ≡ length (filter (λ x. comes_before x item.now) (S.content store.now)) }
{
    match Range::new(Lower::start(), Upper::from(*item)) {
        Ok(range) => store.count(&range),
        Err(EmptyRange) => 0, // no item is before the first one
    }
}

/// Where an item stands after another came, which stood at a place before it did.
fn moved_by(arrival: Arrival, place: usize) -> usize
    requires { place < 4294967296 }
    ensures moved { arrival.place ≤ place → result ≡ place + 1 }
    ensures stayed { place < arrival.place → result ≡ place }
{
    if arrival.place as usize <= place {
        return place + 1;
    }
    place
}

/// Where an item stands after these came, which stood at a place before they did.
pub(crate) fn place_after(arrivals: &[Arrival], place: usize) -> usize
    requires { place + length arrivals.now < 4294967296 }
    ensures { (A : List Bytes) → HaveCome arrivals.now A → place < length (before arrivals.now A) →
        (result < length A) × (get_or A result [] ≡ get_or (before arrivals.now A) place []) }
{
    let mut place = place;
    for arrival in arrivals {
        place = moved_by(*arrival, place);
    }
    place
}

/// The entry at a place among those that a log opened with, where these came later.
pub(crate) fn first_entry<S: RangeStore>(store: &S, arrivals: &[Arrival], index: usize) -> Entry
    requires come { HaveCome arrivals.now (S.content store.now) }
    requires few { length (S.content store.now) ≤ 65536 }
    requires low { index < length (before arrivals.now (S.content store.now)) }
    ensures { slice_get (history_of arrivals.now (S.content store.now)) index ≡ Some result }
{
    let place = place_after(arrivals, index);
    Entry::new(0, store.item_at(place))
}

/// The entry of the one at a place among these, which came later.
pub(crate) fn later_entry<S: RangeStore>(store: &S, arrivals: &[Arrival], index: usize) -> Entry
    requires come { HaveCome arrivals.now (S.content store.now) }
    requires few { length (S.content store.now) ≤ 65536 }
    requires low { index < length arrivals.now }
    ensures { slice_get (entries_of arrivals.now (S.content store.now)) index ≡ Some result }
{
    let arrival = arrivals[index];
    let place = place_after(&arrivals[index + 1..], arrival.place as usize);
    Entry::new(arrival.writer, store.item_at(place))
}
