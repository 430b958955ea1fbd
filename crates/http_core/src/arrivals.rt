//! The items that a set took last, in the order in which it took them.

ghost use Rattle.std.specs.Prelude.{◌≡◌, ◌+◌, ◌-◌, ◌<◌, ◌≤◌, ◌^◌, ℕ, List, [], ◌∷◌, ◌++◌, drop, length, take};
ghost use Rattle.std.specs.Prelude.{IfOk, IfSome, IfNone};
ghost use Rattle.definitions.specs.Items.{Item as Bytes};
ghost use Rattle.http_core.specs.Arrivals.{AreArrivalsOf, AreGone};

use circular_buffer::HeapCircularBuffer;
use item_core::Item;
use std::alloc::{AllocError, Global};

/// How many items are kept.
pub const MOST_ARRIVALS: usize = 65_536;

/// The items that a set took last, and how many it ever took.
#[derive(Drop)]
pub struct Arrivals {
    /// How many it ever took.
    pub taken: u64,
    /// The last of them, oldest first.
    pub items: HeapCircularBuffer<Item>,
}

impl Arrivals {
    /// The set has so many items, and none of them is kept here. Only this call takes memory.
    pub fn new(alloc: Global, had: u64) -> Result<Arrivals, AllocError>
        ensures { IfOk result (AreArrivalsOf had []) }
    {
        Ok(Arrivals {
            taken: had,
            items: HeapCircularBuffer::with_capacity(alloc, MOST_ARRIVALS)?,
        })
    }

    /// The set took this item. It is kept in place of the oldest one, where as many are kept as may be. Of more than
    /// 2^64 - 1 the count stops.
    pub fn note(&mut self, item: Item)
        ensures { (had : ℕ) (all : List Bytes) → had + length all + 1 < 2 ^ 64 → AreArrivalsOf had all self.old
            → AreArrivalsOf had (all ++ item ∷ []) self.new }
    {
        self.taken = self.taken.saturating_add(1);
        let _oldest = self.items.push_back(item);
    }

    /// How many items the set ever took: those that it had first among them.
    pub fn taken(&self) -> u64
        ensures { (had : ℕ) (all : List Bytes) → AreArrivalsOf had all self.now → result ≡ had + length all }
    {
        self.taken
    }

    /// How many items the set took before the oldest one that is kept.
    pub fn first(&self) -> u64
        ensures { result ≡ self.now.taken - length self.now.items.items }
    {
        self.taken.saturating_sub(self.items.len() as u64)
    }

    /// The place of the item after the first so many, if it is kept, or is the next one to come.
    fn place_after(&self, seen: u64) -> Option<usize>
        ensures place { IfSome result (λ place. (place ≤ length self.now.items.items)
            × (seen + length self.now.items.items ≡ self.now.taken + place)) }
        ensures gone { IfNone result (AreGone seen self.now) }
    {
        let kept = self.items.len();
        let later = self.taken.checked_sub(seen)?;
        if later > kept as u64 {
            return None;
        }
        Some(kept - later as usize)
    }

    /// The items that the set took after the first so many, oldest first, but no more than `most` of them. None where
    /// one of them is not kept, or where the set has not taken so many.
    pub fn after(
        &self,
        alloc: Global,
        seen: u64,
        most: usize,
    ) -> Result<Option<Vec<Item>>, AllocError>
        ensures found { IfOk result (λ found. IfSome found (λ v. (had : ℕ) (all : List Bytes) →
            AreArrivalsOf had all self.now → (had ≤ seen) × (v.items ≡ take most (drop (seen - had) all)))) }
        ensures gone { IfOk result (λ found. IfNone found (AreGone seen self.now)) }
    {
        let Some(place) = self.place_after(seen) else {
            return Ok(None);
        };
        Ok(Some(self.from_place(alloc, place, most)?))
    }

    /// The items from this place on, but no more than `most` of them.
    fn from_place(&self, alloc: Global, place: usize, most: usize) -> Result<Vec<Item>, AllocError>
        requires { place ≤ length self.now.items.items }
        ensures { IfOk result (λ v. v.items ≡ take most (drop place self.now.items.items)) }
    {
        let count = most.min(self.items.len() - place);
        let mut items = Vec::new(alloc);
        for later in 0..count {
            let Some(item) = self.items.get(place + later) else {
                return Ok(items);
            };
            items.push(*item)?;
        }
        Ok(items)
    }
}
