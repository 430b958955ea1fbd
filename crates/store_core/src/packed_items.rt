//! Items that are kept packed.

ghost use Rattle.std.specs.Prelude.{◌≡◌, ◌+◌, ◌^◌, ◌<◌, ◌≤◌, ◌↔◌, ◌∷◌, ◌++◌, ℕ, [], length, take, map, get_or, Some};
ghost use Rattle.std.specs.Prelude.{slice_get, vec_len, vec_capacity, IsTrue, IfOk, OnOk, OnErr};

use crate::room::make_room;
use crate::spans::bytes_in;
use item_core::Item;
use std::alloc::{AllocError, Global};
use std::marker::Model;

/// Items in the order in which they came, with at most 4,294,967,295 bytes in all. The bytes of all stand one after
/// another, so that an item takes its own bytes and four more. A contract sees the list of the items.
#[derive(Debug, Drop)]
pub struct PackedItems {
    bytes: Vec<u8>,
    // Where each item ends.
    ends: Vec<u32>,
}

impl Model for PackedItems {
    ghost use Rattle.std.specs.Prelude.{List, length};
    ghost use Rattle.definitions.specs.Items.{Item};
    ghost use Rattle.store_core.specs.Packs.{pieces, IsRising};

    ghost Value = { List Item };

    ghost view = { λ a. pieces 0 a.ends.items a.bytes.items };

    ghost invariant = { λ a. IsRising 0 a.ends.items (length a.bytes.items) };
}

/// Where the item at a place begins; at the end, where a next one would.
fn start_of(ends: &[u32], place: usize) -> usize
    requires { place ≤ length ends.now }
    ensures { result ≡ get_or (0 ∷ ends.now) place 0 }
{
    if place == 0 {
        return 0;
    }
    ends[place - 1] as usize
}

/// Where the last item ends.
fn last_end(ends: &[u32]) -> usize
    ensures { result ≡ get_or (0 ∷ ends.now) (length ends.now) 0 }
{
    start_of(ends, ends.len())
}

/// The end of so many bytes. There is none above 4,294,967,295: no list gets so long.
fn end_of(bytes: usize) -> Result<u32, AllocError>
    ensures { IfOk result (λ end. end ≡ bytes) }
{
    match u32::try_from(bytes) {
        Ok(end) => Ok(end),
        Err(_) => Err(AllocError),
    }
}

/// Puts the ends of other items after these, each so much further on. There is room for them.
fn push_ends(ends: &mut Vec<u32>, others: &[u32], from: u32)
    requires room { vec_len ends.old + length others.now ≤ vec_capacity ends.old }
    requires low { (k : ℕ) → k < length others.now → from + get_or others.now k 0 < 2 ^ 32 }
    ensures { ends.new.items ≡ ends.old.items ++ map (λ end. from + end) others.now }
{
    for end in others {
        let moved = from + *end;
        ends.push_reserved(moved);
    }
}

impl PackedItems {
    /// No items.
    pub fn new(alloc: Global) -> PackedItems
        ensures { result ≡ [] }
    {
        PackedItems {
            bytes: Vec::new(alloc),
            ends: Vec::new(alloc),
        }
    }

    /// No items, and room for so many, which have so many bytes in all.
    pub fn with_room(alloc: Global, count: usize, bytes: usize) -> Result<PackedItems, AllocError>
        ensures { IfOk result (λ packed. packed ≡ []) }
    {
        Ok(PackedItems {
            bytes: Vec::with_capacity(alloc, bytes)?,
            ends: Vec::with_capacity(alloc, count)?,
        })
    }

    /// These items, and no room for others.
    pub fn from_slice(alloc: Global, items: &[Item]) -> Result<PackedItems, AllocError>
        ensures { IfOk result (λ packed. packed ≡ items.now) }
    {
        let mut packed = PackedItems::with_room(alloc, items.len(), bytes_in(items))?;
        for item in items {
            packed.push(item)?;
        }
        Ok(packed)
    }

    /// How many items there are.
    pub fn len(&self) -> usize
        ensures { result ≡ length self.now }
    {
        self.ends.len()
    }

    /// Whether there is none.
    pub fn is_empty(&self) -> bool
        ensures { IsTrue result ↔ (self.now ≡ []) }
    {
        self.len() == 0
    }

    /// The item at a place, from 0.
    pub fn item(&self, place: usize) -> Item
        requires { place < length self.now }
        ensures { slice_get self.now place ≡ Some result }
    {
        let start = start_of(&self.ends, place);
        let end = self.ends[place] as usize;
        Item::of(&self.bytes[start..end])
    }

    /// The item at a place, from 0, if there are so many.
    pub fn get(&self, place: usize) -> Option<Item>
        ensures { result ≡ slice_get self.now place }
    {
        if place < self.len() {
            return Some(self.item(place));
        }
        None
    }

    /// The items, each unpacked.
    pub fn to_vec(&self, alloc: Global) -> Result<Vec<Item>, AllocError>
        ensures { IfOk result (λ items. items.items ≡ self.now) }
    {
        let count = self.len();
        let mut items = Vec::with_capacity(alloc, count)?;
        for place in 0..count {
            items.push(self.item(place))?;
        }
        Ok(items)
    }

    /// Puts an item after the others. Where memory runs out, or there would be too many bytes, nothing is changed.
    pub fn push(&mut self, item: &Item) -> Result<(), AllocError>
        ensures pushed { OnOk result (self.new ≡ self.old ++ item.now ∷ []) }
        ensures memory { OnErr result (self.new ≡ self.old) }
    {
        let bytes = item.bytes();
        let end = end_of(self.bytes.len().saturating_add(bytes.len()))?;
        make_room(&mut self.ends, 1)?;
        make_room(&mut self.bytes, bytes.len())?;
        self.bytes.extend_from_slice(bytes)?;
        self.ends.push_reserved(end);
        Ok(())
    }

    /// Puts other items after these. Where memory runs out, or there would be too many bytes, nothing is changed.
    pub fn append(&mut self, others: &PackedItems) -> Result<(), AllocError>
        ensures appended { OnOk result (self.new ≡ self.old ++ others.now) }
        ensures memory { OnErr result (self.new ≡ self.old) }
    {
        if others.is_empty() {
            return Ok(()); // most parts of a message bring nothing
        }
        let from = end_of(self.bytes.len())?;
        let _end = end_of(self.bytes.len().saturating_add(others.bytes.len()))?;
        make_room(&mut self.ends, others.ends.len())?;
        make_room(&mut self.bytes, others.bytes.len())?;
        self.bytes.extend_from_slice(&others.bytes)?;
        push_ends(&mut self.ends, &others.ends, from);
        Ok(())
    }

    /// Gives up all items but the first so many.
    pub fn truncate(&mut self, count: usize)
        ensures { self.new ≡ take count self.old }
    {
        self.ends.truncate(count);
        let end = last_end(&self.ends);
        self.bytes.truncate(end);
    }

    /// The same items again.
    pub fn copy(&self, alloc: Global) -> Result<PackedItems, AllocError>
        ensures { IfOk result (λ packed. packed ≡ self.now) }
    {
        Ok(PackedItems {
            bytes: Vec::from_slice(alloc, &self.bytes)?,
            ends: Vec::from_slice(alloc, &self.ends)?,
        })
    }
}
