//! Packed items are made: of items, of packed ones with one more, of some of them, and of two lots of them.

ghost use Rattle.std.specs.Prelude.{◌≡◌, ◌≤◌, ◌<◌, ◌+◌, ◌-◌, ◌^◌, ◌∷◌, ◌++◌, [], length, take, drop, map, IfOk, OnOk};
ghost use Rattle.std.specs.List.{AllByRecursion};
ghost use Rattle.definitions.specs.Items.{IsItem};
ghost use Rattle.definitions.specs.Fingerprints.{join_lanes};
ghost use Rattle.range_tree.specs.Nodes.{span};

use crate::packed::Packed;
use digest_core::{Fingerprint, Summary};
use item_core::Item;
use std::alloc::{AllocError, Global};
use store_core::spans::bytes_in;
use store_core::{HashedItem, sums};

/// The bytes with a run of others at a place.
fn with_run(alloc: Global, bytes: &[u8], place: usize, run: &[u8]) -> Result<Vec<u8>, AllocError>
    requires { place ≤ length bytes.now }
    ensures { IfOk result (λ held. held.items ≡ take place bytes.now ++ run.now ++ drop place bytes.now) }
{
    let (front, back) = bytes.split_at(place);
    let mut held = Vec::with_capacity(alloc, bytes.len().saturating_add(run.len()))?;
    held.extend_from_slice(front)?;
    held.extend_from_slice(run)?;
    held.extend_from_slice(back)?;
    Ok(held)
}

/// Puts places after others, each so many bytes later.
fn push_later(held: &mut Vec<u16>, ends: &[u16], bytes: u16) -> Result<(), AllocError>
    requires { AllByRecursion (λ end. end + bytes < 2 ^ 16) ends.now }
    ensures { OnOk result (held.new.items ≡ held.old.items ++ map (λ end. end + bytes) ends.now) }
{
    for end in ends {
        held.push(*end + bytes)?;
    }
    Ok(())
}

/// The places, each so many bytes earlier.
fn earlier(alloc: Global, ends: &[u16], bytes: u16) -> Result<Vec<u16>, AllocError>
    requires { AllByRecursion (λ end. bytes ≤ end) ends.now }
    ensures { IfOk result (λ held. held.items ≡ map (λ end. end - bytes) ends.now) }
{
    let mut held = Vec::with_capacity(alloc, ends.len())?;
    for end in ends {
        held.push(*end - bytes)?;
    }
    Ok(held)
}

/// Where items end, where one of so many bytes is put between them: it begins at `start`, and stands at `place`.
fn ends_with(
    alloc: Global,
    ends: &[u16],
    place: usize,
    start: u16,
    bytes: u16,
) -> Result<Vec<u16>, AllocError>
    requires place { place ≤ length ends.now }
    requires start { start + bytes < 2 ^ 16 }
    requires later { AllByRecursion (λ end. end + bytes < 2 ^ 16) ends.now }
    ensures { IfOk result (λ held. held.items
        ≡ take place ends.now ++ (start + bytes) ∷ map (λ end. end + bytes) (drop place ends.now)) }
{
    let (front, back) = ends.split_at(place);
    let mut held = Vec::with_capacity(alloc, ends.len() + 1)?;
    held.extend_from_slice(front)?;
    held.push(start + bytes)?;
    push_later(&mut held, back, bytes)?;
    Ok(held)
}

/// Places, and after them others, each so many bytes later.
fn ends_and_later(
    alloc: Global,
    ends: &[u16],
    others: &[u16],
    bytes: u16,
) -> Result<Vec<u16>, AllocError>
    requires { AllByRecursion (λ end. end + bytes < 2 ^ 16) others.now }
    ensures { IfOk result (λ held. held.items ≡ ends.now ++ map (λ end. end + bytes) others.now) }
{
    let mut held = Vec::with_capacity(alloc, ends.len().saturating_add(others.len()))?;
    held.extend_from_slice(ends)?;
    push_later(&mut held, others, bytes)?;
    Ok(held)
}

/// Running fingerprints, and after them others, each joined to the fingerprint of what stands before it.
fn sums_and_later(
    alloc: Global,
    sums: &[Fingerprint],
    others: &[Fingerprint],
    before: Fingerprint,
) -> Result<Vec<Fingerprint>, AllocError>
    ensures { IfOk result (λ held. held.items ≡ sums.now ++ map (λ sum. join_lanes before sum) others.now) }
{
    let mut held = Vec::with_capacity(alloc, sums.len().saturating_add(others.len()))?;
    held.extend_from_slice(sums)?;
    for sum in others {
        held.push(before.join(*sum))?;
    }
    Ok(held)
}

impl Packed {
    /// No items.
    pub(crate) fn empty(alloc: Global) -> Packed
        ensures { result ≡ [] }
    {
        Packed {
            bytes: Vec::new(alloc),
            ends: Vec::new(alloc),
            sums: Vec::new(alloc),
        }
    }

    /// The items, each hashed.
    pub(crate) fn digested(alloc: Global, items: &[Item]) -> Result<Packed, AllocError>
        requires { length items.now < 1024 }
        ensures items { IfOk result (λ packed. packed ≡ items.now) }
        ensures are_items { IfOk result (λ _. AllByRecursion IsItem items.now) }
    {
        let mut bytes = Vec::with_capacity(alloc, bytes_in(items))?;
        let mut ends = Vec::with_capacity(alloc, items.len())?;
        for item in items {
            bytes.extend_from_slice(item.bytes())?;
            ends.push(bytes.len() as u16)?;
        }
        Ok(Packed {
            bytes,
            ends,
            sums: sums::running(alloc, items)?,
        })
    }

    /// The items with a hashed item at a place.
    pub(crate) fn with(
        &self,
        alloc: Global,
        place: usize,
        hashed: &HashedItem,
    ) -> Result<Packed, AllocError>
        requires place { place ≤ length self.now }
        requires few { length self.now < 1023 }
        ensures { IfOk result (λ packed. packed ≡ take place self.now ++ hashed.now ∷ drop place self.now) }
    {
        let start = self.start(place);
        let bytes = hashed.item().bytes();
        Ok(Packed {
            bytes: with_run(alloc, &self.bytes, start, bytes)?,
            ends: ends_with(alloc, &self.ends, place, start as u16, bytes.len() as u16)?,
            sums: sums::with_hashed(alloc, &self.sums, place, hashed)?,
        })
    }

    /// The items from one place on and before another.
    pub(crate) fn part(&self, alloc: Global, from: usize, to: usize) -> Result<Packed, AllocError>
        requires from { from ≤ to }
        requires to { to ≤ length self.now }
        ensures { IfOk result (λ packed. packed ≡ span from to self.now) }
    {
        let start = self.start(from);
        let end = self.start(to);
        Ok(Packed {
            bytes: Vec::from_slice(alloc, &self.bytes[start..end])?,
            ends: earlier(alloc, &self.ends[from..to], start as u16)?,
            sums: sums::part(alloc, &self.sums, from, to)?,
        })
    }
    /// The items, and those of another after them. None is hashed.
    pub(crate) fn followed_by(&self, alloc: Global, other: &Packed) -> Result<Packed, AllocError>
        requires { length self.now + length other.now < 1024 }
        ensures { IfOk result (λ packed. packed ≡ self.now ++ other.now) }
    {
        let start = self.start(self.len()) as u16;
        let total = self.sum_before(self.len());
        Ok(Packed {
            bytes: with_run(alloc, &self.bytes, self.bytes.len(), &other.bytes)?,
            ends: ends_and_later(alloc, &self.ends, &other.ends, start)?,
            sums: sums_and_later(alloc, &self.sums, &other.sums, total)?,
        })
    }
}
