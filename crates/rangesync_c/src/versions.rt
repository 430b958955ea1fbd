//! Versions of sets.

ghost use Rattle.std.specs.Prelude.{◌≡◌, ◌≢◌, ◌≤◌, ◌<◌, ◌⊎◌, true, Ok, Err, Some, None, IfOk, IfErr};
ghost use Rattle.std.specs.Prelude.{IsSomeAnd, length, take, slice_get};
ghost use Rattle.definitions.specs.Sets.{has, items_in};
ghost use Rattle.rangesync_c.specs.SetStates.{between, part_in, AreBounds, IsNoRange};
ghost use Rattle.rangesync_c.specs.Meaning.{IfVersion, IsVersion, no_version};
ghost use Rattle.rangesync_c.specs.Meaning.{IsItemLength, IsItemFault, IsNumberOf, IsNoPart, IsNoPlace};

use crate::between::range_between;
use crate::codes::{FINE, MEMORY, NOT_THERE, OTHER_KIND};
use crate::held::{Held, Slot, Thing, thing_out};
use crate::items::{item_of, write_item};
use crate::set::Version;
use core::mem::replace_with;
use item_core::Item;
use std::alloc::Global;

/// How many items a version has.
fn count_of(thing: &Thing) -> Result<usize, u32>
    ensures number { IfErr result (λ code. code ≢ 0) }
    ensures count { IfVersion thing.now (λ v. result ≡ Ok (length v.items)) }
    ensures kind { no_version thing.now ≡ true → result ≡ Err 99 }
{
    match thing {
        Thing::Version(version) => Ok(version.count()),
        _ => Err(OTHER_KIND),
    }
}

/// Says how many items a version has.
#[unsafe(no_mangle)]
pub extern "C" fn rs_version_count(version: &mut Held, count: &mut usize) -> u32
    ensures count { IfVersion version.old.value (λ v. (result ≡ 0) × (count.new ≡ length v.items)) }
    ensures kind { no_version version.old.value ≡ true → (result ≡ 99) × (count.new ≡ count.old) }
    ensures same { version.new.value ≡ version.old.value }
{
    let counted = replace_with(version, (), |version, _nothing| {
        let thing = version.into_thing();
        let counted = count_of(&thing);
        (Held::of(thing), counted)
    });
    match counted {
        Ok(number) => {
            *count = number;
            FINE
        }
        Err(code) => code,
    }
}

/// Whether a version has an item.
fn has_item(thing: &Thing, bytes: &[u8]) -> Result<bool, u32>
    ensures number { IfErr result (λ code. code ≢ 0) }
    ensures has { IfVersion thing.now (λ v. IfOk result (λ found. found ≡ has v.items bytes.now)) }
    ensures item { IfVersion thing.now (λ _. IfOk result (λ _. IsItemLength bytes.now)) }
    ensures refused { IfVersion thing.now (λ _. IfErr result (λ code. IsItemFault bytes.now code)) }
    ensures kind { no_version thing.now ≡ true → result ≡ Err 99 }
{
    let Thing::Version(version) = thing else {
        return Err(OTHER_KIND);
    };
    let item = item_of(bytes)?;
    Ok(version.has(&item))
}

/// Says whether a version has an item. 71 for no bytes, 72 for more than 64.
#[unsafe(no_mangle)]
pub extern "C" fn rs_version_has(version: &mut Held, bytes: &[u8], found: &mut bool) -> u32
    ensures has { result ≡ 0 → IfVersion version.old.value (λ v. found.new ≡ has v.items bytes.now) }
    ensures item { result ≡ 0 → IfVersion version.old.value (λ _. IsItemLength bytes.now) }
    ensures refused { result ≢ 0 → IfVersion version.old.value (λ _. IsItemFault bytes.now result) }
    ensures unsaid { result ≢ 0 → found.new ≡ found.old }
    ensures kind { no_version version.old.value ≡ true → result ≡ 99 }
    ensures same { version.new.value ≡ version.old.value }
{
    let answer = replace_with(version, bytes, |version, bytes| {
        let thing = version.into_thing();
        let answer = has_item(&thing, bytes);
        (Held::of(thing), answer)
    });
    match answer {
        Ok(has) => {
            *found = has;
            FINE
        }
        Err(code) => code,
    }
}

/// How many items a version has between these bounds.
fn count_between(thing: &Thing, lower: &[u8], upper: &[u8]) -> Result<usize, u32>
    ensures number { IfErr result (λ code. code ≢ 0) }
    ensures count { IfVersion thing.now (λ v. IfOk result (λ n.
        n ≡ length (items_in v.items (between lower.now upper.now)))) }
    ensures bounds { IfVersion thing.now (λ _. IfOk result (λ _. AreBounds lower.now upper.now)) }
    ensures refused { IfVersion thing.now (λ _. IfErr result (λ code.
        IsNumberOf (IsNoRange lower.now upper.now) code)) }
    ensures kind { no_version thing.now ≡ true → result ≡ Err 99 }
{
    let Thing::Version(version) = thing else {
        return Err(OTHER_KIND);
    };
    match range_between(lower, upper) {
        Ok(range) => Ok(version.count_in(&range)),
        Err(fault) => Err(u32::from(fault.number())),
    }
}

/// Says how many items a version has from the lower bound on and before the upper one; a bound without bytes is the
/// start, or the end. 72 for a bound of more than 64 bytes, 73 where the lower one is not below the upper one.
#[unsafe(no_mangle)]
pub extern "C" fn rs_version_count_in(
    version: &mut Held,
    lower: &[u8],
    upper: &[u8],
    count: &mut usize,
) -> u32
    ensures count { result ≡ 0 → IfVersion version.old.value (λ v.
        count.new ≡ length (items_in v.items (between lower.now upper.now))) }
    ensures bounds { result ≡ 0 → IfVersion version.old.value (λ _. AreBounds lower.now upper.now) }
    ensures refused { result ≢ 0 → IfVersion version.old.value (λ _.
        IsNumberOf (IsNoRange lower.now upper.now) result) }
    ensures unsaid { result ≢ 0 → count.new ≡ count.old }
    ensures kind { no_version version.old.value ≡ true → result ≡ 99 }
    ensures same { version.new.value ≡ version.old.value }
{
    let counted = replace_with(version, (lower, upper), |version, (lower, upper)| {
        let thing = version.into_thing();
        let counted = count_between(&thing, lower, upper);
        (Held::of(thing), counted)
    });
    match counted {
        Ok(number) => {
            *count = number;
            FINE
        }
        Err(code) => code,
    }
}

/// The item at this place among those that a version has between these bounds.
fn item_between(thing: &Thing, lower: &[u8], upper: &[u8], place: usize) -> Result<Item, u32>
    ensures number { IfErr result (λ code. code ≢ 0) }
    ensures item { IfVersion thing.now (λ v. IfOk result (λ x.
        slice_get (items_in v.items (between lower.now upper.now)) place ≡ Some x)) }
    ensures bounds { IfVersion thing.now (λ _. IfOk result (λ _. AreBounds lower.now upper.now)) }
    ensures refused { IfVersion thing.now (λ v. IfErr result (λ code.
        IsNumberOf (IsNoRange lower.now upper.now) code ⊎ ((code ≡ 98) × AreBounds lower.now upper.now
        × (slice_get (items_in v.items (between lower.now upper.now)) place ≡ None)))) }
    ensures kind { no_version thing.now ≡ true → result ≡ Err 99 }
{
    let Thing::Version(version) = thing else {
        return Err(OTHER_KIND);
    };
    let range = match range_between(lower, upper) {
        Ok(range) => range,
        Err(fault) => return Err(u32::from(fault.number())),
    };
    if place >= version.count_in(&range) {
        return Err(NOT_THERE);
    }
    Ok(version.item_in(&range, place))
}

/// Writes the item at this place, from 0, of those that a version has from the lower bound on and before the upper one,
/// and says its length. 98 where there is none, or no room for it: 64 bytes are enough; 72 and 73 as
/// `rs_version_count_in`.
#[unsafe(no_mangle)]
pub extern "C" fn rs_version_item_in(
    version: &mut Held,
    lower: &[u8],
    upper: &[u8],
    place: usize,
    room: &mut [u8],
    used: &mut usize,
) -> u32
    ensures item { result ≡ 0 → IfVersion version.old.value (λ v.
        slice_get (items_in v.items (between lower.now upper.now)) place ≡ Some (take used.new room.new)) }
    ensures bounds { result ≡ 0 → IfVersion version.old.value (λ _. AreBounds lower.now upper.now) }
    ensures refused { result ≢ 0 → IfVersion version.old.value (λ v.
        IsNumberOf (IsNoRange lower.now upper.now) result ⊎ (AreBounds lower.now upper.now
        × IsNoPlace (items_in v.items (between lower.now upper.now)) place (length room.old) used.new result)) }
    ensures few { result ≡ 0 → used.new ≤ length room.old }
    ensures unsaid { result ≢ 0 → (used.new ≡ used.old) ⊎ (length room.old < used.new) }
    ensures kind { no_version version.old.value ≡ true → result ≡ 99 }
    ensures failed { result ≢ 0 → room.new ≡ room.old }
    ensures same { version.new.value ≡ version.old.value }
{
    let wanted = (lower, upper, place);
    let found = replace_with(version, wanted, |version, (lower, upper, place)| {
        let thing = version.into_thing();
        let found = item_between(&thing, lower, upper, place);
        (Held::of(thing), found)
    });
    match found {
        Ok(item) => write_item(&item, room, used),
        Err(code) => code,
    }
}

/// The version of those items that a version has between these bounds.
fn part_between(alloc: Global, thing: &Thing, lower: &[u8], upper: &[u8]) -> Result<Version, u32>
    ensures number { IfErr result (λ code. code ≢ 0) }
    ensures part { IfVersion thing.now (λ v. IfOk result (λ part.
        part ≡ part_in v (between lower.now upper.now))) }
    ensures bounds { IfVersion thing.now (λ _. IfOk result (λ _. AreBounds lower.now upper.now)) }
    ensures refused { IfVersion thing.now (λ _. IfErr result (λ code. IsNoPart lower.now upper.now code)) }
    ensures kind { no_version thing.now ≡ true → result ≡ Err 99 }
{
    let Thing::Version(version) = thing else {
        return Err(OTHER_KIND);
    };
    let range = match range_between(lower, upper) {
        Ok(range) => range,
        Err(fault) => return Err(u32::from(fault.number())),
    };
    match version.part(alloc, &range) {
        Ok(part) => Ok(part),
        Err(_) => Err(MEMORY),
    }
}

/// Makes a handle of the version of those items that a version has from the lower bound on and before the upper one;
/// the version stays as it is. 72 and 73 as `rs_version_count_in`, and else 90.
#[unsafe(no_mangle)]
pub extern "C" fn rs_version_part(
    alloc: Global,
    version: &mut Held,
    lower: &[u8],
    upper: &[u8],
    out: &mut Slot,
) -> u32
    ensures part { result ≡ 0 → IfVersion version.old.value (λ v. IsSomeAnd out.new.value (λ made.
        IsVersion made (λ part. part ≡ part_in v (between lower.now upper.now)))) }
    ensures bounds { result ≡ 0 → IfVersion version.old.value (λ _. AreBounds lower.now upper.now) }
    ensures refused { result ≢ 0 → IfVersion version.old.value (λ _. IsNoPart lower.now upper.now result) }
    ensures kind { no_version version.old.value ≡ true → result ≡ 99 }
    ensures failed { result ≢ 0 → out.new.value ≡ out.old.value }
    ensures same { version.new.value ≡ version.old.value }
{
    let part = replace_with(version, (lower, upper), |version, (lower, upper)| {
        let thing = version.into_thing();
        let part = part_between(alloc, &thing, lower, upper);
        (Held::of(thing), part)
    });
    match part {
        Ok(part) => thing_out(alloc, Thing::Version(part), out),
        Err(code) => code,
    }
}
