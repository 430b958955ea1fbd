//! Sets of any size, in shards.

ghost use Rattle.std.specs.Prelude.{◌≡◌, ◌≢◌, ◌≤◌, ◌<◌, ◌^◌, ◌⊎◌, not, true, Ok, Err, IsSomeAnd, IfOk, IfErr};
ghost use Rattle.std.specs.Prelude.{length, take};
ghost use Rattle.std.specs.Arc.{arc_value};
ghost use Rattle.shard_core.specs.Selectors.{selector_text};
ghost use Rattle.rangesync_c.specs.SetStates.{between, AreBounds};
ghost use Rattle.rangesync_c.specs.ShardStates.{no_items, with_one, version_in, is_there, NoWhich, IsDealtFrom};
ghost use Rattle.rangesync_c.specs.Meaning.{IfStrategy, IfShards, IsShards, IsVersion, no_strategy, no_shards};
ghost use Rattle.rangesync_c.specs.Meaning.{IsItemLength, IsNoPart, AreCut, IsUncut, IsNotDealt, Names};
ghost use Rattle.rangesync_c.specs.Meaning.{IsUnshared, IsUnsaid, IsNotRead, IsUnread, form_number};

use crate::between::range_between;
use crate::codes::{FINE, FULL, MEMORY, NOT_THERE, OTHER_KIND, TOO_MANY_ITEMS};
use crate::fault::EmbeddedFault;
use crate::held::{Held, Slot, Thing, thing_out};
use crate::items::{item_of, write_bytes};
use crate::set::Version;
use crate::sets::form_of;
use crate::sharded::Shards;
use core::mem::replace_with;
use item_core::Range;
use shard_core::{MAX_BITS, MAX_NAME, Which, shard_count};
use std::alloc::Global;
use std::sync::Arc;
use strategy_check::Accepted;

/// A set of no items under a strategy. 98 for a longer name or more bits, 82 for more shards than the cap, and 90.
fn cut(alloc: Global, accepted: &Arc<Accepted>, name: &[u8], bits: u32) -> Result<Shards, u32>
    ensures number { IfErr result (λ code. code ≢ 0) }
    ensures made { IfOk result (λ s. s ≡ no_items (arc_value accepted.now) name.now bits) }
    ensures cut { IfOk result (λ _. AreCut name.now bits × (2 ^ bits ≤ (arc_value accepted.now).table.cap)) }
    ensures refused { IfErr result (λ code. IsUncut (arc_value accepted.now) name.now bits code) }
{
    if name.len() > MAX_NAME || bits > u32::from(MAX_BITS) {
        return Err(NOT_THERE);
    }
    let bits = bits as u8;
    if (accepted.cap() as usize) < shard_count(bits) {
        return Err(TOO_MANY_ITEMS);
    }
    let Ok(owner) = Arc::try_clone(accepted) else {
        return Err(MEMORY);
    };
    match Shards::empty(alloc, owner, name, bits) {
        Ok(shards) => Ok(shards),
        Err(_) => Err(MEMORY),
    }
}

/// The same under the strategy that a handle stands for.
fn cut_under(alloc: Global, thing: &Thing, name: &[u8], bits: u32) -> Result<Shards, u32>
    ensures number { IfErr result (λ code. code ≢ 0) }
    ensures made { IfStrategy thing.now (λ a. IfOk result (λ s. s ≡ no_items a name.now bits)) }
    ensures cut { IfStrategy thing.now (λ a. IfOk result (λ _. AreCut name.now bits × (2 ^ bits ≤ a.table.cap))) }
    ensures refused { IfStrategy thing.now (λ a. IfErr result (λ code. IsUncut a name.now bits code)) }
    ensures kind { no_strategy thing.now ≡ true → result ≡ Err 99 }
{
    match thing {
        Thing::Strategy(accepted) => cut(alloc, accepted, name, bits),
        _ => Err(OTHER_KIND),
    }
}

/// The same under the strategy that a handle of C stands for.
fn cut_at(alloc: Global, strategy: &mut Held, name: &[u8], bits: u32) -> Result<Shards, u32>
    ensures number { IfErr result (λ code. code ≢ 0) }
    ensures made { IfStrategy strategy.old.value (λ a. IfOk result (λ s. s ≡ no_items a name.now bits)) }
    ensures cut { IfStrategy strategy.old.value (λ a. IfOk result (λ _.
        AreCut name.now bits × (2 ^ bits ≤ a.table.cap))) }
    ensures refused { IfStrategy strategy.old.value (λ a. IfErr result (λ code. IsUncut a name.now bits code)) }
    ensures kind { no_strategy strategy.old.value ≡ true → result ≡ Err 99 }
    ensures same { strategy.new.value ≡ strategy.old.value }
{
    replace_with(strategy, (name, bits), |strategy, (name, bits)| {
        let thing = strategy.into_thing();
        let shards = cut_under(alloc, &thing, name, bits);
        (Held::of(thing), shards)
    })
}

/// Makes a set of no items, in 2 to the power of `bits` shards, with this name. 98 for a name of more than 64 bytes or
/// more than 12 bits, 82 for more shards than the strategy's cap, and else 90.
#[unsafe(no_mangle)]
pub extern "C" fn rs_shards_open(
    alloc: Global,
    strategy: &mut Held,
    name: &[u8],
    bits: u32,
    out: &mut Slot,
) -> u32
    ensures made { result ≡ 0 → IfStrategy strategy.old.value (λ a. IsSomeAnd out.new.value (λ made.
        IsShards made (λ s. s ≡ no_items a name.now bits))) }
    ensures refused { result ≢ 0 → IfStrategy strategy.old.value (λ a. IsUncut a name.now bits result) }
    ensures kind { no_strategy strategy.old.value ≡ true → result ≡ 99 }
    ensures failed { result ≢ 0 → out.new.value ≡ out.old.value }
    ensures same { strategy.new.value ≡ strategy.old.value }
{
    match cut_at(alloc, strategy, name, bits) {
        Ok(shards) => thing_out(alloc, Thing::Shards(shards), out),
        Err(code) => code,
    }
}

/// The same set with the items of an item file's text in place of its own. 98 for another form, 81 where a line is no
/// item, 82 where a shard has more different items than the cap, and 90.
fn filled(alloc: Global, shards: Shards, form: u32, text: &[u8]) -> Result<Shards, u32>
    ensures number { IfErr result (λ code. code ≢ 0) }
    ensures read { IfOk result (λ t. (kind : _) × (form_number kind ≡ form)
        × IsDealtFrom kind text.now shards (Ok t)) }
    ensures form { IfOk result (λ _. form ≤ 1) }
    ensures refused { IfErr result (λ code. IsNotRead shards.accepted shards.bits form text.now code) }
{
    let Some(form) = form_of(form) else {
        return Err(NOT_THERE);
    };
    match shards.filled(alloc, form, text) {
        Ok(shards) => Ok(shards),
        Err(fault) => Err(u32::from(fault.number())),
    }
}

/// Makes a set of the items of an item file's text, in shards. It is refused as `rs_shards_open`, and else 98 for
/// another form, 81 where a line is no item, 82 where a shard has more different items than the cap, and 90.
#[unsafe(no_mangle)]
pub extern "C" fn rs_shards_read(
    alloc: Global,
    strategy: &mut Held,
    name: &[u8],
    bits: u32,
    form: u32,
    text: &[u8],
    out: &mut Slot,
) -> u32
    ensures read { result ≡ 0 → IfStrategy strategy.old.value (λ a. IsSomeAnd out.new.value (λ made.
        IsShards made (λ s. (kind : _) × (form_number kind ≡ form)
        × IsDealtFrom kind text.now (no_items a name.now bits) (Ok s)))) }
    ensures cut { result ≡ 0 → IfStrategy strategy.old.value (λ a. AreCut name.now bits × (2 ^ bits ≤ a.table.cap)) }
    ensures refused { result ≢ 0 → IfStrategy strategy.old.value (λ a.
        IsUnread a name.now bits form text.now result) }
    ensures kind { no_strategy strategy.old.value ≡ true → result ≡ 99 }
    ensures failed { result ≢ 0 → out.new.value ≡ out.old.value }
    ensures same { strategy.new.value ≡ strategy.old.value }
{
    let empty = match cut_at(alloc, strategy, name, bits) {
        Ok(shards) => shards,
        Err(code) => return code,
    };
    match filled(alloc, empty, form, text) {
        Ok(shards) => thing_out(alloc, Thing::Shards(shards), out),
        Err(code) => code,
    }
}

/// Puts an item into its shard.
fn insert_into(alloc: Global, thing: &mut Thing, bytes: &[u8]) -> Result<bool, u32>
    ensures number { IfErr result (λ code. code ≢ 0) }
    ensures inserted { IfOk result (λ _. IfShards thing.old (λ s. IsShards thing.new (λ t. t ≡ with_one s bytes.now))) }
    ensures new { IfOk result (λ is_new. IfShards thing.old (λ s. is_new ≡ not (is_there s bytes.now))) }
    ensures item { IfOk result (λ _. IfShards thing.old (λ _. IsItemLength bytes.now)) }
    ensures refused { IfErr result (λ code. IfShards thing.old (λ s. IsNotDealt s bytes.now code)) }
    ensures kind { no_shards thing.old ≡ true → result ≡ Err 99 }
    ensures failed { IfErr result (λ _. thing.new ≡ thing.old) }
{
    let Thing::Shards(shards) = thing else {
        return Err(OTHER_KIND);
    };
    let item = item_of(bytes)?;
    match shards.insert(alloc, item) {
        Ok(is_new) => Ok(is_new),
        Err(EmbeddedFault::Full) => Err(FULL),
        Err(_) => Err(MEMORY),
    }
}

/// Puts an item into its shard, and says whether it is new. 71 for no bytes, 72 for more than 64, 40 where it is new
/// and its shard is full, 90; then nothing has changed.
#[unsafe(no_mangle)]
pub extern "C" fn rs_shards_insert(
    alloc: Global,
    shards: &mut Held,
    bytes: &[u8],
    is_new: &mut bool,
) -> u32
    ensures inserted { result ≡ 0 → IfShards shards.old.value (λ s. IsShards shards.new.value (λ t.
        t ≡ with_one s bytes.now)) }
    ensures new { result ≡ 0 → IfShards shards.old.value (λ s. is_new.new ≡ not (is_there s bytes.now)) }
    ensures item { result ≡ 0 → IfShards shards.old.value (λ _. IsItemLength bytes.now) }
    ensures refused { result ≢ 0 → IfShards shards.old.value (λ s. IsNotDealt s bytes.now result) }
    ensures kind { no_shards shards.old.value ≡ true → result ≡ 99 }
    ensures failed { result ≢ 0 → shards.new.value ≡ shards.old.value }
    ensures unsaid { result ≢ 0 → is_new.new ≡ is_new.old }
{
    let inserted = replace_with(shards, bytes, |shards, bytes| {
        let mut thing = shards.into_thing();
        let inserted = insert_into(alloc, thing.as_mut(), bytes);
        (Held::of(thing), inserted)
    });
    match inserted {
        Ok(answer) => {
            *is_new = answer;
            FINE
        }
        Err(code) => code,
    }
}

/// How many items all shards have.
fn count_of(thing: &Thing) -> Result<usize, u32>
    ensures number { IfErr result (λ code. code ≢ 0) }
    ensures count { IfShards thing.now (λ s. result ≡ Ok (length s.items)) }
    ensures kind { no_shards thing.now ≡ true → result ≡ Err 99 }
{
    match thing {
        Thing::Shards(shards) => Ok(shards.count()),
        _ => Err(OTHER_KIND),
    }
}

/// Says how many items all shards have.
#[unsafe(no_mangle)]
pub extern "C" fn rs_shards_count(shards: &mut Held, count: &mut usize) -> u32
    ensures count { IfShards shards.old.value (λ s. (result ≡ 0) × (count.new ≡ length s.items)) }
    ensures kind { no_shards shards.old.value ≡ true → (result ≡ 99) × (count.new ≡ count.old) }
    ensures same { shards.new.value ≡ shards.old.value }
{
    let counted = replace_with(shards, (), |shards, _nothing| {
        let thing = shards.into_thing();
        let counted = count_of(&thing);
        (Held::of(thing), counted)
    });
    match counted {
        Ok(number) => {
            *count = number;
            FINE
        }
        Err(code) => code,
    }
}

/// The shard or the directory of a number, and the range between these bounds. 98 where there is none, then 72 and 73
/// as `rs_version_count_in`.
fn meant(shards: &Shards, number: u32, lower: &[u8], upper: &[u8]) -> Result<(Which, Range), u32>
    ensures number { IfErr result (λ code. code ≢ 0) }
    ensures which { IfOk result (λ r. Names shards.now.bits number r.0) }
    ensures range { IfOk result (λ r. (r.1 ≡ between lower.now upper.now) × AreBounds lower.now upper.now) }
    ensures refused { IfErr result (λ code. IsUnshared shards.now.bits number lower.now upper.now code) }
{
    let Some(which) = shards.which(number) else {
        return Err(NOT_THERE);
    };
    match range_between(lower, upper) {
        Ok(range) => Ok((which, range)),
        Err(fault) => Err(u32::from(fault.number())),
    }
}

/// The version of what has this number, of the items between these bounds.
fn share_of(
    alloc: Global,
    thing: &Thing,
    number: u32,
    lower: &[u8],
    upper: &[u8],
) -> Result<Version, u32>
    ensures number { IfErr result (λ code. code ≢ 0) }
    ensures version { IfShards thing.now (λ s. IfOk result (λ v. (w : _) × Names s.bits number w
        × (v ≡ version_in s w (between lower.now upper.now)))) }
    ensures bounds { IfShards thing.now (λ _. IfOk result (λ _. AreBounds lower.now upper.now)) }
    ensures refused { IfShards thing.now (λ s. IfErr result (λ code.
        IsUnshared s.bits number lower.now upper.now code)) }
    ensures kind { no_shards thing.now ≡ true → result ≡ Err 99 }
{
    let Thing::Shards(shards) = thing else {
        return Err(OTHER_KIND);
    };
    let (which, range) = meant(shards, number, lower, upper)?;
    match shards.version(alloc, which, &range) {
        Ok(version) => Ok(version),
        Err(_) => Err(MEMORY),
    }
}

/// Makes a handle of the version of a shard, by its number, or of the directory, of the items between these bounds. 98
/// where there is none, 72 and 73 as `rs_version_count_in`, and else 90.
#[unsafe(no_mangle)]
pub extern "C" fn rs_shards_share(
    alloc: Global,
    shards: &mut Held,
    number: u32,
    lower: &[u8],
    upper: &[u8],
    out: &mut Slot,
) -> u32
    ensures version { result ≡ 0 → IfShards shards.old.value (λ s. IsSomeAnd out.new.value (λ made.
        (w : _) × Names s.bits number w × IsVersion made (λ v.
        v ≡ version_in s w (between lower.now upper.now)))) }
    ensures bounds { result ≡ 0 → IfShards shards.old.value (λ _. AreBounds lower.now upper.now) }
    ensures refused { result ≢ 0 → IfShards shards.old.value (λ s.
        IsUnshared s.bits number lower.now upper.now result) }
    ensures kind { no_shards shards.old.value ≡ true → result ≡ 99 }
    ensures failed { result ≢ 0 → out.new.value ≡ out.old.value }
    ensures same { shards.new.value ≡ shards.old.value }
{
    let wanted = (number, lower, upper);
    let version = replace_with(shards, wanted, |shards, (number, lower, upper)| {
        let thing = shards.into_thing();
        let version = share_of(alloc, &thing, number, lower, upper);
        (Held::of(thing), version)
    });
    match version {
        Ok(version) => thing_out(alloc, Thing::Version(version), out),
        Err(code) => code,
    }
}

/// The selector of what has this number, of the items between these bounds.
fn selector_of(
    alloc: Global,
    thing: &Thing,
    number: u32,
    lower: &[u8],
    upper: &[u8],
) -> Result<Vec<u8>, u32>
    ensures number { IfErr result (λ code. code ≢ 0) }
    ensures text { IfShards thing.now (λ s. IfOk result (λ text. (w : _) × Names s.bits number w
        × (text.items ≡ selector_text s.name s.bits w (between lower.now upper.now)))) }
    ensures bounds { IfShards thing.now (λ _. IfOk result (λ _. AreBounds lower.now upper.now)) }
    ensures refused { IfShards thing.now (λ s. IfErr result (λ code.
        IsUnshared s.bits number lower.now upper.now code)) }
    ensures kind { no_shards thing.now ≡ true → result ≡ Err 99 }
{
    let Thing::Shards(shards) = thing else {
        return Err(OTHER_KIND);
    };
    let (which, range) = meant(shards, number, lower, upper)?;
    match shards.selector(alloc, which, &range) {
        Ok(text) => Ok(text),
        Err(_) => Err(MEMORY),
    }
}

/// Writes the selector of a shard, by its number, or of the directory, of the items between these bounds, and says its
/// length. 98 where there is none, or no room for it: 202 bytes are enough; 72 and 73 as `rs_version_count_in`, and 90.
#[unsafe(no_mangle)]
pub extern "C" fn rs_shards_selector(
    alloc: Global,
    shards: &mut Held,
    number: u32,
    lower: &[u8],
    upper: &[u8],
    room: &mut [u8],
    used: &mut usize,
) -> u32
    ensures text { result ≡ 0 → IfShards shards.old.value (λ s. (w : _) × Names s.bits number w
        × (take used.new room.new ≡ selector_text s.name s.bits w (between lower.now upper.now))) }
    ensures bounds { result ≡ 0 → IfShards shards.old.value (λ _. AreBounds lower.now upper.now) }
    ensures refused { result ≢ 0 → IfShards shards.old.value (λ s.
        IsUnsaid s number lower.now upper.now (length room.old) used.new result) }
    ensures few { result ≡ 0 → used.new ≤ length room.old }
    ensures unsaid { result ≢ 0 → (used.new ≡ used.old) ⊎ (length room.old < used.new) }
    ensures kind { no_shards shards.old.value ≡ true → result ≡ 99 }
    ensures failed { result ≢ 0 → room.new ≡ room.old }
    ensures same { shards.new.value ≡ shards.old.value }
{
    let wanted = (number, lower, upper);
    let text = replace_with(shards, wanted, |shards, (number, lower, upper)| {
        let thing = shards.into_thing();
        let text = selector_of(alloc, &thing, number, lower, upper);
        (Held::of(thing), text)
    });
    match text {
        Ok(text) => write_bytes(&text, room, used),
        Err(code) => code,
    }
}
