//! Which shards differ, by what a session over two directories learned.

ghost use Rattle.std.specs.Prelude.{◌≡◌, ◌≢◌, ◌≤◌, ◌<◌, ◌^◌, ℕ, List, true, Err, IfOk, IfErr, length};
ghost use Rattle.std.specs.Prelude.{map, filter, take, drop, get_or, not, ◌==◌, None};
ghost use Rattle.std.specs.List.{list_any, range_with_len};
ghost use Rattle.definitions.specs.Items.{Item as Bytes};
ghost use Rattle.definitions.specs.Theorems.{KnowsDifference};
ghost use Rattle.session_core.specs.declared.state.State.TheVariants as states;
ghost use Rattle.shard_core.specs.Shards.{max_bits, numbers, directory, entries_differ};
ghost use Rattle.shard_core.specs.Directories as directories;
ghost use Rattle.shard_core.specs.Directories.{unequal_numbers};
ghost use Rattle.shard_core.specs.Choices.{differs, is_lacked, is_unequal};
ghost use Rattle.rangesync_c.specs.SessionStates.{learned_in, state_in};
ghost use Rattle.rangesync_c.specs.ShardStates.{told_number};
ghost use Rattle.rangesync_c.specs.Meaning.{IfSession, no_session, entry_faults, IsNoDirectory, IsUntold};

use crate::codes::{BAD_ENTRY, FINE, MEMORY, NOT_THERE, OTHER_KIND};
use crate::held::{Held, Thing};
use core::mem::replace_with;
use ends_core::Learned;
use shard_core::{DirectoryFault, MAX_BITS, Unequal, differing, shard_count};
use std::alloc::Global;

/// A shard of which both sides have the same entry, or neither has one.
const EQUAL: u8 = 0;

/// One of which the peer has another entry.
const DIFFERS: u8 = 1;

/// One of which this side has an entry, and the peer has none.
const LACKED: u8 = 2;

/// Whether this is of the shard, and the peer has another entry of it.
fn is_unequal(unequal: &Unequal, number: u16) -> bool
    ensures { result ≡ is_unequal number unequal.now }
{
    unequal.number == number && unequal.theirs.is_some()
}

/// Whether this is of the shard, and the peer has no entry of it.
fn is_lacked(unequal: &Unequal, number: u16) -> bool
    ensures { result ≡ is_lacked number unequal.now }
{
    unequal.number == number && unequal.theirs.is_none()
}

/// Whether the peer has another entry of the shard.
fn differs(unequal: &[Unequal], number: u16) -> bool
    ensures { result ≡ differs unequal.now number }
{
    unequal.iter().any(|one| is_unequal(one, number))
}

/// Whether the peer has no entry of the shard, and this side has one.
fn is_lacking(unequal: &[Unequal], number: u16) -> bool
    ensures { result ≡ list_any (is_lacked number) unequal.now }
{
    unequal.iter().any(|one| is_lacked(one, number))
}

/// What is said of a shard.
fn told_of(unequal: &[Unequal], number: u16) -> u8
    ensures { result ≡ told_number unequal.now number }
{
    if differs(unequal, number) {
        DIFFERS
    } else if is_lacking(unequal, number) {
        LACKED
    } else {
        EQUAL
    }
}

/// Writes what is said of so many shards as the room has bytes.
fn write_told(unequal: &[Unequal], room: &mut [u8])
    requires { length room.old ≤ 4096 }
    ensures { room.new ≡ map (told_number unequal.now) (range_with_len 0 (length room.old)) }
{
    for number in 0..room.len() {
        room[number] = told_of(unequal, number as u16);
    }
}

/// Writes what is said of 2 to the power of `bits` shards to the front of the room.
fn say(unequal: &[Unequal], bits: u32, room: &mut [u8])
    requires { (bits ≤ max_bits) × (2 ^ bits ≤ length room.old) }
    ensures said { take (2 ^ bits) room.new ≡ map (told_number unequal.now) (numbers bits) }
    ensures rest { drop (2 ^ bits) room.new ≡ drop (2 ^ bits) room.old }
{
    write_told(unequal, &mut room[..1 << bits]);
}

/// Which shards differ by what was learned. 57 where that has an item that is no entry, and 90.
fn differing_by(alloc: Global, bits: u8, learned: &Learned) -> Result<Vec<Unequal>, u32>
    requires { bits ≤ max_bits }
    ensures number { IfErr result (λ code. code ≢ 0) }
    ensures told { IfOk result (λ v. v.items ≡ directories.differing bits learned.now.ours learned.now.theirs) }
    ensures exact { IfOk result (λ v. (A B : List Bytes) →
        KnowsDifference learned.now (directory bits A) (directory bits B) →
        unequal_numbers v.items ≡ filter (entries_differ bits A B) (numbers bits)) }
    ensures good { IfOk result (λ _. entry_faults bits learned.now ≡ None) }
    ensures refused { IfErr result (λ code. IsNoDirectory bits learned.now code) }
{
    let Ok(ours) = learned.ours().to_vec(alloc) else {
        return Err(MEMORY);
    };
    let Ok(theirs) = learned.theirs().to_vec(alloc) else {
        return Err(MEMORY);
    };
    match differing(alloc, bits, &ours, &theirs) {
        Ok(unequal) => Ok(unequal),
        Err(DirectoryFault::Bad(_)) => Err(BAD_ENTRY),
        Err(DirectoryFault::Memory) => Err(MEMORY),
    }
}

/// Which shards differ by what a session learned, where there is room to say it.
fn differing_in(alloc: Global, thing: &Thing, bits: u32, room: usize) -> Result<Vec<Unequal>, u32>
    ensures number { IfErr result (λ code. code ≢ 0) }
    ensures told { IfSession thing.now (λ s. IfOk result (λ v.
        v.items ≡ directories.differing bits (learned_in s).ours (learned_in s).theirs)) }
    ensures exact { IfSession thing.now (λ s. IfOk result (λ v. (A B : List Bytes) →
        KnowsDifference (learned_in s) (directory bits A) (directory bits B) →
        unequal_numbers v.items ≡ filter (entries_differ bits A B) (numbers bits))) }
    ensures good { IfSession thing.now (λ s. IfOk result (λ _.
        (entry_faults bits (learned_in s) ≡ None) × (state_in s ≡ states.Ended))) }
    ensures fits { IfOk result (λ _. (bits ≤ max_bits) × (2 ^ bits ≤ room)) }
    ensures refused { IfSession thing.now (λ s. IfErr result (λ code. IsUntold s bits room code)) }
    ensures kind { no_session thing.now ≡ true → result ≡ Err 99 }
{
    let Thing::Session(session) = thing else {
        return Err(OTHER_KIND);
    };
    if bits > u32::from(MAX_BITS) {
        return Err(NOT_THERE);
    }
    let bits = bits as u8;
    if room < shard_count(bits) {
        return Err(NOT_THERE);
    }
    match session.learned() {
        Some(learned) => differing_by(alloc, bits, learned),
        None => Err(NOT_THERE),
    }
}

/// Says of each of 2 to the power of `bits` shards, in the byte at its number, whether the peer has another entry of it
/// (1), or has none and this side has one (2), or else 0, by what a session over two directories learned. 98 where it
/// has not ended, or there is no room or no such number of shards, 57 where what was learned has an item that is no
/// entry, and 90.
#[unsafe(no_mangle)]
pub extern "C" fn rs_session_differing(
    alloc: Global,
    session: &mut Held,
    bits: u32,
    room: &mut [u8],
) -> u32
    ensures told { result ≡ 0 → IfSession session.old.value (λ s. take (2 ^ bits) room.new
        ≡ map (told_number (directories.differing bits (learned_in s).ours (learned_in s).theirs)) (numbers bits)) }
    // What was learned of two directories says of exactly those shards 0 whose entries are the same.
    ensures exact { result ≡ 0 → IfSession session.old.value (λ s. (A B : List Bytes) →
        KnowsDifference (learned_in s) (directory bits A) (directory bits B) →
        (n : ℕ) → n < 2 ^ bits → (get_or room.new n 0 == 0) ≡ not (entries_differ bits A B n)) }
    ensures good { result ≡ 0 → IfSession session.old.value (λ s. entry_faults bits (learned_in s) ≡ None) }
    ensures ended { result ≡ 0 → IfSession session.old.value (λ s. state_in s ≡ states.Ended) }
    ensures rest { result ≡ 0 → drop (2 ^ bits) room.new ≡ drop (2 ^ bits) room.old }
    ensures refused { result ≢ 0 → IfSession session.old.value (λ s. IsUntold s bits (length room.old) result) }
    ensures kind { no_session session.old.value ≡ true → result ≡ 99 }
    ensures failed { result ≢ 0 → room.new ≡ room.old }
    ensures same { session.new.value ≡ session.old.value }
{
    let wanted = (bits, room.len());
    let unequal = replace_with(session, wanted, |session, (bits, room)| {
        let thing = session.into_thing();
        let unequal = differing_in(alloc, &thing, bits, room);
        (Held::of(thing), unequal)
    });
    match unequal {
        Ok(unequal) => {
            say(&unequal, bits, room);
            FINE
        }
        Err(code) => code,
    }
}
