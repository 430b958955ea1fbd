//! Reading the text of a set of any size.

ghost use Rattle.std.specs.Prelude.{◌≡◌, ◌+◌, ◌<◌, ◌≤◌, ◌^◌, false, ℕ, List, Option, length, take, vec_len};
ghost use Rattle.std.specs.Prelude.{IfOk, IfErr, OnOk, IsTrue};
ghost use Rattle.std.specs.Io.KnownBytes.{Consumes, IsAtEnd};
ghost use Rattle.shard_core.specs.Shards.{max_bits};
ghost use Rattle.shard_core.specs.Splits.{held};
ghost use Rattle.shard_core.specs.Spans.{AreKept};
ghost use Rattle.item_files.specs.PieceTexts.{most_bytes};
ghost use Rattle.item_files.specs.Loads.{IsReading, IsLoaded, IsUnloaded, AreLists, IsFailed};

use crate::dealing::Dealing;
use crate::load_fault::LoadFault;
use crate::options::LoadOptions;
use io_core::{MAX_INPUT, ReadFault, Watched};
use item_core::Item;
use shard_core::{into_span, rising_lists, shard_count};
use std::alloc::{AllocError, Global};
use std::io::Read;
use std::thread::Threads;

/// How many bytes are asked for at a time.
const PIECE: usize = 1_048_576;

/// The greatest length of the text of a set of so many shards.
fn most_bytes(bits: u8) -> usize
    requires { bits ≤ max_bits }
    ensures most { result ≡ most_bytes bits }
    ensures few { result ≤ 2 ^ 36 }
{
    MAX_INPUT * shard_count(bits)
}

/// Room for so many bytes.
fn room_for(alloc: Global, length: usize) -> Result<Vec<u8>, AllocError>
    ensures { IfOk result (λ v. vec_len v ≡ length) }
{
    vec![in alloc; 0u8; length]
}

/// Reads once. No byte comes only at the end of the text.
fn read_once<R: Read>(reader: &mut Watched<R>, room: &mut [u8]) -> Result<usize, LoadFault>
    requires fresh { reader.old.failed ≡ false }
    requires room { 0 < length room.old }
    ensures bytes { IfOk result (λ n. (n ≤ length room.new)
        × Consumes (R.remaining reader.old.inner) (R.remaining reader.new.inner) (take n room.new)) }
    ensures end { IfOk result (λ n. n ≡ 0 → IsAtEnd (R.remaining reader.new.inner)) }
    ensures fine { OnOk result (reader.new.failed ≡ false) }
    ensures failed { IfErr result (λ e. IsFailed reader.new.failed e) }
{
    match reader.read(room) {
        Ok(count) => Ok(count),
        Err(error) => Err(LoadFault::CannotRead(ReadFault::of(&error))),
    }
}

/// Reads once, and deals the items of the lines that end there. Returns how many bytes came.
fn read_more<T: Threads + Sync, R: Read>(
    rt: &T,
    alloc: Global,
    reader: &mut Watched<R>,
    room: &mut [u8],
    dealing: &mut Dealing,
) -> Result<usize, LoadFault>
    requires fresh { reader.old.failed ≡ false }
    requires room { 0 < length room.old }
    requires low { dealing.old.options.bits ≤ max_bits }
    requires all { length dealing.old.lists.items ≡ 2 ^ dealing.old.options.bits }
    requires few { dealing.old.feeds + length dealing.old.waiting.items ≤ dealing.old.taken }
    requires short { dealing.old.taken ≤ most_bytes dealing.old.options.bits }
    ensures reading { (unread : Option (List ℕ)) →
        IsReading dealing.old.options unread (R.remaining reader.old.inner) dealing.old →
        OnOk result (IsReading dealing.old.options unread (R.remaining reader.new.inner) dealing.new) }
    ensures end { IfOk result (λ n. n ≡ 0 → IsAtEnd (R.remaining reader.new.inner)) }
    ensures taken { IfOk result (λ n. dealing.new.taken ≡ dealing.old.taken + n) }
    ensures fine { OnOk result (reader.new.failed ≡ false) }
    ensures same { OnOk result (dealing.new.options ≡ dealing.old.options) }
    ensures all { OnOk result (length dealing.new.lists.items ≡ 2 ^ dealing.old.options.bits) }
    ensures few { OnOk result (dealing.new.feeds + length dealing.new.waiting.items ≤ dealing.new.taken) }
    ensures short { OnOk result (dealing.new.taken ≤ most_bytes dealing.old.options.bits) }
    ensures unloaded { (unread : Option (List ℕ)) →
        IsReading dealing.old.options unread (R.remaining reader.old.inner) dealing.old →
        IfErr result (λ e. IsUnloaded dealing.old.options unread (R.remaining reader.new.inner) reader.new.failed e) }
{
    let count = read_once(reader, room)?;
    if count > most_bytes(dealing.options.bits) - dealing.taken {
        return Err(LoadFault::TooLong);
    }
    dealing.add(rt, alloc, &room[..count])?;
    dealing.taken += count;
    Ok(count)
}

/// The items of each shard that is loaded, as the text has them, and empty lists of the others. At most `piece` bytes
/// are asked for at a time.
fn read_lists<T: Threads + Sync, R: Read>(
    rt: &T,
    alloc: Global,
    reader: &mut Watched<R>,
    options: LoadOptions,
    piece: usize,
) -> Result<Vec<Vec<Item>>, LoadFault>
    requires fresh { reader.old.failed ≡ false }
    requires low { options.bits ≤ max_bits }
    requires piece { 0 < piece }
    ensures lists { IfOk result (λ v. AreLists options (R.remaining reader.old.inner)
        (R.remaining reader.new.inner) v.items) }
    ensures all { IfOk result (λ v. length v.items ≡ 2 ^ options.bits) }
    ensures unloaded { IfErr result (λ e. IsUnloaded options (R.remaining reader.old.inner)
        (R.remaining reader.new.inner) reader.new.failed e) }
{
    let mut dealing = Dealing::new(alloc, options)?;
    let mut room = room_for(alloc, piece)?;
    'pieces: while read_more(rt, alloc, reader, &mut room, &mut dealing)? > 0 {}
    dealing.into_lists(rt, alloc)
}

/// As `read_shards` does, with at most `piece` bytes asked for at a time.
pub fn read_shards_by<T: Threads + Sync, R: Read>(
    rt: &T,
    alloc: Global,
    reader: &mut Watched<R>,
    options: LoadOptions,
    piece: usize,
) -> Result<Vec<Vec<Item>>, LoadFault>
    requires fresh { reader.old.failed ≡ false }
    requires low { options.bits ≤ max_bits }
    requires piece { 0 < piece }
    requires span { (options.first ≤ options.last) × (options.last < 2 ^ options.bits) }
    ensures loaded { IfOk result (λ v. IsLoaded options (R.remaining reader.old.inner)
        (R.remaining reader.new.inner) (held v.items)) }
    ensures kept { IfOk result (λ v. AreKept options.bits options.first options.last options.cap (held v.items)) }
    ensures unloaded { IfErr result (λ e. IsUnloaded options (R.remaining reader.old.inner)
        (R.remaining reader.new.inner) reader.new.failed e) }
{
    let lists = read_lists(rt, alloc, reader, options, piece)?;
    let _count = shard_count(options.bits); // proof only: at most 4,096
    let sets = rising_lists(rt, lists);
    Ok(into_span(sets, options.first, options.last, options.cap)?)
}

/// The sets of the shards of the items that are left to read, of those shards that are asked for, each in rising order.
/// Items of other shards are left out as the text is read. Up to four threads read lines, hash items and sort them, and
/// the outcome is the same whichever do.
///
/// Refused 80 if the reader fails or the text is longer than 16,777,216 bytes for each shard, 81 by its first bad line,
/// and 82 where one of these shards has more than the cap of different items. It stops at the first bad line.
pub fn read_shards<T: Threads + Sync, R: Read>(
    rt: &T,
    alloc: Global,
    reader: &mut Watched<R>,
    options: LoadOptions,
) -> Result<Vec<Vec<Item>>, LoadFault>
    requires fresh { reader.old.failed ≡ false }
    requires low { options.bits ≤ max_bits }
    requires span { (options.first ≤ options.last) × (options.last < 2 ^ options.bits) }
    ensures loaded { IfOk result (λ v. IsLoaded options (R.remaining reader.old.inner)
        (R.remaining reader.new.inner) (held v.items)) }
    ensures kept { IfOk result (λ v. AreKept options.bits options.first options.last options.cap (held v.items)) }
    ensures unloaded { IfErr result (λ e. IsUnloaded options (R.remaining reader.old.inner)
        (R.remaining reader.new.inner) reader.new.failed e) }
{
    read_shards_by(rt, alloc, reader, options, PIECE)
}
