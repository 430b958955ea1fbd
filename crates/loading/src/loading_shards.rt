//! What a side of sessions over shards begins with.

ghost use Rattle.std.specs.Prelude.{◌≡◌, ◌<◌, ◌≤◌, ◌^◌, ◌-◌, IfOk, IfNone, OnOk};
ghost use Rattle.shard_core.specs.Shards.{max_bits};
ghost use Rattle.shard_core.specs.Splits.{held, HasRoom};
ghost use Rattle.shard_core.specs.Spans.{AreKept};
ghost use Rattle.loading.specs.Cutting.{AreCutBy, AreCutTo, AreKeptBy};
ghost use Rattle.loading.specs.Sharded.{contents};

use crate::disk::Opened;
use crate::loading::{Loaded, Sources, open_kept, strategy_of};
use crate::sharded_set::ShardedSet;
use crate::showing::{Screen, Shown};
use io_core::Watched;
use item_core::Item;
use item_files::{LoadFault, LoadOptions, ReadFault, read_shards};
use printing_core::{Refusal, STANDARD_INPUT};
use settings_core::Sharding;
use shard_core::{Floor, join_shards, shard_count, shards_within};
use std::alloc::Global;
use std::fs::{File, OpenFile};
use std::io::{ErrorKind, Read, Write};
use std::rt::Files;
use std::thread::Threads;
use std::time::Clock;
use std::{fs, io};
use strategy_check::Accepted;

/// Which shards are kept, and which of their items.
#[derive(Clone, Copy)]
struct Keeping {
    options: LoadOptions,
    floor: Floor,
}

/// The place of the first of these shards that has more items than the cap.
fn full_place(shards: &[Vec<Item>], cap: usize) -> Option<usize>
    ensures { IfNone result (HasRoom cap (held shards.now)) }
{
    for place in 0..shards.len() {
        if shards[place].len() > cap {
            return Some(place);
        }
    }
    None
}

impl Keeping {
    /// The options by which a file is read: all of its items, since only those that are kept count.
    fn reading(&self) -> LoadOptions
        ensures { result ≡ record self.now.options { cap = 2 ^ 64 - 1 } }
    {
        LoadOptions {
            cap: usize::MAX,
            ..self.options
        }
    }

    /// The shards of the items that are kept. Else 82, for the first shard that has more of them than the cap.
    fn kept_of(&self, shards: Vec<Vec<Item>>) -> Result<Vec<Vec<Item>>, LoadFault>
        requires { AreKept self.now.options.bits self.now.options.first self.now.options.last (2 ^ 64 - 1)
            (held shards.items) }
        ensures kept { IfOk result (λ v. AreKeptBy self.now.options (held v.items)) }
        ensures cut { IfOk result (λ v. AreCutBy self.now.floor self.now.options (held v.items)) }
    {
        let kept = shards_within(shards, &self.floor);
        match full_place(&kept, self.options.cap) {
            Some(place) => {
                let place = u16::try_from(place).unwrap_or(u16::MAX);
                Err(LoadFault::TooManyItems {
                    shard: self.options.first.saturating_add(place),
                })
            }
            None => Ok(kept),
        }
    }
}

/// Why a file is not read that was not opened, or not set to its start.
fn unread(error: &io::Error) -> LoadFault {
    match error.kind() {
        ErrorKind::OutOfMemory => LoadFault::Memory,
        _ => LoadFault::CannotRead(ReadFault::of(error)),
    }
}

/// How many bytes a file has that is open, where that is known.
fn size_of(file: &File) -> Option<u64> {
    Some(file.metadata().ok()?.len())
}

/// The shards of the items of the file.
fn file_shards<R: Files<File = File> + Clock + AllocGlobal + Threads + Sync, E: Write>(
    path: &str,
    options: LoadOptions,
    screen: &mut Screen<'_, R, E>,
) -> Result<Vec<Vec<Item>>, LoadFault>
    requires low { options.bits ≤ max_bits }
    requires span { (options.first ≤ options.last) × (options.last < 2 ^ options.bits) }
    ensures { IfOk result (λ v. AreKeptBy options (held v.items)) }
{
    let rt = screen.rt();
    match fs::open(rt, path) {
        Ok(file) => {
            let size = size_of(&file);
            let reader = Shown::new(screen, file, size);
            read_shards(rt, rt.alloc(), &mut Watched::new(reader), options)
        }
        Err(error) => Err(unread(&error)),
    }
}

/// The shards of the items of the input.
fn input_shards<R: Clock + AllocGlobal + Threads + Sync, I: Read + Drop, E: Write>(
    reader: I,
    options: LoadOptions,
    screen: &mut Screen<'_, R, E>,
) -> Result<Vec<Vec<Item>>, LoadFault>
    requires low { options.bits ≤ max_bits }
    requires span { (options.first ≤ options.last) × (options.last < 2 ^ options.bits) }
    ensures { IfOk result (λ v. AreKeptBy options (held v.items)) }
{
    let rt = screen.rt();
    let reader = Shown::new(screen, reader, None);
    read_shards(rt, rt.alloc(), &mut Watched::new(reader), options)
}

/// The shards of the items of the file, or of the input, that are kept; of no items, if neither is given.
fn kept_shards<
    R: Files<File = File> + Clock + AllocGlobal + Threads + Sync,
    I: Read + Drop,
    E: Write,
>(
    items: Option<&str>,
    reader: I,
    keeping: &Keeping,
    screen: &mut Screen<'_, R, E>,
) -> Result<Vec<Vec<Item>>, LoadFault>
    requires low { keeping.now.options.bits ≤ max_bits }
    requires span { (keeping.now.options.first ≤ keeping.now.options.last)
        × (keeping.now.options.last < 2 ^ keeping.now.options.bits) }
    ensures kept { IfOk result (λ v. AreKeptBy keeping.now.options (held v.items)) }
    ensures cut { IfOk result (λ v. AreCutBy keeping.now.floor keeping.now.options (held v.items)) }
{
    let options = keeping.reading();
    let shards = match items {
        Some("-") => input_shards(reader, options, screen)?,
        Some(path) => file_shards(path, options, screen)?,
        None => input_shards(io::empty(), options, screen)?,
    };
    keeping.kept_of(shards)
}

/// The same. Else 80, 81, then 82, and 90.
fn item_shards<
    'a,
    R: Files<File = File> + Clock + AllocGlobal + Threads + Sync,
    I: Read + Drop,
    E: Write,
>(
    items: Option<&'a str>,
    reader: I,
    keeping: &Keeping,
    screen: &mut Screen<'_, R, E>,
) -> Result<Vec<Vec<Item>>, Refusal<'a>>
    requires low { keeping.now.options.bits ≤ max_bits }
    requires span { (keeping.now.options.first ≤ keeping.now.options.last)
        × (keeping.now.options.last < 2 ^ keeping.now.options.bits) }
    ensures kept { IfOk result (λ v. AreKeptBy keeping.now.options (held v.items)) }
    ensures cut { IfOk result (λ v. AreCutBy keeping.now.floor keeping.now.options (held v.items)) }
{
    let alloc = screen.rt().alloc();
    match kept_shards(items, reader, keeping, screen) {
        Ok(shards) => Ok(shards),
        Err(fault) => {
            let file = match items {
                Some("-") | None => STANDARD_INPUT,
                Some(path) => path,
            };
            Err(Refusal::of_shards_file(alloc, file, keeping.options.cap, fault))
        }
    }
}

/// The shards of the items of a file that is open.
fn reread_shards<R: Clock + AllocGlobal + Threads + Sync, E: Write>(
    opened: &mut Opened,
    options: LoadOptions,
    screen: &mut Screen<'_, R, E>,
) -> Result<Vec<Vec<Item>>, LoadFault>
    requires low { options.bits ≤ max_bits }
    requires span { (options.first ≤ options.last) × (options.last < 2 ^ options.bits) }
    ensures { IfOk result (λ v. AreKeptBy options (held v.items)) }
{
    let rt = screen.rt();
    match opened.reader() {
        Ok(reader) => {
            let size = size_of(reader);
            let reader = Shown::new(screen, reader, size);
            read_shards(rt, rt.alloc(), &mut Watched::new(reader), options)
        }
        Err(error) => Err(unread(&error)),
    }
}

/// The shards of the items of both, of which the second are those of a file that are kept.
fn joined_shards<R: Clock + AllocGlobal + Threads + Sync, E: Write>(
    shards: Vec<Vec<Item>>,
    opened: &mut Opened,
    keeping: &Keeping,
    screen: &mut Screen<'_, R, E>,
) -> Result<Vec<Vec<Item>>, LoadFault>
    requires low { keeping.now.options.bits ≤ max_bits }
    requires span { (keeping.now.options.first ≤ keeping.now.options.last)
        × (keeping.now.options.last < 2 ^ keeping.now.options.bits) }
    requires own { AreKeptBy keeping.now.options (held shards.items) }
    ensures kept { IfOk result (λ v. AreKeptBy keeping.now.options (held v.items)) }
    ensures cut { AreCutBy keeping.now.floor keeping.now.options (held shards.items) →
        IfOk result (λ v. AreCutBy keeping.now.floor keeping.now.options (held v.items)) }
{
    let read = reread_shards(opened, keeping.reading(), screen)?;
    let more = keeping.kept_of(read)?;
    Ok(join_shards(shards, &more, keeping.options.first, keeping.options.cap)?)
}

/// The same with the shards of the file in which the set is kept, if there is one. Else 80, 81, then 82, and 90.
fn with_kept<'a, R: Clock + AllocGlobal + Threads + Sync, E: Write>(
    keep: Option<&'a str>,
    opened: &mut Option<Opened>,
    shards: Vec<Vec<Item>>,
    keeping: &Keeping,
    screen: &mut Screen<'_, R, E>,
) -> Result<Vec<Vec<Item>>, Refusal<'a>>
    requires low { keeping.now.options.bits ≤ max_bits }
    requires span { (keeping.now.options.first ≤ keeping.now.options.last)
        × (keeping.now.options.last < 2 ^ keeping.now.options.bits) }
    requires own { AreKeptBy keeping.now.options (held shards.items) }
    ensures kept { IfOk result (λ v. AreKeptBy keeping.now.options (held v.items)) }
    ensures cut { AreCutBy keeping.now.floor keeping.now.options (held shards.items) →
        IfOk result (λ v. AreCutBy keeping.now.floor keeping.now.options (held v.items)) }
{
    let Some(opened) = opened else {
        return Ok(shards);
    };
    let alloc = screen.rt().alloc();
    match joined_shards(shards, opened, keeping, screen) {
        Ok(shards) => Ok(shards),
        Err(fault) => Err(kept_refusal(alloc, keep, keeping.options.cap, fault)),
    }
}

/// The refusal of the file in which the set is kept.
fn kept_refusal<'a>(
    alloc: Global,
    keep: Option<&'a str>,
    cap: usize,
    fault: LoadFault,
) -> Refusal<'a> {
    Refusal::of_shards_file(alloc, keep.unwrap_or(STANDARD_INPUT), cap, fault)
}

/// Refuses a strategy whose cap is below the number of shards: of their entries there would be no directory.
fn enough_places<'a>(accepted: &Accepted, table: &'a str, bits: u8) -> Result<(), Refusal<'a>>
    requires { bits ≤ max_bits }
    ensures { OnOk result (2 ^ bits ≤ accepted.now.table.cap) }
{
    if (accepted.cap() as usize) < shard_count(bits) {
        return Err(Refusal::of_few_places(table, bits));
    }
    Ok(())
}

/// How many items all shards have.
fn count_of(shards: &[Vec<Item>]) -> usize {
    let mut count: usize = 0;
    for shard in shards {
        count = count.saturating_add(shard.len());
    }
    count
}

/// The logs of some shards of the items in the files, or in the input. Up to four threads hash the items. Else 80, 81,
/// then 82, and 90.
fn load_all<'a, R, I: Read + Drop, E: Write>(
    sources: Sources<'a>,
    accepted: Accepted,
    options: LoadOptions,
    reader: I,
    screen: &mut Screen<'_, R, E>,
) -> Result<Loaded, Refusal<'a>>
where
    R: Files<File = File> + AllocGlobal + Threads + Clock + Sync,
    requires low { options.bits ≤ max_bits }
    requires span { (options.first ≤ options.last) × (options.last < 2 ^ options.bits) }
    requires cap { options.cap ≡ accepted.table.cap }
    requires places { 2 ^ options.bits ≤ accepted.table.cap }
    ensures places { IfOk result (λ o. 2 ^ o.set.bits ≤ o.accepted.table.cap) }
    ensures cap { IfOk result (λ o. o.set.cap ≡ o.accepted.table.cap) }
    ensures cut { IfOk result (λ o. AreCutBy sources.entry.kept.now options (contents o.set.logs)) }
{
    let rt = screen.rt();
    let keeping = Keeping {
        options,
        floor: *sources.kept,
    };
    let shards = item_shards(sources.items, reader, &keeping, screen)?;
    let mut kept = open_kept(rt, sources, screen.err())?;
    let shards = with_kept(sources.keep, &mut kept.opened, shards, &keeping, screen)?;
    screen.hash(count_of(&shards));
    let LoadOptions { bits, first, .. } = options;
    let set = ShardedSet::of(rt, rt.alloc(), bits, first, accepted.cap(), shards)?;
    Ok(Loaded {
        accepted,
        set,
        kept,
    })
}

/// The strategy in one file and the logs of some shards of the items in the others, or in the input. Up to four threads
/// hash the items.
///
/// The strategy is judged first: 80, 30 to 35 or 29, then 37, 36 or 38, then 82 where its cap is below the number of
/// shards. Then the items are: 80, 81, then 82 where a shard that is kept has more different items than the cap; and
/// then those of the file in which the set is kept, in the same way. Items of other shards are left out, and then those
/// that are not kept: they do not count.
pub fn load_shards<
    'a,
    R: Files<File = File> + AllocGlobal + Threads + Clock + Sync,
    I: Read + Drop,
    E: Write,
>(
    rt: &R,
    sources: Sources<'a>,
    sharding: Sharding,
    reader: I,
    err: &mut E,
) -> Result<Loaded, Refusal<'a>>
    ensures places { IfOk result (λ o. 2 ^ o.set.bits ≤ o.accepted.table.cap) }
    ensures cap { IfOk result (λ o. o.set.cap ≡ o.accepted.table.cap) }
    ensures cut { IfOk result (λ o. AreCutTo sources.entry.kept.now sharding.bits sharding.first sharding.last
        (contents o.set.logs)) }
{
    let accepted = strategy_of(rt, sources.table, err)?;
    let Sharding { bits, first, last } = sharding;
    enough_places(&accepted, sources.table.path, bits)?;
    let options = LoadOptions {
        form: sources.form,
        bits,
        first,
        last,
        cap: accepted.cap() as usize,
    };
    let mut screen = Screen::begin(rt, err, sources.shows);
    let loaded = load_all(sources, accepted, options, reader, &mut screen);
    screen.clear();
    loaded
}
