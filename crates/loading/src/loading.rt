//! What a side of sessions begins with.

ghost use Rattle.std.specs.Prelude.{◌≡◌, ◌<◌, ◌≤◌, ◌||◌, not, ◌++◌, List, [], ◌∷◌, Some, None, is_some, length, IfOk};
ghost use Rattle.std.specs.Prelude.{OnErr};
ghost use Rattle.definitions.specs.Items.{Item as Bytes};
ghost use Rattle.definitions.specs.Sets.{IsSet, set_of};
ghost use Rattle.shard_core.specs.Floors.{kept_by};
ghost use Rattle.range_tree.specs.Trees.{tree_items};
ghost use Rattle.loading.specs.Cutting.{IsCutTo};
ghost use Rattle.loading.specs.Sharded.{contents};

use crate::disk::{Kept, Opened, item_file, open_lines};
use crate::sharded_set::ShardedSet;
use item_core::Item;
use item_files::{
    ItemForm, ReadFault, SettingsFault, accepted_in, document, read_document, read_input_items,
    read_items, stray_key,
};
use printing_core::{Refusal, STANDARD_INPUT, tell_no_time, tell_stray_key};
use range_tree::Tree;
use settings_core::{ServeWords, SyncWords};
use shard_core::Floor;
use sim_core::{SHIPPED_NAMES, shipped_text};
use std::alloc::{AllocError, Global};
use std::fs::File;
use std::io::{Read, Write};
use std::rt::Files;
use std::thread::Threads;
use store_core::{set_laws, spans};
use strategy_check::Accepted;
use toml::value::Table;
use version_log::Log;

/// A strategy that was accepted, and a set or some of its shards, each of at most as many items as its cap.
#[derive(Drop)]
pub struct Loaded {
    /// The strategy.
    pub accepted: Accepted,
    /// The set, or its shards, whose cap is the strategy's.
    pub set: ShardedSet,
    /// What else was opened.
    pub kept: Kept,
}

/// A strategy that is named, and whether standard error is told of keys that say nothing.
#[derive(Clone, Copy)]
pub struct TableSource<'a> {
    /// The path of its file; or the name of one that is shipped, where no file is there.
    pub path: &'a str,
    /// Whether standard error is told.
    pub explains: bool,
}

/// The table of the strategy in the file; or of the one that is shipped under the name, where no file is there. Else
/// 80, 30 or 90.
fn table_of<'a, R: Files + AllocGlobal>(rt: &R, path: &'a str) -> Result<Table, Refusal<'a>> {
    let alloc = rt.alloc();
    let read = match read_document(rt, path) {
        Err(SettingsFault::CannotRead(ReadFault::Absent)) => match shipped_text(path) {
            Some(text) => document(alloc, text.as_bytes()),
            None => return Err(Refusal::of_no_table(path, SHIPPED_NAMES)),
        },
        read => read,
    };
    match read {
        Ok(table) => Ok(table),
        Err(fault) => Err(Refusal::of_file(alloc, path, fault)),
    }
}

/// The strategy of this table, accepted. Else 31 to 35 or 29, then 37, 36 or 38, and 90.
fn accepted<'a>(alloc: Global, path: &'a str, table: &Table) -> Result<Accepted, Refusal<'a>> {
    match accepted_in(alloc, table) {
        Ok(accepted) => Ok(accepted),
        Err(fault) => Err(Refusal::of_file(alloc, path, fault)),
    }
}

/// The strategy in the file, accepted, or the one that is shipped under the name, where no file is there. Standard
/// error is told of a key of it that says nothing, if it is told more. Else 80, 30 to 35 or 29, then 37, 36 or 38, and
/// 90.
pub fn strategy_of<'a, R: Files + AllocGlobal, E: Write>(
    rt: &R,
    source: TableSource<'a>,
    err: &mut E,
) -> Result<Accepted, Refusal<'a>> {
    let alloc = rt.alloc();
    let TableSource { path, explains } = source;
    let table = table_of(rt, path)?;
    let accepted = accepted(alloc, path, &table)?;
    if explains && let Some(stray) = stray_key(&table) {
        tell_stray_key(alloc, err, path, stray);
    }
    Ok(accepted)
}

/// The set of the items of the file: at most `cap`. Else 80, 81, then 82, and 90.
pub fn items_of<'a, R: Files + AllocGlobal>(
    rt: &R,
    form: ItemForm,
    path: &'a str,
    cap: usize,
) -> Result<Vec<Item>, Refusal<'a>>
    ensures rises { IfOk result (λ v. IsSet v.items) }
    ensures few { IfOk result (λ v. length v.items ≤ cap) }
{
    match read_items(rt, form, path, cap) {
        Ok(items) => Ok(items),
        Err(fault) => Err(Refusal::of_file(rt.alloc(), path, fault)),
    }
}

/// Where a side of sessions begins from.
#[derive(Clone, Copy)]
pub struct Sources<'a> {
    /// The strategy.
    pub table: TableSource<'a>,
    /// Whether the set may be cut into shards.
    pub may_cut: bool,
    /// The form of the item files.
    pub form: ItemForm,
    /// The path of the item file, or `-` for the input; none where the set is only in the file that it is kept in.
    pub items: Option<&'a str>,
    /// The path of the file in which the set is kept, if there is one.
    pub keep: Option<&'a str>,
    /// Whether standard error is shown how far the items of shards are loaded.
    pub shows: bool,
    /// Whether what is learned is written to files, which may be the item file.
    pub learns: bool,
    /// Which of the items are kept; the others are left out.
    pub kept: &'a Floor,
}

impl<'a> Sources<'a> {
    /// Where a server begins from that is asked for in these words, and that keeps these items; whether
    /// standard error is told more, and whether it is shown how far all is.
    pub fn of_server(
        words: ServeWords<'a>,
        kept: &'a Floor,
        explains: bool,
        shows: bool,
    ) -> Sources<'a>
        ensures files { (result.table.path ≡ words.entry.table) × (result.items ≡ words.entry.items)
            × (result.keep ≡ words.entry.keep) × (result.form ≡ words.entry.form) }
        ensures learns { result.learns ≡ is_some words.entry.keep || is_some words.entry.learned }
        ensures cut { result.may_cut ≡ not words.entry.stdio }
        ensures kept { result.kept ≡ kept.entry }
        ensures told { (result.table.explains ≡ explains) × (result.shows ≡ shows) }
    {
        Sources {
            table: TableSource {
                path: words.table,
                explains,
            },
            may_cut: !words.stdio,
            form: words.form,
            items: words.items,
            keep: words.keep,
            learns: words.keep.is_some() || words.learned.is_some(),
            shows,
            kept,
        }
    }

    /// Where a `sync` begins from that is asked for in these words, and that speaks of these items; whether
    /// standard error is told more, and whether it is shown how far all is.
    pub fn of_asker(
        words: SyncWords<'a>,
        kept: &'a Floor,
        explains: bool,
        shows: bool,
    ) -> Sources<'a>
        ensures files { (result.table.path ≡ words.entry.table) × (result.items ≡ Some words.entry.items)
            × (result.keep ≡ None) × (result.form ≡ words.entry.form) }
        ensures learns { result.learns ≡ is_some words.entry.keep }
        ensures cut { result.may_cut ≡ not words.entry.stdio }
        ensures kept { result.kept ≡ kept.entry }
        ensures told { (result.table.explains ≡ explains) × (result.shows ≡ shows) }
    {
        Sources {
            table: TableSource {
                path: words.table,
                explains,
            },
            may_cut: !words.stdio,
            form: words.form,
            items: Some(words.items),
            keep: None,
            learns: words.keep.is_some(),
            shows,
            kept,
        }
    }

    /// The path of the item file, if the items are in a file.
    fn item_path(&self) -> Option<&'a str> {
        self.items.filter(|path| *path != "-")
    }

    /// The refusal of the set in this file.
    fn refusal(&self, alloc: Global, file: &'a str, fault: SettingsFault) -> Refusal<'a> {
        if self.may_cut {
            Refusal::of_set_file(alloc, file, fault)
        } else {
            Refusal::of_file(alloc, file, fault)
        }
    }

    /// The refusal of the items in this file, or in the input.
    fn items_refusal(&self, alloc: Global, path: &'a str, fault: SettingsFault) -> Refusal<'a> {
        if path == "-" {
            Refusal::of_file(alloc, STANDARD_INPUT, fault)
        } else {
            self.refusal(alloc, path, fault)
        }
    }

    /// The refusal of the file in which the set is kept.
    fn kept_refusal(&self, alloc: Global, fault: SettingsFault) -> Refusal<'a> {
        self.refusal(alloc, self.keep.unwrap_or(STANDARD_INPUT), fault)
    }
}

/// The set of the items of the file, or of the input. Else 80, 81 or 90.
fn item_set<'a, R: Files + AllocGlobal, I: Read + Drop>(
    rt: &R,
    sources: Sources<'a>,
    items: &'a str,
    reader: I,
) -> Result<Vec<Item>, SettingsFault>
    ensures { IfOk result (λ v. IsSet v.items) }
{
    if items == "-" {
        read_input_items(rt.alloc(), sources.form, reader, usize::MAX)
    } else {
        read_items(rt, sources.form, items, usize::MAX)
    }
}

/// Tells standard error of the first of these items that has no time, if items have one: it is not kept.
fn tell_untimed<E: Write>(alloc: Global, sources: Sources<'_>, items: &[Item], err: &mut E) {
    for item in items {
        if !sources.kept.is_timed(item) {
            return tell_no_time(alloc, err, sources.form, item);
        }
    }
}

/// The items of a set that are kept, at most `cap`. Else 82.
fn kept_of(items: Vec<Item>, kept: &Floor, cap: usize) -> Result<Vec<Item>, SettingsFault>
    requires { IsSet items.items }
    ensures held { IfOk result (λ v. v.items ≡ kept_by kept.now items.items) }
    ensures rises { IfOk result (λ v. IsSet v.items) }
    ensures few { IfOk result (λ v. length v.items ≤ cap) }
    ensures many { OnErr result (cap < length (kept_by kept.now items.items)) }
{
    let mut items = items;
    items.retain(|item| kept.keeps(item));
    if items.len() > cap {
        let count = items.len();
        return Err(SettingsFault::TooManyItems { cap, count });
    }
    Ok(items)
}

/// The items of the file, or of the input, that are kept. Else 80, 81, then 82, and 90.
fn first_set<'a, R: Files + AllocGlobal, I: Read + Drop, E: Write>(
    rt: &R,
    sources: Sources<'a>,
    reader: I,
    cap: usize,
    err: &mut E,
) -> Result<Vec<Item>, Refusal<'a>>
    ensures cut { IfOk result (λ v. IsCutTo sources.entry.kept.now v.items) }
    ensures few { IfOk result (λ v. length v.items ≤ cap) }
{
    let alloc = rt.alloc();
    let Some(path) = sources.items else {
        return Ok(Vec::new(alloc));
    };
    let items = match item_set(rt, sources, path, reader) {
        Ok(items) => items,
        Err(fault) => return Err(sources.items_refusal(alloc, path, fault)),
    };
    tell_untimed(alloc, sources, &items, err);
    let first = kept_of(items, sources.kept, cap);
    match first {
        Ok(items) => Ok(items),
        Err(fault) => Err(sources.items_refusal(alloc, path, fault)),
    }
}

/// Opens and heals the file in which the set is kept, if there is one. Else 80 or 90.
pub(crate) fn open_kept<'a, R: Files<File = File> + AllocGlobal, E: Write>(
    rt: &R,
    sources: Sources<'a>,
    err: &mut E,
) -> Result<Kept, Refusal<'a>> {
    let items = match sources.item_path() {
        Some(path) if sources.learns => item_file(rt, path),
        _ => None,
    };
    let opened = match sources.keep {
        Some(path) => Some(open_lines(rt, path, items, err)?),
        None => None,
    };
    Ok(Kept { opened, items })
}

/// The items of a file that is open.
fn reread(alloc: Global, opened: &mut Opened, form: ItemForm) -> Result<Vec<Item>, SettingsFault>
    ensures { IfOk result (λ v. IsSet v.items) }
{
    match opened.reader() {
        Ok(reader) => read_input_items(alloc, form, reader, usize::MAX),
        Err(error) => Err(SettingsFault::CannotRead(ReadFault::of(&error))),
    }
}

/// The items that are kept of those in the file in which the set is kept, if there is one. Else 80, 81, then 82, and
/// 90.
fn kept_set<'a, E: Write>(
    alloc: Global,
    sources: Sources<'a>,
    opened: &mut Option<Opened>,
    cap: usize,
    err: &mut E,
) -> Result<Vec<Item>, Refusal<'a>>
    ensures { IfOk result (λ v. IsCutTo sources.entry.kept.now v.items) }
{
    let Some(opened) = opened else {
        return Ok(Vec::new(alloc));
    };
    let items = match reread(alloc, opened, sources.form) {
        Ok(items) => items,
        Err(fault) => return Err(sources.kept_refusal(alloc, fault)),
    };
    tell_untimed(alloc, sources, &items, err);
    let more = kept_of(items, sources.kept, cap);
    match more {
        Ok(items) => Ok(items),
        Err(fault) => Err(sources.kept_refusal(alloc, fault)),
    }
}

/// The set of the items of both. Else 82 where there are more different items than `cap`, or 90.
fn joined(items: Vec<Item>, more: &[Item], cap: usize) -> Result<Vec<Item>, SettingsFault>
    ensures union { IfOk result (λ v. v.items ≡ set_of (items.items ++ more.now)) }
    ensures rises { IfOk result (λ v. IsSet v.items) }
    ensures few { IfOk result (λ v. length v.items ≤ cap) }
{
    set_laws::set_of_a_list();
    let mut items = items;
    items.extend_from_slice(more)?;
    let items = spans::distinct(items);
    if items.len() > cap {
        let count = items.len();
        return Err(SettingsFault::TooManyItems { cap, count });
    }
    Ok(items)
}

/// The set of the items of both, of which the second are those of the file in which the set is kept.
fn joined_set<'a>(
    alloc: Global,
    items: Vec<Item>,
    more: &[Item],
    sources: Sources<'a>,
    cap: usize,
) -> Result<Vec<Item>, Refusal<'a>>
    ensures union { IfOk result (λ v. v.items ≡ set_of (items.items ++ more.now)) }
    ensures rises { IfOk result (λ v. IsSet v.items) }
    ensures few { IfOk result (λ v. length v.items ≤ cap) }
{
    match joined(items, more, cap) {
        Ok(items) => Ok(items),
        Err(fault) => Err(sources.kept_refusal(alloc, fault)),
    }
}

/// The store of the items of a set, which up to four threads hash. The list is given up here.
fn stored<R: Threads + Sync>(rt: &R, alloc: Global, items: Vec<Item>) -> Result<Tree, AllocError>
    requires { IsSet items.items }
    ensures { IfOk result (λ store. tree_items store ≡ items.items) }
{
    Tree::from_rising_on(rt, alloc, &items)
}

/// The strategy in one file and a log of the items in the others, or in the input. Up to four threads hash the items.
///
/// The strategy is judged first: 80, 30 to 35 or 29, then 37, 36 or 38. Then the items are: 80, 81, then 82 where there
/// are more different items that are kept than the strategy's cap; and then those of the file in which the set is kept,
/// in the same way.
pub fn load<'a, R: Files<File = File> + AllocGlobal + Threads + Sync, I: Read + Drop, E: Write>(
    rt: &R,
    sources: Sources<'a>,
    reader: I,
    err: &mut E,
) -> Result<Loaded, Refusal<'a>>
    ensures cap { IfOk result (λ o. o.set.cap ≡ o.accepted.table.cap) }
    ensures cut { IfOk result (λ o. (X : List Bytes) × IsCutTo sources.entry.kept.now X
        × (contents o.set.logs ≡ X ∷ [])) }
{
    let alloc = rt.alloc();
    let accepted = strategy_of(rt, sources.table, err)?;
    let cap = accepted.cap() as usize;
    let items = first_set(rt, sources, reader, cap, err)?;
    let mut kept = open_kept(rt, sources, err)?;
    let items = {
        let more = kept_set(alloc, sources, &mut kept.opened, cap, err)?;
        joined_set(alloc, items, &more, sources, cap)?
    };
    let store = stored(rt, alloc, items)?;
    let log = Log::of_store(alloc, accepted.cap(), store);
    let set = ShardedSet::whole(alloc, log)?;
    Ok(Loaded {
        accepted,
        set,
        kept,
    })
}
