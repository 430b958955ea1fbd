//! What a `sync` learned is appended to a file.

ghost use Rattle.std.specs.Prelude.{◌≡◌, ◌++◌, OnOk, flat_map};
ghost use Rattle.printing_core.specs.ItemTexts.{item_line};

use crate::asked::Asking;
use io_core::{Device, LineFile, Unwritten};
use item_core::Item;
use item_files::ItemForm;
use loading::{Disk, ItemFile, open_lines};
use peer_threads::Outcome;
use printing_core::{Refusal, learned_in, learned_line};
use shard_core::{ShardPart, merge};
use std::alloc::{AllocError, Global};
use std::fs::File;
use std::io::Write;
use std::rt::Files;
use store_core::spans::distinct;

/// A file to which what is learned is appended: open, healed and locked.
#[derive(Drop)]
pub struct KeepFile<'a> {
    path: &'a str,
    form: ItemForm,
    lines: LineFile<Disk<File>>,
    /// Whether it is synced: a pipe or a terminal is not.
    is_regular: bool,
    /// Whether its first line is to be empty: it ends the last line of the item file, which may stand before it.
    begins_blank: bool,
}

/// Opens the file to which what is learned is appended, if one is asked for. Else 80 or 90.
pub fn open_keep_file<'a, R: Files<File = File> + AllocGlobal, E: Write>(
    rt: &R,
    asking: Asking<'a>,
    items: Option<ItemFile>,
    err: &mut E,
) -> Result<Option<KeepFile<'a>>, Refusal<'a>> {
    let Some(path) = asking.keep else {
        return Ok(None);
    };
    let opened = open_lines(rt, path, items, err)?;
    let is_regular = opened.is_regular();
    let begins_blank = opened.is_empty() && items.is_some_and(|items| items.is_open_ended);
    Ok(Some(KeepFile {
        path,
        form: asking.form,
        lines: opened.into_lines(rt.alloc()),
        is_regular,
        begins_blank,
    }))
}

/// Puts a line for each of these items after those that wait.
fn tell_items<D: Device>(
    alloc: Global,
    lines: &mut LineFile<D>,
    form: ItemForm,
    items: &[Item],
) -> Result<(), AllocError>
    ensures { OnOk result (lines.new.waiting ≡ lines.old.waiting ++ flat_map (item_line form) items.now) }
{
    for item in items {
        tell_item(alloc, lines, form, item)?;
    }
    Ok(())
}

/// Puts the line of this item after those that wait.
fn tell_item<D: Device>(
    alloc: Global,
    lines: &mut LineFile<D>,
    form: ItemForm,
    item: &Item,
) -> Result<(), AllocError>
    ensures { OnOk result (lines.new.waiting ≡ lines.old.waiting ++ item_line form item.now) }
{
    let line = learned_line(alloc, form, item)?;
    lines.tell(line.as_bytes())
}

/// Writes what waits, and sees that it outlives a loss of power. Where it is not written whole, no torn line is left.
fn write_whole<D: Device>(lines: &mut LineFile<D>, is_synced: bool) -> Result<(), Unwritten> {
    if let Err(unwritten) = lines.write() {
        // Where that fails too, the next call that opens the file does it.
        let _cut = lines.heal();
        return Err(unwritten);
    }
    if is_synced {
        lines.sync()?;
    }
    Ok(())
}

impl<'a> KeepFile<'a> {
    /// Appends a line for each of these items, and syncs the file. Else `io write` or 90.
    fn append(self, alloc: Global, items: &[Item]) -> Result<(), Refusal<'a>> {
        let KeepFile {
            path,
            form,
            mut lines,
            is_regular,
            begins_blank,
        } = self;
        if items.is_empty() {
            return Ok(());
        }
        if begins_blank {
            lines.tell(b"\n")?;
        }
        tell_items(alloc, &mut lines, form, items)?;
        match write_whole(&mut lines, is_regular) {
            Ok(()) => Ok(()),
            Err(_unwritten) => Err(Refusal::of_unwritten(path)),
        }
    }
}

/// Appends the items that a session learned of the peer to the file, if there is one: each once, rising. Else
/// `io write` or 90.
pub fn keep_learned<'a>(
    alloc: Global,
    file: Option<KeepFile<'a>>,
    outcome: &Outcome,
) -> Result<(), Refusal<'a>> {
    let Some(file) = file else {
        return Ok(());
    };
    let learned = learned_in(outcome)?;
    let items = distinct(learned.theirs().to_vec(alloc)?);
    file.append(alloc, &items)
}

/// The same of the items that sessions over shards learned of their peers.
pub fn keep_parts<'a>(
    alloc: Global,
    file: Option<KeepFile<'a>>,
    parts: &[ShardPart],
) -> Result<(), Refusal<'a>> {
    let Some(file) = file else {
        return Ok(());
    };
    let merged = merge(alloc, parts)?;
    file.append(alloc, &merged.theirs)
}
