//! A file of items is rewritten without those that its set has forgotten.

ghost use Rattle.std.specs.Prelude.{◌≡◌, ◌↔◌, ◌++◌, ◌-◌, ◌*◌, ◌<◌, ◌≤◌, true, false, not, length, string_bytes};
ghost use Rattle.std.specs.Prelude.{OnOk, IfOk, IfSome, IfNone, IsTrue, MatchOption};
ghost use Rattle.printing_core.specs.ItemTexts.{item_line};
ghost use Rattle.shard_core.specs.Floors.{left_by, LacksAQuarter};
ghost use Rattle.loading.specs.Folders.{Lifts};
ghost use Rattle.loading.specs.Rewriting.{lines_of, IsLeft, IsShorter, Rewrites};

use crate::replacing::{Folder, ReplaceFault, replace};
use item_core::Item;
use item_files::{ItemForm, SettingsFault, item_set};
use printing_core::push_item;
use shard_core::{Floor, lacks_a_quarter};
use std::alloc::{AllocError, Global};
use std::io::ErrorKind;

/// For how many looks a file rests after a failure.
const REST: u8 = 60;

/// When a file is looked at again for what may be left out of it.
#[derive(Clone, Copy, Debug, PartialEq, Eq)]
pub struct Rewriting {
    /// How many bytes it had the last time.
    pub looked: u64,
    /// For how many looks it rests.
    pub rests: u8,
    /// Whether the last time failed.
    pub has_failed: bool,
}

impl Rewriting {
    /// A file that was not looked at.
    pub fn new() -> Rewriting
        ensures { result ≡ record { looked = 0; rests = 0; has_failed = false } }
    {
        Rewriting {
            looked: 0,
            rests: 0,
            has_failed: false,
        }
    }

    /// Whether it is due, with so many bytes: it does not rest, and has at least twice the bytes of the last time. It
    /// rests for a look less.
    pub fn is_due(&mut self, length: u64) -> bool
        ensures due { IsTrue result ↔ ((self.old.rests ≡ 0) × (0 < length) × (2 * self.old.looked ≤ length)) }
        ensures rests { self.new ≡ record self.old { rests = self.old.rests - 1 } }
    {
        if self.rests > 0 {
            self.rests -= 1;
            return false;
        }
        length > 0 && self.looked <= length / 2
    }

    /// It was looked at, and has so many bytes now.
    pub fn look(&mut self, length: u64)
        ensures { self.new ≡ record { looked = length; rests = 0; has_failed = false } }
    {
        *self = Rewriting {
            looked: length,
            rests: 0,
            has_failed: false,
        };
    }

    /// It could not be rewritten: it rests. Whether that is the first time in a row.
    pub fn fail(&mut self) -> bool
        ensures first { result ≡ not self.old.has_failed }
        ensures rests { self.new ≡ record self.old { rests = 60; has_failed = true } }
    {
        let is_first = !self.has_failed;
        self.rests = REST;
        self.has_failed = true;
        is_first
    }
}

/// The items that stay in a file, if a quarter of all does not.
fn left_if_fewer(items: Vec<Item>, floor: &Floor) -> Option<Vec<Item>>
    ensures kept { IfSome result (λ v. v.items ≡ left_by floor.now items.items) }
    ensures fewer { IfSome result (λ v. LacksAQuarter (length items.items) (length v.items)) }
    ensures left { IfNone result (LacksAQuarter (length items.items) (length (left_by floor.now items.items)) → ⊥) }
{
    let mut items = items;
    let count = items.len();
    items.retain(|item| floor.leaves(item));
    if !lacks_a_quarter(count, items.len()) {
        return None;
    }
    Some(items)
}

/// Appends the line of an item.
fn push_line(
    alloc: Global,
    text: &mut String,
    form: ItemForm,
    item: &Item,
) -> Result<(), AllocError>
    ensures { OnOk result (string_bytes text.new ≡ string_bytes text.old ++ item_line form item.now) }
{
    push_item(alloc, text, form, item)?;
    text.push_str("\n")
}

/// The lines of an item file for these items.
pub fn lines_text(alloc: Global, form: ItemForm, items: &[Item]) -> Result<String, AllocError>
    ensures { IfOk result (λ text. string_bytes text ≡ lines_of form items.now) }
{
    let mut text = String::new(alloc);
    for item in items {
        push_line(alloc, &mut text, form, item)?;
    }
    Ok(text)
}

/// Of a file's text the lines of the items that stay, if a quarter does not. None too where it does not hold items.
fn shorter(
    alloc: Global,
    form: ItemForm,
    text: &[u8],
    floor: &Floor,
) -> Result<Option<String>, AllocError>
    ensures { IfOk result (λ o. MatchOption o (IsLeft form floor.now text.now)
        (λ t. IsShorter form floor.now text.now (string_bytes t))) }
{
    let items = match item_set(alloc, form, text, usize::MAX) {
        Ok(items) => items,
        Err(SettingsFault::BadItemLine(_)) => return Ok(None),
        Err(_) => return Err(AllocError),
    };
    match left_if_fewer(items, floor) {
        Some(kept) => Ok(Some(lines_text(alloc, form, &kept)?)),
        None => Ok(None),
    }
}

/// Rewrites the file at the path without the items below the floor, if they are a quarter of its items; whether it did.
/// Items without a time stay, where items have one: the form may be the wrong one. A stop at any moment leaves the old
/// file there or the new one, whole. It fails only if the folder refuses a call, or where memory runs out.
pub fn rewrite<F: Folder>(
    alloc: Global,
    folder: &mut F,
    form: ItemForm,
    floor: &Floor,
) -> Result<bool, ReplaceFault>
    ensures { Lifts (λ p q. Rewrites form floor.now p q result) (F.state folder.old) (F.state folder.new) }
{
    let text = match folder.read(alloc) {
        Ok(text) => text,
        Err(error) => return Err(ReplaceFault::NotReplaced(error.kind())),
    };
    match shorter(alloc, form, &text, floor) {
        Ok(Some(lines)) => {
            replace(folder, lines.as_bytes())?;
            Ok(true)
        }
        Ok(None) => Ok(false),
        Err(AllocError) => Err(ReplaceFault::NotReplaced(ErrorKind::OutOfMemory)),
    }
}
