//! The name of the set that a command speaks of.

ghost use Rattle.std.specs.Prelude.{◌≡◌, ◌⊎◌, ◌<◌, [], length, None, false, IfOk, IfSome, IfNone, IsSome, OnErr};
ghost use Rattle.std.specs.Prelude.{option_map, unwrap_or};
ghost use Rattle.shard_core.specs.Shards.{max_bits};
ghost use Rattle.rangesync.specs.Names as names;
ghost use Rattle.rangesync.specs.Names.{name_in, name_told};

use item_files::ItemForm;
use settings_core::Command;
use shard_core::SetName;
use std::alloc::{AllocError, Global};

/// A name has no bytes, or more than 63.
#[derive(Clone, Copy, Debug, PartialEq, Eq)]
pub struct BadName;

/// The name that a command is given, if it is given one, and the form of its items.
fn named(command: Command<'_>) -> Option<(&str, ItemForm)>
    ensures { option_map (λ n. (n.0.now, n.1)) result ≡ name_in command.entry }
{
    match command {
        Command::Serve(words) => Some((words.set?, words.form)),
        Command::Sync(words) => Some((words.set?, words.form)),
        _ => None,
    }
}

/// The byte that says how items stand.
fn letter(form: ItemForm) -> u8
    ensures { result ≡ names.letter form }
{
    match form {
        ItemForm::Hex => b'h',
        ItemForm::Text => b't',
        ItemForm::Hash => b's',
    }
}

/// The name of the set as the other side is told it, with one byte more for the form of the items: so no side takes the
/// other's hex for text. No bytes if the command is given no name.
pub fn told_of(alloc: Global, command: Command<'_>) -> Result<Vec<u8>, AllocError>
    ensures { IfOk result (λ told. told.items ≡ name_told command.entry) }
{
    let mut told = Vec::new(alloc);
    if let Some((name, form)) = named(command) {
        told.extend_from_slice(name.as_bytes())?;
        told.push(letter(form))?;
    }
    Ok(told)
}

/// The set that the other side is told so, and that is cut by so many bits.
fn set_cut(told: &[u8], bits: u8) -> Result<Option<SetName<'_>>, BadName>
    ensures set { IfOk result (λ set. IfSome set (λ s. (s.name.now ≡ told.now) × (s.bits ≡ bits))) }
    ensures some { IfOk result (λ set. IsSome set) }
    ensures bad { OnErr result ((64 < length told.now) ⊎ (max_bits < bits)) }
{
    match SetName::new(told, bits) {
        Some(set) => Ok(Some(set)),
        None => Err(BadName),
    }
}

/// The set of which the other side is told so: none where it is told nothing. A set that is cut into shards may have no
/// name, as may one of which a part is meant: the other side is told of its bits, and of the part.
pub fn set_of(told: &[u8], bits: Option<u8>, is_part: bool) -> Result<Option<SetName<'_>>, BadName>
    ensures set { IfOk result (λ set. IfSome set (λ s. (s.name.now ≡ told.now) × (s.bits ≡ unwrap_or bits 0))) }
    ensures none { IfOk result (λ set. IfNone set ((told.now ≡ []) × (bits ≡ None) × (is_part ≡ false))) }
    ensures unsaid { told.now ≡ [] → bits ≡ None → is_part ≡ false → result ≡ Ok None }
    ensures bad { OnErr result ((length told.now ≡ 1) ⊎ ((64 < length told.now) ⊎ (max_bits < unwrap_or bits 0))) }
{
    match told.len() {
        1 => Err(BadName),
        0 if bits.is_none() && !is_part => Ok(None),
        _ => set_cut(told, bits.unwrap_or(0)),
    }
}
