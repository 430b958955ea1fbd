//! Keys of a strategy that say nothing: they are ignored, and may be mistyped.

ghost use Rattle.std.specs.Prelude.{◌≡◌, ℕ, option_map, IfOk, IfSome, true, Some, None};
ghost use Rattle.toml.specs.View.{table_view, array_view, view};
ghost use Rattle.item_files.specs.StrayKeys.{is_key, stray_in, stray_in_row, stray_in_rows, stray_in_table, told};
ghost use Rattle.item_files.specs.StrayKeys.{rows_at};

use std::alloc::{AllocError, Global};
use strategy_core::member;
use strsim::osa_distance;
use toml::value::{Array, Table, Value};

/// A key that says nothing.
#[derive(Clone, Copy, Debug, PartialEq, Eq)]
pub struct StrayKey<'a> {
    /// The row that it stands in, from 1; None above the rows.
    pub row: Option<usize>,
    /// The key.
    pub key: &'a str,
}

/// Whether a strategy has such a key above the rows, or in a row.
fn is_key(row: Option<usize>, key: &str) -> bool
    ensures { result ≡ is_key row key.now }
{
    match row {
        None => matches!(
            key,
            "bounds" | "cap" | "limit" | "opening" | "rounds" | "row"
        ),
        Some(_) => matches!(key, "list" | "peel" | "split" | "upto"),
    }
}

/// The first key of this row, or above the rows, that says nothing, in the order of the keys.
fn stray_in(row: Option<usize>, table: &Table) -> Option<&str>
    ensures { option_map (λ key. key.now) result ≡ stray_in row (table_view table.now) }
{
    for (key, _value) in table.iter() {
        if !is_key(row, key.as_str()) {
            return Some(key.as_str());
        }
    }
    None
}

/// The same of the row of this number.
fn stray_in_row(number: usize, entry: &Value) -> Option<&str>
    ensures { option_map (λ key. key.now) result ≡ stray_in_row number (view entry.now) }
{
    stray_in(Some(number), entry.as_table()?)
}

/// The first such key of the rows.
fn stray_in_rows(entries: &Array) -> Option<StrayKey<'_>>
    ensures { option_map told result ≡ stray_in_rows 1 (array_view entries.now) }
{
    let mut number = 0;
    for entry in entries {
        number += 1;
        if let Some(key) = stray_in_row(number, entry) {
            let row = Some(number);
            return Some(StrayKey { row, key });
        }
    }
    None
}

/// The array of the rows, if there is one.
fn rows(table: &Table) -> Option<&Array>
    ensures { option_map (λ array. array_view array.now) result ≡ rows_at (table_view table.now) }
{
    member(table, "row")?.as_array()
}

/// The first key of a strategy's table that says nothing: above the rows in the order of the keys, then of the rows.
pub fn stray_key(table: &Table) -> Option<StrayKey<'_>>
    ensures { option_map told result ≡ stray_in_table (table_view table.now) }
{
    if let Some(key) = stray_in(None, table) {
        return Some(StrayKey { row: None, key });
    }
    stray_in_rows(rows(table)?)
}

/// A key of a strategy, and how many edits lead to it.
#[derive(Clone, Copy)]
struct NearKey {
    edits: usize,
    key: &'static str,
}

/// The nearest key so far, or this one, if it is nearer and at most half as many edits lead to it as the mistyped key
/// has bytes.
fn nearer(
    alloc: Global,
    stray: StrayKey<'_>,
    best: Option<NearKey>,
    key: &'static str,
) -> Result<Option<NearKey>, AllocError>
    requires best { IfSome best (λ near. is_key stray.row near.key.now ≡ true) }
    requires key { is_key stray.row key.now ≡ true }
    ensures { IfOk result (λ best. IfSome best (λ near. is_key stray.entry.row near.key.now ≡ true)) }
{
    let edits = osa_distance(alloc, stray.key, key)?;
    if edits > stray.key.len() / 2 {
        return Ok(best);
    }
    match best {
        Some(near) if near.edits <= edits => Ok(best),
        _ => Ok(Some(NearKey { edits, key })),
    }
}

/// The nearest key above the rows, if one is near.
fn nearest_above(alloc: Global, stray: StrayKey<'_>) -> Result<Option<NearKey>, AllocError>
    requires { stray.row ≡ None }
    ensures { IfOk result (λ best. IfSome best (λ near. is_key stray.entry.row near.key.now ≡ true)) }
{
    let best = nearer(alloc, stray, None, "bounds")?;
    let best = nearer(alloc, stray, best, "cap")?;
    let best = nearer(alloc, stray, best, "limit")?;
    let best = nearer(alloc, stray, best, "opening")?;
    let best = nearer(alloc, stray, best, "rounds")?;
    nearer(alloc, stray, best, "row")
}

/// The nearest key of a row, if one is near.
fn nearest_in_row(alloc: Global, stray: StrayKey<'_>) -> Result<Option<NearKey>, AllocError>
    requires { (number : ℕ) × (stray.row ≡ Some number) }
    ensures { IfOk result (λ best. IfSome best (λ near. is_key stray.entry.row near.key.now ≡ true)) }
{
    let best = nearer(alloc, stray, None, "list")?;
    let best = nearer(alloc, stray, best, "peel")?;
    let best = nearer(alloc, stray, best, "split")?;
    nearer(alloc, stray, best, "upto")
}

/// The key that was meant, if one of the same place is near.
pub fn meant_key(alloc: Global, stray: StrayKey<'_>) -> Result<Option<&'static str>, AllocError>
    ensures { IfOk result (λ meant. IfSome meant (λ key. is_key stray.entry.row key.now ≡ true)) }
{
    let best = match stray.row {
        None => nearest_above(alloc, stray)?,
        Some(_) => nearest_in_row(alloc, stray)?,
    };
    match best {
        Some(near) => Ok(Some(near.key)),
        None => Ok(None),
    }
}
