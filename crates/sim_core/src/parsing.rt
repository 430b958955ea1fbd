//! The numbers of a strategy's text, where it lists in its first row and cuts in the others.

ghost use Rattle.std.specs.Prelude.{◌≡◌, IfOk, IfSome};
ghost use Rattle.toml.specs.Data.{Members, as_str};
ghost use Rattle.toml.specs.View.{table_view, view};
ghost use Rattle.strategy_core.specs.Texts.{IsDocument};
ghost use Rattle.sim_core.specs.Candidates.{has_short_bounds, is_short_name};

use crate::candidate::{Candidate, Cut};
use std::alloc::{AllocError, Global};
use strategy_core::member;
use toml::value::{Array, Table, Value};

/// The number that a value is.
fn number_of(value: &Value) -> Option<u32> {
    u32::try_from(value.as_integer()?).ok()
}

/// The number under a key.
fn number(table: &Table, key: &str) -> Option<u32> {
    number_of(table.get(key)?)
}

/// The numbers of an array.
fn weights_of(alloc: Global, array: &Array) -> Result<Option<Vec<u32>>, AllocError> {
    let mut weights = Vec::new(alloc);
    for value in array {
        let Some(weight) = number_of(value) else {
            return Ok(None);
        };
        weights.push(weight)?;
    }
    Ok(Some(weights))
}

/// The array of weights of a row.
fn split_of(row: &Table) -> Option<&Array> {
    row.get("split")?.as_array()
}

/// The row that a value is, if it cuts by weights.
fn cut_of(alloc: Global, value: &Value) -> Result<Option<Cut>, AllocError> {
    let Some(row) = value.as_table() else {
        return Ok(None);
    };
    let (Some(upto), Some(split)) = (number(row, "upto"), split_of(row)) else {
        return Ok(None);
    };
    match weights_of(alloc, split)? {
        Some(weights) => Ok(Some(Cut { upto, weights })),
        None => Ok(None),
    }
}

/// The rows that all of these values are.
fn cuts_of(alloc: Global, values: &[Value]) -> Result<Option<Vec<Cut>>, AllocError> {
    let mut cuts = Vec::new(alloc);
    for value in values {
        let Some(cut) = cut_of(alloc, value)? else {
            return Ok(None);
        };
        cuts.push(cut)?;
    }
    Ok(Some(cuts))
}

/// Whether a value is the name of short bounds.
fn names_short(value: &Value) -> bool
    ensures { result ≡ is_short_name (as_str (view value.now)) }
{
    match value.as_str() {
        Some("short") => true,
        _ => false,
    }
}

/// Whether the bounds of a table are short.
fn is_short(table: &Table) -> bool
    ensures { result ≡ has_short_bounds (table_view table.now) }
{
    match member(table, "bounds") {
        Some(bounds) => names_short(bounds),
        None => false,
    }
}

/// The rows of a table after the first one.
fn rows_of(table: &Table) -> Option<&[Value]> {
    let rows = table.get("row")?.as_array()?;
    let (_list, cuts) = rows.split_first()?;
    Some(cuts)
}

/// The numbers of a table; `None` where it has none, or a row after the first one does not cut by weights.
pub(crate) fn candidate_of(alloc: Global, text: &str) -> Result<Option<Candidate>, AllocError>
    ensures { IfOk result (λ found. IfSome found (λ c. (ms : Members) × IsDocument text.now ms
        × (c.is_short ≡ has_short_bounds ms))) }
{
    let table = match toml::table_from_slice(alloc, text.as_bytes()) {
        Ok(table) => table,
        Err(error) if error.is_memory() => return Err(AllocError),
        Err(_) => return Ok(None),
    };
    let (Some(cap), Some(limit)) = (number(&table, "cap"), number(&table, "limit")) else {
        return Ok(None);
    };
    let Some(rows) = rows_of(&table) else {
        return Ok(None);
    };
    match cuts_of(alloc, rows)? {
        Some(cuts) => Ok(Some(Candidate {
            is_short: is_short(&table),
            cap,
            limit,
            cuts,
        })),
        None => Ok(None),
    }
}
