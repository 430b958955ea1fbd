//! What a TOML table says of a strategy, test by test.

ghost use Rattle.std.specs.Prelude.{◌≡◌, ◌≤◌, IfOk, IsOk, Err, None, length, option_map};
ghost use Rattle.toml.specs.View.{table_view, view, array_view};
ghost use Rattle.toml.specs.Data.{get_member, as_table};
ghost use Rattle.strategy_core.specs.Texts.{IsDocument, IsText, key_of, member_at, number_in, number_at, weights_in};
ghost use Rattle.strategy_core.specs.Texts.{array_in, few_in, split_in, list_in, peel_in, act_at, row_in, upto_in};
ghost use Rattle.strategy_core.specs.Texts.{rows_in, entries_at, last_upto, bounds_in, bounds_at, rows_at, table_in};
ghost use Rattle.strategy_core.specs.Texts.{opening_in, opening_at, row_says, row_with};
ghost use Rattle.strategy_core.specs.Refused.{Gives, GivesField, Opens};
ghost use Rattle.strategy_core.specs.Rules.{act_of, bounds_of, opening_of};

use crate::bounds::Bounds;
use crate::fault::{StrategyError, StrategyFault};
use crate::field::Field;
use crate::opening::Opening;
use crate::row::{Row, Rule};
use crate::strategy::Strategy;
use crate::weights::Weights;
use std::alloc::Global;
use toml::value::{Array, Table, Value};

/// The greatest cap of a strategy.
const MAX_CAP: u32 = 65_536;

/// The most rounds of a strategy.
const MAX_ROUNDS: u32 = 255;

/// The most weights of a row.
const MAX_WEIGHTS: usize = 64;

/// The greatest weight.
const MAX_WEIGHT: u32 = 1_024;

/// The most items that a row cuts off the front.
const MAX_FRONT: u32 = 65_536;

/// The table that a TOML text is. Else 30; memory may run out before that where the bytes are UTF-8.
pub fn document(alloc: Global, text: &[u8]) -> Result<Table, StrategyError>
    ensures { Opens result text.now }
{
    let Ok(text) = std::str::from_utf8(text) else {
        return Err(StrategyError::NotToml);
    };
    match toml::table_from_str(alloc, text) {
        Ok(table) => Ok(table),
        Err(error) if error.is_memory() => Err(StrategyError::Memory),
        Err(_) => Err(StrategyError::NotToml),
    }
}

/// The value under a key.
pub fn member<'a>(table: &'a Table, key: &str) -> Option<&'a Value>
    ensures { option_map (λ v. view v.now) result ≡ get_member key.now (table_view table.now) }
{
    table.get(key)
}

/// The value under a key that must be there.
fn field(table: &Table, field: Field) -> Result<&Value, StrategyFault>
    ensures { GivesField (λ v. view v.now) result (member_at (table_view table.now) field) }
{
    match member(table, field.key()) {
        Some(value) => Ok(value),
        None => Err(StrategyFault::Missing(field)),
    }
}

/// A whole number of `least` to `greatest`, which stands under this key.
fn number_of(value: &Value, field: Field, least: u32, greatest: u32) -> Result<u32, StrategyFault>
    ensures number { GivesField (λ n. n) result (number_in field least greatest (view value.now)) }
    ensures span { IfOk result (λ n. (least ≤ n) × (n ≤ greatest)) }
{
    match value.as_integer() {
        Some(whole) if i64::from(least) <= whole && whole <= i64::from(greatest) => Ok(
            whole as u32,
        ),
        _ => Err(StrategyFault::BadNumber {
            field,
            least,
            greatest,
        }),
    }
}

/// A whole number of `least` to `greatest` under a key.
fn number(table: &Table, key: Field, least: u32, greatest: u32) -> Result<u32, StrategyFault>
    ensures number { GivesField (λ n. n) result (number_at (table_view table.now) key least greatest) }
    ensures span { IfOk result (λ n. (least ≤ n) × (n ≤ greatest)) }
{
    number_of(field(table, key)?, key, least, greatest)
}

/// The array that a value is.
fn array_of(value: &Value) -> Result<&Array, StrategyFault>
    ensures { GivesField (λ array. array_view array.now) result (array_in (view value.now)) }
{
    value.as_array().ok_or(StrategyFault::RowAction)
}

/// The array of 2 to 64 values that a value is.
fn few_of(value: &Value) -> Result<&Array, StrategyFault>
    ensures array { GivesField (λ array. array_view array.now) result (few_in (view value.now)) }
    ensures few { IfOk result (λ array. (2 ≤ length array.now.items) × (length array.now.items ≤ 64)) }
{
    let array = array_of(value)?;
    if array.len() < 2 || array.len() > MAX_WEIGHTS {
        return Err(StrategyFault::RowAction);
    }
    Ok(array)
}

/// The weights of an array of 2 to 64.
fn weights_of(alloc: Global, array: &Array) -> Result<Weights, StrategyError>
    requires { (2 ≤ length array.now.items) × (length array.now.items ≤ 64) }
    ensures { Gives (λ weights. weights) result (weights_in (array_view array.now)) }
{
    let mut weights = Vec::new(alloc);
    let mut total = 0;
    for value in array {
        let weight = number_of(value, Field::Split, 1, MAX_WEIGHT)?;
        total += weight;
        weights.push(weight)?;
    }
    Ok(Weights::new(weights, total))
}

/// The weights under `split`.
fn split_of(alloc: Global, value: &Value) -> Result<Rule, StrategyError>
    ensures { Gives act_of result (split_in (view value.now)) }
{
    Ok(Rule::Split(weights_of(alloc, few_of(value)?)?))
}

/// The word `true` under `list`.
fn list_of(value: &Value) -> Result<Rule, StrategyError>
    ensures { Gives act_of result (list_in (view value.now)) }
{
    match value.as_bool() {
        Some(true) => Ok(Rule::List),
        _ => Err(StrategyFault::RowAction.into()),
    }
}

/// How many items are cut off the front, under `peel`.
fn peel_of(value: &Value) -> Result<Rule, StrategyError>
    ensures { Gives act_of result (peel_in (view value.now)) }
{
    Ok(Rule::Peel(number_of(value, Field::Peel, 1, MAX_FRONT)?))
}

/// What a row does: exactly one of `list`, `split` and `peel` is there.
fn rule_of(alloc: Global, entry: &Table) -> Result<Rule, StrategyError>
    ensures { Gives act_of result (act_at (table_view entry.now)) }
{
    match (
        member(entry, "list"),
        member(entry, "split"),
        member(entry, "peel"),
    ) {
        (Some(list), None, None) => list_of(list),
        (None, Some(split), None) => split_of(alloc, split),
        (None, None, Some(front)) => peel_of(front),
        _ => Err(StrategyFault::RowAction.into()),
    }
}

/// The `upto` of a row after one of this `upto`.
fn upto_of(entry: &Table, cap: u32, before: Option<u32>) -> Result<u32, StrategyFault>
    ensures { GivesField (λ upto. upto) result (upto_in cap before (table_view entry.now)) }
{
    let upto = number(entry, Field::Upto, 0, cap)?;
    if before.is_some_and(|before| upto <= before) {
        return Err(StrategyFault::RowOrder);
    }
    Ok(upto)
}

/// A row after one of this `upto`.
fn row_of(alloc: Global, entry: &Value, cap: u32, before: Option<u32>) -> Result<Row, StrategyError>
    ensures { Gives (λ row. row) result (row_in cap before (view entry.now)) }
{
    let Some(entry) = entry.as_table() else {
        return Err(StrategyFault::RowAction.into());
    };
    let upto = upto_of(entry, cap, before)?;
    Ok(Row::new(upto, rule_of(alloc, entry)?))
}

/// The rows of an array.
fn rows_of(alloc: Global, entries: &Array, cap: u32) -> Result<Vec<Row>, StrategyError>
    ensures { Gives (λ rows. rows.items) result (rows_in cap None 1 (array_view entries.now)) }
{
    let mut rows = Vec::new(alloc);
    let mut before = None;
    for entry in entries {
        let row = match row_of(alloc, entry, cap, before) {
            Ok(row) => row,
            Err(error) => return Err(error.in_row(rows.len() + 1)),
        };
        before = Some(row.upto());
        rows.push(row)?;
    }
    Ok(rows)
}

/// The array of rows, which is not empty.
fn entries(table: &Table) -> Result<&Array, StrategyFault>
    ensures { GivesField (λ array. array_view array.now) result (entries_at (table_view table.now)) }
{
    let array = array_of(field(table, Field::Row)?)?;
    if array.is_empty() {
        return Err(StrategyFault::Missing(Field::Row));
    }
    Ok(array)
}

/// The last `upto`.
fn last_upto(rows: &[Row]) -> u32
    ensures { result ≡ last_upto rows.now }
{
    rows.last().map_or(0, Row::upto)
}

/// The bounds of this name.
fn bounds_of(value: &Value) -> Result<Bounds, StrategyFault>
    ensures { GivesField bounds_of result (bounds_in (view value.now)) }
{
    match value.as_str() {
        Some("items") => Ok(Bounds::Items),
        Some("short") => Ok(Bounds::Short),
        _ => Err(StrategyFault::BadBounds),
    }
}

/// The bounds of a table: own items where nothing is said.
fn bounds(table: &Table) -> Result<Bounds, StrategyFault>
    ensures { GivesField bounds_of result (bounds_at (table_view table.now)) }
{
    match member(table, "bounds") {
        Some(value) => bounds_of(value),
        None => Ok(Bounds::Items),
    }
}

/// The opening of this name.
fn opening_of(value: &Value) -> Result<Opening, StrategyFault>
    ensures { GivesField opening_of result (opening_in (view value.now)) }
{
    match value.as_str() {
        Some("sum") => Ok(Opening::Sum),
        Some("split") => Ok(Opening::Split),
        _ => Err(StrategyFault::BadOpening),
    }
}

/// The opening of a table: one fingerprint of everything where nothing is said.
fn opening(table: &Table) -> Result<Opening, StrategyFault>
    ensures { GivesField opening_of result (opening_at (table_view table.now)) }
{
    match member(table, "opening") {
        Some(value) => opening_of(value),
        None => Ok(Opening::Sum),
    }
}

/// Whether this row has such a key, which belongs above the rows.
fn row_says(entry: &Value, key: &str) -> bool
    ensures { result ≡ row_says key.now (as_table (view entry.now)) }
{
    match entry.as_table() {
        Some(row) => member(row, key).is_some(),
        None => false,
    }
}

/// The number of the first row, from 1, that has such a key.
fn row_with(entries: &Array, key: &str) -> Option<usize>
    ensures { result ≡ row_with key.now 1 (array_view entries.now) }
{
    let mut number = 0;
    for entry in entries {
        number += 1;
        if row_says(entry, key) {
            return Some(number);
        }
    }
    None
}

/// The strategy of a table, or the first fault.
pub fn strategy_of(alloc: Global, table: &Table) -> Result<Strategy, StrategyError>
    ensures table { Gives (λ strategy. strategy) result (table_in (table_view table.now)) }
    ensures memory { result ≡ Err StrategyError.Memory → IsOk (rows_at (table_view table.now)) }
{
    let cap = number(table, Field::Cap, 1, MAX_CAP)?;
    let limit = number(table, Field::Limit, 0, cap)?;
    let rounds = number(table, Field::Rounds, 0, MAX_ROUNDS)?;
    let array = entries(table)?;
    let rows = rows_of(alloc, array, cap)?;
    if last_upto(&rows) != cap {
        return Err(StrategyFault::CapMismatch.into());
    }
    let bounds = bounds(table)?;
    if let Some(row) = row_with(array, "bounds") {
        return Err(StrategyError::from(StrategyFault::BadBounds).in_row(row));
    }
    let opening = opening(table)?;
    if let Some(row) = row_with(array, "opening") {
        return Err(StrategyError::from(StrategyFault::BadOpening).in_row(row));
    }
    Ok(Strategy {
        cap,
        limit,
        rounds,
        rows,
        bounds,
        opening,
    })
}
