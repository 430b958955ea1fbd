//! The command `plan`.

ghost use Rattle.std.specs.Prelude.{◌≤◌, IfOk, IfSome};
ghost use Rattle.sim_core.specs.Plans.{IsPlanned};
ghost use Rattle.sim_core.specs.Samples.{IsSample};
ghost use Rattle.settings_core.specs.Spans.{IsPlannedCount, IsItemCount, IsItemLength, IsRate};

use crate::checking::length_of;
use io_core::{Watched, read_input, write_output};
use loading::{TableSource, strategy_of};
use printing_core::{Fault, Refusal, push_plan, push_shards};
use settings_core::{PlanWords, shard_bits_for};
use sim_core::{Line, Planned, Sample, Task, planned_for, quickest, searched, shipped_text};
use std::alloc::Global;
use std::fs;
use std::io::Write;
use std::rt::Files;
use std::time::Clock;

/// The items of a set, where they are not given, and the most of a shard.
const ITEMS: u32 = 65_536;

/// The bits of as many shards as there can be.
const MOST_BITS: u8 = 12;

/// In how many items the sets differ, where it is not given.
const DIFFERENCES: u32 = 100;

/// The milliseconds of a round trip, where they are not given.
const ROUND_TRIP: u32 = 100;

/// The megabits in a second, where they are not given.
const RATE: u32 = 10;

/// A shard of a set, or the whole set where it needs no shards.
#[derive(Clone, Copy)]
struct Cut {
    /// The set is cut into 2 to this power shards.
    bits: u8,
    /// How many items it has.
    items: u32,
    /// In how many of them the sides differ.
    differences: u32,
}

/// How a set of so many items is cut that differs in so many: what is given, or 65,536 and 100.
fn cut_of(items: Option<u32>, differences: Option<u32>) -> Cut
    requires { IfSome items IsPlannedCount }
    ensures items { IsItemCount result.items }
    ensures differences { result.differences ≤ result.items }
{
    let items = items.unwrap_or(ITEMS);
    let differences = differences.unwrap_or(DIFFERENCES);
    let bits = shard_bits_for(items).unwrap_or(MOST_BITS).min(MOST_BITS);
    let shards = 1u32 << bits;
    let items = items.div_ceil(shards).min(ITEMS).max(1);
    Cut {
        bits,
        items,
        differences: differences.div_ceil(shards).min(items),
    }
}

/// The megabits in a second that are given, or 10.
fn rate_of(rate: Option<u32>) -> u32
    requires { IfSome rate IsRate }
    ensures { IsRate result }
{
    match rate {
        Some(rate) => rate,
        None => RATE,
    }
}

/// What a strategy is chosen for: this cut, what is given, and the usual numbers for the rest.
fn task_of(words: PlanWords<'_>, cut: Cut) -> Task
    requires items { IsItemCount cut.items }
    requires differences { cut.differences ≤ cut.items }
    requires item_length { IfSome words.item_length IsItemLength }
    requires rate { IfSome words.rate IsRate }
    ensures sample { IsSample result.sample }
    ensures rate { 1 ≤ result.line.rate }
{
    let sample = Sample {
        items: cut.items,
        differences: cut.differences,
        length: length_of(words.item_length),
    };
    let line = Line {
        round_trip: words.round_trip.unwrap_or(ROUND_TRIP),
        rate: rate_of(words.rate),
    };
    Task { sample, line }
}

/// The text of the strategy in this file; or of the one that is shipped under the name, where no file is there.
/// Nothing, where neither is.
fn text_of<R: Files + AllocGlobal>(rt: &R, path: &str) -> Result<Vec<u8>, Fault> {
    let alloc = rt.alloc();
    match fs::open(rt, path) {
        Ok(file) => Ok(read_input(alloc, &mut Watched::new(file))?),
        Err(_) => {
            let text = shipped_text(path).unwrap_or_default();
            Ok(Vec::from_slice(alloc, text.as_bytes())?)
        }
    }
}

/// The strategy of this text and name. Else 82 where a set has more items than it may hold, 80 or 90.
fn named(alloc: Global, task: Task, name: &str, text: &[u8]) -> Result<Planned, Fault>
    requires sample { IsSample task.sample }
    requires rate { 1 ≤ task.line.rate }
    ensures { IfOk result (IsPlanned task.sample) }
{
    let Ok(text) = str::from_utf8(text) else {
        return Err(Fault::CannotRead);
    };
    match planned_for(alloc, task, name, text)? {
        Some(planned) => Ok(planned),
        None => Err(Fault::TooManyItems),
    }
}

/// The text of the strategy that is named, if one is, which is accepted. Else as `check` refuses it.
fn table_of<'a, R: Files + AllocGlobal, E: Write>(
    rt: &R,
    table: Option<&'a str>,
    explains: bool,
    err: &mut E,
) -> Result<Option<Vec<u8>>, Refusal<'a>> {
    let Some(path) = table else {
        return Ok(None);
    };
    let _accepted = strategy_of(rt, TableSource { path, explains }, err)?;
    Ok(Some(text_of(rt, path)?))
}

/// The strategy of this name and text, if one is given; or the quickest of those that are shipped. Else 82 where a set
/// has more items than it may hold, or 90.
fn start_of(alloc: Global, task: Task, name: &str, text: Option<&[u8]>) -> Result<Planned, Fault>
    requires sample { IsSample task.sample }
    requires rate { 1 ≤ task.line.rate }
    ensures { IfOk result (IsPlanned task.sample) }
{
    if let Some(text) = text {
        return named(alloc, task, name, text);
    }
    match quickest(alloc, task)? {
        Some(start) => Ok(start),
        None => Err(Fault::TooManyItems),
    }
}

/// The same, or what a search that starts with it has found.
fn planned<R: Clock + AllocGlobal>(
    rt: &R,
    task: Task,
    words: PlanWords<'_>,
    text: Option<&[u8]>,
) -> Result<Planned, Fault>
    requires sample { IsSample task.sample }
    requires rate { 1 ≤ task.line.rate }
    ensures { IfOk result (IsPlanned task.sample) }
{
    let start = start_of(rt.alloc(), task, words.table.unwrap_or_default(), text)?;
    let Some(seconds) = words.search else {
        return Ok(start);
    };
    Ok(searched(rt.alloc(), task, start, rt, seconds)?)
}

/// The strategy that is planned as a text that `check` accepts, with its name and its cost in comments above it; and
/// above these how the set is cut, if it is. It starts with the strategy of this text, if one is given.
fn plan_text<R: Clock + AllocGlobal>(
    rt: &R,
    words: PlanWords<'_>,
    table: Option<&[u8]>,
) -> Result<String, Fault>
    requires items { IfSome words.items IsPlannedCount }
    requires item_length { IfSome words.item_length IsItemLength }
    requires rate { IfSome words.rate IsRate }
{
    let cut = cut_of(words.items, words.differences);
    let planned = planned(rt, task_of(words, cut), words, table)?;
    let millis = planned.micros.saturating_add(500) / 1_000;
    let mut text = String::new(rt.alloc());
    if cut.bits > 0 {
        push_shards(&mut text, cut.bits, cut.items, cut.differences)?;
    }
    push_plan(
        &mut text,
        planned.name.as_str(),
        planned.bytes,
        planned.messages,
        millis,
    )?;
    text.push_str(planned.text.as_str())?;
    Ok(text)
}

/// Prints the strategy that is named or the quickest of those that are shipped, or what a search has found. Standard
/// error is told of a key that says nothing, if it is told more.
pub(crate) fn plan<'a, R: Files + Clock + AllocGlobal, O: Write + Drop, E: Write>(
    rt: &R,
    words: PlanWords<'a>,
    explains: bool,
    out: O,
    err: &mut E,
) -> Result<(), Refusal<'a>>
    requires items { IfSome words.items IsPlannedCount }
    requires item_length { IfSome words.item_length IsItemLength }
    requires rate { IfSome words.rate IsRate }
{
    let table = table_of(rt, words.table, explains, err)?;
    let text = plan_text(rt, words, table.as_deref())?;
    write_output(&mut Watched::new(out), text.as_bytes())?;
    Ok(())
}
