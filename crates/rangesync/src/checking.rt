//! The command `check`.

ghost use Rattle.std.specs.Prelude.{◌≤◌, IfSome};
ghost use Rattle.std.specs.Arc.{arc_value};
ghost use Rattle.settings_core.specs.Spans.{IsItemLength};

use io_core::{Watched, write_output};
use loading::{TableSource, strategy_of};
use printing_core::{Fault, Refusal, accepted_text, push_cost, push_sample};
use settings_core::CheckWords;
use sim_core::{Sample, cost_of};
use std::alloc::Global;
use std::io::Write;
use std::rt::Files;
use std::sync::Arc;
use strategy_check::Accepted;

/// The numbers of differences of which the costs are printed.
const DIFFERENCES: [u32; 5] = [1, 10, 100, 1_000, 10_000];

/// The bytes of an item, where they are not given.
pub(crate) const ITEM_LENGTH: u32 = 16;

/// The length that is given, or 16.
pub(crate) fn length_of(item_length: Option<u32>) -> u32
    requires { IfSome item_length IsItemLength }
    ensures { IsItemLength result }
{
    match item_length {
        Some(length) => length,
        None => ITEM_LENGTH,
    }
}

/// Appends what a session between two sets of so many items costs, for each number of differences that they can have.
fn push_costs(
    alloc: Global,
    text: &mut String,
    accepted: &Arc<Accepted>,
    items: u32,
    length: u32,
) -> Result<(), Fault>
    requires items { items ≤ (arc_value accepted.now).table.cap }
    requires cap { (arc_value accepted.now).table.cap ≤ 65536 }
    requires length { IsItemLength length }
{
    for differences in DIFFERENCES {
        if differences <= items {
            let sample = Sample {
                items,
                differences,
                length,
            };
            let cost = cost_of(alloc, accepted, sample)?;
            push_cost(text, differences, cost.bytes, cost.messages)?;
        }
    }
    Ok(())
}

/// What `check` prints of a strategy that is accepted, and then what sessions under it cost.
///
/// Refused 82 where a set is to have more items than the strategy's cap.
fn costs_text(alloc: Global, accepted: Accepted, words: CheckWords<'_>) -> Result<String, Fault>
    requires { IfSome words.item_length IsItemLength }
{
    let cap = accepted.cap();
    let items = words.items.unwrap_or(cap);
    if items > cap {
        return Err(Fault::TooManyItems);
    }
    let length = length_of(words.item_length);
    let mut text = accepted_text(alloc, accepted.steps())?;
    push_sample(&mut text, items, length)?;
    let accepted = Arc::new(alloc, accepted)?;
    push_costs(alloc, &mut text, &accepted, items, length)?;
    Ok(text)
}

/// What `check` prints of a strategy that is accepted: the steps of its least ranks, and what sessions cost where that
/// is wanted.
fn table_text(alloc: Global, accepted: Accepted, words: CheckWords<'_>) -> Result<String, Fault>
    requires { IfSome words.item_length IsItemLength }
{
    if words.cost {
        costs_text(alloc, accepted, words)
    } else {
        Ok(accepted_text(alloc, accepted.steps())?)
    }
}

/// Checks the strategy that is named, and prints what is to be printed of it where it is accepted. Standard error is
/// told of a key that says nothing, if it is told more.
pub(crate) fn check_table<'a, R: Files + AllocGlobal, O: Write + Drop, E: Write>(
    rt: &R,
    words: CheckWords<'a>,
    explains: bool,
    out: O,
    err: &mut E,
) -> Result<(), Refusal<'a>>
    requires { IfSome words.item_length IsItemLength }
{
    let path = words.file;
    let accepted = strategy_of(rt, TableSource { path, explains }, err)?;
    let text = table_text(rt.alloc(), accepted, words)?;
    write_output(&mut Watched::new(out), text.as_bytes())?;
    Ok(())
}
