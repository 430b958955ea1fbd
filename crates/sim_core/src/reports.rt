//! What is printed of the sessions of a run.

ghost use Rattle.std.specs.Prelude.{◌≡◌, ◌++◌, IfOk, OnOk, Some, flat_map, string_bytes};
ghost use Rattle.definitions.specs.Sets.{set_of};
ghost use Rattle.definitions.specs.Fingerprints.{two_lanes};
ghost use Rattle.definitions.specs.Worlds as worlds;
ghost use Rattle.world_core.specs.Reports.{knowledge_of, report_of};
ghost use Rattle.sim_core.specs.Reports.{bound_text, ending, item_text, items_text, side_line, report_text, shown};
ghost use Rattle.sim_core.specs.Reports.{reports_text};

use item_core::Item;
use std::alloc::{AllocError, Global};
use std::fmt;
use store_core::spans::distinct;
use world_core::{Lists, Report, World};

/// A bound, or a dash where there is none yet.
#[derive(Clone, Copy)]
struct Bound(Option<usize>);

impl fmt::Display for Bound {
    ghost output = { λ b. Some (bound_text b.0) };

    fn fmt<W: fmt::Write>(&self, f: &mut fmt::Formatter<W>) -> fmt::Result {
        match self.0 {
            Some(bound) => write!(f, "{bound}"),
            None => write!(f, "-"),
        }
    }
}

/// Whether a session has ended, as a word.
fn ending(ended: bool) -> &'static str
    ensures { result.now ≡ ending ended }
{
    if ended { "ended" } else { "open" }
}

/// Appends a space, and the item in hex.
fn push_item(alloc: Global, text: &mut String, item: &Item) -> Result<(), AllocError>
    ensures { OnOk result (string_bytes text.new ≡ string_bytes text.old ++ item_text item.now) }
{
    let digits = hex::encode(alloc, item.bytes())?;
    text.push_str(" ")?;
    text.push_str(&digits)?;
    Ok(())
}

/// Appends the items, with a space before each.
fn push_each(alloc: Global, text: &mut String, items: &[Item]) -> Result<(), AllocError>
    ensures { OnOk result (string_bytes text.new ≡ string_bytes text.old ++ flat_map item_text items.now) }
{
    for item in items {
        push_item(alloc, text, item)?;
    }
    Ok(())
}

/// Appends the items in rising order, with a space before each, or a space and a dash where there is none.
fn push_items(alloc: Global, text: &mut String, items: Vec<Item>) -> Result<(), AllocError>
    ensures { OnOk result (string_bytes text.new ≡ string_bytes text.old ++ items_text (set_of items.items)) }
{
    let rising = distinct(items);
    if rising.is_empty() {
        text.push_str(" -")
    } else {
        push_each(alloc, text, &rising)
    }
}

/// Appends the line of what a side learned.
fn push_side(
    alloc: Global,
    text: &mut String,
    name: &str,
    learned: Lists<'_>,
) -> Result<(), AllocError>
    ensures { OnOk result (string_bytes text.new ≡ string_bytes text.old ++ side_line name.now
        (knowledge_of learned.entry)) }
{
    text.push_str(name)?;
    text.push_str(" ours")?;
    push_items(alloc, text, learned.ours(alloc)?)?;
    text.push_str(" theirs")?;
    push_items(alloc, text, learned.theirs(alloc)?)?;
    text.push_str("\n")
}

/// Appends the three lines of a session.
fn push_report(
    alloc: Global,
    text: &mut String,
    session: usize,
    report: Report<'_>,
) -> Result<(), AllocError>
    ensures { OnOk result (string_bytes text.new ≡ string_bytes text.old ++ report_text session
        (report_of report.entry)) }
{
    let messages = report.messages;
    let bound = Bound(report.bound);
    let parts = report.parts;
    let ending = ending(report.ended);
    writeln!(
        text,
        "session {session} messages {messages} bound {bound} parts {parts} {ending}"
    )?;
    push_side(alloc, text, "initiator", report.initiator_learned)?;
    push_side(alloc, text, "responder", report.responder_learned)
}

/// Appends the lines of a session, if there is one.
fn push_shown(
    alloc: Global,
    text: &mut String,
    world: &World,
    session: usize,
) -> Result<(), AllocError>
    ensures { OnOk result (string_bytes text.new ≡ string_bytes text.old ++ shown session
        (worlds.report two_lanes world.now session)) }
{
    match world.report(session) {
        Some(report) => push_report(alloc, text, session, report),
        None => Ok(()),
    }
}

/// The lines of all sessions.
pub fn reports_text(alloc: Global, world: &World) -> Result<String, AllocError>
    ensures { IfOk result (λ text. string_bytes text ≡ reports_text world.now) }
{
    let mut text = String::new(alloc);
    for session in 0..world.sessions() {
        push_shown(alloc, &mut text, world, session)?;
    }
    Ok(text)
}
