//! What `serve` writes of its sessions to its files.

ghost use Rattle.std.specs.Prelude.{◌≡◌, ◌++◌, IfOk, OnOk, Some, option_map, string_bytes, take};
ghost use Rattle.printing_core.specs.ItemTexts.{item_line};
ghost use Rattle.printing_core.specs.ReportTexts.{part_name, bounds_text, session_name, with_text, head_line};
ghost use Rattle.printing_core.specs.ReportTexts.{learned_lines, more_line, first_lines, reported_text, report_text};
ghost use Rattle.printing_core.specs.ReportTexts.{left_out_line, stopped_line};

use crate::fault::Fault;
use crate::item_text::{push_hex, push_item};
use crate::sessions::{Listing, Naming, of_direction, push_learned, push_lines, rising};
use ends_core::Learned;
use item_core::{Item, Range};
use item_files::ItemForm;
use session_table::Outcome;
use shard_core::Which;
use std::alloc::{AllocError, Global};
use std::fmt;

/// How sessions are reported.
#[derive(Clone, Copy, Debug, PartialEq, Eq)]
pub struct Reporting {
    /// The form of the items.
    pub form: ItemForm,
    /// How many lines of items a session may have; `None`: as many as it has items.
    pub most: Option<u32>,
}

/// Which session is reported.
#[derive(Clone, Copy, Debug, PartialEq, Eq)]
pub struct SessionName<'a> {
    /// Its serial.
    pub serial: u64,
    /// The shard, or the directory, that it spoke of; `None`: it spoke of a whole set.
    pub which: Option<Which>,
    /// The range of the items that it spoke of.
    pub range: Range,
    /// The address of the partner with which it was, if it was with one.
    pub partner: Option<&'a str>,
}

/// A session, and the part that it spoke of.
#[derive(Clone, Copy)]
struct PartName {
    serial: u64,
    which: Option<Which>,
}

impl fmt::Display for PartName {
    ghost output = { λ s. Some (part_name s.serial s.which) };

    fn fmt<W: fmt::Write>(&self, f: &mut fmt::Formatter<W>) -> fmt::Result {
        let serial = self.serial;
        match self.which {
            None => write!(f, "session {serial}"),
            Some(Which::Shard(shard)) => write!(f, "session {serial} shard {shard}"),
            Some(Which::Directory) => write!(f, "session {serial} directory"),
        }
    }
}

/// Appends the bounds of a range in hex: those that it has.
fn push_bounds(alloc: Global, text: &mut String, range: &Range) -> Result<(), AllocError>
    ensures { OnOk result (string_bytes text.new ≡ string_bytes text.old ++ bounds_text range.now) }
{
    let lower = range.lower().bytes();
    if !lower.is_empty() {
        text.push_str(" from ")?;
        push_hex(alloc, text, lower)?;
    }
    if let Some(upper) = range.upper().bytes() {
        text.push_str(" to ")?;
        push_hex(alloc, text, upper)?;
    }
    Ok(())
}

/// Appends with which partner a session was, if it was with one.
fn push_partner(text: &mut String, partner: Option<&str>) -> Result<(), AllocError>
    ensures { OnOk result (string_bytes text.new ≡ string_bytes text.old
        ++ with_text (option_map (λ t. t.now) partner.entry)) }
{
    match partner {
        Some(partner) => write!(text, " with {partner}"),
        None => Ok(()),
    }
}

/// The name of a session.
fn session_name(alloc: Global, session: &SessionName<'_>) -> Result<String, AllocError>
    ensures { IfOk result (λ text. string_bytes text ≡ session_name session.now.serial session.now.which
        session.now.range (option_map (λ t. t.now) session.now.partner)) }
{
    let name = PartName {
        serial: session.serial,
        which: session.which,
    };
    let mut text = format!(in alloc; "{name}")?;
    push_bounds(alloc, &mut text, &session.range)?;
    push_partner(&mut text, session.partner)?;
    Ok(text)
}

/// The first line of a session that ended: that of a directory has no version.
fn head_line(
    alloc: Global,
    session: &SessionName<'_>,
    version: usize,
    sent: u32,
) -> Result<String, AllocError>
    ensures { IfOk result (λ text. string_bytes text ≡ head_line session.now.serial session.now.which
        session.now.range (option_map (λ t. t.now) session.now.partner) version sent) }
{
    let name = session_name(alloc, session)?;
    match session.which {
        Some(Which::Directory) => format!(in alloc; "{name} sent {sent}\n"),
        _ => format!(in alloc; "{name} version {version} sent {sent}\n"),
    }
}

/// The line of a session that did not end.
fn stopped_line(
    alloc: Global,
    session: &SessionName<'_>,
    fault: Fault,
) -> Result<String, AllocError>
    ensures { IfOk result (λ text. string_bytes text ≡ stopped_line session.now.serial session.now.which
        session.now.range (option_map (λ t. t.now) session.now.partner) fault) }
{
    let name = session_name(alloc, session)?;
    format!(in alloc; "{name} {fault}\n")
}

/// Appends how many lines were left out, if any were.
fn push_more(text: &mut String, count: usize) -> Result<(), AllocError>
    ensures { OnOk result (string_bytes text.new ≡ string_bytes text.old ++ more_line count) }
{
    if count == 0 {
        return Ok(());
    }
    write!(text, "more {count}\n")
}

/// The first so many of these items; all, where there are no more.
fn first_of(items: &[Item], most: usize) -> &[Item]
    ensures { result.now ≡ take most items.now }
{
    &items[..most.min(items.len())]
}

/// Appends the first so many lines of both differences, and how many were left out, if any were.
fn push_first(
    alloc: Global,
    text: &mut String,
    form: ItemForm,
    learned: &Learned,
    most: usize,
) -> Result<(), AllocError>
    ensures { OnOk result (string_bytes text.new ≡ string_bytes text.old
        ++ first_lines most (learned_lines form learned.now)) }
{
    let ours = rising(alloc, learned.ours())?;
    let theirs = rising(alloc, learned.theirs())?;
    let room = most.saturating_sub(ours.len());
    let name = Naming { name: "ours", form };
    push_lines(alloc, text, name, first_of(&ours, most))?;
    let name = Naming {
        name: "theirs",
        form,
    };
    push_lines(alloc, text, name, first_of(&theirs, room))?;
    push_more(text, (ours.len() + theirs.len()).saturating_sub(most))
}

/// Appends both differences as they are reported; nothing for the directory, whose items are none of the set.
fn push_reported(
    alloc: Global,
    text: &mut String,
    reporting: Reporting,
    which: Option<Which>,
    learned: &Learned,
) -> Result<(), AllocError>
    ensures { OnOk result (string_bytes text.new ≡ string_bytes text.old
        ++ reported_text reporting.form reporting.most which learned.now) }
{
    if let Some(Which::Directory) = which {
        return Ok(());
    }
    match reporting.most {
        Some(most) => push_first(alloc, text, reporting.form, learned, most as usize),
        None => push_learned(alloc, text, Listing::Items(reporting.form), learned),
    }
}

/// The lines of a session that is over: its version, the messages sent and both differences, each rising, as it is
/// reported; of the directory the messages sent alone; or, in one line, why it did not end.
pub fn report_text(
    alloc: Global,
    reporting: Reporting,
    session: &SessionName<'_>,
    outcome: &Outcome,
) -> Result<String, AllocError>
    ensures { IfOk result (λ text. string_bytes text
        ≡ report_text reporting.form reporting.most session.now.serial session.now.which session.now.range
        (option_map (λ t. t.now) session.now.partner) outcome.now) }
{
    match outcome {
        Outcome::Ended {
            learned,
            sent,
            version,
        } => {
            let mut text = head_line(alloc, session, *version, *sent)?;
            push_reported(alloc, &mut text, reporting, session.which, learned)?;
            Ok(text)
        }
        Outcome::Refused { code, .. } => {
            stopped_line(alloc, session, Fault::Session { code: *code })
        }
        Outcome::PeerRefused { code, .. } => {
            stopped_line(alloc, session, Fault::PeerRefused { code: *code })
        }
        Outcome::Io { side, .. } => stopped_line(alloc, session, of_direction(*side)),
        Outcome::Memory { .. } => stopped_line(alloc, session, Fault::Memory),
    }
}

/// The line that says that so many items which the session with this serial learned were not put in.
pub fn left_out_line(alloc: Global, serial: u64, count: usize) -> Result<String, AllocError>
    ensures { IfOk result (λ text. string_bytes text ≡ left_out_line serial count) }
{
    format!(in alloc; "session {serial} not put in {count}\n")
}

/// The line of an item file for an item, in this form.
pub fn learned_line(alloc: Global, form: ItemForm, item: &Item) -> Result<String, AllocError>
    ensures { IfOk result (λ text. string_bytes text ≡ item_line form item.now) }
{
    let mut text = String::new(alloc);
    push_item(alloc, &mut text, form, item)?;
    text.push_str("\n")?;
    Ok(text)
}
