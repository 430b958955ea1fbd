//! What sessions come to, and what `serve` and `sync` print of them.

ghost use Rattle.std.specs.Prelude.{◌≡◌, ◌++◌, IfOk, OnOk, flat_map, option_map, string_bytes};
ghost use Rattle.std.specs.Result.{result_ok};
ghost use Rattle.definitions.specs.Sets.{set_of};
ghost use Rattle.printing_core.specs.SessionTexts.{listening_line, served_text, named_line, counts_text, learned_text};
ghost use Rattle.printing_core.specs.SessionTexts.{listed_text, finds_any, IsSyncOf, session_fault, session_learned};
ghost use Rattle.printing_core.specs.SessionTexts.{of_direction, report_fault, fault_in, difference_status, may_pass};

use crate::fault::Fault;
use crate::item_text::push_item;
use ends_core::Learned;
use item_core::Item;
use item_files::ItemForm;
use session_table::{Direction, Outcome, Totals, WorkersReport};
use std::alloc::{AllocError, Global};
use store_core::PackedItems;
use store_core::spans::distinct;

/// How what a session learned is printed.
#[derive(Clone, Copy, Debug, PartialEq, Eq)]
pub enum Listing {
    /// A line for each item, in this form.
    Items(ItemForm),
    /// How many items each side lacks, in two lines.
    Counts,
}

/// The line that says that this address is listened at.
pub fn listening_line(alloc: Global, address: &str) -> Result<String, AllocError>
    ensures { IfOk result (λ text. string_bytes text ≡ listening_line address.now) }
{
    format!(in alloc; "listening {address}\n")
}

/// The lines of sessions that were served: the totals, and then the number of items.
pub fn served_text(alloc: Global, totals: Totals, items: usize) -> Result<String, AllocError>
    ensures { IfOk result (λ text. string_bytes text ≡ served_text totals items) }
{
    let Totals {
        opened,
        ended,
        refused,
        io,
        memory,
        messages,
    } = totals;
    let mut text = String::new(alloc);
    write!(text, "opened {opened} ended {ended} refused {refused} ")?;
    write!(text, "io {io} memory {memory} messages {messages}\n")?;
    write!(text, "items {items}\n")?;
    Ok(text)
}

/// What stands in front of an item on its line, and the form of the item.
#[derive(Clone, Copy)]
pub(crate) struct Naming<'a> {
    pub name: &'a str,
    pub form: ItemForm,
}

/// Appends the name, a space and the item, as a line.
fn push_named(
    alloc: Global,
    text: &mut String,
    naming: Naming<'_>,
    item: &Item,
) -> Result<(), AllocError>
    ensures { OnOk result (string_bytes text.new ≡ string_bytes text.old
        ++ named_line naming.entry.form naming.entry.name.now item.now) }
{
    text.push_str(naming.name)?;
    text.push_str(" ")?;
    push_item(alloc, text, naming.form, item)?;
    text.push_str("\n")
}

/// Appends a line for each item.
pub(crate) fn push_lines(
    alloc: Global,
    text: &mut String,
    naming: Naming<'_>,
    items: &[Item],
) -> Result<(), AllocError>
    ensures { OnOk result (string_bytes text.new ≡ string_bytes text.old
        ++ flat_map (named_line naming.entry.form naming.entry.name.now) items.now) }
{
    for item in items {
        push_named(alloc, text, naming, item)?;
    }
    Ok(())
}

/// These items in rising order, each once.
pub(crate) fn rising(alloc: Global, items: &PackedItems) -> Result<Vec<Item>, AllocError>
    ensures { IfOk result (λ rising. rising.items ≡ set_of items.now) }
{
    Ok(distinct(items.to_vec(alloc)?))
}

/// Both differences of two sets.
#[derive(Clone, Copy)]
pub(crate) struct Both<'a> {
    /// Own items that the peer lacks.
    pub ours: &'a [Item],
    /// Items of the peer that are lacked here.
    pub theirs: &'a [Item],
}

/// Appends both differences in this order: a line for each item, or how many they are, as two lines.
pub(crate) fn push_listed(
    alloc: Global,
    text: &mut String,
    listing: Listing,
    both: Both<'_>,
) -> Result<(), AllocError>
    ensures { OnOk result (string_bytes text.new ≡ string_bytes text.old
        ++ listed_text listing both.entry.ours.now both.entry.theirs.now) }
{
    let Both { ours, theirs } = both;
    match listing {
        Listing::Items(form) => {
            push_lines(alloc, text, Naming { name: "ours", form }, ours)?;
            let name = "theirs";
            push_lines(alloc, text, Naming { name, form }, theirs)
        }
        Listing::Counts => write!(text, "ours {}\ntheirs {}\n", ours.len(), theirs.len()),
    }
}

/// Appends what was learned, each item once, rising.
pub(crate) fn push_learned(
    alloc: Global,
    text: &mut String,
    listing: Listing,
    learned: &Learned,
) -> Result<(), AllocError>
    ensures { OnOk result (string_bytes text.new ≡ string_bytes text.old ++ learned_text listing learned.now) }
{
    let ours = rising(alloc, learned.ours())?;
    let theirs = rising(alloc, learned.theirs())?;
    let both = Both {
        ours: &ours,
        theirs: &theirs,
    };
    push_listed(alloc, text, listing, both)
}

/// The version, and the messages sent, as two lines.
fn counts_text(alloc: Global, version: usize, sent: u32) -> Result<String, AllocError>
    ensures { IfOk result (λ text. string_bytes text ≡ counts_text version sent) }
{
    format!(in alloc; "version {version}\nsent {sent}\n")
}

/// What failed of a connection, as a fault.
pub(crate) fn of_direction(side: Direction) -> Fault
    ensures { result ≡ of_direction side }
{
    match side {
        Direction::Read => Fault::ReaderFailed,
        Direction::Write => Fault::WriterFailed,
    }
}

/// The lines of a session that ended, its items as they are asked for; else why it did not.
pub fn outcome_text(alloc: Global, listing: Listing, outcome: &Outcome) -> Result<String, Fault>
    ensures { IsSyncOf listing outcome.now result }
{
    match outcome {
        Outcome::Ended {
            learned,
            sent,
            version,
        } => {
            let mut text = counts_text(alloc, *version, *sent)?;
            push_learned(alloc, &mut text, listing, learned)?;
            Ok(text)
        }
        Outcome::Refused { code, .. } => Err(Fault::Session { code: *code }),
        Outcome::PeerRefused { code, .. } => Err(Fault::PeerRefused { code: *code }),
        Outcome::Io { side, .. } => Err(of_direction(*side)),
        Outcome::Memory { .. } => Err(Fault::Memory),
    }
}

/// Whether a session came to its end and found an item that one side lacks.
pub fn finds_any(outcome: &Outcome) -> bool
    ensures { result ≡ finds_any outcome.now }
{
    match outcome {
        Outcome::Ended { learned, .. } => learned.ours().len() > 0 || learned.theirs().len() > 0,
        _ => false,
    }
}

/// The refusal of a run whose workers ended so: the source's fault, or 90 where no worker started.
pub fn refusal_of(report: WorkersReport) -> Result<(), Fault>
    ensures { fault_in result ≡ report_fault report }
{
    match report.fault {
        Some(fault) => Err(Fault::from(fault)),
        None if report.started == 0 => Err(Fault::Memory),
        None => Ok(()),
    }
}

/// What a session learned, or why it did not end.
pub fn learned_in(outcome: &Outcome) -> Result<&Learned, Fault>
    ensures fault { fault_in result ≡ session_fault outcome.now }
    ensures learned { option_map (λ learned. learned.now) (result_ok result) ≡ session_learned outcome.now }
{
    match outcome {
        Outcome::Ended { learned, .. } => Ok(learned),
        Outcome::Refused { code, .. } => Err(Fault::Session { code: *code }),
        Outcome::PeerRefused { code, .. } => Err(Fault::PeerRefused { code: *code }),
        Outcome::Io { side, .. } => Err(of_direction(*side)),
        Outcome::Memory { .. } => Err(Fault::Memory),
    }
}

/// Why a session did not end, if it did not.
pub fn refusal_of_session(outcome: &Outcome) -> Result<(), Fault>
    ensures { fault_in result ≡ session_fault outcome.now }
{
    learned_in(outcome)?;
    Ok(())
}

/// The status of a session that came to its end: 4 where it is to say that the sets differ, and they do; else 0.
pub fn difference_status(checks: bool, differ: bool) -> u8
    ensures { result ≡ difference_status checks differ }
{
    if checks && differ { 4 } else { 0 }
}

impl Fault {
    /// Whether a session that ended so may come to its end if it is tried again: nobody was reached, the connection
    /// failed, or it ended in the middle of a message.
    pub fn may_pass(self) -> bool
        ensures { result ≡ may_pass self }
    {
        match self {
            Fault::Connect | Fault::ReaderFailed | Fault::WriterFailed => true,
            Fault::Session { code } => code == 3,
            _ => false,
        }
    }
}
