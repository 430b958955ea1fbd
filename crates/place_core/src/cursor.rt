//! The cursor: where the placing of a message stands in the message that it answers.

ghost use Rattle.std.specs.Prelude.{◌≡◌, drop};
ghost use Rattle.std.specs.List.{list_any};
ghost use Rattle.definitions.specs.Messages.{Message, open_parts};
ghost use Rattle.definitions.specs.Placing as placing;
ghost use Rattle.place_core.specs.PlaceFaults.{fault_in};
ghost use Rattle.place_core.specs.Cursors.{place_at};
ghost use Rattle.place_core.specs.Placements.{due};
ghost use Rattle.place_core.specs.Placements.{first_list as list_first};

use crate::fault::PlaceFault;
use crate::fit::{Fit, fit_of, rest_after};
use digest_core::WireSummary;
use item_core::{Item, Range};
use wire_core::{Part, PartKind};

/// Where the placing of a message stands in the own message that it answers. Each call is lent the parts of that
/// message, so that a cursor can be kept beside it. No call takes memory.
#[derive(Clone, Copy, Debug, PartialEq, Eq)]
pub enum Cursor {
    /// Nothing has come of the first message of all, which answers none, and which may cut or not.
    First(bool),
    /// The own parts before a place are done, and inside a partition this of its range is still to come.
    After(usize, Option<Range>),
    /// The message is refused.
    Refused(PlaceFault),
}

impl Cursor {
    /// Before the first part of a message that answers an own message.
    pub fn start<F: WireSummary>() -> Cursor
        ensures { (sent : Message F) → place_at sent result ≡ placing.place_after sent }
    {
        Cursor::After(0, None)
    }

    /// Places the next part. A refusal stays.
    pub fn next<F: WireSummary>(
        &mut self,
        sent: &[Part<F>],
        part: &Part<F>,
    ) -> Result<(), PlaceFault>
        ensures place { place_at sent.now self.new ≡ placing.next (place_at sent.now self.old) part.now }
        ensures fault { fault_in result ≡ placing.refusal (place_at sent.now self.new) }
    {
        *self = match *self {
            Cursor::First(cut) => next_first(cut, sent, part),
            Cursor::After(at, None) => next_outside(sent, at, part),
            Cursor::After(at, Some(rest)) => next_inside(at, &rest, part),
            Cursor::Refused(fault) => Cursor::Refused(fault),
        };
        self.refused::<F>()
    }

    /// The refusal, if there is one.
    fn refused<F: WireSummary>(&self) -> Result<(), PlaceFault>
        ensures { (sent : Message F) → fault_in result ≡ placing.refusal (place_at sent self.now) }
    {
        match self {
            Cursor::Refused(fault) => Err(*fault),
            _ => Ok(()),
        }
    }

    /// The items of the first List at or after the cursor.
    pub fn due<'a, F: WireSummary>(&self, sent: &'a [Part<F>]) -> &'a [Item]
        ensures { result.now ≡ due sent.now self.now }
    {
        match self {
            Cursor::After(at, _) => first_list(rest_of(sent, *at)),
            _ => &[],
        }
    }

    /// Whether the message may end here.
    pub fn finish<F: WireSummary>(&self, sent: &[Part<F>]) -> Result<(), PlaceFault>
        ensures { fault_in result ≡ placing.finish (place_at sent.now self.now) }
    {
        match self {
            Cursor::First(_) => Err(PlaceFault::Misplaced),
            Cursor::After(_, Some(_)) => Err(PlaceFault::Gap),
            Cursor::After(at, None) => finish_outside(rest_of(sent, *at)),
            Cursor::Refused(fault) => Err(*fault),
        }
    }
}

/// The items of the first List of the parts.
fn first_list<F: WireSummary>(parts: &[Part<F>]) -> &[Item]
    ensures { result.now ≡ list_first parts.now }
{
    let mut left = parts;
    while let Some((own, rest)) = left.split_first() {
        left = rest;
        if let (PartKind::List, Some(items)) = (own.kind(), own.items()) {
            return items;
        }
    }
    &[]
}

/// The parts from a place on.
fn rest_of<F: WireSummary>(sent: &[Part<F>], at: usize) -> &[Part<F>]
    ensures { result.now ≡ drop at sent.now }
{
    &sent[at.min(sent.len())..]
}

/// Whether a part is a List.
fn has_list<F: WireSummary>(parts: &[Part<F>]) -> bool
    ensures { result ≡ list_any placing.is_list parts.now }
{
    parts.iter().any(|part| part.kind() == PartKind::List)
}

/// Outside a partition no List may be left without an Answer.
fn finish_outside<F: WireSummary>(left: &[Part<F>]) -> Result<(), PlaceFault>
    ensures { fault_in result ≡ placing.finish (placing.placed (open_parts left.now)) }
{
    if has_list(left) {
        return Err(PlaceFault::MissingAnswer);
    }
    Ok(())
}

/// The first part of all: a Sum over everything, after which nothing may come, or one that begins a cut of it.
fn next_first<F: WireSummary>(cut: bool, sent: &[Part<F>], part: &Part<F>) -> Cursor
    ensures { place_at sent.now result ≡ placing.next_first cut part.now }
{
    if part.kind() != PartKind::Sum {
        return Cursor::Refused(PlaceFault::Misplaced);
    }
    let whole = Range::whole();
    let range = part.range();
    if *range == whole {
        return Cursor::After(sent.len(), None);
    }
    match rest_after(range, &whole) {
        Some(inside) if cut && range.lower() == whole.lower() => Cursor::After(
            sent.len(),
            Some(inside),
        ),
        _ => Cursor::Refused(PlaceFault::Misplaced),
    }
}

/// Outside a partition the own parts are looked at in order.
fn next_outside<F: WireSummary>(sent: &[Part<F>], start: usize, part: &Part<F>) -> Cursor
    ensures { place_at sent.now result ≡ placing.next_outside (open_parts (drop start sent.now)) part.now }
{
    let mut at = start;
    'skipped: while let Some(own) = sent.get(at) {
        at += 1;
        match fit_of(own, part) {
            Fit::NotHere => {}
            Fit::Placed(inside) => return Cursor::After(at, inside),
            Fit::Refused(fault) => return Cursor::Refused(fault),
        }
    }
    Cursor::Refused(PlaceFault::Misplaced)
}

/// Inside a partition, of which a rest is still to come.
fn next_inside<F: WireSummary>(at: usize, rest: &Range, part: &Part<F>) -> Cursor
    ensures { (sent : Message F) →
        place_at sent result ≡ placing.next_inside (open_parts (drop at sent)) rest.now part.now }
{
    if part.kind() != PartKind::Sum {
        return Cursor::Refused(PlaceFault::Gap);
    }
    let range = part.range();
    if range == rest {
        return Cursor::After(at, None);
    }
    match rest_after(range, rest) {
        Some(inside) if range.lower() == rest.lower() => Cursor::After(at, Some(inside)),
        _ => Cursor::Refused(PlaceFault::Gap),
    }
}
