//! How a part meets one part of the message that it answers.

ghost use Rattle.std.specs.Prelude.{◌≡◌, ◌∷◌};
ghost use Rattle.std.specs.List.{list_any};
ghost use Rattle.definitions.specs.Sets.{IsSet, has};
ghost use Rattle.definitions.specs.Messages as messages;
ghost use Rattle.definitions.specs.Messages.{Message, Sum, Listing, open_parts};
ghost use Rattle.definitions.specs.Placing.{next_outside, next_sum};
ghost use Rattle.place_core.specs.Fits.{rest_between, after_fit};

use crate::fault::PlaceFault;
use digest_core::WireSummary;
use item_core::{Item, Lower, Range, Upper, is_listed};
use wire_core::{Part, PartKind};

/// How a part meets one part of the message that it answers.
#[derive(Clone, Copy, Debug, PartialEq, Eq)]
pub enum Fit {
    /// It belongs to a later one.
    NotHere,
    /// It belongs to this one, and this of its range is still to come.
    Placed(Option<Range>),
    /// It may not stand there.
    Refused(PlaceFault),
}

/// What of the whole range comes after a part of it, unless the part ends with it or after it.
pub fn rest_after(part: &Range, whole: &Range) -> Option<Range>
    ensures { result ≡ rest_between part.now.upper whole.now.upper }
{
    match part.upper() {
        Upper::Before(item) => Range::new(Lower::from(*item), *whole.upper()).ok(),
        Upper::End => None,
    }
}

/// Whether one of the items is listed.
fn repeats(listed: &[Item], items: &[Item]) -> bool
    requires { IsSet listed.now }
    ensures { result ≡ list_any (has listed.now) items.now }
{
    items.iter().any(|item| is_listed(listed, item))
}

/// A part where a List of the range is open.
fn list_fit<F: WireSummary>(range: &Range, listed: &[Item], part: &Part<F>) -> Fit
    requires { IsSet listed.now }
    ensures { (left : Message F) →
        next_outside (Listing range.now listed.now ∷ left) part.now ≡ after_fit result left part.now }
{
    let (Some(marks), Some(items)) = (part.marks(), part.items()) else {
        return Fit::Refused(PlaceFault::MissingAnswer);
    };
    if part.range() != range {
        return Fit::Refused(PlaceFault::Misplaced);
    }
    if marks.len() != listed.len() {
        return Fit::Refused(PlaceFault::MarkCount);
    }
    if repeats(listed, items) {
        return Fit::Refused(PlaceFault::AnswerRepeats);
    }
    Fit::Placed(None)
}

/// A Sum that begins where an open Sum of the range begins.
fn cut_fit<F: WireSummary>(range: &Range, part: &Range) -> Fit
    ensures { (left : Message F) (p : messages.Part F) →
        next_sum left range.now part.now ≡ after_fit result left p }
{
    if range.upper() == part.upper() {
        return Fit::Refused(PlaceFault::Stall);
    }
    match rest_after(part, range) {
        Some(rest) => Fit::Placed(Some(rest)),
        None => Fit::Refused(PlaceFault::Misplaced),
    }
}

/// A part where a Sum of the range is open.
fn sum_fit<F: WireSummary>(range: &Range, part: &Part<F>) -> Fit
    ensures { (f : F) (left : Message F) →
        next_outside (Sum range.now f ∷ left) part.now ≡ after_fit result left part.now }
{
    match part.kind() {
        PartKind::List if part.range() == range => Fit::Placed(None),
        PartKind::Sum if part.range().lower() == range.lower() => cut_fit::<F>(range, part.range()),
        _ => Fit::NotHere,
    }
}

/// A part where this part of the own message is the next one; an Answer is open to nothing.
pub fn fit_of<F: WireSummary>(own: &Part<F>, part: &Part<F>) -> Fit
    ensures { (left : Message F) →
        next_outside (open_parts (own.now ∷ left)) part.now ≡ after_fit result (open_parts left) part.now }
{
    if own.kind() == PartKind::Answer {
        return Fit::NotHere;
    }
    match own.items() {
        Some(listed) => list_fit(own.range(), listed, part),
        None => sum_fit(own.range(), part),
    }
}
