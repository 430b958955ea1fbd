//! What a set that forgets keeps.

ghost use Rattle.std.specs.Prelude.{◌≡◌, ◌≤◌, ◌↔◌, None, Some, IsTrue};
ghost use Rattle.definitions.specs.Items.{whole};
ghost use Rattle.shard_core.specs.Floors.{begins_as, fits, from_bound, has_time, is_timed, keeps, leaves, LacksAQuarter};

use item_core::{Item, Lower, Range, Upper};

/// What the items of a set begin with where their time is known by that.
#[derive(Clone, Copy, Debug, PartialEq, Eq)]
pub enum TimeForm {
    /// The seconds since 1970 in 4 bytes, the highest first.
    Unix32,
    /// The seconds since 1970 in 8 bytes, the highest first.
    Unix64,
    /// A text that begins with the date and the time in UTC, as `2026-11-28T09:30:00`.
    Iso,
}

impl TimeForm {
    /// Whether the item begins with a time of this form: it has as many bytes, or digits and what stands between them.
    pub fn has_time(self, item: &Item) -> bool
        ensures { result ≡ has_time self item.now }
    {
        match self {
            TimeForm::Unix32 => item.bytes().len() >= 4,
            TimeForm::Unix64 => item.bytes().len() >= 8,
            TimeForm::Iso => begins_as(b"0000-00-00T00:00:00", item.bytes()),
        }
    }
}

/// Whether this may be that byte of a text with a date and a time: a digit for a digit, or the same byte.
fn fits(form: u8, byte: u8) -> bool
    ensures { result ≡ fits form byte }
{
    if form.is_ascii_digit() {
        byte.is_ascii_digit()
    } else {
        byte == form
    }
}

/// Whether a text begins with a date and a time, as this one is.
fn begins_as(form: &[u8], text: &[u8]) -> bool
    ensures { result ≡ begins_as form.now text.now }
{
    if text.len() < form.len() {
        return false;
    }
    for at in 0..form.len() {
        if !fits(form[at], text[at]) {
            return false;
        }
    }
    true
}

/// Whether so much is forgotten that what is left is made anew: of so many items so many are kept, at least one is not,
/// and at least a quarter, rounded down.
pub fn lacks_a_quarter(all: usize, kept: usize) -> bool
    ensures { IsTrue result ↔ LacksAQuarter all kept }
{
    let forgotten = all.saturating_sub(kept);
    forgotten > 0 && forgotten >= all / 4
}

/// What of a set is kept: its items of a range, and where items have a time, of these the ones with a time. Of a set that
/// forgets the range has no end, and all other items are below the floor.
#[derive(Clone, Copy, Debug, PartialEq, Eq)]
pub struct Floor {
    /// The range.
    pub range: Range,
    /// The form of the times, if items have them.
    pub time: Option<TimeForm>,
}

impl Floor {
    /// All items are kept.
    pub fn none() -> Floor
        ensures range { result.range ≡ whole }
        ensures time { result.time ≡ None }
    {
        Floor {
            range: Range::whole(),
            time: None,
        }
    }

    /// The items of a range are kept.
    pub fn within(range: Range) -> Floor
        ensures range { result.range ≡ range }
        ensures time { result.time ≡ None }
    {
        Floor { range, time: None }
    }

    /// The items from this bound on are kept, if they have a time of this form, where one is named.
    pub fn at(lower: Lower, time: Option<TimeForm>) -> Floor
        ensures range { result.range ≡ from_bound lower }
        ensures time { result.time ≡ time }
    {
        match Range::new(lower, Upper::End) {
            Ok(range) => Floor { range, time },
            Err(_) => unreachable!(),
        }
    }

    /// Whether the item has a time, where items have one.
    pub fn is_timed(&self, item: &Item) -> bool
        ensures { result ≡ is_timed self.now.time item.now }
    {
        match self.time {
            Some(form) => form.has_time(item),
            None => true,
        }
    }

    /// Whether the item stays in a file that is rewritten: it is kept, or has no time where items have one.
    pub fn leaves(&self, item: &Item) -> bool
        ensures { result ≡ leaves self.now item.now }
    {
        self.keeps(item) || !self.is_timed(item)
    }

    /// Whether the item is kept.
    pub fn keeps(&self, item: &Item) -> bool
        ensures { result ≡ keeps self.now item.now }
    {
        self.range.contains(item) && self.is_timed(item)
    }
}
