//! Which set a session is to speak of, and which part of it: the bytes that an initiator may write before its hello.

ghost use Rattle.std.specs.Prelude.{◌≡◌, ◌≤◌, ◌||◌, ◌++◌, length, drop, OnOk};
ghost use Rattle.definitions.specs.Items.{Range as Bounds};
ghost use Rattle.definitions.specs.Wire.{short_text};
ghost use Rattle.item_core.specs.Bounds.{upper_value};
ghost use Rattle.shard_core.specs.Shards.{max_bits};
ghost use Rattle.shard_core.specs.Selectors.{mark, part_mark, selector_text, which_text, which_number, agree};
ghost use Rattle.shard_core.specs.Selectors.{is_own, which_of, which_in};
ghost use Rattle.shard_core.specs.Selectors.{length_at, short_at, after_short, upper_of, part_selected};
ghost use Rattle.shard_core.specs.Selectors.{part_in, selecting, ReadsBack, ReadsOnly, WantsMore};
ghost use Rattle.shard_core.specs.Selectors.{says_part};

use crate::shard::{number, shard_count};
use item_core::{Item, Lower, Range, Upper};
use std::alloc::AllocError;

/// The first four bytes of the first kind of selector, which speaks of all items.
pub(crate) const MARK: [u8; 4] = [0x52, 0x52, 0x53, 0x4E];

/// Those of the second kind, which also says a part: the items of one range.
pub(crate) const PART_MARK: [u8; 4] = [0x52, 0x52, 0x53, 0x50];

/// The number that stands for the directory.
const DIRECTORY: u16 = 0xFFFF;

/// The greatest length of a name, in bytes.
pub const MAX_NAME: usize = 64;

/// The greatest length of a bound, in bytes.
pub(crate) const MAX_BOUND: usize = 64;

/// A shard, or the directory of all.
#[derive(Clone, Copy, Debug, PartialEq, Eq)]
pub enum Which {
    /// The shard of this number. Where there is one shard alone, it is the whole set.
    Shard(u16),
    /// The directory.
    Directory,
}

/// What the first bytes of an input say.
#[derive(Clone, Copy, Debug, PartialEq, Eq)]
pub enum Selecting {
    /// They begin another text, a hello for example.
    NoSelector,
    /// They begin a selector of this name and these bits, and more must come.
    More,
    /// They begin a selector, but of no set that is here: refusal 55.
    WrongSet,
    /// They begin with a whole selector of so many bytes. It speaks of the items of this range.
    Selected(Which, Range, usize),
}

impl Which {
    /// The number that is written.
    fn number(self) -> u16
        ensures { result ≡ which_number self }
    {
        match self {
            Which::Shard(number) => number,
            Which::Directory => DIRECTORY,
        }
    }
}

/// Appends the length of bytes, and the bytes.
fn push_short(out: &mut Vec<u8>, bytes: &[u8]) -> Result<(), AllocError>
    requires { length bytes.now ≤ 64 }
    ensures { OnOk result (out.new.items ≡ out.old.items ++ short_text bytes.now) }
{
    out.push(bytes.len() as u8)?;
    out.extend_from_slice(bytes)?;
    Ok(())
}

/// Appends what both kinds of selector have after their first four bytes.
fn push_which(out: &mut Vec<u8>, name: &[u8], bits: u8, which: Which) -> Result<(), AllocError>
    requires { length name.now ≤ 64 }
    ensures { OnOk result (out.new.items ≡ out.old.items ++ which_text name.now bits which) }
{
    push_short(out, name)?;
    out.push(bits)?;
    out.extend_from_slice(&which.number().to_be_bytes())?;
    Ok(())
}

/// Appends the selector of a set by its name, of at most 64 bytes, how many bits it is cut by, which shard or directory
/// is meant, and the range of its items that is meant. It is of the first kind if that is the range of all items.
pub fn push_selector(
    out: &mut Vec<u8>,
    name: &[u8],
    bits: u8,
    which: Which,
    range: &Range,
) -> Result<(), AllocError>
    requires { length name.now ≤ 64 }
    ensures { OnOk result (out.new.items ≡ out.old.items ++ selector_text name.now bits which range.now) }
{
    if *range == Range::whole() {
        out.extend_from_slice(&MARK)?;
        return push_which(out, name, bits, which);
    }
    out.extend_from_slice(&PART_MARK)?;
    push_which(out, name, bits, which)?;
    push_short(out, range.lower().bytes())?;
    push_short(out, range.upper().bytes().unwrap_or(&[]))
}

/// The bytes from a place on, none if there are none.
pub(crate) fn rest(bytes: &[u8], from: usize) -> &[u8]
    ensures { result.now ≡ drop from bytes.now }
{
    if from > bytes.len() {
        return &[];
    }
    &bytes[from..]
}

/// Whether a selector begins there that says a part.
pub fn says_part(bytes: &[u8]) -> bool
    ensures { result ≡ says_part bytes.now }
{
    bytes.starts_with(&PART_MARK)
}

/// Whether one of the two is the beginning of the other.
fn agree(bytes: &[u8], other: &[u8]) -> bool
    ensures { result ≡ agree bytes.now other.now }
{
    let both = bytes.len().min(other.len());
    bytes[..both] == other[..both]
}

/// Whether what came so far fits a selector of this name and these bits.
fn is_own(bytes: &[u8], name: &[u8], bits: u8) -> bool
    requires { length name.now ≤ 64 }
    ensures { result ≡ is_own name.now bits bytes.now }
{
    agree(rest(bytes, 4), &[name.len() as u8])
        && agree(rest(bytes, 5), name)
        && agree(rest(bytes, 5 + name.len()), &[bits])
}

/// The shard of this number, or the directory.
fn which_of(number: u16, bits: u8) -> Option<Which>
    requires { bits ≤ max_bits }
    ensures { result ≡ which_of bits number }
{
    if usize::from(number) < shard_count(bits) {
        return Some(Which::Shard(number));
    }
    if number == DIRECTORY && bits > 0 {
        return Some(Which::Directory);
    }
    None
}

/// Of which shard or directory the name, b and the number speak; or what is to be said of bytes where they speak of no
/// set that is here, or of none yet.
fn which_in(bytes: &[u8], name: &[u8], bits: u8) -> Result<Which, Selecting>
    requires low { bits ≤ max_bits }
    requires short { length name.now ≤ 64 }
    ensures { result ≡ which_in name.now bits bytes.now }
{
    if !is_own(bytes, name, bits) {
        return Err(Selecting::WrongSet);
    }
    if bytes.len() < 8 + name.len() {
        return Err(Selecting::More);
    }
    let digits = rest(bytes, 6 + name.len());
    which_of(number(&digits[..2]), bits).ok_or(Selecting::WrongSet)
}

/// The byte at a place, which says a length; none if it has not come.
fn length_at(rest: &[u8], place: usize) -> usize
    ensures length { result ≡ length_at rest.now place }
    ensures few { result ≤ 255 }
{
    usize::from(rest.get(place).copied().unwrap_or(0))
}

/// The upper bound of these bytes: the end if there are none.
fn upper_of(bytes: &[u8]) -> Upper
    requires { length bytes.now ≤ 64 }
    ensures { upper_value result ≡ upper_of bytes.now }
{
    if bytes.is_empty() {
        return Upper::End;
    }
    Upper::Before(Item::of(bytes))
}

/// What a selector of so many bytes says, all of which have come, by its bounds.
fn part_selected(which: Which, lower: &[u8], upper: &[u8], used: usize) -> Selecting
    requires { (length lower.now ≤ 64) × (length upper.now ≤ 64) }
    ensures { let range : Bounds = record { lower = lower.now; upper = upper_of upper.now } in
        result ≡ part_selected which range used }
{
    match Range::new(Lower::of(lower), upper_of(upper)) {
        Ok(range) if range != Range::whole() => Selecting::Selected(which, range, used),
        _ => Selecting::WrongSet,
    }
}

/// The bytes after a length byte, all of which have come.
fn short_at(rest: &[u8], place: usize) -> &[u8]
    requires { after_short rest.now place ≤ length rest.now }
    ensures bytes { result.now ≡ short_at rest.now place }
    ensures length { length result.now ≡ length_at rest.now place }
{
    let (_, bytes) = rest.split_at(place + 1);
    &bytes[..length_at(rest, place)]
}

/// What the bytes say that come after so many of a selector of the second kind, its bounds.
fn part_in(which: Which, front: usize, rest: &[u8]) -> Selecting
    requires { front ≤ 72 }
    ensures { result ≡ part_in which front rest.now }
{
    let lower = length_at(rest, 0);
    let middle = 1 + lower;
    let upper = length_at(rest, middle);
    let end = middle + 1 + upper;
    if lower > MAX_BOUND || upper > MAX_BOUND {
        return Selecting::WrongSet;
    }
    if rest.len() < end {
        return Selecting::More;
    }
    part_selected(
        which,
        short_at(rest, 0),
        short_at(rest, middle),
        front + end,
    )
}

/// Whether the bytes may begin a selector of either kind.
fn is_selector(bytes: &[u8]) -> bool
    ensures { result ≡ (agree bytes.now mark || agree bytes.now part_mark) }
{
    agree(bytes, &MARK) || agree(bytes, &PART_MARK)
}

/// The tests in order.
fn selecting_of(bytes: &[u8], name: &[u8], bits: u8) -> Selecting
    requires low { bits ≤ max_bits }
    requires short { length name.now ≤ 64 }
    ensures { result ≡ selecting name.now bits bytes.now }
{
    if !is_selector(bytes) {
        return Selecting::NoSelector;
    }
    let which = match which_in(bytes, name, bits) {
        Ok(which) => which,
        Err(said) => return said,
    };
    let front = 8 + name.len();
    if agree(bytes, &MARK) {
        return Selecting::Selected(which, Range::whole(), front);
    }
    part_in(which, front, rest(bytes, front))
}

/// What the bytes that have come so far say to a responder whose set has this name, of at most 64 bytes, and is cut by
/// so many bits. It may be asked again as more bytes come.
pub fn read_selector(bytes: &[u8], name: &[u8], bits: u8) -> Selecting
    requires low { bits ≤ max_bits }
    requires short { length name.now ≤ 64 }
    ensures tests { result ≡ selecting name.now bits bytes.now }
    ensures back { ReadsBack name.now bits bytes.now result }
    ensures only { ReadsOnly name.now bits bytes.now result }
    ensures more { WantsMore name.now bits bytes.now result }
{
    selecting_of(bytes, name, bits)
}
