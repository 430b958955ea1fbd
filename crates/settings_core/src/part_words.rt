//! Words that ask for a part of a set: the items of one range.

ghost use Rattle.std.specs.Prelude.{◌≡◌, option_map};
ghost use Rattle.settings_core.specs.PartWords.{bound, between, part_asked};

use item_core::{Item, Lower, Range, Upper};
use item_files::{ItemForm, spelled};
use thiserror::Error;

/// Why a command does not speak of a part of a set, as its words ask for it.
///
/// It prints as the text for standard error.
#[derive(Clone, Copy, Debug, PartialEq, Eq, Error)]
pub enum PartFlaw {
    /// The part is said in two ways.
    #[error("error: --prefix cannot be used with --from or --to")]
    Twice,
    /// The session is to be spoken over standard input and output.
    #[error("error: --from, --to and --prefix cannot be used with --stdio")]
    Stdio,
    /// The lower bound is no item.
    #[error("error: --from takes an item, as it stands in ITEMS")]
    From,
    /// The upper bound is no item.
    #[error("error: --to takes an item, as it stands in ITEMS")]
    To,
    /// The beginning is none of an item.
    #[error("error: --prefix takes 1 to 64 bytes, as an item of them stands in ITEMS")]
    Prefix,
    /// The range holds no item.
    #[error("error: --from takes an item below that of --to")]
    Empty,
}

/// The words of a call that may be about a part of a set.
#[derive(Clone, Copy, Debug, PartialEq, Eq)]
pub struct PartWords<'a> {
    /// How items are spelled.
    pub form: ItemForm,
    /// The item from which on it is spoken of the set, if one is given.
    pub from: Option<&'a str>,
    /// The item before which it is spoken of the set, if one is given.
    pub to: Option<&'a str>,
    /// The bytes with which the items begin that it is spoken of, if they are given.
    pub prefix: Option<&'a str>,
    /// Whether the session is to be spoken over standard input and output.
    pub is_stdio: bool,
}

/// The item that a text spells, if there is a text; else this flaw.
fn bound(form: ItemForm, text: Option<&str>, flaw: PartFlaw) -> Result<Option<Item>, PartFlaw>
    ensures { result ≡ bound form flaw (option_map (λ text. text.now) text.entry) }
{
    let Some(text) = text else {
        return Ok(None);
    };
    match spelled(form, text.as_bytes()) {
        Some(item) => Ok(Some(item)),
        None => Err(flaw),
    }
}

/// The range from the first item on and before the second; none where neither is given.
fn between(from: Option<Item>, to: Option<Item>) -> Result<Option<Range>, PartFlaw>
    ensures { result ≡ between from to }
{
    if from.is_none() && to.is_none() {
        return Ok(None);
    }
    let lower = match from {
        Some(item) => Lower::from(item),
        None => Lower::start(),
    };
    let upper = match to {
        Some(item) => Upper::Before(item),
        None => Upper::End,
    };
    match Range::new(lower, upper) {
        Ok(range) => Ok(Some(range)),
        Err(_) => Err(PartFlaw::Empty),
    }
}

/// Of which part of a set a call speaks: none where it speaks of all of it. Else the first of these that holds: the
/// part is said in two ways, the session is to be spoken over standard input and output, a bound or a beginning is no
/// item, or the range holds no item.
pub fn part_of(words: PartWords<'_>) -> Result<Option<Range>, PartFlaw>
    ensures { result ≡ part_asked words.entry.form (option_map (λ text. text.now) words.entry.from)
        (option_map (λ text. text.now) words.entry.to) (option_map (λ text. text.now) words.entry.prefix)
        words.entry.is_stdio }
{
    let PartWords {
        form,
        from,
        to,
        prefix,
        is_stdio,
    } = words;
    let is_between = from.is_some() || to.is_some();
    if prefix.is_some() && is_between {
        return Err(PartFlaw::Twice);
    }
    if is_stdio && (prefix.is_some() || is_between) {
        return Err(PartFlaw::Stdio);
    }
    match bound(form, prefix, PartFlaw::Prefix)? {
        Some(prefix) => Ok(Some(Range::of_prefix(&prefix))),
        None => {
            let from = bound(form, from, PartFlaw::From)?;
            between(from, bound(form, to, PartFlaw::To)?)
        }
    }
}
