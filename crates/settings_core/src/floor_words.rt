//! Words by which a server forgets items.

ghost use Rattle.std.specs.Prelude.{◌≡◌, ◌≤◌, ◌<◌, [], None, option_map};
ghost use Rattle.settings_core.specs.FloorWords.{bound_asked, count_before, form_in, goes_with, max_newest};
ghost use Rattle.settings_core.specs.FloorWords.{newest_asked, number_in, rule_asked, seconds_in, spanned, times};

use crate::shard_words::are_digits;
use crate::spans::MAX_NEWEST;
use item_core::Lower;
use item_files::{ItemForm, spelled};
use shard_core::TimeForm;
use thiserror::Error;

/// Why a server does not forget items as its words ask for it.
///
/// It prints as the text for standard error.
#[derive(Clone, Copy, Debug, PartialEq, Eq, Error)]
pub enum FloorFlaw {
    /// The bound is no item.
    #[error("error: --not-below takes an item, as it stands in ITEMS")]
    NotBelow,
    /// One of two words is given that need each other.
    #[error("error: --newest and --time-form need each other")]
    Alone,
    /// The duration is none.
    #[error("error: --newest takes a duration as 90s, 10m, 36h or 7d, of at most 3650 days")]
    Newest,
    /// The form of times is none.
    #[error("error: --time-form takes unix32, unix64 or iso")]
    TimeForm,
    /// Items of their form have no times of that form.
    #[error("error: --time-form iso is for --text, unix32 and unix64 are for items in hex")]
    ItemForm,
}

/// How old items may be.
#[derive(Clone, Copy, Debug, PartialEq, Eq)]
pub struct Newest {
    /// So many seconds at most, 1 to 315,360,000.
    pub seconds: u32,
    /// The form of the times that the items begin with.
    pub time: TimeForm,
}

/// Which items a server forgets.
#[derive(Clone, Copy, Debug, PartialEq, Eq)]
pub struct FloorRule {
    /// Those below this bound.
    pub not_below: Lower,
    /// Those that are older, if it is said how old items may be.
    pub newest: Option<Newest>,
}

impl FloorRule {
    /// The rule that forgets no item.
    pub fn none() -> FloorRule
        ensures bound { result.not_below ≡ [] }
        ensures newest { result.newest ≡ None }
    {
        FloorRule {
            not_below: Lower::start(),
            newest: None,
        }
    }

    /// The form of the times that the items begin with, if it is said how old they may be.
    pub fn time(&self) -> Option<TimeForm>
        ensures { result ≡ option_map (λ n. n.time) self.now.newest }
    {
        match self.newest {
            Some(newest) => Some(newest.time),
            None => None,
        }
    }
}

/// The words of a server that may be about what it forgets.
#[derive(Clone, Copy, Debug, PartialEq, Eq)]
pub struct FloorWords<'a> {
    /// How items are spelled.
    pub form: ItemForm,
    /// The item below which all are forgotten, if one is given.
    pub not_below: Option<&'a str>,
    /// How old items may be, if it is given.
    pub newest: Option<&'a str>,
    /// The form of the times that the items begin with, if it is given.
    pub time_form: Option<&'a str>,
}

/// What stands before the last byte of a text, if that is this one, and is there once.
fn count_before(text: &str, unit: char) -> Option<&str>
    requires { unit < 128 }
    ensures { option_map (λ count. count.now) result ≡ count_before unit text.now }
{
    let (count, rest) = text.split_once(unit)?;
    rest.is_empty().then_some(count)
}

/// The number that decimal digits write, if it is not too great.
fn number_in(text: &str) -> Option<u32>
    ensures { result ≡ number_in text.now }
{
    if text.is_empty() || !are_digits(text.as_bytes()) {
        return None;
    }
    let number = text.parse::<u32>().ok()?;
    (number <= MAX_NEWEST).then_some(number)
}

/// So many seconds, if they are not too few or too many.
fn spanned(seconds: u64) -> Option<u32>
    ensures { result ≡ spanned seconds }
{
    if seconds == 0 || seconds > u64::from(MAX_NEWEST) {
        return None;
    }
    Some(seconds as u32)
}

/// The seconds of so many units of this length as digits write.
fn times(unit: u32, digits: &str) -> Option<u32>
    ensures { result ≡ times unit (number_in digits.now) }
{
    let count = number_in(digits)?;
    spanned(u64::from(count) * u64::from(unit))
}

/// The seconds of a duration: a number, and `s`, `m`, `h` or `d` for seconds, minutes, hours or days.
fn seconds_in(text: &str) -> Option<u32>
    ensures { result ≡ seconds_in text.now }
{
    if let Some(count) = count_before(text, 's') {
        return times(1, count);
    }
    if let Some(count) = count_before(text, 'm') {
        return times(60, count);
    }
    if let Some(count) = count_before(text, 'h') {
        return times(3_600, count);
    }
    times(86_400, count_before(text, 'd')?)
}

/// The form of times that a text names.
fn form_in(text: &str) -> Option<TimeForm>
    ensures { result ≡ form_in text.now }
{
    match text {
        "unix32" => Some(TimeForm::Unix32),
        "unix64" => Some(TimeForm::Unix64),
        "iso" => Some(TimeForm::Iso),
        _ => None,
    }
}

/// Whether items that are spelled so may begin with times of this form.
fn goes_with(form: ItemForm, time: TimeForm) -> bool
    ensures { result ≡ goes_with form time }
{
    matches!(
        (form, time),
        (ItemForm::Hex, TimeForm::Unix32)
            | (ItemForm::Hex, TimeForm::Unix64)
            | (ItemForm::Text, TimeForm::Iso)
    )
}

/// The bound that an item spells; the start, where none is given.
fn bound_of(form: ItemForm, text: Option<&str>) -> Result<Lower, FloorFlaw>
    ensures { result ≡ bound_asked form (option_map (λ text. text.now) text.entry) }
{
    let Some(text) = text else {
        return Ok(Lower::start());
    };
    match spelled(form, text.as_bytes()) {
        Some(item) => Ok(Lower::from(item)),
        None => Err(FloorFlaw::NotBelow),
    }
}

/// How old items that are spelled so may be, if it is said.
fn newest_of(
    form: ItemForm,
    newest: Option<&str>,
    time: Option<&str>,
) -> Result<Option<Newest>, FloorFlaw>
    ensures { result ≡ newest_asked form (option_map (λ text. text.now) newest.entry)
        (option_map (λ text. text.now) time.entry) }
{
    let (newest, time) = match (newest, time) {
        (None, None) => return Ok(None),
        (Some(newest), Some(time)) => (newest, time),
        _ => return Err(FloorFlaw::Alone),
    };
    let Some(seconds) = seconds_in(newest) else {
        return Err(FloorFlaw::Newest);
    };
    let Some(time) = form_in(time) else {
        return Err(FloorFlaw::TimeForm);
    };
    if goes_with(form, time) {
        Ok(Some(Newest { seconds, time }))
    } else {
        Err(FloorFlaw::ItemForm)
    }
}

/// Which items a server forgets. Else the first of these that holds: the bound is no item, one of two words is given
/// that need each other, the duration is none, the form of times is none, or it is for items of another form.
pub fn floor_rule_of(words: FloorWords<'_>) -> Result<FloorRule, FloorFlaw>
    ensures { result ≡ rule_asked words.entry.form (option_map (λ text. text.now) words.entry.not_below)
        (option_map (λ text. text.now) words.entry.newest) (option_map (λ text. text.now) words.entry.time_form) }
{
    let FloorWords {
        form,
        not_below,
        newest,
        time_form,
    } = words;
    let not_below = bound_of(form, not_below)?;
    let newest = newest_of(form, newest, time_form)?;
    Ok(FloorRule { not_below, newest })
}
