//! Steps of a scenario, read from their texts.

ghost use Rattle.std.specs.Prelude.{◌≡◌, option_map};
ghost use Rattle.std.specs.Char.{is_ascii_digit};
ghost use Rattle.std.specs.List.{list_all};
ghost use Rattle.sim_core.specs.StepTexts.{is_plain, number_of, parted, side_of, insert_in, open_in, absorb_in};
ghost use Rattle.sim_core.specs.StepTexts.{step_of};

use crate::scenario::ScenarioStep;
use ends_core::Side;
use item_files::item_of;
use world_core::Step;

/// Whether a byte is a decimal digit.
fn is_digit(byte: u8) -> bool
    ensures { result ≡ is_ascii_digit byte }
{
    byte.is_ascii_digit()
}

/// Whether all bytes are decimal digits.
fn are_digits(bytes: &[u8]) -> bool
    ensures { result ≡ list_all is_ascii_digit bytes.now }
{
    bytes.iter().all(|byte| is_digit(*byte))
}

/// Whether these are digits without a sign and without a leading zero.
fn is_plain(digits: &[u8]) -> bool
    ensures { result ≡ is_plain digits.now }
{
    let Some((first, rest)) = digits.split_first() else {
        return false;
    };
    if *first == b'0' {
        return rest.is_empty();
    }
    is_digit(*first) && are_digits(rest)
}

/// A decimal number below 2^32, without a sign and without a leading zero.
fn number_of(digits: &str) -> Option<usize>
    ensures { result ≡ number_of digits.now }
{
    if !is_plain(digits.as_bytes()) {
        return None;
    }
    match digits.parse::<u32>() {
        Ok(number) => Some(number as usize),
        Err(_) => None,
    }
}

/// What stands before the first space, and after it, if there is one.
fn parted(text: &str) -> Option<(&str, &str)>
    ensures { option_map (λ p. (p.0.now, p.1.now)) result ≡ parted text.now }
{
    text.split_once(' ')
}

/// The side that a word names.
fn side_of(word: &str) -> Option<Side>
    ensures { result ≡ side_of word.now }
{
    match word {
        "initiator" => Some(Side::Initiator),
        "responder" => Some(Side::Responder),
        _ => None,
    }
}

/// What stands after `insert`: a node and an item.
fn insert_in(rest: &str) -> Option<ScenarioStep>
    ensures { result ≡ insert_in rest.now }
{
    let (node, digits) = parted(rest)?;
    let step = Step::Insert(number_of(node)?, item_of(digits.as_bytes())?);
    Some(ScenarioStep::Do(step))
}

/// What stands after `open`: two nodes.
fn open_in(rest: &str) -> Option<ScenarioStep>
    ensures { result ≡ open_in rest.now }
{
    let (initiator, responder) = parted(rest)?;
    let step = Step::Open(number_of(initiator)?, number_of(responder)?);
    Some(ScenarioStep::Do(step))
}

/// What stands after `absorb`: a session and a side.
fn absorb_in(rest: &str) -> Option<ScenarioStep>
    ensures { result ≡ absorb_in rest.now }
{
    let (session, side) = parted(rest)?;
    let step = Step::Absorb(number_of(session)?, side_of(side)?);
    Some(ScenarioStep::Do(step))
}

/// The step that a text spells, if it spells one.
pub fn step_of(text: &str) -> Option<ScenarioStep>
    ensures { result ≡ step_of text.now }
{
    let (name, rest) = parted(text)?;
    match name {
        "insert" => insert_in(rest),
        "open" => open_in(rest),
        "deliver" => Some(ScenarioStep::Do(Step::Deliver(number_of(rest)?))),
        "finish" => Some(ScenarioStep::Finish(number_of(rest)?)),
        "absorb" => absorb_in(rest),
        _ => None,
    }
}
