//! Words that ask for a set of shards.

ghost use Rattle.std.specs.Prelude.{◌≡◌, ◌≤◌, option_map, is_some, IfSome};
ghost use Rattle.std.specs.Char.{is_ascii_digit};
ghost use Rattle.std.specs.List.{list_all};
ghost use Rattle.settings_core.specs.Spans.{IsShardBits};
ghost use Rattle.settings_core.specs.ShardWords.{shard_in, ends_of, span_of, shards_in, asked};
ghost use Rattle.settings_core.specs.ShardWords.{shards_told, told_of};

use crate::sharding::Sharding;
use thiserror::Error;

/// Why a command does not speak of shards, or of one set, as its words ask for it.
///
/// It prints as the text for standard error.
#[derive(Clone, Copy, Debug, PartialEq, Eq, Error)]
pub enum ShardFlaw {
    /// There are no shards, and more is said of them.
    #[error("error: --only and --at-once need --shards")]
    NoShards,
    /// The session is to be spoken over standard input and output.
    #[error("error: --shards cannot be used with --stdio")]
    Stdio,
    /// The shards that are named are none.
    #[error("error: --only takes shards that there are, as 3 or 0-7")]
    Only,
}

/// The words of a call that may be about shards.
#[derive(Clone, Copy, Debug, PartialEq, Eq)]
pub struct ShardWords<'a> {
    /// The number of bits, if it is given.
    pub shards: Option<u32>,
    /// Which of the shards are meant, if it is given.
    pub only: Option<&'a str>,
    /// How many sessions there are at once, if it is given.
    pub at_once: Option<u32>,
    /// Whether the session is to be spoken over standard input and output.
    pub is_stdio: bool,
}

/// Whether all bytes are decimal digits.
pub(crate) fn are_digits(bytes: &[u8]) -> bool
    ensures { result ≡ list_all is_ascii_digit bytes.now }
{
    bytes.iter().all(|byte| byte.is_ascii_digit())
}

/// The number of a shard of so many bits, which decimal digits write.
fn shard_in(bits: u8, text: &str) -> Option<u16>
    requires { bits ≤ 12 }
    ensures { result ≡ shard_in bits text.now }
{
    if text.is_empty() || !are_digits(text.as_bytes()) {
        return None;
    }
    let number = text.parse::<u16>().ok()?;
    (number < 1 << bits).then_some(number)
}

/// What stands before the first `-`, and after it; the whole text twice, where there is none.
fn ends_of(text: &str) -> (&str, &str)
    ensures { (result.0.now, result.1.now) ≡ ends_of text.now }
{
    match text.split_once('-') {
        Some(ends) => ends,
        None => (text, text),
    }
}

/// The shards of so many bits that a text names, as `N` or `N-M`.
fn span_in(bits: u8, text: &str) -> Option<Sharding>
    requires { bits ≤ 12 }
    ensures { option_map shards_told result ≡ shards_in bits text.now }
{
    let (first, last) = ends_of(text);
    let first = shard_in(bits, first)?;
    let last = shard_in(bits, last)?;
    if first > last {
        return None;
    }
    Some(Sharding { bits, first, last })
}

/// The shards of so many bits that are meant: all, where no text names some.
fn span_of(bits: u8, only: Option<&str>) -> Option<Sharding>
    requires { bits ≤ 12 }
    ensures { option_map shards_told result ≡ span_of bits (option_map (λ text. text.now) only.entry) }
{
    match only {
        Some(text) => span_in(bits, text),
        None => Some(Sharding {
            bits,
            first: 0,
            last: (1 << bits) - 1,
        }),
    }
}

/// Which shards a call speaks of: none where it speaks of one set. Else the first of these that holds: more is said of
/// shards where there are none, the session is to be spoken over standard input and output, or the shards that are
/// named are none.
pub fn sharding_of(words: ShardWords<'_>) -> Result<Option<Sharding>, ShardFlaw>
    requires { IfSome words.shards IsShardBits }
    ensures { told_of result ≡ asked words.entry.shards (option_map (λ text. text.now) words.entry.only)
        (is_some words.entry.at_once) words.entry.is_stdio }
{
    let Some(bits) = words.shards else {
        if words.only.is_some() || words.at_once.is_some() {
            return Err(ShardFlaw::NoShards);
        }
        return Ok(None);
    };
    if words.is_stdio {
        return Err(ShardFlaw::Stdio);
    }
    match span_of(bits as u8, words.only) {
        Some(sharding) => Ok(Some(sharding)),
        None => Err(ShardFlaw::Only),
    }
}
