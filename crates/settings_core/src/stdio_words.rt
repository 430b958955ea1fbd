//! Words that ask for a session over standard input and output.

ghost use Rattle.std.specs.Prelude.{◌≡◌, option_map};
ghost use Rattle.settings_core.specs.StdioWords.{are_piped, stdio_flaw};

use crate::addresses::DEFAULT_ADDRESS;
use thiserror::Error;

/// Why a command does not speak over standard input and output, though its words ask for it.
///
/// It prints as the text for standard error.
#[derive(Clone, Copy, Debug, PartialEq, Eq, Error)]
pub enum StdioFlaw {
    /// There is an address too.
    #[error("error: --stdio cannot be used with --addr")]
    Address,
    /// It is to be tried again: what was heard cannot be heard anew.
    #[error("error: --stdio cannot be used with --retry")]
    Retry,
    /// The items are to be read from standard input.
    #[error("error: with --stdio the items cannot be read from standard input")]
    Items,
    /// Standard input is a terminal.
    #[error("error: --stdio speaks with a program, and standard input is a terminal")]
    Terminal,
}

/// The words of a call that is to speak over standard input and output.
#[derive(Clone, Copy, Debug, PartialEq, Eq)]
pub struct StdioWords<'a> {
    /// The address, which is the default one if none is given.
    pub address: &'a str,
    /// Whether it is said how often the session is tried again.
    pub retries: bool,
    /// The path of the item file, or `-`, if either is given.
    pub items: Option<&'a str>,
}

/// Whether the items are to be read from standard input.
fn are_piped(items: Option<&str>) -> bool
    ensures { result ≡ are_piped (option_map (λ text. text.now) items.entry) }
{
    match items {
        Some("-") => true,
        _ => false,
    }
}

/// Why such a call does not speak over standard input and output, the first of these that holds: it has another address
/// than the default one, it is to be tried again, its items are to be read from standard input, or that is a terminal.
pub fn stdio_flaw(words: StdioWords<'_>, is_terminal: bool) -> Option<StdioFlaw>
    ensures { result
        ≡ stdio_flaw words.entry.address.now words.entry.retries (option_map (λ text. text.now) words.entry.items)
        is_terminal }
{
    if words.address != DEFAULT_ADDRESS {
        return Some(StdioFlaw::Address);
    }
    if words.retries {
        return Some(StdioFlaw::Retry);
    }
    if are_piped(words.items) {
        return Some(StdioFlaw::Items);
    }
    is_terminal.then_some(StdioFlaw::Terminal)
}
