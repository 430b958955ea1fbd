//! The words of a call, read by `clap`.

ghost use Rattle.std.specs.Prelude.{◌≡◌, ◌≢◌, map, IfErr, IfOk};
ghost use Rattle.clap.specs.Words.{kind_of};
ghost use Rattle.settings_core.specs.Calls.{WordsAskFor};
ghost use Rattle.settings_core.specs.Spans.{AreInSpan};
ghost use Rattle.settings_core.specs.declared.words.WordsFault.TheVariants as faults;

use crate::commands::Call;
use crate::given_words::{call_in, wrong_profile_in};
use crate::known_words::program_words;
use clap::ArgMatches;
use clap::error::ErrorKind;
use std::alloc::{AllocError, AllocFailed, Global};
use std::convert::AsStr;

/// Why words ask for nothing that is done.
#[derive(Debug, Drop)]
pub enum WordsFault {
    /// They are none that the program knows: what is wrong, and the usage, for standard error.
    Usage(String),
    /// They ask for help or the version: the text, for standard output.
    Help(String),
    /// Memory ran out.
    Memory,
}

impl From<AllocError> for WordsFault {
    ghost from_gives = { λ _ e. e ≡ faults.Memory };

    fn from(_refused: AllocError) -> WordsFault {
        WordsFault::Memory
    }
}

impl<T: Drop> From<AllocFailed<T>> for WordsFault {
    ghost from_gives = { λ _ e. e ≡ faults.Memory };

    fn from(_refused: AllocFailed<T>) -> WordsFault {
        WordsFault::Memory
    }
}

/// What `clap` answers to words that don't fit.
fn words_fault(alloc: Global, error: &clap::Error) -> WordsFault
    ensures { kind_of error.now ≡ ErrorKind.OutOfMemory → result ≡ WordsFault.Memory }
{
    if error.kind() == ErrorKind::OutOfMemory {
        return WordsFault::Memory;
    }
    match format!(in alloc; "{error}") {
        Err(_) => WordsFault::Memory,
        Ok(text) if error.use_stderr() => WordsFault::Usage(text),
        Ok(text) => WordsFault::Help(text),
    }
}

/// What words are told that `clap` takes and that ask for nothing: those of a `sync` in a profile that is none, and
/// those of a `serve` without a set.
fn unasked_fault(alloc: Global, matches: &ArgMatches<'_>) -> Result<WordsFault, AllocError> {
    Ok(WordsFault::Usage(match wrong_profile_in(matches) {
        Some(word) => format!(in alloc;
            "error: invalid value '{word}' for '--profile <P>'\n  [possible values: 1, 2, compact, best]\n\n\
            For more information, try '--help'.\n"
        )?,
        None => format!(in alloc;
            "error: give ITEMS or --keep FILE\n\nFor more information, try 'rangesync serve --help'.\n"
        )?,
    }))
}

/// What the words ask for. The first is the program's own name. Numbers out of their span ask for nothing, and neither
/// does a `sync` in a profile that is none, or a `serve` that is given neither ITEMS nor a file that keeps the set.
pub fn read_words<'a, W: AsStr>(alloc: Global, words: &'a [W]) -> Result<Call<'a>, WordsFault>
    ensures asked { IfOk result (WordsAskFor (map W.text words.entry.now)) }
    ensures refused { IfErr result (λ e. e ≢ WordsFault.Memory →
        (call : Call) → WordsAskFor (map W.text words.entry.now) call → ⊥) }
    ensures span { IfOk result (λ call. AreInSpan call.command) }
{
    match program_words(alloc)?.try_get_matches_from(words) {
        Err(error) => Err(words_fault(alloc, &error)),
        Ok(matches) => match call_in(&matches) {
            Some(call) => Ok(call),
            None => Err(unasked_fault(alloc, &matches)?),
        },
    }
}
