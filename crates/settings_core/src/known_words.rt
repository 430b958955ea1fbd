//! The words that the program knows, as `clap` is told of them.

ghost use Rattle.std.specs.Prelude.{IfOk};
ghost use Rattle.clap.specs.Words.{App, with_subcommand};
ghost use Rattle.settings_core.specs.Program.{IsCommand};
ghost use Rattle.settings_core.specs.Program as program;

use crate::arguments::{Argument, command_of};
use crate::door_words::{news_words, put_words, status_words, stop_words};
use crate::session_words::{serve_words, sync_words};
use crate::spans::{
    MAX_ITEM_LENGTH, MAX_ITEMS, MAX_PLANNED_ITEMS, MAX_RATE, MAX_ROUND_TRIP, MAX_SEARCH,
    MIN_ITEM_LENGTH,
};
use std::alloc::{AllocError, Global};

/// The version of the program.
pub const VERSION: &str = "0.2.0";

/// How help speaks of a strategy file.
const FILE_HELP: &str = "A strategy in TOML, or the name of a shipped one";

/// How help speaks of ITEMS, which may be standard input.
pub(crate) const ITEMS_HELP: &str =
    "A file of items, one a line: hex, or text with --text; - is standard input";

/// The strategy, if none is given: a shipped one.
const DEFAULT_TABLE: &str = "all-round";

/// Items that stand as they are.
pub(crate) const TEXT: Argument<'static> = Argument::Flag {
    name: "text",
    help: "Each line of ITEMS is an item as it stands, not hex",
};

/// Items that are the digests of lines.
pub(crate) const HASH: Argument<'static> = Argument::Flag {
    name: "hash",
    help: "The SHA-256 digest of each line of ITEMS is an item, unless it begins with 0x",
};

/// More on a refusal.
pub(crate) const WHY: Argument<'static> = Argument::Flag {
    name: "why",
    help: "Say more of a refusal on standard error, in a second line",
};

/// How many bytes an item has that is made.
const LENGTH: Argument<'static> = Argument::Number {
    name: "length",
    value: "L",
    least: MIN_ITEM_LENGTH,
    most: MAX_ITEM_LENGTH,
    help: "How many bytes an item has, 4 to 64 [default: 16]",
};

/// The strategy of a session.
pub(crate) const TABLE: Argument<'static> = Argument::ValuedOr {
    name: "table",
    value: "FILE",
    default: DEFAULT_TABLE,
    help: FILE_HELP,
};

/// The arguments of `answer`.
const ANSWER: [Argument<'static>; 4] = [
    Argument::Flag {
        name: "hex",
        help: "Read and write hex text, one frame a line [default: bytes]",
    },
    TEXT,
    WHY,
    Argument::Placed {
        id: "ITEMS",
        must: true,
        help: "A file of items, one a line: hex, or text with --text",
    },
];

/// The words of `answer`.
fn answer_words<'a>(alloc: Global) -> Result<clap::Command<'a>, AllocError>
    ensures { IfOk result (IsCommand program.answer) }
{
    command_of(
        alloc,
        "answer",
        "Answer one message with the lists of the ranges that differ",
        &ANSWER,
    )
}

/// The arguments of `check`.
const CHECK: [Argument<'static>; 5] = [
    Argument::Flag {
        name: "cost",
        help: "Print what sessions between sets that are made cost, by differences",
    },
    Argument::Number {
        name: "items",
        value: "N",
        least: 1,
        most: MAX_ITEMS,
        help: "With --cost: how many items a set has, 1 to the cap [default: the cap]",
    },
    LENGTH,
    WHY,
    Argument::Placed {
        id: "FILE",
        must: true,
        help: FILE_HELP,
    },
];

/// The words of `check`.
fn check_words<'a>(alloc: Global) -> Result<clap::Command<'a>, AllocError>
    ensures { IfOk result (IsCommand program.check) }
{
    command_of(
        alloc,
        "check",
        "Check a strategy and print the steps of its least ranks",
        &CHECK,
    )
}

/// The arguments of `plan`.
const PLAN: [Argument<'static>; 8] = [
    Argument::Valued {
        name: "table",
        value: "FILE",
        help: "Print this one in place of the quickest: a strategy in TOML, or the name of a shipped one",
    },
    Argument::Number {
        name: "items",
        value: "N",
        least: 1,
        most: MAX_PLANNED_ITEMS,
        help: "How many items a set has, 1 to 262,144,000 [default: 65536]",
    },
    Argument::Number {
        name: "differences",
        value: "D",
        least: 0,
        most: MAX_PLANNED_ITEMS,
        help: "In how many items the sets differ, 0 to 262,144,000 [default: 100]",
    },
    LENGTH,
    Argument::Number {
        name: "round-trip",
        value: "MS",
        least: 0,
        most: MAX_ROUND_TRIP,
        help: "How many milliseconds a round trip takes, 0 to 60,000 [default: 100]",
    },
    Argument::Number {
        name: "rate",
        value: "MBIT",
        least: 1,
        most: MAX_RATE,
        help: "How many megabits a second the line carries, 1 to 100,000 [default: 10]",
    },
    Argument::Number {
        name: "search",
        value: "SECONDS",
        least: 1,
        most: MAX_SEARCH,
        help: "Search so many seconds for a strategy that is quicker, 1 to 3,600 [default: no search]",
    },
    WHY,
];

/// The words of `plan`.
fn plan_words<'a>(alloc: Global) -> Result<clap::Command<'a>, AllocError>
    ensures { IfOk result (IsCommand program.plan) }
{
    command_of(
        alloc,
        "plan",
        "Print the quickest of the shipped strategies for two sets and a line",
        &PLAN,
    )
}

/// The arguments of `sim`.
const SIM: [Argument<'static>; 1] = [WHY];

/// The words of `sim`.
fn sim_words<'a>(alloc: Global) -> Result<clap::Command<'a>, AllocError>
    ensures { IfOk result (IsCommand program.sim) }
{
    command_of(
        alloc,
        "sim",
        "Run a scenario from standard input and print what its sessions learned",
        &SIM,
    )
}

/// The program itself, without its commands.
fn top_words<'a>(alloc: Global) -> clap::Command<'a>
    ensures { IsCommand program.top result }
{
    clap::Command::new(alloc, "rangesync")
        .about("Find out which items each of two peers lacks")
        .version(VERSION)
        .subcommand_required(true)
}

/// The program with one more command, if there was memory for it.
fn with_command<'a>(
    program: clap::Command<'a>,
    command: Result<clap::Command<'a>, AllocError>,
) -> Result<clap::Command<'a>, AllocError>
    ensures { (above below : App) → IsCommand above program.entry → IfOk command.entry (IsCommand below)
        → IfOk result (IsCommand (with_subcommand above below.top)) }
{
    match command {
        Ok(command) => program.subcommand(command),
        Err(error) => Err(error),
    }
}

/// All words of the program.
pub(crate) fn program_words<'a>(alloc: Global) -> Result<clap::Command<'a>, AllocError>
    ensures { IfOk result (IsCommand program.program) }
{
    let words = with_command(top_words(alloc), answer_words(alloc))?;
    let words = with_command(words, check_words(alloc))?;
    let words = with_command(words, plan_words(alloc))?;
    let words = with_command(words, sim_words(alloc))?;
    let words = with_command(words, serve_words(alloc))?;
    let words = with_command(words, sync_words(alloc))?;
    let words = with_command(words, put_words(alloc))?;
    let words = with_command(words, news_words(alloc))?;
    let words = with_command(words, stop_words(alloc))?;
    with_command(words, status_words(alloc))
}
