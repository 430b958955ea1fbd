//! The words of `serve` and `sync`, as `clap` is told of them.

ghost use Rattle.std.specs.Prelude.{IfOk};
ghost use Rattle.settings_core.specs.Program.{IsCommand};
ghost use Rattle.settings_core.specs.Program as program;

use crate::addresses::DEFAULT_ADDRESS;
use crate::arguments::{Argument, command_of, with_arguments};
use crate::known_words::{HASH, ITEMS_HELP, TABLE, TEXT, WHY};
use crate::spans::{
    MAX_AT_ONCE, MAX_EVERY, MAX_MEMORY, MAX_PATIENCE, MAX_PEERS, MAX_RETRIES, MAX_SESSION_SECONDS,
    MAX_SESSIONS, MAX_SHARD_BITS, MAX_WORKERS, MIN_BYTES,
};
use std::alloc::{AllocError, Global};

/// The seconds that are waited, if none are given.
const PATIENCE: &str = "60";

/// The bytes that are read of a session, if no number is given.
const MOST_BYTES: &str = "33554432";

/// No address, but standard input and output.
const STDIO: Argument<'static> = Argument::Flag {
    name: "stdio",
    help: "Speak one session over standard input and output",
};

/// Which set is spoken of.
const SET: Argument<'static> = Argument::Valued {
    name: "set",
    value: "NAME",
    help: "Speak of the set of this name alone, 1 to 63 bytes",
};

/// Into how many shards the set is cut.
const SHARDS: Argument<'static> = Argument::Number {
    name: "shards",
    value: "B",
    least: 0,
    most: MAX_SHARD_BITS,
    help: "Cut the set into 2 to the power of B shards, 0 to 12",
};

/// The items.
const ITEMS: Argument<'static> = Argument::Placed {
    id: "ITEMS",
    must: true,
    help: ITEMS_HELP,
};

/// The arguments of `serve`, but for its ITEMS.
const SERVE: [Argument<'static>; 34] = [
    TABLE,
    Argument::ValuedOr {
        name: "addr",
        value: "A",
        default: DEFAULT_ADDRESS,
        help: "The address to listen at, or unix:PATH",
    },
    STDIO,
    SET,
    SHARDS,
    Argument::Valued {
        name: "only",
        value: "A-B",
        help: "With --shards: keep these shards alone, as 3 or 0-7",
    },
    Argument::NumberOr {
        name: "workers",
        value: "N",
        least: 1,
        most: MAX_WORKERS as u32,
        default: "4",
        help: "Serve by so many threads, 1 to 16, and as many for those who send much",
    },
    Argument::Number {
        name: "sessions",
        value: "N",
        least: 1,
        most: MAX_SESSIONS,
        help: "End after so many connections, 1 to 1,000,000 [default: no end]",
    },
    Argument::NumberOr {
        name: "patience",
        value: "SECONDS",
        least: 1,
        most: MAX_PATIENCE,
        default: PATIENCE,
        help: "End a session whose peer is silent for longer, 1 to 86,400",
    },
    Argument::NumberOr {
        name: "most-bytes",
        value: "N",
        least: MIN_BYTES,
        most: u32::MAX,
        default: MOST_BYTES,
        help: "Refuse a session that sends more bytes, 1,024 to 4,294,967,295",
    },
    Argument::Number {
        name: "peers",
        value: "N",
        least: 1,
        most: MAX_PEERS,
        help: "Hold so many peers at once, 1 to 65,535 [default: 1024]",
    },
    Argument::Number {
        name: "peers-of-one",
        value: "N",
        least: 1,
        most: MAX_PEERS,
        help: "Hold so many peers of one address at once, 1 to 65,535 [default: 64]",
    },
    Argument::Number {
        name: "session-seconds",
        value: "SECONDS",
        least: 1,
        most: MAX_SESSION_SECONDS,
        help: "End a session that goes on for longer, 1 to 604,800 [default: 3600]",
    },
    Argument::Number {
        name: "memory",
        value: "MIB",
        least: 1,
        most: MAX_MEMORY,
        help: "Keep at most so many MiB for all peers, 1 to 1,048,576 [default: 1024]",
    },
    Argument::Valued {
        name: "report",
        value: "FILE",
        help: "Append what each session found to this file",
    },
    Argument::Valued {
        name: "learned",
        value: "FILE",
        help: "Append each item learned from a peer to this file",
    },
    Argument::Valued {
        name: "keep",
        value: "FILE",
        help: "Keep the set in this file too: read it at the start, append what is learned",
    },
    Argument::Flag {
        name: "durable",
        help: "Sync the files to the disk after each session's items",
    },
    Argument::Number {
        name: "most-learned",
        value: "N",
        least: 1,
        most: u32::MAX,
        help: "Put at most so many items of one session into the set",
    },
    Argument::Flag {
        name: "read-only",
        help: "Put nothing that peers have into the set",
    },
    Argument::Number {
        name: "report-items",
        value: "N",
        least: 0,
        most: u32::MAX,
        help: "Report at most so many items of one session",
    },
    Argument::Valued {
        name: "metrics",
        value: "A",
        help: "The address at which metrics and a page answer HTTP",
    },
    Argument::Valued {
        name: "websocket",
        value: "A",
        help: "The address at which browsers connect too, over WebSockets",
    },
    Argument::Valued {
        name: "origin",
        value: "O,..",
        help: "With --websocket: pages of these origins may connect, as https://example.org",
    },
    Argument::Valued {
        name: "not-below",
        value: "ITEM",
        help: "Forget the items below this one, and put none of them in",
    },
    Argument::Valued {
        name: "newest",
        value: "DURATION",
        help: "Forget the items that are older, as 90s, 10m, 36h or 7d",
    },
    Argument::Valued {
        name: "time-form",
        value: "FORM",
        help: "With --newest: the time that items begin with, unix32, unix64 or iso",
    },
    Argument::Valued {
        name: "with",
        value: "A,..",
        help: "Keep the set equal with the servers at these addresses, 1 to 64",
    },
    Argument::Number {
        name: "every",
        value: "SECONDS",
        least: 1,
        most: MAX_EVERY,
        help: "With --with: so long between two sessions with one, 1 to 86,400 [default: 10]",
    },
    Argument::Valued {
        name: "control",
        value: "A",
        help: "Answer this machine's own programs at unix:PATH or at an address of the loopback",
    },
    Argument::Flag {
        name: "log",
        help: "Print a line for each session on standard error",
    },
    TEXT,
    HASH,
    WHY,
];

/// The words of `serve`. Its ITEMS may be left out, where a file keeps the set.
pub(crate) fn serve_words<'a>(alloc: Global) -> Result<clap::Command<'a>, AllocError>
    ensures { IfOk result (IsCommand program.serve) }
{
    let command = command_of(
        alloc,
        "serve",
        "Answer the sessions of those who connect",
        &SERVE,
    )?;
    let items = [Argument::Placed {
        id: "ITEMS",
        must: false,
        help: ITEMS_HELP,
    }];
    with_arguments(alloc, command, &items)
}

/// The arguments of `sync`.
const SYNC: [Argument<'static>; 23] = [
    TABLE,
    Argument::ValuedOr {
        name: "addr",
        value: "A",
        default: DEFAULT_ADDRESS,
        help: "The address to connect to, or unix:PATH",
    },
    STDIO,
    SET,
    SHARDS,
    Argument::Valued {
        name: "only",
        value: "A-B",
        help: "With --shards: speak of these shards alone, as 3 or 0-7",
    },
    Argument::Number {
        name: "at-once",
        value: "N",
        least: 1,
        most: MAX_AT_ONCE,
        help: "With --shards: so many sessions at once, 1 to 64 [default: 8]",
    },
    Argument::Valued {
        name: "from",
        value: "ITEM",
        help: "Speak of the items from this one on alone",
    },
    Argument::Valued {
        name: "to",
        value: "ITEM",
        help: "Speak of the items before this one alone",
    },
    Argument::Valued {
        name: "prefix",
        value: "BYTES",
        help: "Speak of the items alone that begin with these bytes",
    },
    Argument::Valued {
        name: "out",
        value: "FILE",
        help: "Write what is printed to this file",
    },
    Argument::Valued {
        name: "keep",
        value: "FILE",
        help: "Append what the server has and ITEMS lacks to this file, which may be ITEMS",
    },
    Argument::ValuedOr {
        name: "profile",
        value: "P",
        default: "1",
        help: "Speak wire profile 1, 2, compact, or best: compact with a server that knows it",
    },
    Argument::NumberOr {
        name: "patience",
        value: "SECONDS",
        least: 1,
        most: MAX_PATIENCE,
        default: PATIENCE,
        help: "End if the connect, a read or a write takes longer, 1 to 86,400",
    },
    Argument::NumberOr {
        name: "most-bytes",
        value: "N",
        least: MIN_BYTES,
        most: u32::MAX,
        default: MOST_BYTES,
        help: "Refuse a server that sends more bytes, 1,024 to 4,294,967,295",
    },
    Argument::Number {
        name: "retry",
        value: "N",
        least: 0,
        most: MAX_RETRIES,
        help: "Try so often again if the server is away or ends in the middle, 0 to 1,000 [default: 0]",
    },
    Argument::Flag {
        name: "check",
        help: "Exit with 4 if the sets differ, and with 0 if they are equal",
    },
    Argument::Flag {
        name: "count",
        help: "Print how many items each side lacks, and not the items",
    },
    Argument::Flag {
        name: "stats",
        help: "Print counts and seconds on standard error",
    },
    TEXT,
    HASH,
    WHY,
    ITEMS,
];

/// What help says of the status of `sync`.
const SYNC_STATUS: &str =
    "Status 0 says that both differences are known here, not that the server has kept what it learned.";

/// The words of `sync`.
pub(crate) fn sync_words<'a>(alloc: Global) -> Result<clap::Command<'a>, AllocError>
    ensures { IfOk result (IsCommand program.sync) }
{
    let command = command_of(
        alloc,
        "sync",
        "Run one session and print which items each side lacks",
        &SYNC,
    )?;
    Ok(command.after_help(SYNC_STATUS))
}
