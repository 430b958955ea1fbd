//! The words of the commands that ask at the door of a server, as `clap` is told of them.

ghost use Rattle.std.specs.Prelude.{IfOk};
ghost use Rattle.settings_core.specs.Program.{IsCommand};
ghost use Rattle.settings_core.specs.Program as program;

use crate::arguments::{Argument, command_of};
use crate::known_words::WHY;
use std::alloc::{AllocError, Global};

/// Where a server answers programs of this machine.
const CONTROL: Argument<'static> = Argument::Valued {
    name: "control",
    value: "A",
    help: "Where the server answers this machine's programs, as unix:PATH [default: control in the runtime directory]",
};

/// The arguments of `put`.
const PUT: [Argument<'static>; 5] = [
    CONTROL,
    Argument::Flag {
        name: "text",
        help: "Each line of FILE is an item as it stands, not hex",
    },
    Argument::Flag {
        name: "hash",
        help: "The SHA-256 digest of each line of FILE is an item, unless it begins with 0x",
    },
    WHY,
    Argument::Placed {
        id: "FILE",
        must: true,
        help: "A file of items, one a line: hex, or text with --text; - is standard input",
    },
];

/// The words of `put`.
pub(crate) fn put_words<'a>(alloc: Global) -> Result<clap::Command<'a>, AllocError>
    ensures { IfOk result (IsCommand program.put) }
{
    command_of(
        alloc,
        "put",
        "Put items into the set of a server on this machine",
        &PUT,
    )
}

/// The arguments of `news`.
const NEWS: [Argument<'static>; 4] = [
    CONTROL,
    Argument::Number {
        name: "after",
        value: "N",
        least: 0,
        most: u32::MAX,
        help: "Begin once the set had N items, 0 to 4,294,967,295 [default: with the oldest of the last 65,536]",
    },
    Argument::Flag {
        name: "follow",
        help: "Go on with those that the set takes from now on",
    },
    WHY,
];

/// The words of `news`.
pub(crate) fn news_words<'a>(alloc: Global) -> Result<clap::Command<'a>, AllocError>
    ensures { IfOk result (IsCommand program.news) }
{
    command_of(
        alloc,
        "news",
        "Print the items that the set of a server on this machine took, in that order",
        &NEWS,
    )
}

/// The arguments of `stop`.
const STOP: [Argument<'static>; 2] = [CONTROL, WHY];

/// The words of `stop`.
pub(crate) fn stop_words<'a>(alloc: Global) -> Result<clap::Command<'a>, AllocError>
    ensures { IfOk result (IsCommand program.stop) }
{
    command_of(
        alloc,
        "stop",
        "Stop a server on this machine, once its sessions are over",
        &STOP,
    )
}

/// The arguments of `status`.
const STATUS: [Argument<'static>; 3] = [
    CONTROL,
    Argument::Flag {
        name: "json",
        help: "Print it as JSON",
    },
    WHY,
];

/// The words of `status`.
pub(crate) fn status_words<'a>(alloc: Global) -> Result<clap::Command<'a>, AllocError>
    ensures { IfOk result (IsCommand program.status) }
{
    command_of(
        alloc,
        "status",
        "Print how a server on this machine stands",
        &STATUS,
    )
}
