//! What is told of words that ask for nothing that is done.

ghost use Rattle.std.specs.Prelude.{◌≡◌};
ghost use Rattle.printing_core.specs.FaultsOf.{IsWordsStatus};

use crate::fault::{Fault, tell};
use settings_core::{FloorFlaw, NodeFlaw, PartFlaw, ShardFlaw, StdioFlaw, WordsFault};
use std::io::Write;

/// The status of a call whose words ask for nothing that is done.
const USAGE_STATUS: u8 = 2;

/// Prints that a word is no text, and gives the status.
pub fn tell_no_text<E: Write + Drop>(err: E) -> u8
    ensures { result ≡ 2 }
{
    let mut err = err;
    let _told = writeln!(err, "error: a word is not UTF-8 text");
    USAGE_STATUS
}

/// Prints why a call does not speak of shards as its words ask for it, and gives the status. A line that is not taken
/// changes nothing.
pub fn tell_shard_flaw<E: Write + Drop>(err: E, flaw: ShardFlaw) -> u8
    ensures { result ≡ 2 }
{
    let mut err = err;
    let _told = writeln!(err, "{flaw}");
    USAGE_STATUS
}

/// Prints why a call does not speak of a part of a set as its words ask for it, and gives the status. A line that is
/// not taken changes nothing.
pub fn tell_part_flaw<E: Write + Drop>(err: E, flaw: PartFlaw) -> u8
    ensures { result ≡ 2 }
{
    let mut err = err;
    let _told = writeln!(err, "{flaw}");
    USAGE_STATUS
}

/// Prints why a server does not forget items as its words ask for it, and gives the status. A line that is not taken
/// changes nothing.
pub fn tell_floor_flaw<E: Write + Drop>(err: E, flaw: FloorFlaw) -> u8
    ensures { result ≡ 2 }
{
    let mut err = err;
    let _told = writeln!(err, "{flaw}");
    USAGE_STATUS
}

/// Prints why a server does not keep its set equal with others, or answers no programs, as its words ask for it, and
/// gives the status. A line that is not taken changes nothing.
pub fn tell_node_flaw<E: Write + Drop>(err: E, flaw: NodeFlaw) -> u8
    ensures { result ≡ 2 }
{
    let mut err = err;
    let _told = writeln!(err, "{flaw}");
    USAGE_STATUS
}

/// Prints what words that are no command are told, and gives the status: 0 for help, which goes to standard output.
pub fn tell_words<O: Write + Drop, E: Write + Drop>(out: O, err: E, fault: WordsFault) -> u8
    ensures { IsWordsStatus fault result }
{
    let mut out = out;
    let mut err = err;
    match fault {
        WordsFault::Usage(text) => {
            let _told = write!(err, "{text}");
            USAGE_STATUS
        }
        WordsFault::Help(text) => match write!(out, "{text}") {
            Ok(()) => 0,
            Err(_) => tell(err, Fault::WriterFailed),
        },
        WordsFault::Memory => tell(err, Fault::Memory),
    }
}

/// Prints that the name of a set has too few or too many bytes, and gives the status. A line that is not taken changes
/// nothing.
pub fn tell_name_flaw<E: Write + Drop>(err: E) -> u8
    ensures { result ≡ 2 }
{
    let mut err = err;
    let _told = writeln!(err, "error: the name of a set has 1 to 63 bytes");
    USAGE_STATUS
}

/// Prints why a call does not speak over standard input and output, and gives the status. A line that is not taken
/// changes nothing.
pub fn tell_stdio_flaw<E: Write + Drop>(err: E, flaw: StdioFlaw) -> u8
    ensures { result ≡ 2 }
{
    let mut err = err;
    let _told = writeln!(err, "{flaw}");
    USAGE_STATUS
}

/// Prints that it is not known where a server answers programs of this machine, and gives the status. A line that is
/// not taken changes nothing.
pub fn tell_no_control<E: Write + Drop>(err: E) -> u8
    ensures { result ≡ 2 }
{
    let mut err = err;
    let _told = writeln!(
        err,
        "error: say --control A: neither RUNTIME_DIRECTORY nor XDG_RUNTIME_DIR is set"
    );
    USAGE_STATUS
}
