//! One session over standard input and output, to which nothing else is printed.

ghost use Rattle.std.specs.Prelude.{◌≡◌};

use crate::asked::Asking;
use crate::keeping::{keep_learned, open_keep_file};
use crate::printing::{create_file, print_to};
use crate::sync::ask;
use loading::Loaded;
use printing_core::{Refusal, finds_any, outcome_text, tell_stats};
use std::fs::File;
use std::io::{Read, Write};
use std::rt::Files;
use std::sync::Wait;
use std::time::Clock;

/// Runs one session over this reader and this writer as the initiator. What was learned goes to the file that is asked
/// for, or to standard error, and so does what the session cost, if that is asked for. Then what the peer was first to
/// know is appended to the file that keeps it, if that is asked for. Whether the sets differ.
///
/// Else 80 if a file cannot be opened or made, 90, the number of the refusal of this side or of the peer, or `io read`
/// or `io write`.
pub fn sync_stdio<'a, R, I: Read + Drop, O: Write + Drop, E: Write>(
    rt: &R,
    loaded: Loaded,
    asking: Asking<'a>,
    ends: (I, O),
    err: &mut E,
) -> Result<bool, Refusal<'a>>
where
    R: Files<File = File> + Wait + Clock + AllocGlobal,
    requires cap { loaded.set.cap ≡ loaded.accepted.table.cap }
{
    let keep_file = open_keep_file(rt, asking, loaded.kept.items, err)?;
    let file = create_file(rt, asking.out)?;
    let (outcome, stats) = ask(rt, loaded, asking, ends)?;
    if asking.stats {
        tell_stats(err, stats);
    }
    let text = match outcome_text(rt.alloc(), asking.listing, &outcome) {
        Ok(text) => text,
        Err(fault) => return Err(Refusal::of_peer(asking.limits.most_bytes, fault)),
    };
    let printed = print_to(file, err, text.as_bytes());
    keep_learned(rt.alloc(), keep_file, &outcome)?;
    printed?;
    Ok(finds_any(&outcome))
}
