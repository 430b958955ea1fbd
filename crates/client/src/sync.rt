//! One session with who listens.

ghost use Rattle.std.specs.Prelude.{◌≡◌, ◌≤◌};
ghost use Rattle.std.specs.Arc.{arc_value};

use crate::asked::Asking;
use crate::calling::Call;
use crate::keeping::{keep_learned, open_keep_file};
use crate::printing::{create_file, print_to};
use crate::talking::converse;
use crate::trying::Tries;
use loading::Loaded;
use peer_threads::Outcome;
use printing_core::{
    Fault, Refusal, Stats, finds_any, outcome_text, refusal_of_session, tell_stats,
};
use range_tree::Tree;
use std::fs::File;
use std::io::{Read, Write};
use std::net::{Net, TcpStream};
use std::rt::Files;
use std::sync::{Arc, Wait};
use std::time::Clock;
use strategy_check::Accepted;
use version_log::Log;

/// Runs one session as the initiator, over this reader and this writer. What comes of it, and what it cost. Else 90, or
/// `io write` before it has begun.
pub fn ask<R: Wait + Clock + AllocGlobal, I: Read + Drop, O: Write + Drop>(
    rt: &R,
    loaded: Loaded,
    asking: Asking<'_>,
    ends: (I, O),
) -> Result<(Outcome, Stats), Fault>
    requires cap { loaded.set.cap ≡ loaded.accepted.table.cap }
{
    let alloc = rt.alloc();
    let Loaded { accepted, set, .. } = loaded;
    let accepted = Arc::new(alloc, accepted)?;
    converse(rt, alloc, &accepted, set.into_first(), asking.talk(), ends)
}

/// Connects, and runs one session as the initiator over this log, which is let go. What comes of it, and what it cost.
/// Else 61, 90, or `io write` before it has begun.
fn ask_at<'a, R>(
    rt: &R,
    accepted: &Arc<Accepted>,
    log: Log<Tree>,
    asking: Asking<'a>,
) -> Result<(Outcome, Stats), Refusal<'a>>
where
    R: Files + Net<Stream = TcpStream> + Wait + Clock + AllocGlobal,
    requires cap { log.cap ≤ (arc_value accepted.now).table.cap }
{
    let call = Call::to(rt, asking.address, asking.limits.patience)?;
    call.run(rt, accepted, log, asking.talk())
}

/// Why a session did not come to its end, or was not begun.
fn fault_of(asked: &Result<(Outcome, Stats), Refusal<'_>>) -> Option<Fault> {
    match asked {
        Ok((outcome, _)) => refusal_of_session(outcome).err(),
        Err(refusal) => Some(refusal.fault),
    }
}

/// The same over what was loaded, and again as often as is asked for, so long as it does not come to its end and may do
/// so. What comes of the last.
fn ask_again<'a, R, E: Write>(
    rt: &R,
    loaded: Loaded,
    asking: Asking<'a>,
    err: &mut E,
) -> Result<(Outcome, Stats), Refusal<'a>>
where
    R: Files + Net<Stream = TcpStream> + Wait + Clock + AllocGlobal,
    requires cap { loaded.set.cap ≡ loaded.accepted.table.cap }
{
    let alloc = rt.alloc();
    let Loaded { accepted, set, .. } = loaded;
    let accepted = Arc::new(alloc, accepted)?;
    let log = set.into_first();
    let mut tries = Tries::new(asking.retry, asking.explains);
    for _try in 0..tries.left() {
        let asked = ask_at(rt, &accepted, log.copy(alloc)?, asking);
        if !tries.wait(rt, fault_of(&asked), err) {
            return asked;
        }
    }
    ask_at(rt, &accepted, log, asking)
}

/// Runs one session as the initiator, and prints what was learned, to the file if one is asked for. Then what the peer
/// was first to know is appended to the file that keeps it, if that is asked for. If it is asked for, standard error is
/// told what the session cost, however it ended. Whether the sets differ.
///
/// Else 80 if a file cannot be opened or made, 61, 90, the number of the refusal of this side or of the peer, or
/// `io read` or `io write`.
pub fn sync<'a, R, O: Write + Drop, E: Write>(
    rt: &R,
    loaded: Loaded,
    asking: Asking<'a>,
    out: O,
    err: &mut E,
) -> Result<bool, Refusal<'a>>
where
    R: Files<File = File> + Net<Stream = TcpStream> + Wait + Clock + AllocGlobal,
    requires cap { loaded.set.cap ≡ loaded.accepted.table.cap }
{
    let keep_file = open_keep_file(rt, asking, loaded.kept.items, err)?;
    let file = create_file(rt, asking.out)?;
    let (outcome, stats) = ask_again(rt, loaded, asking, err)?;
    if asking.stats {
        tell_stats(err, stats);
    }
    let text = match outcome_text(rt.alloc(), asking.listing, &outcome) {
        Ok(text) => text,
        Err(fault) => {
            let received = stats.received.bytes;
            return Err(Refusal::of_session_after(asking.limits, received, fault));
        }
    };
    let printed = print_to(file, out, text.as_bytes());
    keep_learned(rt.alloc(), keep_file, &outcome)?;
    printed?;
    Ok(finds_any(&outcome))
}
