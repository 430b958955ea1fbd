//! What a server begins with: the parts of its set, what its threads share, and its door.

ghost use Rattle.std.specs.Prelude.{◌≡◌, IfOk};
ghost use Rattle.std.specs.Arc.{arc_value};
ghost use Rattle.loading.specs.Sharded.{HaveCap};

use crate::asked::Serving;
use crate::door::{Door, open_door};
use crate::doors::Doors;
use crate::limits::capacity;
use crate::linking::partners_of;
use crate::loops::Loops;
use crate::reporting::DiskReporter;
use http_core::Arrivals;
use peer_loops::{Board, Front, News, Partners, Parts};
use printing_core::Refusal;
use range_tree::Tree;
use session_table::SessionTable;
use shard_core::OneShard;
use std::alloc::{AllocError, Global};
use std::io::Write;
use std::rt::Files;
use std::sync::{Arc, Mutex};
use strategy_check::Accepted;
use version_log::Log;

/// Which items may be put into the part of this number: those of its shard, if the set is cut into shards, else all.
fn own_of(front: Front<'_>, number: u16) -> Option<OneShard> {
    match front {
        Front::Cut(set) => Some(OneShard {
            bits: set.bits,
            number,
        }),
        Front::Open | Front::Named(_) => None,
    }
}

/// The parts with these logs, of which the first has this number.
pub(crate) fn parts_of(
    alloc: Global,
    accepted: &Arc<Accepted>,
    front: Front<'_>,
    first: u16,
    logs: Vec<Log<Tree>>,
) -> Result<Parts, AllocError>
    requires { HaveCap (arc_value accepted.now).table.cap logs.items }
{
    let mut parts = Parts::new(alloc, first);
    let mut number = first;
    for log in logs {
        parts.add(alloc, accepted, own_of(front, number), log)?;
        number = number.saturating_add(1);
    }
    Ok(parts)
}

/// What the threads of a server share, beside its gate and the parts of its set.
#[derive(Drop)]
pub(crate) struct State<'p> {
    pub(crate) accepted: Arc<Accepted>,
    pub(crate) sessions: Mutex<SessionTable>,
    pub(crate) news: News,
    pub(crate) board: Board,
    pub(crate) partners: Partners<'p>,
}

/// What the threads of a server share, before they begin.
pub(crate) fn state_of<'p, R: Loops>(
    rt: &R,
    accepted: Accepted,
    serving: Serving<'p>,
) -> Result<State<'p>, AllocError>
    ensures { IfOk result (λ state. arc_value state.accepted ≡ accepted) }
{
    let alloc = rt.alloc();
    let accepted = Arc::new(alloc, accepted)?;
    let partners = partners_of(rt, alloc, serving.calling)?;
    let places = capacity(serving.limits.peers, partners.threads());
    Ok(State {
        accepted,
        sessions: Mutex::new(SessionTable::new(alloc, places)?),
        news: News::new(),
        board: Board::new(alloc)?,
        partners,
    })
}

/// Opens the door of a server, if one is asked for, and says so. Else 60, 90 or `io write`; and no file of a socket is
/// left.
pub(crate) fn open_announced<'a, R, O: Write, E: Write>(
    rt: &'a R,
    serving: Serving<'a>,
    doors: &Doors<'_, R>,
    out: &mut O,
    err: &mut E,
) -> Result<Option<Door<'a, R>>, Refusal<'a>>
where
    R: Files + Loops,
{
    let opened = match open_door(rt, serving.watching.control) {
        Ok(Some(door)) => door,
        Ok(None) => return Ok(None),
        Err(refusal) => {
            doors.remove_files(rt);
            return Err(refusal);
        }
    };
    match opened.announce(rt.alloc(), out, err) {
        Ok(()) => Ok(Some(opened)),
        Err(refusal) => {
            doors.remove_files(rt);
            opened.remove_file(rt);
            Err(refusal)
        }
    }
}

/// The gate of a server whose set has so many items. If there is a door, it keeps the last items that the set takes.
pub(crate) fn with_arrivals<'r, 'a, R: Loops, E: Write + Drop>(
    reporter: DiskReporter<'r, 'a, R, E>,
    alloc: Global,
    serving: Serving<'_>,
    items: u64,
) -> Result<DiskReporter<'r, 'a, R, E>, AllocError> {
    if serving.watching.control.is_none() {
        return Ok(reporter);
    }
    Ok(reporter.with_arrivals(Arrivals::new(alloc, items)?))
}
