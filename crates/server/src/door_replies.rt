//! What is answered at a door, but for the items.

use crate::reporting::DiskReporter;
use crate::watching::{Sight, standing};
use crate::yard::Yard;
use http_core::{DoorAsked, DoorReply, DoorRequest, DoorStatus, door_head, query_value};
use std::alloc::{AllocError, Global};
use std::io::Write;
use std::sync::Wait;
use watch_core::{Partnered, Status, behind_of, partner_lines, status_json, status_lines};

/// For how many milliseconds turns with partners are waited for, at most.
const MOST_MILLISECONDS: u64 = 60_000;

/// An answer of this status, without fields of its own.
pub fn plain(status: DoorStatus) -> DoorReply {
    DoorReply {
        status,
        at: None,
        in_memory: false,
        behind: None,
        is_json: false,
    }
}

/// All bytes of an answer with this body, which is left out to HEAD.
pub fn whole(
    alloc: Global,
    request: &DoorRequest,
    reply: DoorReply,
    body: &[u8],
) -> Result<Vec<u8>, AllocError> {
    let head = door_head(alloc, reply, Some(body.len()))?;
    let mut bytes = Vec::from_slice(alloc, head.as_bytes())?;
    if !request.is_head {
        bytes.extend_from_slice(body)?;
    }
    Ok(bytes)
}

/// What comes of a request that is not done, and the line that says so.
fn refusal_of(asked: DoorAsked) -> (DoorStatus, &'static str) {
    match asked {
        DoorAsked::OnlyRead => (
            DoorStatus::OnlyRead,
            "405: only GET and HEAD are answered\n",
        ),
        DoorAsked::OnlyPosted => (DoorStatus::OnlyPosted, "405: only POST is answered\n"),
        DoorAsked::NoMethod => (
            DoorStatus::NoMethod,
            "405: only GET, HEAD and POST are answered\n",
        ),
        DoorAsked::Malformed => (DoorStatus::Unread, "400: this is no request\n"),
        DoorAsked::TooLong => (
            DoorStatus::TooLong,
            "431: the head of the request is too long\n",
        ),
        DoorAsked::Foreign => (
            DoorStatus::Foreign,
            "403: programs of this machine alone are answered, by an address of the loopback\n",
        ),
        DoorAsked::NoLength => (DoorStatus::NoLength, "411: say how long the body is\n"),
        DoorAsked::TooLarge => (
            DoorStatus::TooLarge,
            "413: a body has at most 16,777,216 bytes\n",
        ),
        _ => (
            DoorStatus::Missing,
            "404: there are /items, /items/ITEM, /news, /status, /stop and /sync\n",
        ),
    }
}

/// The answer to what is not done.
pub fn refused(alloc: Global, request: &DoorRequest) -> Result<Vec<u8>, AllocError> {
    let (status, line) = refusal_of(request.asked);
    whole(alloc, request, plain(status), line.as_bytes())
}

/// How a server with these partners stands now.
fn status_of<'s, R: Wait, E: Write + Drop>(
    yard: &'s Yard<'_, '_, R, DiskReporter<'_, '_, R, E>>,
    partners: &'s [Partnered<'s>],
    now: u64,
) -> Status<'s> {
    let totals = yard.common.sessions.lock(yard.rt).totals();
    let begun = (yard.beginning, partners);
    Status {
        standing: standing(yard.rt, yard.common, yard.sight.board, begun, now),
        taken: yard.common.gate.taken(),
        opened: totals.opened,
        ended: totals.ended,
    }
}

/// The answer to who asks how a server stands: JSON, or lines if that is said.
pub fn status_answer<R: Wait, E: Write + Drop>(
    yard: &Yard<'_, '_, R, DiskReporter<'_, '_, R, E>>,
    request: &DoorRequest,
    target: &[u8],
    now: u64,
) -> Result<Vec<u8>, AllocError> {
    let alloc = yard.alloc;
    let partners = yard.sight.partners.standings(yard.rt, alloc, now)?;
    let status = status_of(yard, &partners, now);
    let is_json = query_value(target, b"as") != Some(b"lines".as_slice());
    let text = if is_json {
        status_json(alloc, &status)?
    } else {
        status_lines(alloc, &status)?.into_bytes()
    };
    let reply = DoorReply {
        is_json,
        behind: Some(behind_of(&partners)),
        ..plain(DoorStatus::Done)
    };
    whole(alloc, request, reply, &text)
}

/// What a caller waits for that has asked for a turn with each partner: so many turns with each, until this time.
#[derive(Drop)]
pub struct TurnsAsked {
    wanted: Vec<u64>,
    pub until: u64,
}

/// Calls all partners. What is then waited for.
pub fn turns_asked<R: Wait, E: Write + Drop>(
    yard: &Yard<'_, '_, R, DiskReporter<'_, '_, R, E>>,
    now: u64,
) -> Result<TurnsAsked, AllocError> {
    let wanted = yard.sight.partners.call_all(yard.rt, yard.alloc)?;
    yard.common.news.tell(yard.rt);
    Ok(TurnsAsked {
        wanted,
        until: now.saturating_add(MOST_MILLISECONDS),
    })
}

/// The answer to who has asked for a turn with each partner: a line for each, unless some are still waited for.
pub fn turns_answer<R: Wait, E: Write + Drop>(
    yard: &Yard<'_, '_, R, DiskReporter<'_, '_, R, E>>,
    request: &DoorRequest,
    asked: &TurnsAsked,
    now: u64,
) -> Result<Option<Vec<u8>>, AllocError> {
    let Sight { board, partners } = yard.sight;
    let have_had = partners.have_had(yard.rt, &asked.wanted);
    if !have_had && now < asked.until && !board.is_stopping() {
        return Ok(None);
    }
    let standings = partners.standings(yard.rt, yard.alloc, now)?;
    let lines = partner_lines(yard.alloc, &standings)?;
    let answer = whole(
        yard.alloc,
        request,
        plain(DoorStatus::Done),
        lines.as_bytes(),
    )?;
    Ok(Some(answer))
}
