//! What is answered at the door of a server.

ghost use Rattle.std.specs.Prelude.{◌≡◌, ◌++◌, IfOk, OnOk, string_bytes};
ghost use Rattle.http_core.specs.DoorReplies.{at_text, behind_text, door_caution, door_head, fields_text};
ghost use Rattle.http_core.specs.DoorReplies.{framing_text, kept_text, status_line, type_text};

use std::alloc::{AllocError, Global};

/// What comes of a request at a door.
#[derive(Clone, Copy, Debug, PartialEq, Eq)]
pub enum DoorStatus {
    /// 200: it is done.
    Done,
    /// 202: it is being done.
    Accepted,
    /// 400: it cannot be read.
    Unread,
    /// 403: a page of another host may have sent it.
    Foreign,
    /// 404: it is not there.
    Missing,
    /// 405: it is only read, only posted to, or both.
    OnlyRead,
    OnlyPosted,
    NoMethod,
    /// 410: it is no longer there.
    Gone,
    /// 411: it does not say how long its body is.
    NoLength,
    /// 413: its body is too long.
    TooLarge,
    /// 431: its head is too long.
    TooLong,
    /// 507: the set, or the disk, is full.
    NoRoom,
}

/// What is answered, beside the body.
#[derive(Clone, Copy, Debug, PartialEq, Eq)]
pub struct DoorReply {
    /// What comes of the request.
    pub status: DoorStatus,
    /// How many items the set took, where that is told.
    pub at: Option<u64>,
    /// Whether it is told that no file keeps the set.
    pub in_memory: bool,
    /// How many partners are behind, where that is told.
    pub behind: Option<usize>,
    /// Whether the body is JSON: else it is text.
    pub is_json: bool,
}

/// Nothing of an answer is kept, or taken for something else.
const CAUTION: &str = "Cache-Control: no-store\r\nX-Content-Type-Options: nosniff\r\n";

/// The first line of an answer.
#[tactic(auto, unfolding(crate::specs::DoorReplies::status_line))]
fn status_line(status: DoorStatus) -> &'static str
    ensures { result.now ≡ status_line status }
{
    match status {
        DoorStatus::Done => "HTTP/1.1 200 OK\r\n",
        DoorStatus::Accepted => "HTTP/1.1 202 Accepted\r\n",
        DoorStatus::Unread => "HTTP/1.1 400 Bad Request\r\n",
        DoorStatus::Foreign => "HTTP/1.1 403 Forbidden\r\n",
        DoorStatus::Missing => "HTTP/1.1 404 Not Found\r\n",
        DoorStatus::OnlyRead => "HTTP/1.1 405 Method Not Allowed\r\nAllow: GET, HEAD\r\n",
        DoorStatus::OnlyPosted => "HTTP/1.1 405 Method Not Allowed\r\nAllow: POST\r\n",
        DoorStatus::NoMethod => "HTTP/1.1 405 Method Not Allowed\r\nAllow: GET, HEAD, POST\r\n",
        DoorStatus::Gone => "HTTP/1.1 410 Gone\r\n",
        DoorStatus::NoLength => "HTTP/1.1 411 Length Required\r\n",
        DoorStatus::TooLarge => "HTTP/1.1 413 Content Too Large\r\n",
        DoorStatus::TooLong => "HTTP/1.1 431 Request Header Fields Too Large\r\n",
        DoorStatus::NoRoom => "HTTP/1.1 507 Insufficient Storage\r\n",
    }
}

/// The line of what the body is.
#[tactic(auto, unfolding(crate::specs::DoorReplies::type_text))]
fn type_text(is_json: bool) -> &'static str
    ensures { result.now ≡ type_text is_json }
{
    if is_json {
        "Content-Type: application/json\r\n"
    } else {
        "Content-Type: text/plain; charset=utf-8\r\n"
    }
}

/// Appends how many items the set took, where that is told.
#[tactic(auto, unfolding(crate::specs::DoorReplies::at_text))]
fn push_at(text: &mut String, at: Option<u64>) -> Result<(), AllocError>
    ensures { OnOk result (string_bytes text.new ≡ string_bytes text.old ++ at_text at) }
{
    match at {
        Some(at) => write!(text, "Rangesync-At: {at}\r\n"),
        None => Ok(()),
    }
}

/// Appends that no file keeps the set, where that is told.
#[tactic(auto, unfolding(crate::specs::DoorReplies::kept_text))]
fn push_kept(text: &mut String, in_memory: bool) -> Result<(), AllocError>
    ensures { OnOk result (string_bytes text.new ≡ string_bytes text.old ++ kept_text in_memory) }
{
    if in_memory {
        text.push_str("Rangesync-Kept: memory\r\n")
    } else {
        Ok(())
    }
}

/// Appends how many partners are behind, where that is told.
#[tactic(auto, unfolding(crate::specs::DoorReplies::behind_text))]
fn push_behind(text: &mut String, behind: Option<usize>) -> Result<(), AllocError>
    ensures { OnOk result (string_bytes text.new ≡ string_bytes text.old ++ behind_text behind) }
{
    match behind {
        Some(behind) => write!(text, "Rangesync-Behind: {behind}\r\n"),
        None => Ok(()),
    }
}

/// Appends how long the body is: so many bytes, or as long as chunks come.
#[tactic(auto, unfolding(crate::specs::DoorReplies::framing_text))]
fn push_framing(text: &mut String, length: Option<usize>) -> Result<(), AllocError>
    ensures { OnOk result (string_bytes text.new ≡ string_bytes text.old ++ framing_text length) }
{
    match length {
        Some(length) => write!(
            text,
            "Connection: close\r\nContent-Length: {length}\r\n\r\n"
        ),
        None => text.push_str("Connection: close\r\nTransfer-Encoding: chunked\r\n\r\n"),
    }
}

/// Appends that nothing of it is kept, or taken for something else.
#[tactic(auto, unfolding(crate::specs::DoorReplies::door_caution))]
fn push_caution(text: &mut String) -> Result<(), AllocError>
    ensures { OnOk result (string_bytes text.new ≡ string_bytes text.old ++ door_caution) }
{
    text.push_str(CAUTION)
}

/// The first lines of an answer: its status, and what its body is.
fn first_lines(alloc: Global, reply: DoorReply) -> Result<String, AllocError>
    ensures { IfOk result (λ text. string_bytes text ≡ status_line reply.status ++ type_text reply.is_json) }
{
    let mut text = String::from_str(alloc, status_line(reply.status))?;
    text.push_str(type_text(reply.is_json))?;
    Ok(text)
}

/// Appends the fields that tell of the set and its partners.
fn push_fields(text: &mut String, reply: DoorReply) -> Result<(), AllocError>
    ensures { OnOk result (string_bytes text.new ≡ string_bytes text.old ++ fields_text reply) }
{
    push_at(text, reply.at)?;
    push_kept(text, reply.in_memory)?;
    push_behind(text, reply.behind)
}

/// All lines before the body of an answer, which has so many bytes; with none it comes in chunks.
pub fn door_head(
    alloc: Global,
    reply: DoorReply,
    length: Option<usize>,
) -> Result<String, AllocError>
    ensures { IfOk result (λ text. string_bytes text ≡ door_head reply length) }
{
    let mut text = first_lines(alloc, reply)?;
    push_caution(&mut text)?;
    push_fields(&mut text, reply)?;
    push_framing(&mut text, length)?;
    Ok(text)
}

/// The line before a chunk of so many bytes.
pub fn chunk_head(alloc: Global, length: usize) -> Result<String, AllocError> {
    format!(in alloc; "{length:x}\r\n")
}

/// What follows the last chunk.
pub const CHUNKS_END: &[u8] = b"0\r\n\r\n";
