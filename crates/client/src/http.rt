//! One request to a server, and its answer: of HTTP as much as the door of a server speaks.

use httparse::Status;
use httparse::spans::{EMPTY_HEADER_SPAN, HeaderSpan, parse_response};
use printing_core::Fault;
use std::alloc::{AllocError, Global};
use std::io::{Read, Write};

/// How many bytes of an answer are read, at most: 64 MiB.
const MOST_ANSWER: u64 = 67_108_864;

/// How many fields an answer may have.
const MOST_FIELDS: usize = 64;

/// What is asked for.
#[derive(Clone, Copy)]
pub struct Question<'a> {
    /// By this method.
    pub method: &'a str,
    /// Of this target.
    pub target: &'a str,
    /// With this body.
    pub body: &'a [u8],
}

/// What was answered.
#[derive(Drop)]
pub struct Answer {
    /// The status.
    pub code: u16,
    /// How many items the set took, if that is said.
    pub at: Option<u64>,
    /// How many partners are behind, if that is said.
    pub behind: Option<u64>,
    /// All bytes, and where the body begins among them.
    came: Vec<u8>,
    start: usize,
}

impl Answer {
    /// The body.
    pub fn body(&self) -> &[u8] {
        self.came.get(self.start..).unwrap_or(b"")
    }

    /// Whether it is done, or is being done.
    pub fn is_good(&self) -> bool {
        self.code >= 200 && self.code < 300
    }
}

/// All bytes of a request.
fn request_text(alloc: Global, question: Question<'_>) -> Result<Vec<u8>, AllocError> {
    let Question {
        method,
        target,
        body,
    } = question;
    let mut head = format!(in alloc; "{method} {target} HTTP/1.1\r\nHost: localhost\r\n")?;
    write!(
        head,
        "Connection: close\r\nContent-Length: {}\r\n\r\n",
        body.len()
    )?;
    let mut bytes = Vec::from_slice(alloc, head.as_bytes())?;
    bytes.extend_from_slice(body)?;
    Ok(bytes)
}

/// The number that the first field of this name has, if it has one.
fn number_in(came: &[u8], fields: &[HeaderSpan], name: &[u8]) -> Option<u64> {
    for field in fields {
        let given = came.get(field.name.start..field.name.end)?;
        if given.eq_ignore_ascii_case(name) {
            let value = came.get(field.value.start..field.value.end)?;
            return str::from_utf8(value).ok()?.parse::<u64>().ok();
        }
    }
    None
}

/// The answer in these bytes, if it came whole.
fn answer_in(came: Vec<u8>) -> Option<Answer> {
    let mut room = [EMPTY_HEADER_SPAN; MOST_FIELDS];
    let Ok(Status::Complete(head)) = parse_response(&came, &mut room) else {
        return None;
    };
    let fields = room.get(..head.headers)?;
    let length = number_in(&came, fields, b"content-length")?;
    if came.len().saturating_sub(head.len) as u64 != length {
        return None;
    }
    let at = number_in(&came, fields, b"rangesync-at");
    let behind = number_in(&came, fields, b"rangesync-behind");
    Some(Answer {
        code: head.code,
        at,
        behind,
        came,
        start: head.len,
    })
}

/// Asks this over a connection, and reads until it is closed. A server that answers before it has read all is heard.
/// Else `io read` or 90.
pub fn ask<I: Read + Drop, O: Write + Drop>(
    alloc: Global,
    question: Question<'_>,
    ends: (I, O),
) -> Result<Answer, Fault> {
    let (reader, mut writer) = ends;
    let bytes = request_text(alloc, question)?;
    // Where it is not taken whole, the answer says why.
    if writer.write_all(&bytes).is_ok() {
        let _flushed = writer.flush();
    }
    let mut came = Vec::new(alloc);
    // What came before a failure may be a whole answer.
    let _read = reader.take(MOST_ANSWER).read_to_end(&mut came);
    match answer_in(came) {
        Some(answer) => Ok(answer),
        None => Err(Fault::ReaderFailed),
    }
}
