//! What those ask for who speak HTTP.

ghost use Rattle.std.specs.Prelude.{◌≡◌, IfSome, IfNone};
ghost use Rattle.http_core.specs.Requests.{Answers, IsWaitedFor, asked_for, before_byte, by_method, path_of, refused};
ghost use Rattle.http_core.specs.Requests.{request_for};

use httparse::spans::{EMPTY_HEADER_SPAN, parse_request};
use httparse::{Error, Status};
use memchr::memchr;

/// How many bytes the head of a request may have.
pub const MOST_HEAD: usize = 8_192;

/// How many fields it may have.
const MOST_FIELDS: usize = 64;

/// What a request asks for.
#[derive(Clone, Copy, Debug, PartialEq, Eq)]
pub enum Asked {
    /// The metrics.
    Metrics,
    /// The page.
    Page,
    /// Something that is not there.
    Missing,
    /// To do something else than to read what is there.
    Method,
    /// Nothing: these bytes are no request.
    Malformed,
    /// Too much: its head is too long.
    TooLong,
}

/// A request: what it asks for, and whether it wants the lines before the body alone.
#[derive(Clone, Copy, Debug, PartialEq, Eq)]
pub struct Request {
    /// What it asks for.
    pub asked: Asked,
    /// Whether its method is HEAD.
    pub is_head: bool,
}

/// What is there, where it is asked for by this method.
fn by_method(method: &[u8], asked: Asked) -> Asked
    ensures { result ≡ by_method method.now asked }
{
    if method == b"GET".as_slice() || method == b"HEAD".as_slice() {
        return asked;
    }
    Asked::Method
}

/// What stands before the first byte of this value; all, where there is none.
pub(crate) fn before_byte(byte: u8, bytes: &[u8]) -> &[u8]
    ensures { result.now ≡ before_byte byte bytes.now }
{
    match memchr(byte, bytes) {
        Some(end) => &bytes[..end],
        None => bytes,
    }
}

/// The path of a target: what stands before its query.
pub fn path_of(target: &[u8]) -> &[u8]
    ensures { result.now ≡ path_of target.now }
{
    before_byte(b'?', target)
}

/// What this method asks for of this path.
fn asked_for(method: &[u8], path: &[u8]) -> Asked
    ensures { result ≡ asked_for method.now path.now }
{
    if path == b"/metrics".as_slice() {
        return by_method(method, Asked::Metrics);
    }
    if path == b"/".as_slice() {
        return by_method(method, Asked::Page);
    }
    Asked::Missing
}

/// The request with this method and this target.
fn request_for(method: &[u8], target: &[u8]) -> Request
    ensures { result ≡ request_for method.now target.now }
{
    Request {
        asked: asked_for(method, path_of(target)),
        is_head: method == b"HEAD".as_slice(),
    }
}

/// What is no request that could be answered, for this.
fn refused(asked: Asked) -> Request
    ensures { result ≡ refused asked }
{
    Request {
        asked,
        is_head: false,
    }
}

/// The request in these bytes, which came first on a connection. None where its head has not come whole.
pub fn request_in(came: &[u8]) -> Option<Request>
    ensures answers { IfSome result (Answers came.now) }
    ensures waits { IfNone result (IsWaitedFor came.now) }
{
    let mut fields = [EMPTY_HEADER_SPAN; MOST_FIELDS];
    match parse_request(came, &mut fields) {
        Ok(Status::Complete(head)) => Some(request_for(head.method.of(came), head.path.of(came))),
        Ok(Status::Partial) if came.len() < MOST_HEAD => None,
        Ok(Status::Partial) | Err(Error::TooManyHeaders) => Some(refused(Asked::TooLong)),
        Err(_) => Some(refused(Asked::Malformed)),
    }
}
