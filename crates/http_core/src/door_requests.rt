//! What programs of the machine ask for at the door of a server.

ghost use Rattle.std.specs.Prelude.{◌≡◌, ◌≤◌, length, map, take, All, IfSome, IfNone};
ghost use Rattle.std.specs.List.{list_all, list_any};
ghost use Rattle.httparse.specs.Spans.{IsHeaderWithin, IsWithin, header_bytes, span_bytes};
ghost use Rattle.http1.specs.Fields.{is_named};
ghost use Rattle.http_core.specs.Requests.{IsWaitedFor};
ghost use Rattle.http_core.specs.DoorRequests.{AsksAtDoor, asks, door_asked, is_foreign, is_item_path, is_local};
ghost use Rattle.http_core.specs.DoorRequests.{is_loopback, is_number_byte, is_own_name, items_asked, only_posted};
ghost use Rattle.http_core.specs.DoorRequests.{only_read, refused, request_of, body_asked, with_body};

use crate::requests::{MOST_HEAD, before_byte, path_of};
use http1::fields::{ContentLength, KnownFields, TransferEncoding};
use http1::text::eq_ignore_case;
use httparse::spans::{EMPTY_HEADER_SPAN, HeaderSpan, RequestSpans, parse_request};
use httparse::{Error, Status};

/// How many bytes the body of a request may have: 16 MiB.
pub const MOST_BODY: u64 = 16_777_216;

/// How many fields a request may have.
const MOST_FIELDS: usize = 64;

/// What is asked for at a door.
#[derive(Clone, Copy, Debug, PartialEq, Eq)]
pub enum DoorAsked {
    /// To put in the items of the body.
    Put,
    /// All items.
    Items,
    /// Whether an item is there.
    Item,
    /// What the set took.
    News,
    /// How the server stands.
    Status,
    /// To run all links.
    Sync,
    /// To stop.
    Stop,
    /// Something that is not there.
    Missing,
    /// To do something else than to read what is there.
    OnlyRead,
    /// To do something else than to post to what is there.
    OnlyPosted,
    /// To do something else than to read what is there, or to post to it.
    NoMethod,
    /// Nothing: these bytes are no request.
    Malformed,
    /// Too much: its head is too long.
    TooLong,
    /// Nothing that is done: a page of another host may have sent it.
    Foreign,
    /// To take a body of which it does not say how long it is.
    NoLength,
    /// To take a body that is too long.
    TooLarge,
}

/// A request at a door.
#[derive(Clone, Copy, Debug, PartialEq, Eq)]
pub struct DoorRequest {
    /// What it asks for.
    pub asked: DoorAsked,
    /// Whether it wants the lines before the body alone: its method is HEAD.
    pub is_head: bool,
    /// Whether it waits for a line before it sends its body.
    pub expects: bool,
    /// Where its target begins, and where it ends.
    pub target: (usize, usize),
    /// Where its body begins.
    pub start: usize,
    /// How many bytes its body has.
    pub length: u64,
}

/// What is there to be read, where it is asked for by this method.
fn only_read(method: &[u8], asked: DoorAsked) -> DoorAsked
    ensures { result ≡ only_read method.now asked }
{
    if method == b"GET".as_slice() || method == b"HEAD".as_slice() {
        return asked;
    }
    DoorAsked::OnlyRead
}

/// What is there to be posted to, where it is asked for by this method.
fn only_posted(method: &[u8], asked: DoorAsked) -> DoorAsked
    ensures { result ≡ only_posted method.now asked }
{
    if method == b"POST".as_slice() {
        return asked;
    }
    DoorAsked::OnlyPosted
}

/// What this method asks for of the items.
fn items_asked(method: &[u8]) -> DoorAsked
    ensures { result ≡ items_asked method.now }
{
    if method == b"POST".as_slice() {
        return DoorAsked::Put;
    }
    if method == b"GET".as_slice() || method == b"HEAD".as_slice() {
        return DoorAsked::Items;
    }
    DoorAsked::NoMethod
}

/// Whether a path is that of an item.
fn is_item_path(path: &[u8]) -> bool
    ensures { result ≡ is_item_path path.now }
{
    path.starts_with(b"/items/")
}

/// What this method asks for of this path.
fn door_asked(method: &[u8], path: &[u8]) -> DoorAsked
    ensures { result ≡ door_asked method.now path.now }
{
    if path == b"/items".as_slice() {
        return items_asked(method);
    }
    if is_item_path(path) {
        return only_read(method, DoorAsked::Item);
    }
    if path == b"/news".as_slice() {
        return only_read(method, DoorAsked::News);
    }
    if path == b"/status".as_slice() {
        return only_read(method, DoorAsked::Status);
    }
    if path == b"/sync".as_slice() {
        return only_posted(method, DoorAsked::Sync);
    }
    if path == b"/stop".as_slice() {
        return only_posted(method, DoorAsked::Stop);
    }
    DoorAsked::Missing
}

/// What is asked for, and how many bytes of a body it has.
#[derive(Clone, Copy, Debug, PartialEq, Eq)]
pub(crate) struct Sized {
    pub(crate) asked: DoorAsked,
    pub(crate) length: u64,
}

/// What is asked for with a body that these fields tell of: with one that cannot be taken it is refused.
fn body_asked(asked: DoorAsked, known: KnownFields) -> Sized
    ensures { result ≡ body_asked asked known }
{
    if known.transfer_encoding != TransferEncoding::Absent {
        return Sized {
            asked: DoorAsked::NoLength,
            length: 0,
        };
    }
    match known.content_length {
        ContentLength::Absent if asked == DoorAsked::Put => {
            Sized {
                asked: DoorAsked::NoLength,
                length: 0,
            }
        }
        ContentLength::Absent => Sized { asked, length: 0 },
        ContentLength::Invalid => Sized {
            asked: DoorAsked::Malformed,
            length: 0,
        },
        ContentLength::Value(length) if length > MOST_BODY => {
            Sized {
                asked: DoorAsked::TooLarge,
                length: 0,
            }
        }
        ContentLength::Value(length) => Sized { asked, length },
    }
}

/// The same, where it is something that takes a body. What is read takes none.
fn with_body(asked: DoorAsked, known: KnownFields) -> Sized
    ensures { result ≡ with_body asked known }
{
    match asked {
        DoorAsked::Put | DoorAsked::Sync | DoorAsked::Stop => body_asked(asked, known),
        _ => Sized { asked, length: 0 },
    }
}

/// Whether a byte may stand in an IPv4 address.
fn is_number_byte(byte: u8) -> bool
    ensures { result ≡ is_number_byte byte }
{
    byte.is_ascii_digit() || byte == b'.'
}

/// Whether all bytes are digits or dots.
fn are_numbers(name: &[u8]) -> bool
    ensures { result ≡ list_all is_number_byte name.now }
{
    name.iter().all(|byte| is_number_byte(*byte))
}

/// Whether a name without its port is this machine's own: `localhost`, or an address that begins with 127.
fn is_own_name(name: &[u8]) -> bool
    ensures { result ≡ is_own_name name.now }
{
    eq_ignore_case(name, b"localhost") || (name.starts_with(b"127.") && are_numbers(name))
}

/// Whether the value of a field Host names the loopback.
fn is_loopback(host: &[u8]) -> bool
    ensures { result ≡ is_loopback host.now }
{
    before_byte(b']', host) == b"[::1".as_slice() || is_own_name(before_byte(b':', host))
}

/// Whether a field of this name and this value is a Host that is not the loopback.
fn is_foreign(name: &[u8], value: &[u8]) -> bool
    ensures { result ≡ is_foreign (name.now, value.now) }
{
    eq_ignore_case(name, b"host") && !is_loopback(value)
}

/// Whether one of the fields has this name.
pub(crate) fn has_field(came: &[u8], fields: &[HeaderSpan], name: &[u8]) -> bool
    requires { All (IsHeaderWithin (length came.now)) fields.now }
    ensures { result ≡ list_any (is_named name.now) (map (header_bytes came.now) fields.now) }
{
    for field in fields {
        if eq_ignore_case(field.name.of(came), name) {
            return true;
        }
    }
    false
}

/// Whether one of the fields is a Host that is not the loopback.
fn has_foreign_host(came: &[u8], fields: &[HeaderSpan]) -> bool
    requires { All (IsHeaderWithin (length came.now)) fields.now }
    ensures { result ≡ list_any is_foreign (map (header_bytes came.now) fields.now) }
{
    for field in fields {
        if is_foreign(field.name.of(came), field.value.of(came)) {
            return true;
        }
    }
    false
}

/// Whether these fields are of a program of this machine, and not of a page of another host: no Origin, and each Host
/// is the loopback, of which there is one at least.
fn is_local(came: &[u8], fields: &[HeaderSpan]) -> bool
    requires { All (IsHeaderWithin (length came.now)) fields.now }
    ensures { result ≡ is_local (map (header_bytes came.now) fields.now) }
{
    !has_field(came, fields, b"origin")
        && has_field(came, fields, b"host")
        && !has_foreign_host(came, fields)
}

/// What a request with these fields asks for, and how many bytes of a body it has. Over TCP it has to be of a program
/// of this machine.
fn asks(came: &[u8], head: RequestSpans, fields: &[HeaderSpan], is_tcp: bool) -> Sized
    requires method { IsWithin (length came.now) head.method }
    requires path { IsWithin (length came.now) head.path }
    requires fields { All (IsHeaderWithin (length came.now)) fields.now }
    ensures { result ≡ asks is_tcp (span_bytes came.now head.method) (span_bytes came.now head.path)
        (map (header_bytes came.now) fields.now) }
{
    if is_tcp && !is_local(came, fields) {
        return Sized {
            asked: DoorAsked::Foreign,
            length: 0,
        };
    }
    let asked = door_asked(head.method.of(came), path_of(head.path.of(came)));
    with_body(asked, KnownFields::from_spans(came, fields))
}

/// The request with this head and these fields.
fn request_of(came: &[u8], head: RequestSpans, fields: &[HeaderSpan], is_tcp: bool) -> DoorRequest
    requires method { IsWithin (length came.now) head.method }
    requires path { IsWithin (length came.now) head.path }
    requires fields { All (IsHeaderWithin (length came.now)) fields.now }
    ensures { result ≡ request_of is_tcp came.now head (map (header_bytes came.now) fields.now) }
{
    let Sized { asked, length } = asks(came, head, fields, is_tcp);
    DoorRequest {
        asked,
        is_head: head.method.of(came) == b"HEAD".as_slice(),
        expects: KnownFields::from_spans(came, fields).expect_continue,
        target: (head.path.start, head.path.end),
        start: head.len,
        length,
    }
}

/// The first so many fields.
pub(crate) fn first_fields(fields: &[HeaderSpan], count: usize) -> &[HeaderSpan]
    requires { count ≤ length fields.now }
    ensures { result.now ≡ take count fields.now }
{
    &fields[..count]
}

/// What is no request that could be done, for this.
fn refused(asked: DoorAsked) -> DoorRequest
    ensures { result ≡ refused asked }
{
    DoorRequest {
        asked,
        is_head: false,
        expects: false,
        target: (0, 0),
        start: 0,
        length: 0,
    }
}

/// The request at a door in these bytes, which came first on a connection. None where its head has not come whole. Over
/// TCP a request that a page of another host may have sent is refused before anything else.
pub fn door_request_in(came: &[u8], is_tcp: bool) -> Option<DoorRequest>
    ensures answers { IfSome result (AsksAtDoor is_tcp came.now) }
    ensures waits { IfNone result (IsWaitedFor came.now) }
{
    let mut fields = [EMPTY_HEADER_SPAN; MOST_FIELDS];
    match parse_request(came, &mut fields) {
        Ok(Status::Complete(head)) => {
            let fields = first_fields(&fields, head.headers);
            Some(request_of(came, head, fields, is_tcp))
        }
        Ok(Status::Partial) if came.len() < MOST_HEAD => None,
        Ok(Status::Partial) | Err(Error::TooManyHeaders) => Some(refused(DoorAsked::TooLong)),
        Err(_) => Some(refused(DoorAsked::Malformed)),
    }
}
