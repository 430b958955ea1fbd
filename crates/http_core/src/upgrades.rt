//! What begins a WebSocket: the head of a request by which a client asks for one, and what is answered.

ghost use Rattle.std.specs.Prelude.{◌≡◌, ◌≤◌, length, map, take, All, IfOk, IfSome, IfNone};
ghost use Rattle.httparse.specs.Spans.{IsHeaderWithin, IsRequestWithin, header_bytes, span_bytes};
ghost use Rattle.http_core.specs.Upgrades as upgrades;
ghost use Rattle.http_core.specs.Upgrades.{AsksToUpgrade, IsHeadAwaited, Judges, is_own_page, may_come};
ghost use Rattle.http_core.specs.Upgrades.{HasKey, HasNoKey, offers_own};
ghost use Rattle.websocket.specs.Handshake.{requested_key};

use crate::door_requests::{first_fields, has_field};
use crate::requests::path_of;
use http1::text::eq_ignore_case;
use httparse::spans::{EMPTY_HEADER_SPAN, HeaderSpan, RequestSpans, parse_request};
use httparse::{Error, Status};
use std::alloc::{AllocError, Global};
use websocket::handshake::server::check_request;

/// How many bytes the head of a request for a WebSocket may have.
pub const MOST_UPGRADE: usize = 4_096;

/// How many fields it may have.
const MOST_FIELDS: usize = 64;

/// Why a client gets no WebSocket.
#[derive(Clone, Copy, Debug, PartialEq, Eq)]
pub enum NoUpgrade {
    /// It asks for something else, or for none that is there.
    Malformed,
    /// A page asks whose origin may not.
    Foreign,
    /// The head of the request is too long.
    TooLong,
}

/// What a client gets that asks for a WebSocket.
#[derive(Clone, Copy, Debug, PartialEq, Eq)]
pub enum Upgrade {
    /// A WebSocket.
    Given {
        /// What answers its key.
        accept: [u8; 28],
        /// Whether it named the protocol.
        is_named: bool,
        /// How many bytes the head of the request has.
        length: usize,
    },
    /// None, for this.
    Refused(NoUpgrade),
}

/// Whether a byte stands between two words.
fn is_between(byte: u8) -> bool
    ensures { result ≡ upgrades.is_between byte }
{
    byte == b' ' || byte == b','
}

/// Whether one of the pieces between the commas and blanks of a text is this word.
fn has_word(text: &[u8], word: &[u8]) -> bool
    ensures { result ≡ upgrades.has_word text.now word.now }
{
    let mut start = 0;
    for at in 0..text.len() {
        if is_between(text[at]) {
            if &text[start..at] == word {
                return true;
            }
            start = at + 1;
        }
    }
    &text[start..] == word
}

/// Whether a field is no Origin, or one that is listed.
fn is_own_page(origins: &[u8], name: &[u8], value: &[u8]) -> bool
    ensures { result ≡ is_own_page origins.now (name.now, value.now) }
{
    !eq_ignore_case(name, b"origin") || !value.is_empty() && has_word(origins, value)
}

/// Whether each Origin is one of those that are listed.
fn may_come(came: &[u8], fields: &[HeaderSpan], origins: &[u8]) -> bool
    requires { All (IsHeaderWithin (length came.now)) fields.now }
    ensures { result ≡ may_come origins.now (map (header_bytes came.now) fields.now) }
{
    for field in fields {
        if !is_own_page(origins, field.name.of(came), field.value.of(came)) {
            return false;
        }
    }
    true
}

/// Whether a field names this protocol, maybe among others.
fn is_own_offer(name: &[u8], value: &[u8]) -> bool
    ensures { result ≡ upgrades.is_own_offer (name.now, value.now) }
{
    eq_ignore_case(name, b"sec-websocket-protocol") && has_word(value, b"rangesync")
}

/// Whether this protocol is named, maybe among others.
fn offers_own(came: &[u8], fields: &[HeaderSpan]) -> bool
    requires { All (IsHeaderWithin (length came.now)) fields.now }
    ensures { result ≡ offers_own (map (header_bytes came.now) fields.now) }
{
    for field in fields {
        if is_own_offer(field.name.of(came), field.value.of(came)) {
            return true;
        }
    }
    false
}

/// Whether the path is `/`, and this protocol is among those that are named, if any are.
fn is_here(came: &[u8], target: &[u8], fields: &[HeaderSpan]) -> bool
    requires { All (IsHeaderWithin (length came.now)) fields.now }
    ensures { result ≡ upgrades.is_here target.now (map (header_bytes came.now) fields.now) }
{
    let is_spoken = offers_own(came, fields) || !has_field(came, fields, b"sec-websocket-protocol");
    path_of(target) == b"/".as_slice() && is_spoken
}

/// What answers the key of a request with this head, if it has one that can be answered.
fn accepted(came: &[u8], head: &RequestSpans, spans: &[HeaderSpan]) -> Option<[u8; 28]>
    requires { IsRequestWithin came.now spans.now head.now }
    ensures some { IfSome result (λ accept. HasKey accept (requested_key (span_bytes came.now head.now.method)
        head.now.version (map (header_bytes came.now) (take head.now.headers spans.now)))) }
    ensures none { IfNone result (HasNoKey (requested_key (span_bytes came.now head.now.method)
        head.now.version (map (header_bytes came.now) (take head.now.headers spans.now)))) }
{
    match check_request(came, head, spans) {
        Ok(accept) => Some(accept),
        Err(_why) => None,
    }
}

/// What a request with this head gets, which is not too long.
fn judged(came: &[u8], origins: &[u8], head: &RequestSpans, spans: &[HeaderSpan]) -> Upgrade
    requires { IsRequestWithin came.now spans.now head.now }
    ensures judged { Judges origins.now (span_bytes came.now head.now.method) (span_bytes came.now head.now.path)
        head.now.version (map (header_bytes came.now) (take head.now.headers spans.now)) result }
    ensures length { upgrades.HasHeadOf head.now.len result }
{
    let fields = first_fields(spans, head.headers);
    if !may_come(came, fields, origins) {
        return Upgrade::Refused(NoUpgrade::Foreign);
    }
    if !is_here(came, head.path.of(came), fields) {
        return Upgrade::Refused(NoUpgrade::Malformed);
    }
    match accepted(came, head, spans) {
        Some(accept) => Upgrade::Given {
            accept,
            is_named: offers_own(came, fields),
            length: head.len,
        },
        None => Upgrade::Refused(NoUpgrade::Malformed),
    }
}

/// What these bytes ask for, which came first on a connection, of a server that pages of these origins may ask, with
/// commas between them. None where their head has not come whole.
pub fn upgrade_in(came: &[u8], origins: &[u8]) -> Option<Upgrade>
    ensures answers { IfSome result (AsksToUpgrade origins.now came.now) }
    ensures waits { IfNone result (IsHeadAwaited came.now) }
{
    let mut fields = [EMPTY_HEADER_SPAN; MOST_FIELDS];
    match parse_request(came, &mut fields) {
        Ok(Status::Complete(head)) if head.len <= MOST_UPGRADE => {
            Some(judged(came, origins, &head, &fields))
        }
        Ok(Status::Partial) if came.len() < MOST_UPGRADE => None,
        Ok(_) | Err(Error::TooManyHeaders) => Some(Upgrade::Refused(NoUpgrade::TooLong)),
        Err(_) => Some(Upgrade::Refused(NoUpgrade::Malformed)),
    }
}

/// The first lines of the answer that gives a WebSocket.
const GIVEN: &str =
    "HTTP/1.1 101 Switching Protocols\r\nUpgrade: websocket\r\nConnection: Upgrade\r\nSec-WebSocket-Accept: ";

/// The end of that answer.
fn given_end(is_named: bool) -> &'static str
    ensures { result.now ≡ upgrades.given_end is_named }
{
    if is_named {
        "\r\nSec-WebSocket-Protocol: rangesync\r\n\r\n"
    } else {
        "\r\n\r\n"
    }
}

/// The answer that gives a WebSocket, to a client with this key, which named the protocol or not.
#[tactic(auto, unfolding(crate::specs::Upgrades::given_front))]
pub fn given_text(alloc: Global, accept: &[u8; 28], is_named: bool) -> Result<Vec<u8>, AllocError>
    ensures { IfOk result (λ bytes. bytes.items ≡ upgrades.given_text accept.now is_named) }
{
    let mut bytes = Vec::from_slice(alloc, GIVEN.as_bytes())?;
    bytes.extend_from_slice(accept)?;
    bytes.extend_from_slice(given_end(is_named).as_bytes())?;
    Ok(bytes)
}

/// The answer that gives none, for this.
#[tactic(auto, unfolding(crate::specs::Upgrades::refusal_text))]
pub fn no_upgrade_text(why: NoUpgrade) -> &'static str
    ensures { result.now ≡ upgrades.refusal_text why }
{
    match why {
        NoUpgrade::Malformed => {
            "HTTP/1.1 400 Bad Request\r\nConnection: close\r\n\r\n400: this asks for no WebSocket of path /\n"
        }
        NoUpgrade::Foreign => {
            "HTTP/1.1 403 Forbidden\r\nConnection: close\r\n\r\n403: --origin does not name the origin of the page\n"
        }
        NoUpgrade::TooLong => {
            "HTTP/1.1 431 Request Header Fields Too Large\r\nConnection: close\r\n\r\n431: the head is too long\n"
        }
    }
}
