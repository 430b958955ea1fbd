//! What is answered to those who speak HTTP.

ghost use Rattle.std.specs.Prelude.{◌≡◌, ◌++◌, IfOk, OnOk, length, string_bytes};
ghost use Rattle.http_core.specs.Requests.{caution, head_text, length_text, policy, refusal_text, status_text, wanted};

use crate::requests::{Asked, Request};
use std::alloc::{AllocError, Global};

/// Fields that each answer has: nothing of it is kept, or taken for something else.
const CAUTION: &str =
    "Cache-Control: no-store\r\nX-Content-Type-Options: nosniff\r\nReferrer-Policy: no-referrer\r\n";

/// And this: nothing of it is run, and nothing is fetched from elsewhere.
const POLICY: &str =
    "Content-Security-Policy: default-src 'none'; style-src 'unsafe-inline'; frame-ancestors 'none'\r\n";

/// The first lines of an answer.
#[tactic(auto, unfolding(crate::specs::Requests::status_text))]
fn status_text(asked: Asked) -> &'static str
    ensures { result.now ≡ status_text asked }
{
    match asked {
        Asked::Metrics => {
            "HTTP/1.1 200 OK\r\nContent-Type: text/plain; version=0.0.4; charset=utf-8\r\n"
        }
        Asked::Page => "HTTP/1.1 200 OK\r\nContent-Type: text/html; charset=utf-8\r\n",
        Asked::Missing => "HTTP/1.1 404 Not Found\r\nContent-Type: text/plain; charset=utf-8\r\n",
        Asked::Method => {
            "HTTP/1.1 405 Method Not Allowed\r\nAllow: GET, HEAD\r\nContent-Type: text/plain; charset=utf-8\r\n"
        }
        Asked::Malformed => {
            "HTTP/1.1 400 Bad Request\r\nContent-Type: text/plain; charset=utf-8\r\n"
        }
        Asked::TooLong => {
            "HTTP/1.1 431 Request Header Fields Too Large\r\nContent-Type: text/plain; charset=utf-8\r\n"
        }
    }
}

/// What is said to who does not get what was asked for: a line. For the others it is empty.
pub fn refusal_text(asked: Asked) -> &'static str
    ensures { result.now ≡ refusal_text asked }
{
    match asked {
        Asked::Metrics | Asked::Page => "",
        Asked::Missing => "404: there are / and /metrics\n",
        Asked::Method => "405: only GET and HEAD are answered\n",
        Asked::Malformed => "400: this is no request\n",
        Asked::TooLong => "431: the head of the request is too long\n",
    }
}

/// Appends the fields that nothing is kept, or taken for something else.
#[tactic(auto, unfolding(crate::specs::Requests::caution))]
fn push_caution(text: &mut String) -> Result<(), AllocError>
    ensures { OnOk result (string_bytes text.new ≡ string_bytes text.old ++ caution) }
{
    text.push_str(CAUTION)
}

/// Appends the field that nothing is run or fetched.
#[tactic(auto, unfolding(crate::specs::Requests::policy))]
fn push_policy(text: &mut String) -> Result<(), AllocError>
    ensures { OnOk result (string_bytes text.new ≡ string_bytes text.old ++ policy) }
{
    text.push_str(POLICY)
}

/// Appends the last lines before a body of so many bytes.
#[tactic(auto, unfolding(crate::specs::Requests::length_text))]
fn push_length(text: &mut String, length: usize) -> Result<(), AllocError>
    ensures { OnOk result (string_bytes text.new ≡ string_bytes text.old ++ length_text length) }
{
    write!(
        text,
        "Connection: close\r\nContent-Length: {length}\r\n\r\n"
    )
}

/// The lines before a body of so many bytes.
fn head_text(alloc: Global, asked: Asked, length: usize) -> Result<String, AllocError>
    ensures { IfOk result (λ text. string_bytes text ≡ head_text asked length) }
{
    let mut text = String::from_str(alloc, status_text(asked))?;
    push_caution(&mut text)?;
    push_policy(&mut text)?;
    push_length(&mut text, length)?;
    Ok(text)
}

/// As much of the body as is wanted: nothing of it to HEAD.
fn wanted(request: Request, body: &[u8]) -> &[u8]
    ensures { result.now ≡ wanted request body.now }
{
    if request.is_head {
        return b"";
    }
    body
}

/// The answer to a request, with this body, which is left out to HEAD: all bytes that are written to the connection.
pub fn response(alloc: Global, request: Request, body: &[u8]) -> Result<Vec<u8>, AllocError>
    ensures { IfOk result (λ bytes. bytes.items
        ≡ head_text request.asked (length body.now) ++ wanted request body.now) }
{
    let head = head_text(alloc, request.asked, body.len())?;
    let mut bytes = Vec::from_slice(alloc, head.as_bytes())?;
    bytes.extend_from_slice(wanted(request, body))?;
    Ok(bytes)
}
