//! Escapes and numbers in the target of a request.

ghost use Rattle.std.specs.Prelude.{◌≡◌, IfOk, map};
ghost use Rattle.form_urlencoded.specs.Form.{decode, plus_to_space};
ghost use Rattle.percent_encoding.specs.Percent.{percent_decode};

use form_urlencoded::raw_pairs;
use memchr::memchr;
use percent_encoding::percent_decode;
use std::alloc::{AllocError, Global};

/// The bytes that a part of a target stands for: each `%XX` is one byte.
pub fn unescaped(alloc: Global, part: &[u8]) -> Result<Vec<u8>, AllocError>
    ensures { IfOk result (λ bytes. bytes.items ≡ percent_decode part.now) }
{
    let mut bytes = Vec::new(alloc);
    percent_decode(part).append_to(&mut bytes)?;
    Ok(bytes)
}

/// A byte of a value of a query: a `+` is a blank.
fn unplussed(byte: u8) -> u8
    ensures { result ≡ plus_to_space byte }
{
    if byte == b'+' { b' ' } else { byte }
}

/// A value of a query with a blank for each `+`.
fn spaced(alloc: Global, value: &[u8]) -> Result<Vec<u8>, AllocError>
    ensures { IfOk result (λ bytes. bytes.items ≡ map plus_to_space value.now) }
{
    let mut bytes = Vec::new(alloc);
    for byte in value {
        bytes.push(unplussed(*byte))?;
    }
    Ok(bytes)
}

/// The bytes that a value of a query stands for: each `+` is a blank, and each `%XX` one byte.
pub fn query_text(alloc: Global, value: &[u8]) -> Result<Vec<u8>, AllocError>
    ensures { IfOk result (λ bytes. bytes.items ≡ decode value.now) }
{
    unescaped(alloc, &spaced(alloc, value)?)
}

/// A number that a query gives.
#[derive(Clone, Copy, Debug, PartialEq, Eq)]
pub enum QueryNumber {
    /// It gives none of this name.
    Absent,
    /// This one.
    Given(u64),
    /// What it gives is no number below 2 to the power of 64.
    Malformed,
}

/// The query of a target: what follows its first question mark.
fn query_of(target: &[u8]) -> &[u8] {
    match memchr(b'?', target) {
        Some(end) => &target[end + 1..],
        None => b"",
    }
}

/// The number that these digits write.
fn number_of(digits: &[u8]) -> QueryNumber {
    let Ok(text) = str::from_utf8(digits) else {
        return QueryNumber::Malformed;
    };
    match text.parse::<u64>() {
        Ok(number) => QueryNumber::Given(number),
        Err(_) => QueryNumber::Malformed,
    }
}

/// The first value of this name in the query of a target, as it stands there.
pub fn query_value<'a>(target: &'a [u8], name: &[u8]) -> Option<&'a [u8]> {
    for (given, value) in raw_pairs(query_of(target)) {
        if given == name {
            return Some(value);
        }
    }
    None
}

/// The first number of this name in the query of a target.
pub fn query_number(target: &[u8], name: &[u8]) -> QueryNumber {
    match query_value(target, name) {
        Some(digits) => number_of(digits),
        None => QueryNumber::Absent,
    }
}
