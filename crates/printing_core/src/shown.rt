//! A line of a file, as it is shown.

ghost use Rattle.std.specs.Prelude.{◌≡◌, IfOk, chars, length, nat_lt, string_bytes};
ghost use Rattle.printing_core.specs.ShownLines.{shown_char, shown_front, shown_line};

use std::alloc::{AllocError, Global};

/// How many characters of a line are shown.
const MAX_SHOWN: usize = 40;

/// The character, or `?` in place of a control character and of bytes that are no text.
fn shown_char(c: char) -> char
    ensures { result ≡ shown_char c }
{
    if c.is_control() || c == char::REPLACEMENT_CHARACTER {
        '?'
    } else {
        c
    }
}

/// The first 40 characters of a text, as they are shown.
#[tactic(auto, using(std::proofs::lemmas::Str::chars_from_encodes))]
fn shown_front(alloc: Global, text: &str) -> Result<String, AllocError>
    ensures { IfOk result (λ front. string_bytes front ≡ shown_front (chars text.now)) }
{
    text.chars()
        .take(MAX_SHOWN)
        .map(|c| shown_char(c))
        .collect(alloc)
}

/// Whether a text has more than 40 characters.
#[tactic(auto, using(std::proofs::lemmas::Str::chars_from_encodes))]
fn is_long(text: &str) -> bool
    ensures { result ≡ nat_lt 40 (length (chars text.now)) }
{
    text.chars().count() > MAX_SHOWN
}

/// The first 40 characters of a line, and `..` where there are more. Each control character, and bytes that are no
/// UTF-8, is shown as `?`.
pub fn shown_line(alloc: Global, line: &[u8]) -> Result<String, AllocError>
    ensures { IfOk result (λ text. string_bytes text ≡ shown_line line.now) }
{
    let text = String::from_utf8_lossy(alloc, line)?;
    let mut shown = shown_front(alloc, &text)?;
    if !is_long(&text) {
        return Ok(shown);
    }
    shown.push_str("..")?;
    Ok(shown)
}
