//! What `answer` reads and prints as hex text.

ghost use Rattle.std.specs.Prelude.{◌≡◌, ◌≢◌, ◌++◌, filter, IfOk, IfErr, OnOk, IsErr, Ok};
ghost use Rattle.hex.specs.Hex.{decode_of};
ghost use Rattle.printing_core.specs.HexLines.{is_solid, line_of, hex_lines};

use crate::fault::Fault;
use hex::FromHexError;
use std::alloc::{AllocError, Global};
use wire_core::{Message, encode_part};

/// The frame of a message's end.
const END: [u8; 5] = [0, 0, 0, 1, 4];

/// Whether a byte is no blank of hex text.
fn is_solid(byte: u8) -> bool
    ensures { result ≡ is_solid byte }
{
    byte != b' ' && byte != b'\t' && byte != b'\r' && byte != b'\n'
}

/// The text without its blanks.
fn without_blanks(alloc: Global, text: &[u8]) -> Result<Vec<u8>, AllocError>
    ensures { IfOk result (λ solid. solid.items ≡ filter is_solid text.now) }
{
    text.iter().copied().filter(|b| is_solid(*b)).collect(alloc)
}

/// The bytes of hex text, its blanks left out. Refused 81 where it is no hex.
pub fn decode_text(alloc: Global, text: &[u8]) -> Result<Vec<u8>, Fault>
    ensures ok { IfOk result (λ bytes. decode_of (filter is_solid text.now) ≡ Ok bytes.items) }
    ensures refused { IfErr result (λ e. e ≢ Fault.Memory →
        (e ≡ Fault.NotHex) × IsErr (decode_of (filter is_solid text.now))) }
{
    let solid = without_blanks(alloc, text)?;
    match hex::decode(alloc, solid.as_slice()) {
        Ok(bytes) => Ok(bytes),
        Err(FromHexError::OutOfMemory) => Err(Fault::Memory),
        Err(_) => Err(Fault::NotHex),
    }
}

/// Appends the hex of a frame and a newline.
fn push_line(alloc: Global, text: &mut Vec<u8>, frame: &[u8]) -> Result<(), AllocError>
    ensures { OnOk result (text.new.items ≡ text.old.items ++ line_of frame.now) }
{
    let digits = hex::encode(alloc, frame)?;
    text.extend_from_slice(digits.as_bytes())?;
    text.push(b'\n')?;
    Ok(())
}

/// The spelling of the message as hex, one frame a line.
pub fn encode_lines(alloc: Global, message: &Message) -> Result<Vec<u8>, AllocError>
    ensures { IfOk result (λ text. text.items ≡ hex_lines message.now) }
{
    let mut text = Vec::new(alloc);
    for part in message.parts() {
        push_line(alloc, &mut text, &encode_part(alloc, part)?)?;
    }
    push_line(alloc, &mut text, &END)?;
    Ok(text)
}
