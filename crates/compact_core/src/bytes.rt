//! Reading bytes and numbers. Each reader takes a field off the front of the bytes and gives its value, or tells why it
//! does not.

ghost use Rattle.std.specs.Prelude.{◌≡◌, ◌<◌, ◌≤◌, ◌^◌, length, IfOk, OnOk};
ghost use Rattle.definitions.specs.CompactReading as reading;
ghost use Rattle.compact_core.specs.Readings.{GivesField};

use crate::stop::Stop;
use wire_core::WireFault;

/// One byte.
pub fn take_byte(bytes: &mut &[u8]) -> Result<u8, Stop>
    ensures read { GivesField (λ x. (x, bytes.new.now)) result (reading.byte_from bytes.old.now) }
    ensures shorter { OnOk result (length bytes.new.now < length bytes.old.now) }
    ensures left { length bytes.new.now ≤ length bytes.old.now }
{
    let Some((&byte, rest)) = bytes.split_first() else {
        return Err(Stop::Unfinished);
    };
    *bytes = rest;
    Ok(byte)
}

/// So many bytes.
pub fn take_bytes<'a>(bytes: &mut &'a [u8], count: usize) -> Result<&'a [u8], Stop>
    ensures read { GivesField (λ x. (x.now, bytes.new.now)) result (reading.bytes_from count bytes.old.now) }
    ensures length { IfOk result (λ x. length x.now ≡ count) }
    ensures shorter { length bytes.new.now ≤ length bytes.old.now }
{
    if bytes.len() < count {
        return Err(Stop::Unfinished);
    }
    let (front, rest) = bytes.split_at(count);
    *bytes = rest;
    Ok(front)
}

/// The digits of a number at base 128, the highest first: at most four.
fn take_digits(bytes: &mut &[u8]) -> Result<u32, Stop>
    ensures read { GivesField (λ x. (x, bytes.new.now)) result (reading.digits_from 4 0 bytes.old.now) }
    ensures small { IfOk result (λ x. x < 2 ^ 28) }
    ensures shorter { length bytes.new.now ≤ length bytes.old.now }
{
    let mut number = 0;
    'digits: for _ in 0..4u8 {
        let byte = u32::from(take_byte(bytes)?);
        if byte < 128 {
            return Ok(128 * number + byte);
        }
        number = 128 * number + byte % 128;
    }
    Err(Stop::Fault(WireFault::FrameLength))
}

/// A number below 2^28.
pub fn take_number(bytes: &mut &[u8]) -> Result<u32, Stop>
    ensures read { GivesField (λ x. (x, bytes.new.now)) result (reading.number_from bytes.old.now) }
    ensures small { IfOk result (λ x. x < 2 ^ 28) }
    ensures shorter { length bytes.new.now ≤ length bytes.old.now }
{
    if let [128, ..] = bytes {
        return Err(Stop::Fault(WireFault::FrameLength));
    }
    take_digits(bytes)
}
