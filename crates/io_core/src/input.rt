//! Reading an input to its end.

ghost use Rattle.std.specs.Prelude.{vec_len, ◌≡◌, ◌<◌, ◌≤◌, ◌⊎◌, ◌-◌, false, length, Err, Some, IfOk, OnOk, IsTrue};
ghost use Rattle.io_core.specs.Inputs.{WasRead, ReadsMore, IsTooLong};
ghost use Rattle.io_core.specs.declared.input.InputFault.TheVariants as faults;
ghost use Rattle.io_core.specs.declared.read_fault.ReadFault.{ReadFault};

use crate::read_fault::ReadFault;
use crate::watched::Watched;
use std::alloc::{AllocError, Global};
use std::io::Read;

/// The greatest length of an input in bytes.
pub const MAX_INPUT: usize = 16_777_216;

/// How many bytes are asked for at a time.
const CHUNK: usize = 65_536;

/// Why an input was not read.
#[derive(Clone, Copy, Debug, PartialEq, Eq)]
pub enum InputFault {
    /// The reader failed, for this reason, or the input is above its limit.
    CannotRead(ReadFault),
    /// Memory ran out.
    Memory,
}

impl From<AllocError> for InputFault {
    ghost from_gives = { λ _ e. e ≡ faults.Memory };

    fn from(_refused: AllocError) -> InputFault {
        InputFault::Memory
    }
}

/// Room for so many bytes.
fn room_for(alloc: Global, length: usize) -> Result<Vec<u8>, AllocError>
    ensures { IfOk result (λ v. vec_len v ≡ length) }
{
    vec![in alloc; 0u8; length]
}

/// Reads once, and appends what came: no byte at the end of the input.
fn read_more<R: Read>(
    reader: &mut Watched<R>,
    chunk: &mut [u8],
    input: &mut Vec<u8>,
) -> Result<usize, InputFault>
    requires fresh { reader.old.failed ≡ false }
    requires room { 0 < length chunk.old }
    ensures more { IfOk result (λ n. ReadsMore (R.remaining reader.old.inner) (R.remaining reader.new.inner)
        input.old.items input.new.items n) }
    ensures fine { OnOk result (reader.new.failed ≡ false) }
    ensures unread { (f : ReadFault) → result ≡ Err (InputFault.CannotRead f) →
        IsTrue reader.new.failed × (reader.new.fault ≡ Some f) }
    ensures memory { result ≡ Err InputFault.Memory → reader.new.failed ≡ false }
{
    let count = match reader.read(chunk) {
        Ok(count) => count,
        Err(error) => return Err(InputFault::CannotRead(ReadFault::of(&error))),
    };
    input.extend_from_slice(&chunk[..count])?;
    Ok(count)
}

/// Reads to the end of an input that is within its limit.
pub fn read_input<R: Read>(alloc: Global, reader: &mut Watched<R>) -> Result<Vec<u8>, InputFault>
    requires { reader.old.failed ≡ false }
    ensures input { IfOk result (λ v. WasRead (R.remaining reader.old.inner) (R.remaining reader.new.inner)
        reader.new.failed v.items) }
    ensures unread { (f : ReadFault) → result ≡ Err (InputFault.CannotRead f) →
        (IsTrue reader.new.failed × (reader.new.fault ≡ Some f))
        ⊎ ((f ≡ ReadFault.TooLong) × IsTooLong (R.remaining reader.old.inner) (R.remaining reader.new.inner)) }
    ensures memory { result ≡ Err InputFault.Memory → reader.new.failed ≡ false }
{
    let mut input = Vec::new(alloc);
    let mut chunk = room_for(alloc, CHUNK)?;
    'chunks: while read_more(reader, &mut chunk, &mut input)? > 0 {
        if input.len() > MAX_INPUT {
            return Err(InputFault::CannotRead(ReadFault::TooLong));
        }
    }
    Ok(input)
}
