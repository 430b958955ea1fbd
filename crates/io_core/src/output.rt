//! Writing an output whole.

ghost use Rattle.std.specs.Prelude.{◌≡◌, ◌<◌, ℕ, false, length, take, OnOk, OnErr, IsTrue};
ghost use Rattle.std.specs.Io.KnownBytes.{Appends};

use crate::watched::Watched;
use std::io::Write;

/// The writer gave an error, or took no byte of a rest.
#[derive(Clone, Copy, Debug, PartialEq, Eq)]
pub struct WriterFailed;

/// Writes all of the bytes. Where the writer fails a beginning of them was written, and not all of them.
pub fn write_output<W: Write>(writer: &mut Watched<W>, bytes: &[u8]) -> Result<(), WriterFailed>
    requires { writer.old.failed ≡ false }
    ensures whole { OnOk result (Appends (W.contents writer.old.inner) (W.contents writer.new.inner) bytes.now) }
    ensures fine { OnOk result (writer.new.failed ≡ false) }
    ensures front { OnErr result ((n : ℕ) × (n < length bytes.now)
        × Appends (W.contents writer.old.inner) (W.contents writer.new.inner) (take n bytes.now)) }
    ensures failed { OnErr result (IsTrue writer.new.failed) }
{
    let mut written = 0;
    'sent: while written < bytes.len() {
        match writer.write(&bytes[written..]) {
            Ok(0) => return Err(WriterFailed),
            Ok(count) => written += count,
            Err(_) => return Err(WriterFailed),
        }
    }
    Ok(())
}
