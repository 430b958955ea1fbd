//! The four bytes with which a peer begins, read before anything else is done.

ghost use Rattle.std.specs.Prelude.{◌≡◌, ◌≤◌, ◌+◌, false, IfOk};
ghost use Rattle.peer_threads.specs.Outcomes.{seen};
ghost use Rattle.peer_threads.specs.Hellos.{HelloRead};
ghost use Rattle.peer_threads.specs.Listening.{InStep, Fares};

use crate::stop::Stop;
use io_core::Watched;
use session_table::Direction;
use std::io::Read;
use wire_core::WireFault;

/// The length of a hello.
const LENGTH: usize = 4;

/// The first four bytes of a stream, and in how many reads they came.
#[derive(Clone, Copy, Debug, Drop)]
pub(crate) struct Hello {
    pub(crate) bytes: [u8; 4],
    pub(crate) reads: u64,
}

/// Reads the first four bytes. Refused 3 where the input ends inside them. It takes no memory.
pub(crate) fn read_hello<R: Read>(reader: &mut Watched<R>) -> Result<Hello, Stop>
    requires listens { reader.old.failed ≡ false }
    ensures read { HelloRead (R.remaining reader.old.inner) (R.remaining reader.new.inner)
        (seen reader.new.failed reader.new.ended) result }
    ensures reads { IfOk result (λ h. reader.new.reads ≤ reader.old.reads + h.reads) }
    ensures stopped_reads { reader.new.reads ≤ reader.old.reads + 4 }
    ensures fared { Fares reader.old.reads reader.new.failed reader.new.reads result }
    ensures step { IfOk result (λ h. InStep reader.old.reads reader.new.reads h.reads) }
{
    let mut hello = Hello {
        bytes: [0u8; 4],
        reads: 0,
    };
    let mut came = 0;
    'reads: while came < LENGTH {
        laws::codec::are_bytes(&hello.bytes);
        hello.reads += 1;
        let Ok(count) = reader.read(&mut hello.bytes[came..]) else {
            return Err(Stop::Io(Direction::Read));
        };
        if count == 0 {
            return Err(Stop::Refused(WireFault::Truncated.number()));
        }
        came += count;
    }
    laws::codec::are_bytes(&hello.bytes);
    Ok(hello)
}
