//! Where connections come from.

ghost use Rattle.std.specs.Prelude.{◌≡◌};
ghost use Rattle.session_table.specs.SourceFaults.{source_fault_number};

use std::io::{Read, Write};

/// Why there are no more connections.
#[derive(Clone, Copy, Debug, PartialEq, Eq)]
pub enum SourceFault {
    /// A connection could not be accepted.
    Accept,
    /// Memory ran out.
    Memory,
}

impl SourceFault {
    /// The number of the refusal: 62 or 90.
    pub fn number(self) -> u8
        ensures { result ≡ source_fault_number self }
    {
        match self {
            SourceFault::Accept => 62,
            SourceFault::Memory => 90,
        }
    }
}

/// Where connections come from, for any number of threads.
pub trait Source {
    /// What is read of a connection.
    type In: Read + Drop + Send;

    /// What is written to it.
    type Out: Write + Drop + Send;

    /// The next connection, or none where there will be no more. It may wait for a peer.
    fn take(&self) -> Result<Option<(Self::In, Self::Out)>, SourceFault>;

    /// Closes a connection whose session is over, and of which all that is put into the log has been put there. It may
    /// wait for the peer.
    fn close(&self, _reader: Self::In, _writer: Self::Out) {}
}
