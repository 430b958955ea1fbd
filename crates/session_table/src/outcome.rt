//! How a session ends.

ghost use Rattle.std.specs.Prelude.{◌≡◌};
ghost use Rattle.session_table.specs.Sent.{sent_in};

use ends_core::Learned;

/// What failed of a connection.
#[derive(Clone, Copy, Debug, PartialEq, Eq)]
pub enum Direction {
    /// The reader gave an error, or was read 4,294,967,296 times.
    Read,
    /// The writer gave an error, or took no byte of a rest.
    Write,
}

/// How a session ended. `sent` is the number of own messages that were written whole.
#[derive(Debug, Drop)]
pub enum Outcome {
    /// A message without open part was sent or received. `learned` is true where the peer was honest and no two unequal
    /// ranges that were compared have one fingerprint; `version` is the number of the version that this side spoke of.
    Ended {
        learned: Learned,
        sent: u32,
        version: usize,
    },
    /// This side refused, with this number.
    Refused {
        code: u8,
        sent: u32,
    },
    /// The peer refused, with this number.
    PeerRefused {
        code: u8,
        sent: u32,
    },
    /// The reader or the writer failed.
    Io {
        side: Direction,
        sent: u32,
    },
    /// Memory ran out.
    Memory {
        sent: u32,
    },
}

impl Outcome {
    /// How many own messages were written whole.
    pub fn sent(&self) -> u32
        ensures { result ≡ sent_in self.now }
    {
        match self {
            Outcome::Ended { sent, .. }
            | Outcome::Refused { sent, .. }
            | Outcome::PeerRefused { sent, .. }
            | Outcome::Io { sent, .. }
            | Outcome::Memory { sent } => *sent,
        }
    }
}
