ghost use Rattle.std.specs.Prelude.{◌≡◌};

use std::marker::Model;

/// A live session as the table keeps it.
#[derive(Clone, Copy)]
pub(crate) struct LiveSession {
    pub(crate) serial: u64,
    pub(crate) bound: u32,
    pub(crate) sent: u32,
}

impl Model for LiveSession {
    ghost use Rattle.session_table.specs.Sessions as words;

    ghost Value = { words.LiveSession };

    ghost view = { λ s. record { serial = s.serial; bound = s.bound; sent = s.sent } };

    ghost inverse = { λ s. record { serial = s.serial; bound = s.bound; sent = s.sent } };
}

/// What names a session in its table. Only `SessionTable::open` makes one, and no two of a table are equal.
#[derive(Clone, Copy, Debug, PartialEq, Eq)]
pub struct SessionId {
    pub(crate) key: usize,
    pub(crate) serial: u64,
}

impl Model for SessionId {
    ghost use Rattle.session_table.specs.Sessions as words;

    ghost Value = { words.Id };

    ghost view = { λ i. record { key = i.key; serial = i.serial } };

    ghost inverse = { λ i. record { key = i.key; serial = i.serial } };
}

impl SessionId {
    /// The session's serial, 1 to 2^64 - 1. No other session of its table has it, before or after.
    pub fn serial(self) -> u64
        ensures { result ≡ self.serial }
    {
        self.serial
    }
}
