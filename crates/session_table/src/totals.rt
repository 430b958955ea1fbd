ghost use Rattle.std.specs.Prelude.{◌≡◌, ◌+◌, ◌<◌, ◌^◌};
ghost use Rattle.session_table.specs.Counts.{no_totals, with_opened, with_message, with_closed, closed_count};

/// How a session ended.
#[derive(Clone, Copy, Debug, PartialEq, Eq)]
pub enum CloseKind {
    /// Its last message had no open part.
    Ended,
    /// One of the two sides refused.
    Refused,
    /// The reader or the writer failed.
    Io,
    /// Memory ran out.
    Memory,
}

/// What a table has counted since it was made.
#[derive(Clone, Copy, Debug, PartialEq, Eq)]
pub struct Totals {
    /// Sessions opened: those that are live and those that were closed in one of the four ways.
    pub opened: u64,
    /// Sessions closed as ended.
    pub ended: u64,
    /// Sessions closed as refused.
    pub refused: u64,
    /// Sessions closed since a reader or a writer failed.
    pub io: u64,
    /// Sessions closed since memory ran out.
    pub memory: u64,
    /// Messages sent. The count stays at 2^64 - 1 once it is there.
    pub messages: u64,
}

impl Totals {
    pub(crate) fn none() -> Totals
        ensures { result ≡ no_totals }
    {
        Totals {
            opened: 0,
            ended: 0,
            refused: 0,
            io: 0,
            memory: 0,
            messages: 0,
        }
    }

    pub(crate) fn opened(self) -> Totals
        requires { self.opened + 1 < 2 ^ 64 }
        ensures { result ≡ with_opened self }
    {
        Totals {
            opened: self.opened + 1,
            ..self
        }
    }

    pub(crate) fn message(self) -> Totals
        ensures { result ≡ with_message self }
    {
        Totals {
            messages: self.messages.saturating_add(1),
            ..self
        }
    }

    pub(crate) fn closed(self, kind: CloseKind) -> Totals
        requires { closed_count self + 1 < 2 ^ 64 }
        ensures { result ≡ with_closed kind self }
    {
        match kind {
            CloseKind::Ended => Totals {
                ended: self.ended + 1,
                ..self
            },
            CloseKind::Refused => Totals {
                refused: self.refused + 1,
                ..self
            },
            CloseKind::Io => Totals {
                io: self.io + 1,
                ..self
            },
            CloseKind::Memory => Totals {
                memory: self.memory + 1,
                ..self
            },
        }
    }
}
