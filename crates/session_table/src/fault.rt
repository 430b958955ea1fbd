ghost use Rattle.std.specs.Prelude.{◌≡◌};
ghost use Rattle.session_table.specs.Faults.{table_fault_number};

/// Why a table refuses a call. It is unchanged then.
#[derive(Clone, Copy, Debug, PartialEq, Eq)]
pub enum TableFault {
    /// As many sessions are live as the capacity.
    Full,
    /// No live session has this id.
    Unknown,
    /// The session has sent as many messages as its bound.
    OverBound,
    /// The last serial, 2^64 - 1, is used.
    SerialsSpent,
}

impl TableFault {
    /// The number of the refusal: 50 to 53.
    pub fn number(self) -> u8
        ensures { result ≡ table_fault_number self }
    {
        match self {
            TableFault::Full => 50,
            TableFault::Unknown => 51,
            TableFault::OverBound => 52,
            TableFault::SerialsSpent => 53,
        }
    }
}
