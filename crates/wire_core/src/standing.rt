ghost use Rattle.std.specs.Prelude.{◌≡◌, ◌≤◌};
ghost use Rattle.wire_core.specs.Standings.{standing_of, is_over};
ghost use Rattle.wire_core.specs.Feeds.{fault_at, fault_in};
ghost use Rattle.wire_core.specs.Nexts.{hello_length};

use crate::fault::WireFault;

/// Where a stream stands.
#[derive(Clone, Copy, Debug, PartialEq, Eq)]
pub enum Standing {
    /// The hello is due.
    BeforeHello,
    /// So many parts of the message have come.
    InMessage(usize),
    /// A fault frame came: what follows counts no more.
    MeaningOver,
    /// What came is in no stream.
    Faulted(WireFault),
}

impl Standing {
    /// The length of the hello, where it is due, and else 0.
    pub fn hello_length(self) -> usize
        ensures length { result ≡ hello_length (standing_of self) }
        ensures short { result ≤ 4 }
    {
        match self {
            Standing::BeforeHello => 4,
            _ => 0,
        }
    }

    /// Whether what follows counts no more.
    pub fn is_over(self) -> bool
        ensures { result ≡ is_over (standing_of self) }
    {
        matches!(self, Standing::MeaningOver | Standing::Faulted(_))
    }

    /// The fault, if the stream has one.
    pub fn fault(self) -> Result<(), WireFault>
        ensures { fault_in result ≡ fault_at (standing_of self) }
    {
        match self {
            Standing::Faulted(fault) => Err(fault),
            _ => Ok(()),
        }
    }
}
