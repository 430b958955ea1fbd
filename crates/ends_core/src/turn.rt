ghost use Rattle.std.specs.Prelude.{◌≡◌};
ghost use Rattle.ends_core.specs.Turns.{end_fault_number, messages_in};
ghost use Rattle.ends_core.specs.declared.turn.EndFault.TheVariants as faults;

use digest_core::{Fingerprint, WireSummary};
use place_core::PlaceFault;
use std::alloc::AllocError;
use wire_core::Message;

/// What an end answers to a message that it takes.
#[derive(Debug, Drop)]
pub enum Turn<F: WireSummary = Fingerprint> {
    /// The reply, which is to be sent. Where it has no open part the session is over after it.
    Reply(Message<F>),
    /// The message received had no open part: the session is over.
    Over,
}

impl<F: WireSummary> Turn<F> {
    /// How many messages are sent: 1 or 0.
    pub(crate) fn messages(&self) -> u32
        ensures { result ≡ messages_in self.now }
    {
        match self {
            Turn::Reply(_) => 1,
            Turn::Over => 0,
        }
    }
}

/// Why an end does not take a message.
#[derive(Clone, Copy, Debug, PartialEq, Eq)]
pub enum EndFault {
    /// The message is not placed after the own one.
    Placing(PlaceFault),
    /// The reply would have more than 131,072 parts: the peer is not honest.
    TooManyParts,
    /// A message was refused before, or the session is over.
    Spent,
    /// Memory ran out.
    Memory,
}

impl EndFault {
    /// The number of the refusal: 20 to 25, 12, 26 or 90.
    pub fn number(self) -> u8
        ensures { result ≡ end_fault_number self }
    {
        match self {
            EndFault::Placing(fault) => fault.number(),
            EndFault::TooManyParts => 12,
            EndFault::Spent => 26,
            EndFault::Memory => 90,
        }
    }
}

impl From<PlaceFault> for EndFault {
    ghost from_gives = { λ f e. e ≡ faults.Placing f };

    fn from(fault: PlaceFault) -> EndFault {
        EndFault::Placing(fault)
    }
}

impl From<AllocError> for EndFault {
    ghost from_gives = { λ _ e. e ≡ faults.Memory };

    fn from(_refused: AllocError) -> EndFault {
        EndFault::Memory
    }
}
