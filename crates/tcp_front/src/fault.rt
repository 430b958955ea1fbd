//! Why there is no listener, or no connection.

ghost use Rattle.std.specs.Prelude.{◌≡◌};
ghost use Rattle.tcp_front.specs.Causes.{listen_fault, connect_fault};
ghost use Rattle.tcp_front.specs.Faults.{listen_fault_number, connect_fault_number};

use crate::unreached::Unreached;

/// Why there is no listener.
#[derive(Clone, Copy, Debug, PartialEq, Eq)]
pub enum ListenFault {
    /// The address is not listened at.
    Unreached(Unreached),
    /// Memory ran out.
    Memory,
}

impl ListenFault {
    /// The fault of this cause; of memory, where there is none.
    pub(crate) fn of(cause: Option<Unreached>) -> ListenFault
        ensures { result ≡ listen_fault cause }
    {
        match cause {
            Some(cause) => ListenFault::Unreached(cause),
            None => ListenFault::Memory,
        }
    }

    /// The number of the refusal: 60 or 90.
    pub fn number(self) -> u8
        ensures { result ≡ listen_fault_number self }
    {
        match self {
            ListenFault::Unreached(_) => 60,
            ListenFault::Memory => 90,
        }
    }
}

/// Why there is no connection.
#[derive(Clone, Copy, Debug, PartialEq, Eq)]
pub enum ConnectFault {
    /// The address is not reached.
    Unreached(Unreached),
    /// Memory ran out.
    Memory,
}

impl ConnectFault {
    /// The fault of this cause; of memory, where there is none.
    pub(crate) fn of(cause: Option<Unreached>) -> ConnectFault
        ensures { result ≡ connect_fault cause }
    {
        match cause {
            Some(cause) => ConnectFault::Unreached(cause),
            None => ConnectFault::Memory,
        }
    }

    /// The number of the refusal: 61 or 90.
    pub fn number(self) -> u8
        ensures { result ≡ connect_fault_number self }
    {
        match self {
            ConnectFault::Unreached(_) => 61,
            ConnectFault::Memory => 90,
        }
    }
}
