ghost use Rattle.std.specs.Prelude.{◌≡◌};
ghost use Rattle.definitions.specs.Refusals.{writers_spent};
ghost use Rattle.version_log.specs.Answers.{log_fault_number};
ghost use Rattle.version_log.specs.declared.answer.LogFault.TheVariants as faults;

use std::alloc::{AllocError, AllocFailed};

/// What an insert did.
#[derive(Clone, Copy, Debug, PartialEq, Eq)]
pub enum Added {
    /// The item is new: the log has become this version.
    New(usize),
    /// The item was there already.
    Already,
}

/// Why a log could not be opened, or an item not be added.
#[derive(Clone, Copy, Debug, PartialEq, Eq)]
pub enum LogFault {
    /// There would be more items than the cap.
    Full,
    /// Memory ran out.
    Memory,
}

impl LogFault {
    /// The number of the refusal: 40 or 90.
    pub fn number(self) -> u8
        ensures { result ≡ log_fault_number self }
    {
        match self {
            LogFault::Full => 40,
            LogFault::Memory => 90,
        }
    }
}

/// No writer number is left.
#[derive(Clone, Copy, Debug, PartialEq, Eq)]
pub struct WritersSpent;

impl WritersSpent {
    /// The number of the refusal: 42.
    pub fn number(self) -> u8
        ensures { result ≡ writers_spent }
    {
        42
    }
}

impl From<AllocError> for LogFault {
    ghost from_gives = { λ _ e. e ≡ faults.Memory };

    fn from(_refused: AllocError) -> LogFault {
        LogFault::Memory
    }
}

impl<T: Drop> From<AllocFailed<T>> for LogFault {
    ghost from_gives = { λ _ e. e ≡ faults.Memory };

    fn from(_refused: AllocFailed<T>) -> LogFault {
        LogFault::Memory
    }
}
