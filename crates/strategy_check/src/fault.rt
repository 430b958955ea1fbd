ghost use Rattle.std.specs.Prelude.{◌≡◌};
ghost use Rattle.strategy_check.specs.Refused.{fault_number, error_of};
ghost use Rattle.strategy_check.specs.declared.fault.CheckError.TheVariants as errors;

use crate::rank_fault::{RankError, RankFault};

/// Why a strategy is not accepted.
#[derive(Clone, Copy, Debug, PartialEq, Eq)]
pub enum CheckFault {
    /// This is the first row that lists and whose `upto` is above the limit.
    ListTooLong {
        /// The row's `upto`.
        upto: u32,
    },
    /// This is the least number of items that is cut into fewer than two shares.
    NoDescent {
        /// The number of items.
        count: u32,
    },
    /// This is the least number of items whose rank exceeds the rounds.
    TooDeep {
        /// The number of items.
        count: u32,
        /// Its rank.
        rank: u32,
    },
    /// This is the least number of items that the ranks which were brought do not serve.
    BadCertificate {
        /// The number of items.
        count: u32,
    },
}

impl CheckFault {
    /// The number of the refusal, 36 to 39.
    pub fn number(self) -> u8
        ensures { result ≡ fault_number self }
    {
        match self {
            CheckFault::ListTooLong { .. } => 37,
            CheckFault::NoDescent { .. } => 36,
            CheckFault::TooDeep { .. } => 38,
            CheckFault::BadCertificate { .. } => 39,
        }
    }
}

/// Why no strategy was accepted.
#[derive(Clone, Copy, Debug, PartialEq, Eq)]
pub enum CheckError {
    /// It is not to be accepted.
    Fault(CheckFault),
    /// Memory ran out.
    Memory,
}

impl From<CheckFault> for CheckError {
    ghost from_gives = { λ f e. e ≡ errors.Fault f };

    fn from(fault: CheckFault) -> CheckError {
        CheckError::Fault(fault)
    }
}

impl From<RankError> for CheckError {
    ghost from_gives = { λ r e. e ≡ error_of r };

    fn from(error: RankError) -> CheckError {
        match error {
            RankError::Memory => CheckError::Memory,
            RankError::Fault(RankFault::NoDescent { count }) => {
                CheckError::Fault(CheckFault::NoDescent { count })
            }
            RankError::Fault(RankFault::BadCertificate { count }) => {
                CheckError::Fault(CheckFault::BadCertificate { count })
            }
        }
    }
}
