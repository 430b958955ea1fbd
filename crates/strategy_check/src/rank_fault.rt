ghost use Rattle.std.specs.Prelude.{◌≡◌};
ghost use Rattle.strategy_check.specs.Ranking.{fault_number};
ghost use Rattle.strategy_check.specs.declared.rank_fault.RankError.TheVariants as errors;

use std::alloc::{AllocError, AllocFailed};

/// Why there are no ranks.
#[derive(Clone, Copy, Debug, PartialEq, Eq)]
pub enum RankFault {
    /// This is the least number of items that is cut into fewer than two shares.
    NoDescent {
        /// The number of items.
        count: u32,
    },
    /// A staircase that was brought is none: this entry is not greater than the one before it; 0 where there is no
    /// entry.
    BadCertificate {
        /// The entry.
        count: u32,
    },
}

impl RankFault {
    /// The number of the refusal: 36 or 39.
    pub fn number(self) -> u8
        ensures { result ≡ fault_number self }
    {
        match self {
            RankFault::NoDescent { .. } => 36,
            RankFault::BadCertificate { .. } => 39,
        }
    }
}

/// Why no ranks were made.
#[derive(Clone, Copy, Debug, PartialEq, Eq)]
pub enum RankError {
    /// There are none.
    Fault(RankFault),
    /// Memory ran out.
    Memory,
}

impl From<RankFault> for RankError {
    ghost from_gives = { λ f e. e ≡ errors.Fault f };

    fn from(fault: RankFault) -> RankError {
        RankError::Fault(fault)
    }
}

impl From<AllocError> for RankError {
    ghost from_gives = { λ _ e. e ≡ errors.Memory };

    fn from(_refused: AllocError) -> RankError {
        RankError::Memory
    }
}

impl<T: Drop> From<AllocFailed<T>> for RankError {
    ghost from_gives = { λ _ e. e ≡ errors.Memory };

    fn from(_refused: AllocFailed<T>) -> RankError {
        RankError::Memory
    }
}
