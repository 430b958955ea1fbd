ghost use Rattle.std.specs.Prelude.{◌≡◌};
ghost use Rattle.strategy_core.specs.Refused.{fault_number, error_in_row};
ghost use Rattle.strategy_core.specs.Texts.{whole};
ghost use Rattle.strategy_core.specs.declared.fault.StrategyError.TheVariants as errors;

use crate::field::Field;
use std::alloc::{AllocError, AllocFailed};

/// What is wrong with a table that is no strategy: the first test that fails.
#[derive(Clone, Copy, Debug, PartialEq, Eq)]
pub enum StrategyFault {
    /// This key is not there; `row` is an empty array.
    Missing(Field),
    /// A number is no whole number, or out of its range.
    BadNumber {
        /// The key that it stands under.
        field: Field,
        /// The least that it may be.
        least: u32,
        /// The greatest that it may be.
        greatest: u32,
    },
    /// A row's `upto` is not above that of the row before.
    RowOrder,
    /// The rows are no array, a row is no table, or it does not say one thing to do, or not rightly.
    RowAction,
    /// The last `upto` is not the cap.
    CapMismatch,
    /// What is under `bounds` is neither `"items"` nor `"short"`, or it stands in a row.
    BadBounds,
    /// What is under `opening` is neither `"sum"` nor `"split"`, or it stands in a row.
    BadOpening,
}

impl StrategyFault {
    /// The number of the refusal, 28, 29 or 31 to 35.
    pub fn number(self) -> u8
        ensures { result ≡ fault_number self }
    {
        match self {
            StrategyFault::Missing(_) => 31,
            StrategyFault::BadNumber { .. } => 32,
            StrategyFault::RowOrder => 33,
            StrategyFault::RowAction => 34,
            StrategyFault::CapMismatch => 35,
            StrategyFault::BadBounds => 29,
            StrategyFault::BadOpening => 28,
        }
    }
}

/// Why a table is no strategy, and where.
#[derive(Clone, Copy, Debug, PartialEq, Eq)]
pub struct StrategyFlaw {
    /// The first test that fails.
    pub fault: StrategyFault,
    /// The row in which it fails, from 1, if it fails in one.
    pub row: Option<usize>,
}

/// Why a strategy could not be read.
#[derive(Clone, Copy, Debug, PartialEq, Eq)]
pub enum StrategyError {
    /// The bytes are no TOML text: 30.
    NotToml,
    /// The table is no strategy.
    Fault(StrategyFlaw),
    /// Memory ran out.
    Memory,
}

impl StrategyError {
    /// The same of the row of this number, from 1.
    pub(crate) fn in_row(self, row: usize) -> StrategyError
        ensures { result ≡ error_in_row row self }
    {
        match self {
            StrategyError::Fault(flaw) => StrategyError::Fault(StrategyFlaw {
                fault: flaw.fault,
                row: Some(row),
            }),
            other => other,
        }
    }
}

impl From<StrategyFault> for StrategyError {
    ghost from_gives = { λ f e. e ≡ errors.Fault (whole f) };

    fn from(fault: StrategyFault) -> StrategyError {
        StrategyError::Fault(StrategyFlaw { fault, row: None })
    }
}

impl From<AllocError> for StrategyError {
    ghost from_gives = { λ _ e. e ≡ errors.Memory };

    fn from(_refused: AllocError) -> StrategyError {
        StrategyError::Memory
    }
}

impl<T: Drop> From<AllocFailed<T>> for StrategyError {
    ghost from_gives = { λ _ e. e ≡ errors.Memory };

    fn from(_refused: AllocFailed<T>) -> StrategyError {
        StrategyError::Memory
    }
}
