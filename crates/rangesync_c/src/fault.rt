//! Why a call is refused.

ghost use Rattle.std.specs.Prelude.{◌≡◌, ◌<◌};
ghost use Rattle.rangesync_c.specs.Faults.{embedded_fault_number, of_settings, of_log, of_split};
ghost use Rattle.rangesync_c.specs.declared.fault.EmbeddedFault.TheVariants as faults;

use item_core::{EmptyRange, LengthFault};
use item_files::SettingsFault;
use shard_core::SplitFault;
use std::alloc::{AllocError, AllocFailed};
use strategy_check::CheckFault;
use strategy_core::StrategyFlaw;
use version_log::LogFault;

/// Why a call is refused.
#[derive(Clone, Copy, Debug, PartialEq, Eq)]
pub enum EmbeddedFault {
    /// A text is no TOML: 30.
    NotToml,
    /// A table is no strategy: 28, 29, or 31 to 35.
    Strategy(StrategyFlaw),
    /// A strategy is not to be accepted: 36 to 39.
    Check(CheckFault),
    /// The set has as many items as its cap: 40.
    Full,
    /// An item has no byte, or more than 64: 71, 72.
    Length(LengthFault),
    /// The lower bound of a range is not below the upper one: 73.
    EmptyRange,
    /// A line of an item file is no item: 81.
    BadItemLine,
    /// An item file has more different items than the cap, in all or in one shard: 82.
    TooManyItems,
    /// Memory ran out: 90.
    Memory,
}

impl EmbeddedFault {
    /// The number of the refusal.
    pub fn number(self) -> u8
        ensures number { result ≡ embedded_fault_number self }
        ensures above { 0 < result }
    {
        match self {
            EmbeddedFault::NotToml => 30,
            EmbeddedFault::Strategy(flaw) => flaw.fault.number(),
            EmbeddedFault::Check(fault) => fault.number(),
            EmbeddedFault::Full => 40,
            EmbeddedFault::Length(fault) => fault.number(),
            EmbeddedFault::EmptyRange => 73,
            EmbeddedFault::BadItemLine => 81,
            EmbeddedFault::TooManyItems => 82,
            EmbeddedFault::Memory => 90,
        }
    }
}

impl From<LogFault> for EmbeddedFault {
    ghost from_gives = { λ f e. e ≡ of_log f };

    fn from(fault: LogFault) -> EmbeddedFault {
        match fault {
            LogFault::Full => EmbeddedFault::Full,
            LogFault::Memory => EmbeddedFault::Memory,
        }
    }
}

impl From<LengthFault> for EmbeddedFault {
    ghost from_gives = { λ f e. e ≡ faults.Length f };

    fn from(fault: LengthFault) -> EmbeddedFault {
        EmbeddedFault::Length(fault)
    }
}

impl From<EmptyRange> for EmbeddedFault {
    ghost from_gives = { λ _ e. e ≡ faults.EmptyRange };

    fn from(_refused: EmptyRange) -> EmbeddedFault {
        EmbeddedFault::EmptyRange
    }
}

impl From<SettingsFault> for EmbeddedFault {
    ghost from_gives = { λ f e. e ≡ of_settings f };

    fn from(fault: SettingsFault) -> EmbeddedFault {
        match fault {
            SettingsFault::BadItemLine(_) => EmbeddedFault::BadItemLine,
            SettingsFault::TooManyItems { cap: _, count: _ } => EmbeddedFault::TooManyItems,
            SettingsFault::NotToml => EmbeddedFault::NotToml,
            SettingsFault::Strategy(flaw) => EmbeddedFault::Strategy(flaw),
            SettingsFault::Check(fault) => EmbeddedFault::Check(fault),
            SettingsFault::CannotRead(_) | SettingsFault::Memory => EmbeddedFault::Memory,
        }
    }
}

impl From<SplitFault> for EmbeddedFault {
    ghost from_gives = { λ f e. e ≡ of_split f };

    fn from(fault: SplitFault) -> EmbeddedFault {
        match fault {
            SplitFault::TooManyItems { shard: _ } => EmbeddedFault::TooManyItems,
            SplitFault::Memory => EmbeddedFault::Memory,
        }
    }
}

impl From<AllocError> for EmbeddedFault {
    ghost from_gives = { λ _ e. e ≡ faults.Memory };

    fn from(_refused: AllocError) -> EmbeddedFault {
        EmbeddedFault::Memory
    }
}

impl<T: Drop> From<AllocFailed<T>> for EmbeddedFault {
    ghost from_gives = { λ _ e. e ≡ faults.Memory };

    fn from(_refused: AllocFailed<T>) -> EmbeddedFault {
        EmbeddedFault::Memory
    }
}
