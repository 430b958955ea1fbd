//! Why a file of settings is refused, and where.

ghost use Rattle.std.specs.Prelude.{◌≡◌};
ghost use Rattle.item_files.specs.Faults.{of_check, of_strategy};
ghost use Rattle.item_files.specs.declared.fault.SettingsFault.TheVariants as faults;

use crate::bad_line::BadLine;
use io_core::ReadFault;
use std::alloc::{AllocError, AllocFailed};
use strategy_check::{CheckError, CheckFault};
use strategy_core::{StrategyError, StrategyFlaw};

/// Why a file, or a text, is refused, and where.
#[derive(Clone, Copy, Debug)]
pub enum SettingsFault {
    /// The file was not opened or not read, or is above 16,777,216 bytes.
    CannotRead(ReadFault),
    /// This is the first line of an item file that spells no item in the form of the file.
    BadItemLine(BadLine),
    /// An item file has more different items than the cap.
    TooManyItems {
        /// The cap.
        cap: usize,
        /// How many different items there are.
        count: usize,
    },
    /// A strategy file is no TOML text.
    NotToml,
    /// A table is no strategy: the first test that fails, and where.
    Strategy(StrategyFlaw),
    /// A strategy is not accepted.
    Check(CheckFault),
    /// Memory ran out.
    Memory,
}

impl From<CheckError> for SettingsFault {
    ghost from_gives = { λ f e. e ≡ of_check f };

    fn from(error: CheckError) -> SettingsFault {
        match error {
            CheckError::Fault(fault) => SettingsFault::Check(fault),
            CheckError::Memory => SettingsFault::Memory,
        }
    }
}

impl From<StrategyError> for SettingsFault {
    ghost from_gives = { λ f e. e ≡ of_strategy f };

    fn from(error: StrategyError) -> SettingsFault {
        match error {
            StrategyError::NotToml => SettingsFault::NotToml,
            StrategyError::Fault(flaw) => SettingsFault::Strategy(flaw),
            StrategyError::Memory => SettingsFault::Memory,
        }
    }
}

impl From<AllocError> for SettingsFault {
    ghost from_gives = { λ _ e. e ≡ faults.Memory };

    fn from(_refused: AllocError) -> SettingsFault {
        SettingsFault::Memory
    }
}

impl<T: Drop> From<AllocFailed<T>> for SettingsFault {
    ghost from_gives = { λ _ e. e ≡ faults.Memory };

    fn from(_refused: AllocFailed<T>) -> SettingsFault {
        SettingsFault::Memory
    }
}
