//! Why a set is not loaded.

ghost use Rattle.std.specs.Prelude.{◌≡◌, ℕ};
ghost use Rattle.item_files.specs.PieceTexts.{of_split};
ghost use Rattle.item_files.specs.declared.load_fault.LoadFault.TheVariants as faults;

use crate::bad_line::BadLine;
use io_core::ReadFault;
use shard_core::SplitFault;
use std::alloc::{AllocError, AllocFailed};

/// Why a set is not loaded.
#[derive(Clone, Copy, Debug)]
pub enum LoadFault {
    /// The reader failed.
    CannotRead(ReadFault),
    /// The text is longer than one of so many shards may be.
    TooLong,
    /// This is the first line of the text that spells no item in its form.
    BadItemLine(BadLine),
    /// This is the first shard that has more different items than the cap.
    TooManyItems {
        /// The shard's number.
        shard: u16,
    },
    /// Memory ran out.
    Memory,
}

impl LoadFault {
    /// The number of the refusal: 80, 81, 82 or 90.
    pub fn number(self) -> u8
        ensures read { (r : _) → self ≡ LoadFault.CannotRead r → result ≡ 80 }
        ensures long { self ≡ LoadFault.TooLong → result ≡ 80 }
        ensures bad { (b : _) → self ≡ LoadFault.BadItemLine b → result ≡ 81 }
        ensures many { (s : ℕ) → self ≡ LoadFault.TooManyItems s → result ≡ 82 }
        ensures memory { self ≡ LoadFault.Memory → result ≡ 90 }
    {
        match self {
            LoadFault::CannotRead(_) | LoadFault::TooLong => 80,
            LoadFault::BadItemLine(_) => 81,
            LoadFault::TooManyItems { .. } => 82,
            LoadFault::Memory => 90,
        }
    }
}

impl From<SplitFault> for LoadFault {
    ghost from_gives = { λ f e. e ≡ of_split f };

    fn from(fault: SplitFault) -> LoadFault {
        match fault {
            SplitFault::TooManyItems { shard } => LoadFault::TooManyItems { shard },
            SplitFault::Memory => LoadFault::Memory,
        }
    }
}

impl From<AllocError> for LoadFault {
    ghost from_gives = { λ _ e. e ≡ faults.Memory };

    fn from(_refused: AllocError) -> LoadFault {
        LoadFault::Memory
    }
}

impl<T: Drop> From<AllocFailed<T>> for LoadFault {
    ghost from_gives = { λ _ e. e ≡ faults.Memory };

    fn from(_refused: AllocFailed<T>) -> LoadFault {
        LoadFault::Memory
    }
}
