//! Why a list is not split, and why there is no list of the shards that differ.

ghost use Rattle.std.specs.Prelude.{◌≡◌, ℕ};
ghost use Rattle.shard_core.specs.declared.fault.SplitFault.TheVariants as splits;
ghost use Rattle.shard_core.specs.declared.fault.DirectoryFault.TheVariants as directories;

use crate::entry::BadEntry;
use std::alloc::{AllocError, AllocFailed};

/// Why a list is not split.
#[derive(Clone, Copy, Debug, PartialEq, Eq)]
pub enum SplitFault {
    /// This shard would have more different items than the cap.
    TooManyItems {
        /// The shard's number.
        shard: u16,
    },
    /// Memory ran out.
    Memory,
}

impl SplitFault {
    /// The number of the refusal: 82 or 90.
    pub fn number(self) -> u8
        ensures many { (s : ℕ) → self ≡ SplitFault.TooManyItems s → result ≡ 82 }
        ensures memory { self ≡ SplitFault.Memory → result ≡ 90 }
    {
        match self {
            SplitFault::TooManyItems { .. } => 82,
            SplitFault::Memory => 90,
        }
    }
}

impl From<AllocError> for SplitFault {
    ghost from_gives = { λ _ e. e ≡ splits.Memory };

    fn from(_refused: AllocError) -> SplitFault {
        SplitFault::Memory
    }
}

impl<T: Drop> From<AllocFailed<T>> for SplitFault {
    ghost from_gives = { λ _ e. e ≡ splits.Memory };

    fn from(_refused: AllocFailed<T>) -> SplitFault {
        SplitFault::Memory
    }
}

/// Why there is no list of the shards that differ.
#[derive(Clone, Copy, Debug, PartialEq, Eq)]
pub enum DirectoryFault {
    /// What was learned is no part of a directory.
    Bad(BadEntry),
    /// Memory ran out.
    Memory,
}

impl From<BadEntry> for DirectoryFault {
    ghost from_gives = { λ bad e. e ≡ directories.Bad bad };

    fn from(bad: BadEntry) -> DirectoryFault {
        DirectoryFault::Bad(bad)
    }
}

impl From<AllocError> for DirectoryFault {
    ghost from_gives = { λ _ e. e ≡ directories.Memory };

    fn from(_refused: AllocError) -> DirectoryFault {
        DirectoryFault::Memory
    }
}
