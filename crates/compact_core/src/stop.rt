ghost use Rattle.std.specs.Prelude.{◌≡◌};
ghost use Rattle.compact_core.specs.Readings.{in_field};
ghost use Rattle.compact_core.specs.declared.stop.ReadError.TheVariants as errors;

use std::alloc::{AllocError, AllocFailed};
use wire_core::WireFault;

/// Why a field was not read.
#[derive(Clone, Copy, Debug, PartialEq, Eq)]
pub enum Stop {
    /// The bytes end before the field does.
    Unfinished,
    /// The first fault.
    Fault(WireFault),
}

/// Why what takes memory was not read.
#[derive(Clone, Copy, Debug, PartialEq, Eq)]
pub enum ReadError {
    /// The bytes say so.
    Stop(Stop),
    /// Memory ran out.
    Memory,
}

impl From<Stop> for ReadError {
    ghost from_gives = { λ stop e. e ≡ errors.Stop stop };

    fn from(stop: Stop) -> ReadError {
        ReadError::Stop(stop)
    }
}

impl From<AllocError> for ReadError {
    ghost from_gives = { λ _ e. e ≡ errors.Memory };

    fn from(_refused: AllocError) -> ReadError {
        ReadError::Memory
    }
}

impl<T: Drop> From<AllocFailed<T>> for ReadError {
    ghost from_gives = { λ _ e. e ≡ errors.Memory };

    fn from(_refused: AllocFailed<T>) -> ReadError {
        ReadError::Memory
    }
}

impl ReadError {
    /// The same, of what stands in a field that has all come.
    pub fn in_field(self) -> ReadError
        ensures { result ≡ in_field self }
    {
        match self {
            ReadError::Stop(Stop::Unfinished) => ReadError::Stop(Stop::Fault(
                WireFault::FrameLength,
            )),
            error => error,
        }
    }
}
