//! Why no more is read or written.

ghost use Rattle.std.specs.Prelude.{◌≡◌};
ghost use Rattle.session_core.specs.declared.fault.LinkFault.TheVariants as faults;

use std::alloc::AllocError;

/// Why no more is read or written.
#[derive(Clone, Copy, Debug, PartialEq, Eq)]
pub enum LinkFault {
    /// The reader gave an error.
    Read,
    /// The writer gave an error, or took no byte of a rest.
    Write,
    /// Memory ran out.
    Memory,
}

impl From<AllocError> for LinkFault {
    ghost from_gives = { λ _ e. e ≡ faults.Memory };

    fn from(_refused: AllocError) -> LinkFault {
        LinkFault::Memory
    }
}
