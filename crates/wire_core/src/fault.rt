ghost use Rattle.std.specs.Prelude.{◌≡◌};
ghost use Rattle.wire_core.specs.Refused.{fault_number, decode_error_number};
ghost use Rattle.wire_core.specs.PartFaults.{part_fault_number};
ghost use Rattle.wire_core.specs.declared.fault.DecodeError.TheVariants as errors;

use std::alloc::{AllocError, AllocFailed};

/// What is wrong with bytes that should spell a message or a stream: the first fault from left to right.
#[derive(Clone, Copy, Debug, PartialEq, Eq)]
pub enum WireFault {
    /// The first four bytes of a stream are another hello.
    BadHello,
    /// The length of a body is 0 or above 8,388,608, or the body ends before a field does.
    FrameLength,
    /// The input ends before the message does.
    Truncated,
    /// No frame of this kind may stand here.
    BadKind,
    /// The length of a bound is none.
    BadBound,
    /// The lower bound is not below the upper one.
    EmptyRange,
    /// The length of an item is none.
    ItemLength,
    /// An item is not greater than the one before it.
    ItemOrder,
    /// An item is outside the range of its part.
    ItemOutside,
    /// A bit that stands for no mark is set.
    MarkPadding,
    /// Bytes stand after the last field, or after the message.
    Trailing,
    /// The message has more than 131,072 parts.
    TooManyParts,
}

impl WireFault {
    /// The number of the refusal, 1 to 12.
    pub fn number(self) -> u8
        ensures { result ≡ fault_number self }
    {
        match self {
            WireFault::BadHello => 1,
            WireFault::FrameLength => 2,
            WireFault::Truncated => 3,
            WireFault::BadKind => 4,
            WireFault::BadBound => 5,
            WireFault::EmptyRange => 6,
            WireFault::ItemLength => 7,
            WireFault::ItemOrder => 8,
            WireFault::ItemOutside => 9,
            WireFault::MarkPadding => 10,
            WireFault::Trailing => 11,
            WireFault::TooManyParts => 12,
        }
    }
}

/// Why a part has no spelling.
#[derive(Clone, Copy, Debug, PartialEq, Eq)]
pub enum PartFault {
    /// An item is not greater than the one before it.
    ItemOrder,
    /// An item is outside the range.
    ItemOutside,
    /// The body would have more than 8,388,608 bytes.
    FrameLength,
}

impl PartFault {
    /// The number of the refusal: 8, 9 or 2.
    pub fn number(self) -> u8
        ensures { result ≡ part_fault_number self }
    {
        match self {
            PartFault::ItemOrder => 8,
            PartFault::ItemOutside => 9,
            PartFault::FrameLength => 2,
        }
    }
}

/// Why bytes could not be read.
#[derive(Clone, Copy, Debug, PartialEq, Eq)]
pub enum DecodeError {
    /// They spell no message, or are in no stream.
    Fault(WireFault),
    /// Memory ran out.
    Memory,
}

impl DecodeError {
    /// The number of the refusal: 1 to 12, or 90.
    pub fn number(self) -> u8
        ensures { result ≡ decode_error_number self }
    {
        match self {
            DecodeError::Fault(fault) => fault.number(),
            DecodeError::Memory => 90,
        }
    }
}

impl From<WireFault> for DecodeError {
    ghost from_gives = { λ f e. e ≡ errors.Fault f };

    fn from(fault: WireFault) -> DecodeError {
        DecodeError::Fault(fault)
    }
}

impl From<AllocError> for DecodeError {
    ghost from_gives = { λ _ e. e ≡ errors.Memory };

    fn from(_refused: AllocError) -> DecodeError {
        DecodeError::Memory
    }
}

impl<T: Drop> From<AllocFailed<T>> for DecodeError {
    ghost from_gives = { λ _ e. e ≡ errors.Memory };

    fn from(_refused: AllocFailed<T>) -> DecodeError {
        DecodeError::Memory
    }
}
