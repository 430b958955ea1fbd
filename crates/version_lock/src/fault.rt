ghost use Rattle.std.specs.Prelude.{◌≡◌};
ghost use Rattle.version_lock.specs.Faults.{pin_fault_number, insert_fault_number};

/// Why one try gave no pin.
#[derive(Clone, Copy, Debug, PartialEq, Eq)]
pub enum PinFault {
    /// The lock was held.
    Busy,
    /// Memory ran out.
    Memory,
}

impl PinFault {
    /// The number of the refusal: 41 or 90.
    pub fn number(self) -> u8
        ensures { result ≡ pin_fault_number self }
    {
        match self {
            PinFault::Busy => 41,
            PinFault::Memory => 90,
        }
    }
}

/// Why one try to insert added nothing, and did not find the item there.
#[derive(Clone, Copy, Debug, PartialEq, Eq)]
pub enum InsertFault {
    /// The lock was held.
    Busy,
    /// There would be more items than the cap.
    Full,
    /// Memory ran out.
    Memory,
}

impl InsertFault {
    /// The number of the refusal: 41, 40 or 90.
    pub fn number(self) -> u8
        ensures { result ≡ insert_fault_number self }
    {
        match self {
            InsertFault::Busy => 41,
            InsertFault::Full => 40,
            InsertFault::Memory => 90,
        }
    }
}
