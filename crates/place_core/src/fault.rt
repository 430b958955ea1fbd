ghost use Rattle.std.specs.Prelude.{◌≡◌};
ghost use Rattle.place_core.specs.PlaceFaults.{place_fault_number};

/// Why a message may not follow the message that it answers, or may not be the first of all.
#[derive(Clone, Copy, Debug, PartialEq, Eq)]
pub enum PlaceFault {
    /// A part belongs to no open part, or the first message is no single Sum over everything.
    Misplaced,
    /// A Sum over the very range of the open Sum.
    Stall,
    /// A partition does not go on where it has come to, or is not closed.
    Gap,
    /// A List has no Answer.
    MissingAnswer,
    /// An Answer has more or fewer marks than there are listed items.
    MarkCount,
    /// An Answer has a listed item.
    AnswerRepeats,
}

impl PlaceFault {
    /// The number of the refusal, 20 to 25.
    pub fn number(self) -> u8
        ensures { result ≡ place_fault_number self }
    {
        match self {
            PlaceFault::Misplaced => 20,
            PlaceFault::Stall => 21,
            PlaceFault::Gap => 22,
            PlaceFault::MissingAnswer => 23,
            PlaceFault::MarkCount => 24,
            PlaceFault::AnswerRepeats => 25,
        }
    }
}
