//! How the visits of peers ended.

ghost use Rattle.std.specs.Prelude.{◌≡◌, ◌<◌, length};
ghost use Rattle.watch_core.specs.Counting.{ending_of, no_endings, with_ending, with_one_more};

use session_table::{Direction, Outcome};

/// How many numbers a refusal may have.
const NUMBERS: usize = 256;

/// How the visit of a peer ended.
#[derive(Clone, Copy, Debug, PartialEq, Eq)]
pub enum Ending {
    /// Its session came to its end.
    Ended,
    /// This side refused, with this number.
    Refused { code: u8 },
    /// The peer refused, with this number.
    PeerRefused { code: u8 },
    /// The reader or the writer failed, or its time was over.
    Io { side: Direction },
    /// Memory ran out.
    Memory,
}

impl Ending {
    /// That of an outcome.
    pub fn of(outcome: &Outcome) -> Ending
        ensures { result ≡ ending_of outcome.now }
    {
        match outcome {
            Outcome::Ended { .. } => Ending::Ended,
            Outcome::Refused { code, .. } => Ending::Refused { code: *code },
            Outcome::PeerRefused { code, .. } => Ending::PeerRefused { code: *code },
            Outcome::Io { side, .. } => Ending::Io { side: *side },
            Outcome::Memory { .. } => Ending::Memory,
        }
    }
}

/// How many visits ended in each way. Each count stops at 2^64 - 1.
#[derive(Drop)]
pub struct EndingCounts {
    /// All of them.
    pub all: u64,
    /// Those whose session came to its end.
    pub ended: u64,
    /// Those that this side refused, by the number.
    pub refused: [u64; NUMBERS],
    /// Those that the peer refused, by the number.
    pub peer_refused: [u64; NUMBERS],
    /// Those whose reader failed.
    pub io_read: u64,
    /// Those whose writer failed.
    pub io_write: u64,
    /// Those for which memory ran out.
    pub memory: u64,
}

/// Counts one more at this place.
fn add_one(counts: &mut [u64], place: usize)
    requires { place < length counts.old }
    ensures { counts.new ≡ with_one_more counts.old place }
{
    counts[place] = counts[place].saturating_add(1);
}

impl EndingCounts {
    /// No visit so far.
    pub fn none() -> EndingCounts
        ensures { result ≡ no_endings }
    {
        EndingCounts {
            all: 0,
            ended: 0,
            refused: [0; NUMBERS],
            peer_refused: [0; NUMBERS],
            io_read: 0,
            io_write: 0,
            memory: 0,
        }
    }

    /// Counts a visit that ended so.
    pub fn count(&mut self, ending: Ending)
        ensures { self.new ≡ with_ending ending self.old }
    {
        self.all = self.all.saturating_add(1);
        match ending {
            Ending::Ended => self.ended = self.ended.saturating_add(1),
            Ending::Refused { code } => add_one(&mut self.refused, usize::from(code)),
            Ending::PeerRefused { code } => add_one(&mut self.peer_refused, usize::from(code)),
            Ending::Io {
                side: Direction::Read,
            } => { self.io_read = self.io_read.saturating_add(1) }
            Ending::Io {
                side: Direction::Write,
            } => { self.io_write = self.io_write.saturating_add(1) }
            Ending::Memory => self.memory = self.memory.saturating_add(1),
        }
    }
}
