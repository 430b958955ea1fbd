//! What `sync` prints of the cost of a session.

ghost use Rattle.std.specs.Prelude.{Some};
ghost use Rattle.printing_core.specs.StatsTexts.{stats_text, both_line, seconds_text};

use std::fmt;
use std::io::Write;

/// What went over a connection one way.
#[derive(Clone, Copy, Debug, PartialEq, Eq)]
pub struct Tally {
    /// How many messages went whole.
    pub messages: u64,
    /// How many parts went whole.
    pub parts: u64,
    /// How many bytes went.
    pub bytes: u64,
}

/// What a session cost. It prints as lines: the messages, the parts and the bytes both ways, and the seconds.
#[derive(Clone, Copy, Debug, PartialEq, Eq)]
pub struct Stats {
    /// What was sent.
    pub sent: Tally,
    /// What was received.
    pub received: Tally,
    /// How many thousandths of a second it took, where the clock tells.
    pub millis: Option<u64>,
}

/// Thousandths of a second, which print as seconds to three places.
#[derive(Clone, Copy)]
pub(crate) struct Seconds(pub(crate) Option<u64>);

impl fmt::Display for Seconds {
    ghost output = { λ s. Some (seconds_text s.0) };

    fn fmt<W: fmt::Write>(&self, f: &mut fmt::Formatter<W>) -> fmt::Result {
        let Some(millis) = self.0 else {
            return write!(f, "-");
        };
        let seconds = millis / 1_000;
        let tenths = millis / 100 % 10;
        let hundredths = millis / 10 % 10;
        let thousandths = millis % 10;
        write!(f, "{seconds}.{tenths}{hundredths}{thousandths}")
    }
}

/// What went both ways, by its name, as a line.
#[derive(Clone, Copy)]
struct Both {
    name: &'static str,
    sent: u64,
    received: u64,
}

impl fmt::Display for Both {
    ghost output = { λ b. Some (both_line b.name.now b.sent b.received) };

    fn fmt<W: fmt::Write>(&self, f: &mut fmt::Formatter<W>) -> fmt::Result {
        write!(
            f,
            "{} sent {} received {}\n",
            self.name, self.sent, self.received
        )
    }
}

impl fmt::Display for Stats {
    ghost output = { λ s. Some (stats_text s) };

    fn fmt<W: fmt::Write>(&self, f: &mut fmt::Formatter<W>) -> fmt::Result {
        let Tally {
            messages,
            parts,
            bytes,
        } = self.sent;
        let received = self.received;
        let messages = Both {
            name: "messages",
            sent: messages,
            received: received.messages,
        };
        let parts = Both {
            name: "parts",
            sent: parts,
            received: received.parts,
        };
        let bytes = Both {
            name: "bytes",
            sent: bytes,
            received: received.bytes,
        };
        let seconds = Seconds(self.millis);
        write!(f, "{messages}{parts}{bytes}seconds {seconds}\n")
    }
}

/// Prints what a session cost. Lines that are not taken change nothing.
pub fn tell_stats<E: Write>(err: &mut E, stats: Stats) {
    let _told = write!(err, "{stats}");
}
