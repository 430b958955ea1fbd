//! Pieces that several texts have.

ghost use Rattle.std.specs.Prelude.{Some, ◌++◌};
ghost use Rattle.watch_core.specs.Pieces.{address_text, cell_text, known_text, named_ending_text, reason_text};
ghost use Rattle.watch_core.specs.Pieces.{fault_text, seconds_text, spoken_text, which_text};

use crate::endings::Ending;
use crate::profile::SpokenProfile;
use crate::turn::Turn;
use session_table::{Direction, session_refusal_name};
use shard_core::Which;
use std::fmt;
use std::net::SocketAddr;

/// Thousandths of a second, which print as seconds to three places.
#[derive(Clone, Copy)]
pub(crate) struct Seconds(pub(crate) u64);

impl fmt::Display for Seconds {
    ghost output = { λ s. Some (seconds_text s.0) };

    fn fmt<W: fmt::Write>(&self, f: &mut fmt::Formatter<W>) -> fmt::Result {
        let millis = self.0;
        let seconds = millis / 1_000;
        let tenths = millis / 100 % 10;
        let hundredths = millis / 10 % 10;
        let thousandths = millis % 10;
        write!(f, "{seconds}.{tenths}{hundredths}{thousandths}")
    }
}

/// An address, or `-` where it is not known.
#[derive(Clone, Copy)]
pub(crate) struct Address(pub(crate) Option<SocketAddr>);

impl fmt::Display for Address {
    ghost output = { λ address. Some (address_text address.0) };

    fn fmt<W: fmt::Write>(&self, f: &mut fmt::Formatter<W>) -> fmt::Result {
        match self.0 {
            Some(address) => write!(f, "{address}"),
            None => write!(f, "-"),
        }
    }
}

/// A number, or `-` where there is none.
#[derive(Clone, Copy)]
pub(crate) struct Known(pub(crate) Option<u64>);

impl fmt::Display for Known {
    ghost output = { λ known. Some (known_text known.0) };

    fn fmt<W: fmt::Write>(&self, f: &mut fmt::Formatter<W>) -> fmt::Result {
        match self.0 {
            Some(number) => write!(f, "{number}"),
            None => write!(f, "-"),
        }
    }
}

/// A wire profile, or `-` where none was spoken.
#[derive(Clone, Copy)]
pub(crate) struct Profile(pub(crate) Option<SpokenProfile>);

impl fmt::Display for Profile {
    ghost output = { λ profile. Some (spoken_text profile.0) };

    fn fmt<W: fmt::Write>(&self, f: &mut fmt::Formatter<W>) -> fmt::Result {
        match self.0 {
            Some(profile) => write!(f, "{profile}"),
            None => write!(f, "-"),
        }
    }
}

/// The serial of a session, or `-`, and the shard, or the directory, that it spoke of, if it did of one.
#[derive(Clone, Copy)]
pub(crate) struct Session {
    pub(crate) serial: Option<u64>,
    pub(crate) which: Option<Which>,
}

impl fmt::Display for Session {
    ghost output = { λ s. Some (known_text s.serial ++ which_text s.which) };

    fn fmt<W: fmt::Write>(&self, f: &mut fmt::Formatter<W>) -> fmt::Result {
        let serial = Known(self.serial);
        match self.which {
            None => write!(f, "{serial}"),
            Some(Which::Shard(shard)) => write!(f, "{serial} shard={shard}"),
            Some(Which::Directory) => write!(f, "{serial} shard=directory"),
        }
    }
}

/// How a visit ended, as a word, and the number of the refusal where it was one.
#[derive(Clone, Copy)]
pub(crate) struct Reason {
    pub(crate) ending: Ending,
    /// What stands between the word and the number.
    pub(crate) between: &'static str,
}

impl fmt::Display for Reason {
    ghost output = { λ reason. Some (reason_text reason.between.now reason.ending) };

    fn fmt<W: fmt::Write>(&self, f: &mut fmt::Formatter<W>) -> fmt::Result {
        let between = self.between;
        match self.ending {
            Ending::Ended => write!(f, "ended"),
            Ending::Refused { code } => write!(f, "refused{between}{code}"),
            Ending::PeerRefused { code } => write!(f, "peer_refused{between}{code}"),
            Ending::Io {
                side: Direction::Read,
            } => write!(f, "io_read"),
            Ending::Io {
                side: Direction::Write,
            } => write!(f, "io_write"),
            Ending::Memory => write!(f, "memory"),
        }
    }
}

/// How a visit ended, for a person: of a refusal its number and its name.
#[derive(Clone, Copy)]
pub(crate) struct Named(pub(crate) Ending);

impl fmt::Display for Named {
    ghost output = { λ named. Some (named_ending_text named.0) };

    fn fmt<W: fmt::Write>(&self, f: &mut fmt::Formatter<W>) -> fmt::Result {
        match self.0 {
            Ending::Ended => write!(f, "ended"),
            Ending::Refused { code } => write!(f, "{code} {}", session_refusal_name(code)),
            Ending::PeerRefused { code } => {
                write!(f, "peer refused {code} {}", session_refusal_name(code))
            }
            Ending::Io {
                side: Direction::Read,
            } => write!(f, "io read"),
            Ending::Io {
                side: Direction::Write,
            } => write!(f, "io write"),
            Ending::Memory => write!(f, "memory"),
        }
    }
}

/// How the last turn with a partner was that did not end, or `-` where there was none.
#[derive(Clone, Copy)]
pub(crate) struct Fault(pub(crate) Option<Turn>);

impl fmt::Display for Fault {
    ghost output = { λ fault. Some (fault_text fault.0) };

    fn fmt<W: fmt::Write>(&self, f: &mut fmt::Formatter<W>) -> fmt::Result {
        match self.0 {
            Some(turn) => write!(f, "{turn}"),
            None => write!(f, "-"),
        }
    }
}

/// A value that stands in a page.
#[derive(Clone, Copy)]
pub(crate) enum Cell<'a> {
    /// A text.
    Text(&'a str),
    /// A number.
    Number(u64),
    /// A number, or `-`.
    Known(Option<u64>),
    /// A wire profile, or `-`.
    Profile(Option<SpokenProfile>),
    /// An address, or `-`.
    Address(Option<SocketAddr>),
    /// How a visit ended.
    Ending(Ending),
    /// How the last turn was that did not end, or `-`.
    Fault(Option<Turn>),
    /// Thousandths of a second, as seconds.
    Seconds(u64),
}

impl fmt::Display for Cell<'_> {
    ghost output = { λ cell. Some (cell_text cell) };

    fn fmt<W: fmt::Write>(&self, f: &mut fmt::Formatter<W>) -> fmt::Result {
        match *self {
            Cell::Text(text) => write!(f, "{text}"),
            Cell::Number(number) => write!(f, "{number}"),
            Cell::Known(number) => write!(f, "{}", Known(number)),
            Cell::Profile(profile) => write!(f, "{}", Profile(profile)),
            Cell::Address(address) => write!(f, "{}", Address(address)),
            Cell::Ending(ending) => write!(f, "{}", Named(ending)),
            Cell::Fault(fault) => write!(f, "{}", Fault(fault)),
            Cell::Seconds(millis) => write!(f, "{}", Seconds(millis)),
        }
    }
}
