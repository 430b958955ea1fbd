//! How the partners of a server stand.

ghost use Rattle.std.specs.Prelude.{◌≡◌};
ghost use Rattle.watch_core.specs.Partners.{behind, is_behind, is_up, seconds_ago, state_text};

use crate::turn::Turn;

/// Of a partner that is behind, more turns in a row than so many did not end.
const MOST_BEHIND: u64 = 3;

/// How a partner stands.
#[derive(Clone, Copy, Debug, PartialEq, Eq)]
pub struct Partnered<'a> {
    /// Its address, as it was given.
    pub address: &'a str,
    /// How many turns with it ended.
    pub ended: u64,
    /// How many did not.
    pub failed: u64,
    /// How many in a row did not, up to now.
    pub behind: u64,
    /// How many milliseconds ago the last one ended that did.
    pub silent: Option<u64>,
    /// How the last one was that did not end.
    pub fault: Option<Turn>,
}

impl Partnered<'_> {
    /// Whether the last turn with it ended.
    pub(crate) fn is_up(&self) -> bool
        ensures { result ≡ is_up self.now }
    {
        self.behind == 0 && self.ended > 0
    }

    /// Whether more than three turns in a row did not end.
    fn is_behind(&self) -> bool
        ensures { result ≡ is_behind self.now }
    {
        self.behind > MOST_BEHIND
    }

    /// How it stands, in a word.
    pub(crate) fn state(&self) -> &'static str
        ensures { result.now ≡ state_text self.now }
    {
        if self.is_up() {
            return "up";
        }
        if self.behind == 0 {
            return "new";
        }
        match self.fault {
            Some(Turn::Refuses(_)) | Some(Turn::IsRefused(_)) => "refused",
            _ => "away",
        }
    }

    /// How many seconds ago the last turn ended that did.
    pub(crate) fn seconds_ago(&self) -> Option<u64>
        ensures { result ≡ seconds_ago self.now }
    {
        self.silent.map(|silent| silent / 1_000)
    }
}

/// Of how many partners more than three turns in a row did not end.
pub fn behind_of(partners: &[Partnered<'_>]) -> usize
    ensures { result ≡ behind partners.now }
{
    partners
        .iter()
        .filter(|partner| partner.is_behind())
        .count()
}
