//! What peers may cost a server, by the words of a call.

ghost use Rattle.std.specs.Prelude.{◌≡◌, ◌≤◌, min, max};
ghost use Rattle.session_table.specs.Tables.{IsCapacity};
ghost use Rattle.server.specs.Limits.{IsLimitsOf};

use peer_loops::PeerLimits;
use settings_core::ServeWords;

/// How many peers there may be at once, if no number is given.
const PEERS: u32 = 1_024;

/// How many peers there may be at once of one address, if no number is given.
const PEERS_OF_ONE: u32 = 64;

/// For how many seconds a session may go on, if no number is given: an hour.
const SESSION_SECONDS: u32 = 3_600;

/// How many MiB of memory all peers may take, if no number is given.
const MEMORY: u32 = 1_024;

/// The bytes of a MiB.
const MIB: u64 = 1_048_576;

/// How many places the table of sessions has at most.
const MOST_PLACES: usize = 1_024;

/// What peers may cost a server that is asked for in these words.
pub fn limits_of(words: ServeWords<'_>) -> PeerLimits
    ensures { IsLimitsOf words.entry result }
{
    let peers = words.peers.unwrap_or(PEERS);
    PeerLimits {
        peers,
        patience: words.patience,
        session_seconds: words.session_seconds.unwrap_or(SESSION_SECONDS),
        most_bytes: words.most_bytes,
        memory: u64::from(words.memory.unwrap_or(MEMORY)).saturating_mul(MIB),
        sessions: places(peers),
        peers_of_one: words.peers_of_one.unwrap_or(PEERS_OF_ONE),
    }
}

/// How many places the table of sessions has for so many peers, and for so many links beside them: at most 1,024.
pub fn capacity(peers: u32, links: usize) -> usize
    ensures { IsCapacity result }
{
    places(peers).saturating_add(links).clamp(1, MOST_PLACES)
}

/// The limits of peers beside so many links, whose sessions take no places of the peers'.
pub fn beside(limits: PeerLimits, links: usize) -> PeerLimits {
    PeerLimits {
        sessions: limits.sessions.min(MOST_PLACES.saturating_sub(links)),
        ..limits
    }
}

/// How many places the table of sessions has for so many peers: one for each, and at most 1,024.
pub fn places(peers: u32) -> usize
    ensures capacity { IsCapacity result }
    ensures places { result ≡ min (max peers 1) 1024 }
{
    (peers as usize).clamp(1, MOST_PLACES)
}
