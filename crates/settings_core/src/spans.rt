//! The spans of the numbers that the words of a call give.

/// The greatest number of workers.
pub(crate) const MAX_WORKERS: u8 = 16;

/// The greatest number of connections that can be asked for.
pub(crate) const MAX_SESSIONS: u32 = 1_000_000;

/// The greatest number of seconds that a read, a write or a connect may take: a day.
pub(crate) const MAX_PATIENCE: u32 = 86_400;

/// The least number of bytes that may be read of a session. The greatest is that of its type.
pub(crate) const MIN_BYTES: u32 = 1_024;

/// The greatest number of peers at once.
pub(crate) const MAX_PEERS: u32 = 65_535;

/// The greatest number of times that a session is tried again.
pub(crate) const MAX_RETRIES: u32 = 1_000;

/// The greatest number of seconds that a session may go on: a week.
pub(crate) const MAX_SESSION_SECONDS: u32 = 604_800;

/// The greatest number of seconds between two sessions with a partner: a day.
pub(crate) const MAX_EVERY: u32 = 86_400;

/// The greatest number of seconds that an item may be old: 3,650 days.
pub(crate) const MAX_NEWEST: u32 = 315_360_000;

/// The greatest number of MiB of memory for all peers: a TiB.
pub(crate) const MAX_MEMORY: u32 = 1_048_576;

/// The greatest number of items of a set.
pub(crate) const MAX_ITEMS: u32 = 65_536;

/// The greatest number of items of a set that is planned: 64,000 in each of the most shards.
pub(crate) const MAX_PLANNED_ITEMS: u32 = 262_144_000;

/// The least number of bytes of an item that is made.
pub(crate) const MIN_ITEM_LENGTH: u32 = 4;

/// The greatest number of bytes of an item.
pub(crate) const MAX_ITEM_LENGTH: u32 = 64;

/// The greatest number of milliseconds of a round trip: a minute.
pub(crate) const MAX_ROUND_TRIP: u32 = 60_000;

/// The greatest number of megabits in a second.
pub(crate) const MAX_RATE: u32 = 100_000;

/// The greatest number of seconds that are spent on a search: an hour.
pub(crate) const MAX_SEARCH: u32 = 3_600;

/// A set is cut into at most 2 to this power shards.
pub(crate) const MAX_SHARD_BITS: u32 = 12;

/// The greatest number of sessions of one call at once.
pub(crate) const MAX_AT_ONCE: u32 = 64;
