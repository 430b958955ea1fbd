//! The set that a command speaks of.

use settings_core::{FloorRule, Sharding};
use shard_core::{Floor, SetName};

/// The set that `serve` or `sync` is about, and what standard error is told beside refusals.
#[derive(Clone, Copy)]
pub struct Target<'a> {
    /// Its name as the other side is told it, if it has one.
    pub set: Option<SetName<'a>>,
    /// Which of its shards are meant, if it is cut into shards.
    pub sharding: Option<Sharding>,
    /// Which of its items are meant: those of a range, or those that it does not forget.
    pub kept: &'a Floor,
    /// Which items it forgets.
    pub forgets: &'a FloorRule,
    /// Whether standard error is a terminal, and may be shown how far all is.
    pub shows: bool,
    /// Whether standard error is told more.
    pub explains: bool,
}
