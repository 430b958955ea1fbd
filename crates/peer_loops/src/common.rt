use crate::news::News;
use session_table::SessionTable;
use std::sync::{Arc, Mutex};
use strategy_check::Accepted;

/// What all loops and links share beside the parts: the strategy, the table of live sessions, a gate, and the news.
#[derive(Drop)]
pub struct Common<'a, G> {
    /// The strategy by which each session replies.
    pub accepted: &'a Arc<Accepted>,
    /// The live sessions.
    pub sessions: &'a Mutex<SessionTable>,
    /// What is told of the sessions.
    pub gate: &'a G,
    /// What is known of the set beside its parts.
    pub news: &'a News,
}
