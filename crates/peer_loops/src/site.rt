//! Where a loop runs.

use crate::common::Common;
use crate::crowd::Crowd;
use crate::seats::Seats;
use std::alloc::Global;
use tcp_front::Listener;

/// Where a loop runs: what it shares with the others, and where its peers come from.
#[derive(Drop)]
pub(crate) struct Site<'a, R, G> {
    pub(crate) rt: &'a R,
    pub(crate) alloc: Global,
    pub(crate) common: &'a Common<'a, G>,
    pub(crate) crowd: &'a Crowd<'a>,
    pub(crate) seats: &'a Seats,
    pub(crate) listener: &'a Listener<'a, R>,
}
