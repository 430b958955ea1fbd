//! What is seen from a door.

use crate::watching::{Beginning, Sight};
use peer_loops::Common;
use std::alloc::Global;

/// What is seen from a door: what all threads of a server share, and what it began with.
#[derive(Drop)]
pub struct Yard<'a, 'p, R, G> {
    pub rt: &'a R,
    pub alloc: Global,
    pub common: &'a Common<'a, G>,
    pub sight: Sight<'a, 'p>,
    pub beginning: Beginning<'a>,
}
