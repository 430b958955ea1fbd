//! What peers may cost.

/// What peers may cost.
#[derive(Clone, Copy, Debug, PartialEq, Eq)]
pub struct HubLimits {
    /// How many bytes of memory are counted for all of them, at most.
    pub memory: u64,
    /// How many milliseconds a peer may be silent.
    pub patience: u64,
    /// How many milliseconds a session may take.
    pub session: u64,
}
