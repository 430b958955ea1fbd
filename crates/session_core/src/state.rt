//! How a session stands.

/// How a session stands.
#[derive(Clone, Copy, Debug, PartialEq, Eq)]
pub enum State {
    /// It goes on.
    Open,
    /// A message without open part was sent or received.
    Ended,
    /// This side refused, with this number.
    Refused(u8),
    /// The peer refused, with this number.
    PeerRefused(u8),
}
