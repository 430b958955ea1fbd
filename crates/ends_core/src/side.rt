/// A side of a session.
#[derive(Clone, Copy, Debug, PartialEq, Eq)]
pub enum Side {
    /// The one that speaks first.
    Initiator,
    /// The one that is spoken to first.
    Responder,
}
