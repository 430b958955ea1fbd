use crate::part::Part;
use digest_core::{Fingerprint, WireSummary};

/// What a frame of a stream says.
#[derive(Debug, PartialEq, Eq, Drop)]
pub enum Event<F: WireSummary = Fingerprint> {
    /// A part of a message.
    Part(Part<F>),
    /// The message's parts have all come.
    End,
    /// The other side refused, with this number.
    Fault(u8),
}
