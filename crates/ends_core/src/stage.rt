use digest_core::WireSummary;
use place_core::Place;

/// Where an end's session stands.
#[derive(Debug, Drop)]
pub(crate) enum Stage<F: WireSummary> {
    /// The peer's message is due, or has come in part: where its placing stands.
    Open(Place<F>),
    /// A message without open part was sent or received.
    Over,
    /// A message was refused.
    Spent,
}
