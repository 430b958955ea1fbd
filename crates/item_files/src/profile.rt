/// What a Sum carries of the items in its range, and how messages are spelled.
#[derive(Clone, Copy, Debug, PartialEq, Eq)]
pub enum WireProfile {
    /// Profile 1: a fingerprint.
    One,
    /// Profile 2: how many items there are, and a fingerprint.
    Two,
    /// The compact profile: a print of both, in the compact spelling.
    Compact,
}
