//! In which wire profile a peer spoke.

ghost use Rattle.std.specs.Prelude.{Some};
ghost use Rattle.watch_core.specs.Pieces.{profile_text};

use std::fmt;

/// A wire profile.
///
/// It prints as it is called in lines and pages.
#[derive(Clone, Copy, Debug, PartialEq, Eq)]
pub enum SpokenProfile {
    /// Profile 1.
    One,
    /// Profile 2.
    Two,
    /// The compact profile.
    Compact,
}

impl fmt::Display for SpokenProfile {
    ghost output = { λ profile. Some (profile_text profile) };

    fn fmt<W: fmt::Write>(&self, f: &mut fmt::Formatter<W>) -> fmt::Result {
        match *self {
            SpokenProfile::One => write!(f, "1"),
            SpokenProfile::Two => write!(f, "2"),
            SpokenProfile::Compact => write!(f, "compact"),
        }
    }
}
