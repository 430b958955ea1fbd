//! The wire profiles that words may ask for.

ghost use Rattle.std.specs.Prelude.{◌≡◌};
ghost use Rattle.settings_core.specs.Calls.{first_profile};

use item_files::WireProfile;

/// The wire profile that sessions are to be spoken in.
#[derive(Clone, Copy, Debug, PartialEq, Eq)]
pub enum AskedProfile {
    /// This one and no other.
    Exactly(WireProfile),
    /// The compact profile, and profile 1 with a server that does not know it.
    Best,
}

impl AskedProfile {
    /// The profile of the first session.
    pub fn first(self) -> WireProfile
        ensures { result ≡ first_profile self }
    {
        match self {
            AskedProfile::Exactly(profile) => profile,
            AskedProfile::Best => WireProfile::Compact,
        }
    }
}
