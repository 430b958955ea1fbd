//! How a session is tried again.

ghost use Rattle.std.specs.Prelude.{◌≡◌};
ghost use Rattle.settings_core.specs.Retries.{pause_before};

/// The seconds that are waited before a session is tried again, if that was done so often before: 1, 2, 4 and so on,
/// and at most 60.
pub fn pause_before(again: u32) -> u32
    ensures { result ≡ pause_before again }
{
    if again < 6 { 1 << again } else { 60 }
}
