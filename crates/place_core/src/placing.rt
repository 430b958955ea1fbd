//! Placing a whole message.

ghost use Rattle.std.specs.Prelude.{◌≡◌, ◌↔◌, IsOk, fold};
ghost use Rattle.definitions.specs.Items.{Apart};
ghost use Rattle.definitions.specs.Messages.{open_ranges};
ghost use Rattle.definitions.specs.Placing as placing;
ghost use Rattle.place_core.specs.Cursors.{place_at};
ghost use Rattle.place_core.specs.PlaceFaults.{fault_in};

use crate::cursor::Cursor;
use crate::fault::PlaceFault;
use digest_core::WireSummary;
use wire_core::{Message, Part};

/// Places each of the parts. Of parts after a refusal nothing is looked at.
fn place_parts<F: WireSummary>(cursor: &mut Cursor, sent: &[Part<F>], parts: &[Part<F>])
    ensures { place_at sent.now cursor.new ≡ fold placing.next (place_at sent.now cursor.old) parts.now }
{
    for part in parts {
        let _ = cursor.next(sent, part);
    }
}

/// Whether the message may follow the own message that it answers.
///
/// Refused 20 to 25 by the first thing that is out of place.
pub fn place_message<F: WireSummary>(
    sent: &Message<F>,
    message: &Message<F>,
) -> Result<(), PlaceFault>
    ensures fault { fault_in result ≡ placing.place_fault sent.now message.now }
    ensures placed { Apart (open_ranges sent.now) → IsOk result ↔ placing.Placed sent.now message.now }
{
    laws::talks::placing_is_exact::<F>();
    laws::talks::messages_have_ranges::<F>();
    let own = sent.parts();
    let received = message.parts();
    let mut cursor = Cursor::start::<F>();
    place_parts(&mut cursor, own, received);
    cursor.finish(own)
}

/// Whether the message may be the first of all: one Sum over everything, or Sums that partition it where the first
/// message may cut.
///
/// Refused 20 or 22 else.
pub fn place_opening<F: WireSummary>(message: &Message<F>) -> Result<(), PlaceFault>
    ensures fault { fault_in result ≡ placing.opening_fault F.summary.may_cut message.now }
    ensures opening { IsOk result ↔ placing.IsOpening F.summary.may_cut message.now }
{
    laws::talks::opening_is_exact::<F>();
    let received = message.parts();
    let none = &received[..0];
    let mut cursor = Cursor::First(F::may_cut());
    place_parts(&mut cursor, none, received);
    cursor.finish(none)
}
