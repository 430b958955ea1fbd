//! The items that begin with some bytes, as a range.

ghost use Rattle.std.specs.Prelude.{◌≡◌, ◌+◌, ◌<◌, ◌≤◌, ◌∷◌, ◌++◌, ℕ, List, [], length};
ghost use Rattle.definitions.specs.Items.{contains, IsBytes};
ghost use Rattle.item_core.specs.Bounds.{upper_value};
ghost use Rattle.item_core.specs.Prefixes.{begins_with, end_of, of_prefix};

use crate::item::Item;
use crate::lower::Lower;
use crate::range::Range;
use crate::upper::Upper;

/// The item of these bytes and of one more, which is the next after the last.
fn raised(front: &[u8], last: u8) -> Item
    requires byte { last < 255 }
    requires short { length front.now < 64 }
    ensures { result ≡ front.now ++ (last + 1) ∷ [] }
{
    let mut room = [0u8; 64];
    let count = front.len();
    room[..count].copy_from_slice(front);
    room[count] = last + 1;
    Item::of(&room[..count + 1])
}

/// What comes first after all byte strings that begin with these: the bytes up to the last one that is below 255, which
/// is one more then; the end, where there is none.
fn end_of(prefix: &[u8]) -> Upper
    requires { length prefix.now ≤ 64 }
    ensures { upper_value result ≡ end_of prefix.now }
{
    let mut rest = prefix;
    while let Some((last, front)) = rest.split_last() {
        if *last < 255 {
            return Upper::Before(raised(front, *last));
        }
        rest = front;
    }
    Upper::End
}

impl Range {
    /// The range of the items that begin with these bytes.
    #[tactic(auto, using(crate::proofs::Prefixes::begins))]
    pub fn of_prefix(prefix: &Item) -> Range
        ensures range { result ≡ of_prefix prefix.now }
        ensures begin { (x : List ℕ) → IsBytes x → contains result x ≡ begins_with prefix.now x }
    {
        match Range::new(Lower::of(prefix.bytes()), end_of(prefix.bytes())) {
            Ok(range) => range,
            Err(_) => unreachable!(),
        }
    }
}
