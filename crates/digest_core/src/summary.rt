ghost use Rattle.std.specs.Prelude.{◌≡◌, List, [], ◌∷◌, ◌++◌, length, OnOk};
ghost use Rattle.definitions.specs.Items as items;
ghost use Rattle.definitions.specs.Fingerprints as fingerprints;
ghost use Rattle.definitions.specs.Fingerprints.{IsExact, two_lanes};
ghost use Rattle.definitions.specs.Wire as wire;
ghost use Rattle.definitions.specs.Wire.{IsProfile, IsFingerprint};

use crate::fingerprint::Fingerprint;
use item_core::Item;
use std::alloc::AllocError;

/// What stands for a set of items in a message, in a fixed size: how it is made, compared and spelled.
pub trait WireSummary: Copy + Drop {
    /// The summary of a list of items, and the test of two summaries.
    ghost summary: { fingerprints.Summary Self };

    /// The profile in which such summaries are sent.
    ghost profile: { wire.Profile Self };

    /// Holds of the values of the type.
    ghost is_value: { Self → Type 0 };

    /// The summary of each set of so many items with this two-lane sum.
    fn of_set(count: usize, lanes: Fingerprint) -> Self
        ensures { (A : List items.Item) → count ≡ length A → lanes ≡ two_lanes.of A → result ≡ summary.of A };

    /// Whether the two are equal.
    fn equals(self, other: Self) -> bool
        ensures { result ≡ summary.same self other };

    /// Whether the first message of a session may cut the range of everything, or is one summary of it.
    fn may_cut() -> bool
        ensures { result ≡ summary.may_cut };

    /// The four bytes with which a stream begins in which such summaries are sent.
    fn hello() -> [u8; 4]
        ensures { result ≡ profile.hello };

    /// The number of bytes that spell a summary.
    fn size() -> usize
        ensures { result ≡ profile.size };

    /// Appends the bytes that spell it.
    fn push(self, out: &mut Vec<u8>) -> Result<(), AllocError>
        ensures { OnOk result (out.new.items ≡ out.old.items ++ profile.text self) };

    /// The summary that these bytes spell.
    fn read(bytes: &[u8]) -> Self
        requires { length bytes.now ≡ profile.size }
        ensures { result ≡ profile.read bytes.now };

    /// Tells a proof that a value in hand is one of the type's values.
    fn known(self)
        ensures { is_value self };

    /// The summary of a list is a value.
    ghost of_is_value: { (A : List items.Item) → is_value (summary.of A) };

    /// The test answers whether two summaries are equal.
    ghost exact: { IsExact summary };

    /// The profile is a real one, and spells each value.
    ghost real: { IsProfile profile };

    ghost spelled: { (f : Self) → is_value f → IsFingerprint profile f };

    /// Each value takes the same number of bytes.
    ghost fixed: { (f : Self) → is_value f → length (profile.text f) ≡ profile.size };
}

/// Summaries that add up: those of two sets without a common item join to that of their union. `join` is associative
/// and commutative, and `zero` is its unit.
pub trait Summary: WireSummary {
    /// The summary of two lists, one after the other, from those of the two.
    ghost joined: { Self → Self → Self };

    /// The summary of no items.
    fn zero() -> Self
        ensures { result ≡ Self.summary.of [] };

    /// The summary of one item.
    fn of_item(item: &Item) -> Self
        ensures { result ≡ Self.summary.of (item.now ∷ []) };

    /// The summary of the items of both.
    fn join(self, other: Self) -> Self
        ensures { result ≡ joined self other };

    /// Each join is a value.
    ghost joined_is_value: { (f g : Self) → Self.is_value (joined f g) };

    /// Joining is a sum: associative, commutative, with the summary of no items as its unit.
    ghost associates: { (f g h : Self) → joined (joined f g) h ≡ joined f (joined g h) };

    ghost commutes: { (f g : Self) → joined f g ≡ joined g f };

    ghost unit: { (f : Self) → Self.is_value f → joined (Self.summary.of []) f ≡ f };

    /// The summary of one list after another is the join of the two.
    ghost adds_up: { (A B : List items.Item) →
        Self.summary.of (A ++ B) ≡ joined (Self.summary.of A) (Self.summary.of B) };
}
