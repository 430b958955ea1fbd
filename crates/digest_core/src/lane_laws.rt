//! Laws of the two-lane fingerprint. A caller that needs one calls the function, which does nothing.

ghost use Rattle.std.specs.Prelude.{◌≡◌, ℕ, List, [], ◌∷◌, ◌++◌, length, IsFalse};
ghost use Rattle.std.specs.List.{AllByRecursion};
ghost use Rattle.definitions.specs.Items.{Item, IsBytes};
ghost use Rattle.definitions.specs.Sets.{IsSet, has, add_item, union};
ghost use Rattle.definitions.specs.Fingerprints.{Lanes, IsLanes, IsExact, join_lanes, two_lanes};
ghost use Rattle.definitions.specs.Wire.{IsFingerprint, lanes_text, lanes_read, two_lane_profile};

/// Joining is associative and commutative, and the fingerprint of no items is its unit.
pub fn join_is_a_sum()
    ensures associates { (f g h : Lanes) → join_lanes (join_lanes f g) h ≡ join_lanes f (join_lanes g h) }
    ensures commutes { (f g : Lanes) → join_lanes f g ≡ join_lanes g f }
    ensures unit { (f : Lanes) → IsLanes f → join_lanes (two_lanes.of []) f ≡ f }
{}

/// The fingerprint of one list after another is the join of the two.
pub fn lists_add_up()
    ensures { (A B : List Item) → two_lanes.of (A ++ B) ≡ join_lanes (two_lanes.of A) (two_lanes.of B) }
{}

/// An item that a set lacks joins its fingerprint to the set's.
pub fn new_item_adds()
    ensures { (A : List Item) (x : Item) → IsFalse (has A x) →
        two_lanes.of (add_item A x) ≡ join_lanes (two_lanes.of (x ∷ [])) (two_lanes.of A) }
{}

/// The fingerprint of the union of two sets without a common item is the join of the two.
pub fn disjoint_sets_add_up()
    ensures { (A B : List Item) → IsSet B → AllByRecursion (λ x. IsFalse (has A x)) B →
        two_lanes.of (union A B) ≡ join_lanes (two_lanes.of A) (two_lanes.of B) }
{}

/// The test of two fingerprints answers whether they are equal.
pub fn test_is_exact()
    ensures { IsExact two_lanes }
{}

/// The fingerprint of a list of items, and each join, is a pair of lanes.
pub fn sums_are_lanes()
    ensures items { (A : List Item) → IsLanes (two_lanes.of A) }
    ensures joined { (f g : Lanes) → IsLanes (join_lanes f g) }
{}

/// Fingerprints and texts of 32 bytes are one to one.
pub fn bytes_are_exact()
    ensures fingerprints { (f : Lanes) → IsLanes f → IsFingerprint two_lane_profile f }
    ensures bytes { (bytes : List ℕ) → IsBytes bytes → length bytes ≡ 32 → lanes_text (lanes_read bytes) ≡ bytes }
    ensures are_lanes { (bytes : List ℕ) → IsBytes bytes → IsLanes (lanes_read bytes) }
{
    laws::codec::two_lanes_are_real();
    laws::codec::reads_are_bytes();
}
