ghost use Rattle.std.specs.Prelude.{◌≡◌};
ghost use Rattle.std.specs.List.{AllByRecursion, AllByRecursion-prop};
ghost use Rattle.std.proofs.Props.{props};
ghost use Rattle.std.proofs.lemmas.Map.Keys.{IsStrictlySortedBy-prop};
ghost use Rattle.definitions.specs.Items.{IsItem, item_cmp};
ghost use Rattle.definitions.specs.Sets.{IsSet};
ghost use Rattle.store_core.specs.Sums.{running_sums};

use digest_core::Fingerprint;
use item_core::Item;

/// A set of items as a sorted vector. Beside each item is the fingerprint of all items up to and with it, so that the
/// fingerprint of a range is a difference of two.
#[derive(Drop)]
pub struct FlatStore {
    pub(crate) items: Vec<Item>,
    pub(crate) sums: Vec<Fingerprint>,
    ghost rises: { IsSet items.items } by { IsStrictlySortedBy-prop item_cmp _ },
    ghost are_items: { AllByRecursion IsItem items.items } by { AllByRecursion-prop IsItem
        (λ x. Prim.hlevel props) _ },
    ghost summed: { sums.items ≡ running_sums items.items },
}
