ghost use Rattle.std.specs.Prelude.{◌≡◌};
ghost use Rattle.definitions.specs.Sets.{IsSet, has};

use crate::item::Item;

/// Whether the item is one of these, which rise strictly. By binary search.
pub fn is_listed(listed: &[Item], item: &Item) -> bool
    requires { IsSet listed.now }
    ensures { result ≡ has listed.now item.now }
{
    listed.binary_search(item).is_ok()
}
