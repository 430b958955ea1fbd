//! Laws of sets of items. A caller that needs one calls the function, which does nothing.

ghost use Rattle.std.specs.Prelude.{◌≡◌, ◌||◌, List, IsTrue};
ghost use Rattle.definitions.specs.Items.{Item, same_item};
ghost use Rattle.definitions.specs.Sets.{IsSet, has, add_item, set_of};

/// A set with one more item is a set, has what the set had and the item, and is the set itself where
/// the item was there.
pub fn adding_an_item()
    ensures set { (A : List Item) (x : Item) → IsSet A → IsSet (add_item A x) }
    ensures has { (A : List Item) (x y : Item) → has (add_item A x) y ≡ same_item y x || has A y }
    ensures again { (A : List Item) (x : Item) → IsSet A → IsTrue (has A x) → add_item A x ≡ A }
{}

/// The set of a list's items is a set and has the items of the list.
pub fn set_of_a_list()
    ensures set { (xs : List Item) → IsSet (set_of xs) }
    ensures has { (xs : List Item) (x : Item) → has (set_of xs) x ≡ has xs x }
{}
