//! What escaping comes to.

ghost use Rattle.std.specs.Prelude.{◌≡◌, ℕ, List, true};
ghost use Rattle.std.specs.List.{list_all};
ghost use Rattle.watch_core.specs.PageTexts.{escaped, is_plain};

/// Whatever a text has, nothing of it is part of a tag of the page or ends a value of an attribute.
#[tactic(auto, using(crate::proofs::Plain::of_text))]
pub fn texts_are_never_markup()
    ensures { (text : List ℕ) → list_all is_plain (escaped text) ≡ true }
{}
