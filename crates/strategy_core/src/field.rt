ghost use Rattle.std.specs.Prelude.{◌≡◌};
ghost use Rattle.strategy_core.specs.Texts.{key_of};

/// A key of a strategy text.
#[derive(Clone, Copy, Debug, PartialEq, Eq)]
pub enum Field {
    /// The greatest number of items.
    Cap,
    /// The length of the longest list.
    Limit,
    /// The greatest rank.
    Rounds,
    /// The rows.
    Row,
    /// The greatest number of items that a row serves.
    Upto,
    /// The weights by which a row cuts.
    Split,
    /// How many items a row cuts off the front.
    Peel,
}

impl Field {
    /// The key, as the text has it.
    pub fn key(self) -> &'static str
        ensures { result.now ≡ key_of self }
    {
        match self {
            Field::Cap => "cap",
            Field::Limit => "limit",
            Field::Rounds => "rounds",
            Field::Row => "row",
            Field::Upto => "upto",
            Field::Split => "split",
            Field::Peel => "peel",
        }
    }
}
