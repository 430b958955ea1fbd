ghost use Rattle.std.specs.Prelude.{◌≡◌};
ghost use Rattle.definitions.specs.Strategies.{is_cut};
ghost use Rattle.strategy_core.specs.Rules.{opening_of};

/// What a session that this side begins has first.
#[derive(Clone, Copy, Debug, PartialEq, Eq)]
pub enum Opening {
    /// One fingerprint, of everything.
    Sum,
    /// Those of the parts that the row of all items cuts everything into.
    Split,
}

impl Opening {
    /// Whether it may cut.
    pub fn is_cut(self) -> bool
        ensures { result ≡ is_cut (opening_of self) }
    {
        matches!(self, Opening::Split)
    }
}
