ghost use Rattle.std.specs.Prelude.{◌≡◌, ◌<◌, ◌+◌, max, length, [], ◌∷◌};
ghost use Rattle.definitions.specs.Strategies.{without_zeros};

/// What a row does with the items of a range.
#[derive(Clone, Copy, Debug, PartialEq, Eq)]
pub enum Act {
    /// It lists them.
    List,
    /// It cuts the range into parts.
    Split,
}

/// The shares that so many items are cut into, as far as ranks need them.
#[derive(Clone, Copy, Debug, PartialEq, Eq)]
pub struct Cutting {
    /// How many there are, none of them 0.
    pub count: usize,
    /// The greatest; 0 where there is none.
    pub greatest: u32,
}

impl Cutting {
    /// No shares.
    pub(crate) fn none() -> Cutting
        ensures { result ≡ record { count = 0; greatest = 0 } }
    {
        Cutting {
            count: 0,
            greatest: 0,
        }
    }

    /// With one more share, unless it is 0.
    pub(crate) fn with_share(self, share: u32) -> Cutting
        requires { self.count < 64 }
        ensures count { result.count ≡ self.count + length (without_zeros (share ∷ [])) }
        ensures greatest { result.greatest ≡ max self.greatest share }
    {
        Cutting {
            count: self.count + usize::from(share > 0),
            greatest: self.greatest.max(share),
        }
    }
}
