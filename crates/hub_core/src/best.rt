//! The key with the greatest number, as a walk finds it.

ghost use Rattle.std.specs.Prelude.{◌≡◌};
ghost use Rattle.hub_core.specs.Totals.{better_of};

/// By which number a peer is the most.
#[derive(Clone, Copy)]
pub(crate) enum Measure {
    /// How much is kept of it.
    Kept,
    /// How old its last byte is.
    Silence,
    /// The same, of the peers of this origin alone.
    SilenceOf(u128),
}

/// The first of the keys so far with the greatest number, where one more has this number.
pub(crate) fn better<K: Copy>(best: Option<(K, u128)>, key: K, number: u128) -> Option<(K, u128)>
    ensures { result ≡ better_of best key number }
{
    match best {
        Some((_, most)) if number <= most => best,
        _ => Some((key, number)),
    }
}
