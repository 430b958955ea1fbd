ghost use Rattle.std.specs.Prelude.{◌≡◌};
ghost use Rattle.version_lock.specs.Calls.{pin_state};

use std::marker::Model;
use store_core::RangeStore;

/// A version of the log, which stays as it is. Contracts see its items and its number.
#[derive(Drop)]
pub struct Pin<S: RangeStore> {
    pub(crate) version: usize,
    pub(crate) store: S,
}

impl<S: RangeStore> Model for Pin<S> {
    ghost use Rattle.version_lock.specs.Calls.{PinState, pin_state};

    ghost Value = { PinState };

    ghost view = { λ p. pin_state (S.content p.store) p.version };
}

impl<S: RangeStore> Pin<S> {
    /// The number of the version: how many entries it has.
    pub fn version(&self) -> usize
        ensures { result ≡ self.now.version }
    {
        self.version
    }

    /// The store of its items.
    pub fn store(&self) -> &S
        ensures { S.content result.now ≡ self.now.items }
    {
        &self.store
    }

    /// The same version, of which this store has a part of the items.
    pub fn with_store(self, store: S) -> Pin<S>
        ensures { result ≡ pin_state (S.content store) self.version }
    {
        Pin {
            version: self.version,
            store,
        }
    }

    /// The store of its items, for good.
    pub fn into_store(self) -> S
        ensures { S.content result ≡ self.items }
    {
        self.store
    }
}
