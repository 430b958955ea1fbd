//! How many peers each origin has: an address, or what stands for several.

ghost use Rattle.std.specs.Prelude.{◌≡◌, ◌<◌, ◌≤◌, true, false, [], IfOk, OnOk, OnErr};
ghost use Rattle.hub_core.specs.Origins as counts;

use crate::best::better;
use std::alloc::{AllocError, Global};
use std::collections::BTreeMap;
use std::marker::Model;

/// How many peers each origin has, of those that have any.
#[derive(Drop)]
pub struct Origins {
    counts: BTreeMap<u128, u64>,
}

impl Model for Origins {
    ghost use Rattle.hub_core.specs.Origins.{Counts};

    ghost Value = { Counts };

    ghost view = { λ o. o.counts.entries };
}

impl Origins {
    /// No peer.
    pub fn new(alloc: Global) -> Origins
        ensures { result ≡ [] }
    {
        Origins {
            counts: BTreeMap::new(alloc),
        }
    }

    /// How many peers this origin has.
    pub fn count(&self, origin: u128) -> u64
        ensures { result ≡ counts.count_in self.now origin }
    {
        self.counts.get(&origin).copied().unwrap_or(0)
    }

    /// This origin has one peer more. Where memory runs out nothing changes.
    pub fn one_more(&mut self, origin: u128) -> Result<(), AllocError>
        ensures counts { OnOk result (self.new ≡ counts.more self.old origin) }
        ensures memory { OnErr result (self.new ≡ self.old) }
    {
        let count = self.count(origin).saturating_add(1);
        match self.counts.insert(origin, count) {
            Ok(_) => Ok(()),
            Err(_) => Err(AllocError),
        }
    }

    /// The same, unless it has as many as it may have. Whether it has one more now.
    pub fn enter(&mut self, origin: u128, most: u64) -> Result<bool, AllocError>
        ensures entered { IfOk result (λ is. is ≡ true →
            (counts.count_in self.old origin < most) × (self.new ≡ counts.more self.old origin)) }
        ensures crowded { IfOk result (λ is. is ≡ false →
            (most ≤ counts.count_in self.old origin) × (self.new ≡ self.old)) }
        ensures memory { OnErr result (self.new ≡ self.old) }
    {
        if self.count(origin) >= most {
            return Ok(false);
        }
        self.one_more(origin)?;
        Ok(true)
    }

    /// This origin has one peer less. One that has none stays as it is.
    pub fn one_less(&mut self, origin: u128)
        ensures { self.new ≡ counts.fewer self.old origin }
    {
        let count = self.count(origin);
        if count <= 1 {
            let _ = self.counts.remove(&origin);
        } else {
            let _ = self.counts.insert(origin, count - 1);
        }
    }

    /// The first of the origins that have most peers, if any has one.
    pub fn most(&self) -> Option<u128>
        ensures { result ≡ counts.most_in self.now }
    {
        let mut best = None;
        for (origin, count) in self.counts.iter() {
            best = better(best, *origin, u128::from(*count));
        }
        let (origin, _) = best?;
        Some(origin)
    }
}
