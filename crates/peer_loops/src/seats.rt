//! The parts of a set that threads share, and seats at all of them.
//!
//! A part of which much is forgotten is made anew: a lock of its own, with the items that are kept. Whoever has a seat
//! at the old one goes over with the items that came into that one since. The number of changes rises before the
//! versions are pinned that the new parts begin with, so whoever has put something in later finds it changed.

use crate::desk::Desk;
use crate::desks::Desks;
use crate::hand::Hand;
use crate::part::Parts;
use crate::part_gate::PartGate;
use item_core::Range;
use std::alloc::{AllocError, Global};
use std::sync::atomic::{AtomicU64, Ordering};
use std::sync::{Mutex, Wait};

/// The parts of a set. Threads take seats at them.
#[derive(Drop)]
pub struct Seats {
    parts: Mutex<Parts>,
    // How often parts were made anew.
    changes: AtomicU64,
}

impl Parts {
    /// These parts, at which seats may be taken.
    pub fn shared(self) -> Seats {
        Seats {
            parts: Mutex::new(self),
            changes: AtomicU64::new(0),
        }
    }
}

impl Seats {
    /// How often parts were made anew.
    pub(crate) fn changes(&self) -> u64 {
        self.changes.load(Ordering::SeqCst)
    }

    /// One seat at each part. None where memory runs out, or no writer number is left.
    pub(crate) fn take<T: Wait>(&self, rt: &T, alloc: Global) -> Option<Desks> {
        let mut parts = self.parts.lock(rt);
        Desks::at(rt, alloc, &mut parts, self.changes())
    }

    /// The same for one who is no loop.
    pub fn hand<T: Wait>(&self, rt: &T, alloc: Global) -> Option<Hand<'_>> {
        let desks = self.take(rt, alloc)?;
        Some(Hand::with(self, desks))
    }

    /// A seat at each part that was made anew after that of these desks, in the order of the parts. None where memory
    /// runs out, or no writer number is left.
    pub(crate) fn newer<T: Wait>(
        &self,
        rt: &T,
        alloc: Global,
        desks: &[Desk],
    ) -> Option<Vec<Option<Desk>>> {
        let mut parts = self.parts.lock(rt);
        let mut newer = Vec::with_capacity(alloc, desks.len()).ok()?;
        for (root, desk) in parts.roots.iter_mut().zip(desks) {
            newer.push(root.seat_after(rt, desk.part.turn)?).ok()?;
        }
        Some(newer)
    }

    /// Makes each part anew with its items of the range alone of which a quarter is not in it. How many items are
    /// forgotten.
    fn forget<T: Wait>(&self, rt: &T, alloc: Global, kept: &Range) -> usize {
        let mut parts = self.parts.lock(rt);
        if !parts.are_due(rt, alloc, kept) {
            return 0;
        }
        let _before = self.changes.fetch_add(1, Ordering::SeqCst);
        parts.forget(rt, alloc, kept)
    }

    /// Makes parts anew by what the gate says is kept, and tells it how many items are forgotten.
    pub fn forget_by<T: Wait, G: PartGate>(&self, rt: &T, alloc: Global, gate: &G) {
        gate.forgot(self.forget(rt, alloc, &gate.floor().range));
    }

    /// How many items of the range all parts have.
    pub fn count<T: Wait>(&self, rt: &T, alloc: Global, kept: &Range) -> Result<usize, AllocError> {
        self.parts.lock(rt).count(rt, alloc, kept)
    }
}
