//! What a peer learns.

ghost use Rattle.std.specs.Prelude.{◌≡◌, [], OnOk, OnErr, take, length};
ghost use Rattle.definitions.specs.Talks.{nothing, and_then};

use item_core::Item;
use std::alloc::{AllocError, Global};
use std::marker::Model;
use std::mem;
use store_core::PackedItems;

/// What a peer learned: own items that the other one lacks, and items of the other one that it lacks itself. Both are
/// kept packed, since the other one decides how many they are, and an item alone takes 65 bytes however short.
#[derive(Debug, Drop)]
pub struct Learned {
    ours: PackedItems,
    theirs: PackedItems,
}

impl Model for Learned {
    ghost use Rattle.definitions.specs.Talks.{Knowledge};

    ghost Value = { Knowledge };

    ghost view = { λ a. record { ours = a.ours; theirs = a.theirs } };
}

impl Learned {
    /// Nothing.
    pub fn nothing(alloc: Global) -> Learned
        ensures { result ≡ nothing }
    {
        Learned {
            ours: PackedItems::new(alloc),
            theirs: PackedItems::new(alloc),
        }
    }

    /// These items.
    pub(crate) fn of(ours: PackedItems, theirs: PackedItems) -> Learned
        ensures { result ≡ record { ours = ours; theirs = theirs } }
    {
        Learned { ours, theirs }
    }

    /// Own items that the other one lacks, in the order learned.
    pub fn ours(&self) -> &PackedItems
        ensures { result.now ≡ self.now.ours }
    {
        &self.ours
    }

    /// Items of the other one that are lacked here, in the order learned.
    pub fn theirs(&self) -> &PackedItems
        ensures { result.now ≡ self.now.theirs }
    {
        &self.theirs
    }

    /// Adds what was learned later. Unchanged where memory runs out.
    pub fn append(&mut self, later: &Learned) -> Result<(), AllocError>
        ensures ok { OnOk result (self.new ≡ and_then self.old later.now) }
        ensures err { OnErr result (self.new ≡ self.old) }
    {
        let theirs = self.theirs.len();
        self.theirs.append(&later.theirs)?;
        match self.ours.append(&later.ours) {
            Ok(()) => Ok(()),
            Err(AllocError) => {
                self.theirs.truncate(theirs);
                Err(AllocError)
            }
        }
    }

    /// Adds what was learned later, by moving it where nothing was learned before, so that it is not held twice. Both
    /// are unchanged where memory runs out.
    pub(crate) fn take_in(&mut self, later: &mut Learned) -> Result<(), AllocError>
        ensures ok { OnOk result (self.new ≡ and_then self.old later.old) }
        ensures err { OnErr result ((self.new ≡ self.old) × (later.new ≡ later.old)) }
    {
        if self.ours.is_empty() && self.theirs.is_empty() {
            mem::swap(self, later);
            return Ok(());
        }
        self.append(later)
    }

    /// Gives up what was added after so many items.
    pub(crate) fn cut(&mut self, ours: usize, theirs: usize)
        ensures { self.new ≡ record { ours = take ours self.old.ours; theirs = take theirs self.old.theirs } }
    {
        self.ours.truncate(ours);
        self.theirs.truncate(theirs);
    }
}
