//! The kinds of step. These types are for the proofs alone.
use crate::view::View;
use atomic_table::{Join, Play, Split, TableRule};
use std::snapshot::Snapshot;
use store_core::RangeStore;
use version_log::Log;

/// The rule of the lock.
pub struct OneHistory;

impl<S: RangeStore> TableRule<Option<Log<S>>, View, Snapshot<Log<S>>> for OneHistory {
    ghost use Rattle.version_lock.specs.Lawful.{Lawful};
    ghost use Rattle.version_lock.specs.Views.{first_view};

    ghost holds = { λ k. Lawful k.value };

    ghost first = { λ k. first_view k.value };
}

/// The word is exchanged against HELD.
pub struct Try;

impl<S: RangeStore> Play<Option<Log<S>>, View> for Try {
    ghost use Rattle.version_lock.specs.Steps.{Tried};

    ghost then = { λ _. Tried };
}

/// The log is given back as it was.
pub struct GiveBack;

impl<S: RangeStore> Play<Option<Log<S>>, View> for GiveBack {
    ghost use Rattle.version_lock.specs.Steps.{GaveBack};

    ghost then = { λ _ m _. GaveBack m };
}

/// The log is given back with one entry more.
pub struct Add;

impl<S: RangeStore> Play<Option<Log<S>>, View> for Add {
    ghost use Rattle.version_lock.specs.Steps.{Added};

    ghost then = { λ _ m _. Added m };
}

/// The log is given back with one writer number given out.
pub struct Enroll;

impl<S: RangeStore> Play<Option<Log<S>>, View> for Enroll {
    ghost use Rattle.version_lock.specs.Steps.{Enrolled};

    ghost then = { λ _ m _. Enrolled m };
}

/// A seat is split off.
pub struct SplitOff;

impl Split<View> for SplitOff {
    ghost use Rattle.version_lock.specs.Views.{split_from, split_off};

    ghost left = { split_from };

    ghost right = { split_off };
}

/// A seat is joined to another.
pub struct JoinTo;

impl Join<View> for JoinTo {
    ghost use Rattle.version_lock.specs.Views.{joined_with, spent};

    ghost both = { joined_with };

    ghost spent = { spent };
}

/// A note is split off.
pub struct NoteOff;

impl Split<View> for NoteOff {
    ghost use Rattle.version_lock.specs.Views.{note_of};

    ghost left = { λ v. v };

    ghost right = { note_of };
}

/// A note is joined to a seat.
pub struct NoteTo;

impl Join<View> for NoteTo {
    ghost use Rattle.version_lock.specs.Views.{noted, spent};

    ghost both = { noted };

    ghost spent = { spent };
}
