//! Laws of the lock and of beginnings of histories. A caller that needs one calls the function, which does nothing.
ghost use Rattle.std.specs.Prelude.{◌≡◌, ◌≢◌, ℕ, true, false, ◌⊎◌, [], ◌∷◌, Some, Contains};
ghost use mathlib.Core.Option.{some};
ghost use lib.ListN.{get_elem?};
ghost use Rattle.definitions.specs.Histories.{History};
ghost use Rattle.version_log.specs.Logs.{LogState, IsLog, with_writer_given};
ghost use Rattle.version_lock.specs.declared.view.View.{View};
ghost use Rattle.version_lock.specs.Beginnings.{Entry, StartsWith, entries_by};
ghost use Rattle.version_lock.specs.Lawful.{Table, HasLog, Lawful, EnteredBy};
ghost use Rattle.version_lock.specs.Tables.{IsSeat, made, taken, missed, given_back, one_longer, numbered};
ghost use Rattle.version_lock.specs.Tables.{split_table, joined_table};
ghost use Rattle.version_lock.specs.Views.{found, with_entry, added, split_from, split_off, joined_with, spent};
ghost use Rattle.version_lock.specs.Views.{note_of, noted};

use crate::steps::OneHistory;
use crate::view::View;
use atomic_table::TableRule;
use std::snapshot::Snapshot;
use store_core::RangeStore;
use version_log::Log;

/// The rule that a lock keeps between any two steps: there is one log, which began as the log that the lock was made
/// with, and each view that is not spent has its place in it.
pub fn rule<S: RangeStore>()
    ensures { (opened : _) (table : _) →
        ⟦<OneHistory as TableRule<Option<Log<S>>, View, Snapshot<Log<S>>>>⟧.holds opened table →
        Lawful opened.value table }
{}

/// A lock that is made keeps the rule, and its one log is what it was made with.
pub fn making()
    ensures { (l : LogState) → IsLog l → HasLog l l (made l) }
{}

/// A seat finds the word FREE and takes the log: the one log stays as it is.
pub fn taking()
    ensures { (opened l : LogState) (s : Table) (id : ℕ) (v : View) → HasLog opened l s → IsSeat s id v →
        s.words ≡ 0 ∷ [] → HasLog opened l (taken l s id v) }
{}

/// A seat finds the word HELD: the one log stays as it is.
pub fn missing()
    ensures { (opened l : LogState) (s : Table) (id : ℕ) (v : View) → HasLog opened l s → IsSeat s id v →
        v.holding ≡ false → s.words ≡ 1 ∷ [] → HasLog opened l (missed s id v) }
{}

/// A seat that has the log gives it back: it is the one log, which stays as it is.
pub fn giving_back()
    ensures { (opened l : LogState) (s : Table) (id : ℕ) (v : View) → HasLog opened l s → IsSeat s id v →
        v.holding ≡ true → (found v ≡ l) × HasLog opened l (given_back s id v) }
{}

/// A seat that has the log gives it back with one entry more, of its own writer: the one history is longer by just this
/// entry, which the seat's view has entered, and the next writer number stays.
pub fn adding()
    ensures { (opened l : LogState) (s : Table) (id : ℕ) (v : View) (e : Entry) → HasLog opened l s → IsSeat s id v →
        v.holding ≡ true → v.writer ≡ Some e.0 → IsLog (with_entry l e) →
        HasLog opened (with_entry l e) (one_longer e s id v) × Contains (added e v).entered e }
{}

/// A seat that has the log gives it back with its next writer number given out, which the seat has: the one history
/// stays, and the next writer number is greater by one.
pub fn enrolling()
    ensures { (opened l : LogState) (s : Table) (id : ℕ) (v : View) → HasLog opened l s → IsSeat s id v →
        v.holding ≡ true → IsLog (with_writer_given l) → HasLog opened (with_writer_given l) (numbered s id v) }
{}

/// A seat is split off, or a note: the one log stays as it is.
pub fn splitting()
    ensures seat { (opened l : LogState) (s : Table) (id : ℕ) (v : View) → HasLog opened l s → IsSeat s id v →
        v.holding ≡ false → HasLog opened l (split_table s id (split_from v) (split_off v)) }
    ensures note { (opened l : LogState) (s : Table) (id : ℕ) (v : View) → HasLog opened l s → IsSeat s id v →
        v.holding ≡ false → HasLog opened l (split_table s id v (note_of v)) }
{}

/// A seat is joined to another, or a note: the one log stays as it is.
pub fn joining()
    ensures seat { (opened l : LogState) (s : Table) (id : ℕ) (v : View) (other : ℕ) (w : View) → HasLog opened l s →
        IsSeat s id v → v.holding ≡ false → IsSeat s other w → w.holding ≡ false → other ≢ id →
        HasLog opened l (joined_table s id (joined_with v w) other spent) }
    ensures note { (opened l : LogState) (s : Table) (id : ℕ) (v : View) (other : ℕ) (w : View) → HasLog opened l s →
        IsSeat s id v → v.holding ≡ false → get_elem? s.views other ≡ some w → w.spent ≡ false → w.parts ≡ 0 →
        HasLog opened l (joined_table s id (noted v w) other spent) }
{}

/// Each entry of the one history is one of the log that the lock was made with, or a seat's view has entered it.
pub fn who_entered()
    ensures { (opened l : LogState) (s : Table) → HasLog opened l s → (e : Entry) → Contains l.history e →
        Contains opened.history e ⊎ EnteredBy s.views e }
{}

/// A history begins with what a beginning of it begins with, and its entries of a writer with those of the beginning.
pub fn beginnings()
    ensures again { (h seen earlier : History) → StartsWith h seen → StartsWith seen earlier →
        StartsWith h earlier }
    ensures writers { (n : ℕ) (h seen : History) → StartsWith h seen →
        StartsWith (entries_by n h) (entries_by n seen) }
{}
