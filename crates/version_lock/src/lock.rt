//! A lock round a log that threads share, and its calls.

ghost use Rattle.std.specs.Prelude.{◌≡◌, ℕ, Some, None, IsSome, IfOk, IfErr, MatchResult};
ghost use Rattle.version_log.specs.Logs.{max_next_writer};
ghost use Rattle.version_lock.specs.Beginnings.{StartsWith, entries_by};
ghost use Rattle.version_lock.specs.Views.{first_view, split_from, split_off, joined_with};
ghost use Rattle.version_lock.specs.Seats.{seat_state};
ghost use Rattle.version_lock.specs.Calls.{Looked, LookedAtOnce, GotNumber, DidInsert, DidNotInsert, TriedInsert, Met};
ghost use Rattle.version_lock.specs.Calls.{ClosedWith, IsPinOf, NoPin};

use crate::fault::{InsertFault, PinFault};
use crate::pin::Pin;
use crate::seat::Seat;
use crate::steps::{JoinTo, NoteOff, NoteTo, OneHistory, SplitOff};
use crate::view::View;
use atomic_table::Table;
use item_core::Item;
use std::alloc::{AllocError, Global};
use std::marker::Model;
use std::snapshot::Snapshot;
use std::sync::Wait;
use store_core::RangeStore;
use version_log::{Added, Log, LogFault, WritersSpent};

// The word of a lock whose log is in its slot.
pub(crate) const FREE: u64 = 0;

// The word of a lock whose log a seat has taken.
pub(crate) const HELD: u64 = 1;

/// A log that threads share. One word says whether it is free, and one slot has it. Contracts see which lock it is.
#[derive(Drop)]
pub struct VersionLock<S: RangeStore> {
    pub(crate) table: Table<Option<Log<S>>, View, Snapshot<Log<S>>, OneHistory, Global>,
}

impl<S: RangeStore> Model for VersionLock<S> {
    ghost use Rattle.std.specs.Prelude.{◌≡◌};
    ghost use Rattle.atomic_table.specs.Seated.{TableId};

    ghost Value = { TableId };

    ghost view = { λ l. l.table.shared.table_id };

    ghost invariant = { λ l. (l.table.shared.table_id.words ≡ 1) × (l.table.shared.table_id.slots ≡ 1) };
}

impl<S: RangeStore> VersionLock<S> {
    /// The lock, and its first seat, which has seen the whole history and is not enrolled. Else 90; the log is dropped.
    pub fn new(alloc: Global, log: Log<S>) -> Result<(VersionLock<S>, Seat<S>), AllocError>
        ensures { IfOk result (λ r. r.1 ≡ seat_state r.0 (first_view log)) }
    {
        let opened = Snapshot::of(&log);
        let mut slots = Vec::new(alloc);
        slots.push(Some(log))?;
        match Table::new(alloc, &[FREE], slots, &opened) {
            Ok((table, place)) => {
                let seat = Seat {
                    place,
                    writer: None,
                };
                Ok((VersionLock { table }, seat))
            }
            Err(_) => Err(AllocError),
        }
    }

    /// The newest version. It tries again until it has the log.
    pub fn pin<R: Wait>(
        &self,
        rt: &R,
        alloc: Global,
        seat: &mut Seat<S>,
    ) -> Result<Pin<S>, AllocError>
        requires { seat.old.table_id ≡ self.now }
        ensures seat { seat.new.table_id ≡ seat.old.table_id }
        ensures view { Looked seat.old.view seat.new.view }
        ensures pin { IfOk result (λ p. IsPinOf p seat.new.view) }
    {
        self.lock(rt, &mut seat.place);
        self.pin_at(alloc, &mut seat.place)
    }

    /// The newest version, by one try, which never waits. Else 41 or 90.
    pub fn try_pin(&self, alloc: Global, seat: &mut Seat<S>) -> Result<Pin<S>, PinFault>
        requires { seat.old.table_id ≡ self.now }
        ensures seat { seat.new.table_id ≡ seat.old.table_id }
        ensures view { MatchResult result (λ _. LookedAtOnce seat.old.view seat.new.view)
            (λ e. NoPin e seat.old.view seat.new.view) }
        ensures pin { IfOk result (λ p. IsPinOf p seat.new.view) }
    {
        if !self.try_lock(&mut seat.place) {
            return Err(PinFault::Busy);
        }
        self.pin_at(alloc, &mut seat.place)
            .map_err(|_| PinFault::Memory)
    }

    /// Gives the seat the next writer number of the log, which rises by one. It tries again until it has the log.
    ///
    /// Else 42, where no number is left.
    pub fn enroll<R: Wait>(&self, rt: &R, seat: &mut Seat<S>) -> Result<u32, WritersSpent>
        requires { (seat.old.table_id ≡ self.now) × (seat.old.view.writer ≡ None) }
        ensures seat { seat.new.table_id ≡ seat.old.table_id }
        ensures given { IfOk result (λ n. GotNumber seat.old.view seat.new.view × (n ≡ seat.new.view.next_writer)) }
        ensures spent { IfErr result (λ _. Looked seat.old.view seat.new.view
            × (seat.new.view.next_writer ≡ max_next_writer)) }
    {
        self.lock(rt, &mut seat.place);
        let writer = self.enroll_at(&mut seat.place)?;
        seat.writer = Some(writer);
        Ok(writer)
    }

    /// Adds an item to the log, if the log lacks it. It tries again until it has the log.
    ///
    /// Else 40 where the item is new and there are as many items as the cap, or 90, where it is new.
    pub fn insert<R: Wait>(
        &self,
        rt: &R,
        alloc: Global,
        seat: &mut Seat<S>,
        item: Item,
    ) -> Result<Added, LogFault>
        requires { (seat.old.table_id ≡ self.now) × IsSome seat.old.view.writer }
        ensures seat { seat.new.table_id ≡ seat.old.table_id }
        ensures kept { (seat.new.view.writer ≡ seat.old.view.writer) × (seat.new.view.cap ≡ seat.old.view.cap) }
        ensures did { IfOk result (λ a. DidInsert item seat.old.view a seat.new.view) }
        ensures did_not { IfErr result (λ e. DidNotInsert item seat.old.view e seat.new.view) }
    {
        let Some(writer) = seat.writer else {
            unreachable!()
        };
        self.lock(rt, &mut seat.place);
        self.insert_at(alloc, &mut seat.place, writer, item)
    }

    /// Adds an item to the log, if the log lacks it, by one try, which never waits. Else 41, or as `insert`.
    pub fn try_insert(
        &self,
        alloc: Global,
        seat: &mut Seat<S>,
        item: Item,
    ) -> Result<Added, InsertFault>
        requires { (seat.old.table_id ≡ self.now) × IsSome seat.old.view.writer }
        ensures seat { seat.new.table_id ≡ seat.old.table_id }
        ensures kept { (seat.new.view.writer ≡ seat.old.view.writer) × (seat.new.view.cap ≡ seat.old.view.cap) }
        ensures did { IfOk result (λ a. DidInsert item seat.old.view a seat.new.view
            × (seat.new.view.busy ≡ seat.old.view.busy)) }
        ensures did_not { IfErr result (λ e. TriedInsert item seat.old.view e seat.new.view) }
    {
        let Some(writer) = seat.writer else {
            unreachable!()
        };
        if !self.try_lock(&mut seat.place) {
            return Err(InsertFault::Busy);
        }
        match self.insert_at(alloc, &mut seat.place, writer, item) {
            Ok(added) => Ok(added),
            Err(LogFault::Full) => Err(InsertFault::Full),
            Err(LogFault::Memory) => Err(InsertFault::Memory),
        }
    }

    /// A new seat, which is not enrolled and has seen what this one has seen.
    pub fn split_seat(&self, seat: &mut Seat<S>) -> Seat<S>
        requires { seat.old.table_id ≡ self.now }
        ensures kept { seat.new ≡ seat_state self.now (split_from seat.old.view) }
        ensures given { result ≡ seat_state self.now (split_off seat.old.view) }
    {
        let place = self.table.shared.split_seat::<SplitOff>(&mut seat.place);
        Seat {
            place,
            writer: None,
        }
    }

    /// Ends the other seat. What it had seen is known to stand in the history from then on; `meet` it first to see
    /// that.
    pub fn join_seat(&self, seat: &mut Seat<S>, other: Seat<S>)
        requires { (seat.old.table_id ≡ self.now) × (other.table_id ≡ self.now) }
        ensures { seat.new ≡ seat_state self.now (joined_with seat.old.view other.view) }
    {
        let Seat { place, writer: _ } = other;
        self.table
            .shared
            .join_seat::<JoinTo>(&mut seat.place, place);
    }

    /// After this call the first seat has seen all that both had seen. It tries again until it has the log.
    ///
    /// A call that returns has taken no memory.
    pub fn meet<R: Wait>(&self, rt: &R, seat: &mut Seat<S>, other: &mut Seat<S>)
        requires { (seat.old.table_id ≡ self.now) × (other.old.table_id ≡ self.now) }
        ensures seat { seat.new.table_id ≡ seat.old.table_id }
        ensures other { other.new ≡ other.old }
        ensures met { Met seat.old.view other.old.view seat.new.view }
    {
        let note = self.table.shared.split_seat::<NoteOff>(&mut other.place);
        self.table.shared.join_seat::<NoteTo>(&mut seat.place, note);
        self.lock(rt, &mut seat.place);
        let log = self.take(&mut seat.place);
        self.give_back(&mut seat.place, log);
    }

    /// Takes the log out for good. Its history begins with what the seat had seen, and has of its writer what it added.
    pub fn close_with<R: Wait>(self, rt: &R, mut seat: Seat<S>) -> Log<S>
        requires { seat.table_id ≡ self }
        ensures seen { StartsWith result.history seat.view.seen }
        ensures mine { (n : ℕ) → seat.view.writer ≡ Some n → entries_by n result.history ≡ seat.view.mine }
        ensures cap { result.cap ≡ seat.view.cap }
        ensures last { ClosedWith seat.view result }
    {
        self.lock(rt, &mut seat.place);
        self.take(&mut seat.place)
    }
}
