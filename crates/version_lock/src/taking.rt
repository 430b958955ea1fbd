//! What the calls of the lock are made of: how a seat takes the log, and gives it back.

ghost use Rattle.std.specs.Prelude.{◌≡◌, ℕ, ◌≤◌, [], ◌∷◌, ◌<◌, Some, None, IfOk, IfErr, MatchBool, MatchResult};
ghost use Rattle.version_log.specs.Logs.{LogState, IsLog, max_next_writer, with_writer_given};
ghost use Rattle.version_lock.specs.Views.{found, with_entry, waited, gave_back, added, enrolled};
ghost use Rattle.version_lock.specs.Steps.{Took, Missed};
ghost use Rattle.version_lock.specs.Calls.{view, IsSame, IsReady, Holds, Inserted, NotInserted, IsPinOf};

use crate::lock::{FREE, HELD, VersionLock};
use crate::pin::Pin;
use crate::seat::TableSeat;
use crate::steps::{Add, Enroll, GiveBack, Try};
use item_core::Item;
use std::alloc::{AllocError, Global};
use std::sync::Wait;
use std::thread::yield_now;
use store_core::RangeStore;
use version_log::{Added, Log, LogFault, WritersSpent};

impl<S: RangeStore> VersionLock<S> {
    // One try to take the log.
    pub(crate) fn try_lock(&self, seat: &mut TableSeat<S>) -> bool
        requires { IsReady self.now seat.old }
        ensures same { IsSame seat.old seat.new }
        ensures tried { MatchBool result (Took seat.old.me seat.new.me) (Missed seat.old.me seat.new.me) }
    {
        self.table.shared.swap::<Try>(seat, 0, HELD) == FREE
    }

    // Tries until the seat has the log.
    pub(crate) fn lock<R: Wait>(&self, rt: &R, seat: &mut TableSeat<S>)
        requires { IsReady self.now seat.old }
        ensures same { IsSame seat.old seat.new }
        ensures took { (busy : ℕ) × ((view seat.old).busy ≤ busy)
            × Took (waited busy (view seat.old), []) seat.new.me }
    {
        for _ in rt.forever() {
            if self.try_lock(seat) {
                return;
            }
            // the thread that has the log may want this processor
            yield_now();
        }
        unreachable!()
    }

    // The log leaves its slot.
    pub(crate) fn take(&self, seat: &mut TableSeat<S>) -> Log<S>
        requires { (log : LogState) × Holds self.now (Some log) seat.old }
        ensures seat { IsSame seat.old seat.new × Holds self.now None seat.new × (view seat.new ≡ view seat.old) }
        ensures log { seat.old.me.1 ≡ (0, Some result) ∷ [] }
    {
        match self.table.shared.exchange(seat, 0, None) {
            Some(log) => log,
            None => unreachable!(),
        }
    }

    // The log comes into its slot.
    pub(crate) fn put(&self, seat: &mut TableSeat<S>, log: Log<S>)
        requires { Holds self.now None seat.old }
        ensures { IsSame seat.old seat.new × Holds self.now (Some log) seat.new × (view seat.new ≡ view seat.old) }
    {
        match self.table.shared.exchange(seat, 0, Some(log)) {
            None => {}
            Some(_) => unreachable!(),
        }
    }

    // Gives the log back as it was found.
    pub(crate) fn give_back(&self, seat: &mut TableSeat<S>, log: Log<S>)
        requires { Holds self.now None seat.old × (log ≡ found (view seat.old)) }
        ensures { IsSame seat.old seat.new × (seat.new.me ≡ (gave_back (view seat.old), [])) }
    {
        self.put(seat, log);
        self.table.shared.store::<GiveBack>(seat, 0, FREE);
    }

    // A copy of the store of the log that the seat has taken, which it gives back.
    pub(crate) fn pin_at(
        &self,
        alloc: Global,
        seat: &mut TableSeat<S>,
    ) -> Result<Pin<S>, AllocError>
        requires holds { Holds self.now (Some (found (view seat.old))) seat.old }
        requires log { IsLog (found (view seat.old)) }
        ensures seat { IsSame seat.old seat.new × (seat.new.me ≡ (gave_back (view seat.old), [])) }
        ensures pin { IfOk result (λ p. IsPinOf p (view seat.new)) }
    {
        let log = self.take(seat);
        let version = log.version();
        let store = log.store().copy(alloc);
        self.give_back(seat, log);
        Ok(Pin {
            version,
            store: store?,
        })
    }

    // Gives the log back with one entry more.
    pub(crate) fn give_back_with(
        &self,
        seat: &mut TableSeat<S>,
        log: Log<S>,
        writer: u32,
        item: Item,
    )
        requires holds { Holds self.now None seat.old × ((view seat.old).writer ≡ Some writer) }
        requires log { log ≡ with_entry (found (view seat.old)) (writer, item) }
        ensures { IsSame seat.old seat.new × (seat.new.me ≡ (added (writer, item) (view seat.old), [])) }
    {
        self.put(seat, log);
        self.table.shared.store::<Add>(seat, 0, FREE);
    }

    // Gives the log back with one writer number given out.
    pub(crate) fn give_back_numbered(&self, seat: &mut TableSeat<S>, log: Log<S>)
        requires { Holds self.now None seat.old × (log ≡ with_writer_given (found (view seat.old))) }
        ensures { IsSame seat.old seat.new × (seat.new.me ≡ (enrolled (view seat.old), [])) }
    {
        self.put(seat, log);
        self.table.shared.store::<Enroll>(seat, 0, FREE);
    }

    // The log that the seat has taken gets the item, if it lacks it, and is given back.
    pub(crate) fn insert_at(
        &self,
        alloc: Global,
        seat: &mut TableSeat<S>,
        writer: u32,
        item: Item,
    ) -> Result<Added, LogFault>
        requires holds { Holds self.now (Some (found (view seat.old))) seat.old
            × ((view seat.old).writer ≡ Some writer) }
        requires below { writer < (view seat.old).next_writer }
        ensures seat { IsSame seat.old seat.new × (seat.new.me.1 ≡ []) }
        ensures added { MatchResult result (λ a. Inserted writer item (view seat.old) a (view seat.new))
            (λ e. NotInserted item (view seat.old) e (view seat.new)) }
    {
        let mut log = self.take(seat);
        match log.add(alloc, writer, item) {
            Ok(Added::New(version)) => {
                self.give_back_with(seat, log, writer, item);
                Ok(Added::New(version))
            }
            Ok(Added::Already) => {
                self.give_back(seat, log);
                Ok(Added::Already)
            }
            Err(fault) => {
                self.give_back(seat, log);
                Err(fault)
            }
        }
    }

    // The log that the seat has taken gives it a writer number, if there is one left, and is given back.
    pub(crate) fn enroll_at(&self, seat: &mut TableSeat<S>) -> Result<u32, WritersSpent>
        requires { Holds self.now (Some (found (view seat.old))) seat.old }
        ensures seat { IsSame seat.old seat.new × (seat.new.me.1 ≡ []) }
        ensures given { IfOk result (λ n. (n ≡ (view seat.old).next_writer)
            × (view seat.new ≡ enrolled (view seat.old))) }
        ensures spent { IfErr result (λ _. ((view seat.old).next_writer ≡ max_next_writer)
            × (view seat.new ≡ gave_back (view seat.old))) }
    {
        let mut log = self.take(seat);
        match log.give_writer() {
            Ok(writer) => {
                self.give_back_numbered(seat, log);
                Ok(writer)
            }
            Err(spent) => {
                self.give_back(seat, log);
                Err(spent)
            }
        }
    }
}
