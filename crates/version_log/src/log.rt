ghost use Rattle.std.specs.Prelude.{◌≡◌, ◌+◌, ◌<◌, ◌≤◌, length, take, fold, slice_get, Some, Err};
ghost use Rattle.std.specs.Prelude.{IfOk, IfErr, IfSome, OnOk};
ghost use Rattle.definitions.specs.Sets.{IsSet, set_of};
ghost use Rattle.definitions.specs.Histories.{content, version, insertion, items_of, with_item, New};
ghost use Rattle.version_log.specs.Logs.{IsLog, IsCap, IsNextWriter, max_next_writer, log, opened, log_after};
ghost use Rattle.version_log.specs.Logs.{with_writer_given};
ghost use Rattle.version_log.specs.Answers.{insertion_in};

use crate::answer::{Added, LogFault, WritersSpent};
use crate::arrival::{Arrival, first_entry, later_entry, place_of};
use crate::entry::Entry;
use crate::front::rising_front;
use item_core::Item;
use std::alloc::{AllocError, Global};
use std::marker::Model;
use store_core::{Insertion, RangeStore, make_room, set_laws};

/// Who brought which item, in order, and a store of the items. Each item stands once.
///
/// A version is the number of the first entries that it has. Contracts see a log as its cap, its history and the next
/// writer number. The store alone keeps the items: of each entry that it did not open with, a log keeps who brought the
/// item, and where it came into the store.
#[derive(Drop)]
pub struct Log<S: RangeStore> {
    cap: u32,
    store: S,
    later: Vec<Arrival>,
    next_writer: u64,
}

impl<S: RangeStore> Model for Log<S> {
    ghost use Rattle.std.specs.Prelude.{◌≡◌};
    ghost use Rattle.definitions.specs.Histories.{content};
    ghost use Rattle.version_log.specs.Arrivals.{HaveCome, history_of};
    ghost use Rattle.version_log.specs.Logs.{LogState, IsLog, log};

    ghost Value = { LogState };

    ghost view = { λ p. log p.cap (history_of p.later.items (S.content p.store)) p.next_writer };

    ghost invariant = { λ p. HaveCome p.later.items (S.content p.store)
        × (S.content p.store ≡ content (history_of p.later.items (S.content p.store)))
        × IsLog (log p.cap (history_of p.later.items (S.content p.store)) p.next_writer) };
}

impl<S: RangeStore> Log<S> {
    /// The log of these items, each once, where it stands first, by writer 0. The next writer number is 1.
    ///
    /// Else 40 where there are more items than the cap, each counted once, or 90; memory may run out before 40 is
    /// found.
    pub fn new(alloc: Global, cap: u32, items: &[Item]) -> Result<Log<S>, LogFault>
        requires { IsCap cap }
        ensures log { IfOk result (λ p. p ≡ opened cap items.now 1) }
        ensures fits { IfOk result (λ _. length (set_of items.now) ≤ cap) }
        ensures full { IfErr result (λ e. e ≡ LogFault.Full → cap < length (set_of items.now)) }
    {
        Log::starting_at(alloc, cap, items, 1)
    }

    /// The same log with another next writer number, 1 to 4,294,967,296.
    pub fn starting_at(
        alloc: Global,
        cap: u32,
        items: &[Item],
        next_writer: u64,
    ) -> Result<Log<S>, LogFault>
        requires cap { IsCap cap }
        requires next { IsNextWriter next_writer }
        ensures log { IfOk result (λ p. p ≡ opened cap items.now next_writer) }
        ensures fits { IfOk result (λ _. length (set_of items.now) ≤ cap) }
        ensures full { IfErr result (λ e. e ≡ LogFault.Full → cap < length (set_of items.now)) }
    {
        let (front, others) = items.split_at(rising_front(items, cap as usize));
        let store = S::from_rising(alloc, front)?;
        let mut log = Log::at_rest(alloc, cap, store, next_writer);
        log.add_all(alloc, others)?;
        let _ = log.cap(); // proof only: there are no more entries
        Ok(log)
    }

    /// Adds each item by writer 0 that is not there already. Else 40 where they are too many, or 90.
    fn add_all(&mut self, alloc: Global, items: &[Item]) -> Result<(), LogFault>
        requires { 0 < self.old.next_writer }
        ensures log { OnOk result (self.new
            ≡ log self.old.cap (fold with_item self.old.history items.now) self.old.next_writer) }
        ensures full { IfErr result (λ e. e ≡ LogFault.Full →
            self.old.cap < length (fold with_item self.old.history items.now)) }
    {
        for item in items {
            let _added = self.add(alloc, 0, *item)?;
        }
        Ok(())
    }

    /// The log of the items of a set, at most as many as the cap, by writer 0. The next writer number is 1.
    ///
    /// Nothing is sorted, and each item is hashed once.
    pub fn of_set(alloc: Global, cap: u32, items: &[Item]) -> Result<Log<S>, AllocError>
        requires cap { IsCap cap }
        requires set { IsSet items.now }
        requires fits { length items.now ≤ cap }
        ensures { IfOk result (λ p. p ≡ opened cap items.now 1) }
    {
        let store = S::from_rising(alloc, items)?;
        Ok(Log::of_store(alloc, cap, store))
    }

    /// The log of the items of a store, as `of_set` makes it.
    pub fn of_store(alloc: Global, cap: u32, store: S) -> Log<S>
        requires cap { IsCap cap }
        requires fits { length (S.content store) ≤ cap }
        ensures { result ≡ opened cap (S.content store) 1 }
    {
        Log::at_rest(alloc, cap, store, 1)
    }

    /// The log of the items of a store, at most as many as the cap, by writer 0.
    fn at_rest(alloc: Global, cap: u32, store: S, next_writer: u64) -> Log<S>
        requires cap { IsCap cap }
        requires next { IsNextWriter next_writer }
        requires fits { length (S.content store) ≤ cap }
        ensures { result ≡ opened cap (S.content store) next_writer }
    {
        Log {
            cap,
            store,
            later: Vec::new(alloc),
            next_writer,
        }
    }

    /// Adds an item that this writer brought, unless it is there already.
    ///
    /// Else 40 where it is new and there are as many items as the cap, or 90, where it is new; nothing is changed then.
    pub fn add(&mut self, alloc: Global, writer: u32, item: Item) -> Result<Added, LogFault>
        requires { writer < self.old.next_writer }
        ensures answer { IfSome (insertion_in result) (λ answer. answer ≡ insertion self.old.cap self.old.history
            item) }
        ensures log { self.new ≡ log_after self.old writer item (insertion_in result) }
        ensures full { result ≡ Err LogFault.Full → length self.old.history ≡ self.old.cap }
        ensures memory { result ≡ Err LogFault.Memory →
            insertion self.old.cap self.old.history item ≡ New (length self.old.history + 1) }
    {
        set_laws::set_of_a_list();
        if self.store.has(&item) {
            return Ok(Added::Already);
        }
        if self.store.len() >= self.cap as usize {
            return Err(LogFault::Full);
        }
        let Insertion::New(store) = self.store.with(alloc, item)? else {
            return Ok(Added::Already);
        };
        make_room(&mut self.later, 1)?;
        let place = place_of(&self.store, &item) as u32;
        self.later.push_reserved(Arrival { writer, place });
        self.store = store;
        Ok(Added::New(self.store.len()))
    }

    /// Gives out the next writer number, which rises by one. Else 42, exactly where it is 4,294,967,296.
    pub fn give_writer(&mut self) -> Result<u32, WritersSpent>
        ensures given { IfOk result (λ writer. (writer ≡ self.old.next_writer) × (writer < max_next_writer)
            × (self.new ≡ with_writer_given self.old)) }
        ensures spent { IfErr result (λ _. (self.old.next_writer ≡ max_next_writer) × (self.new ≡ self.old)) }
    {
        let next = &mut self.next_writer;
        let Ok(writer) = u32::try_from(*next) else {
            return Err(WritersSpent);
        };
        *next += 1;
        Ok(writer)
    }

    /// A store of the first so many entries' items. The newest version is copied; of an older one each item
    /// is found among those that came later, and hashed.
    pub fn version_at(&self, alloc: Global, number: usize) -> Result<S, AllocError>
        requires { number ≤ length self.now.history }
        ensures { IfOk result (λ s. S.content s ≡ version self.now.history number) }
    {
        if number == self.version() {
            return self.store.copy(alloc);
        }
        S::from_items(alloc, self.first_items(alloc, number)?)
    }

    /// The items of the first so many entries, in their order.
    fn first_items(&self, alloc: Global, count: usize) -> Result<Vec<Item>, AllocError>
        requires { count ≤ length self.now.history }
        ensures { IfOk result (λ items. items.items ≡ items_of (take count self.now.history)) }
    {
        let mut items = Vec::with_capacity(alloc, count)?;
        for place in 0..count {
            items.push(*self.entry(place).item())?;
        }
        Ok(items)
    }

    /// The same log again.
    pub fn copy(&self, alloc: Global) -> Result<Log<S>, AllocError>
        ensures { IfOk result (λ p. p ≡ self.now) }
    {
        Ok(Log {
            cap: self.cap,
            store: self.store.copy(alloc)?,
            later: Vec::from_slice(alloc, &self.later)?,
            next_writer: self.next_writer,
        })
    }

    /// The newest version: the number of entries, which is the number of items.
    pub fn version(&self) -> usize
        ensures version { result ≡ length self.now.history }
        ensures count { result ≡ length (content self.now.history) }
    {
        self.store.len()
    }

    /// The number of items, which is the number of entries.
    pub fn count(&self) -> usize
        ensures count { result ≡ length (content self.now.history) }
        ensures version { result ≡ length self.now.history }
    {
        self.store.len()
    }

    /// The greatest number of items, 1 to 65,536.
    pub fn cap(&self) -> u32
        ensures cap { result ≡ self.now.cap }
        ensures log { IsLog self.now }
    {
        self.cap
    }

    /// The writer number that is given out next, 1 to 4,294,967,296.
    pub fn next_writer(&self) -> u64
        ensures { result ≡ self.now.next_writer }
    {
        self.next_writer
    }

    /// The entry at this place, from 0.
    pub fn entry(&self, index: usize) -> Entry
        requires { index < length self.now.history }
        ensures { slice_get self.now.history index ≡ Some result }
    {
        let opening = self.store.len() - self.later.len();
        match index.checked_sub(opening) {
            None => first_entry(&self.store, &self.later, index),
            Some(since) => later_entry(&self.store, &self.later, since),
        }
    }

    /// The store of all items.
    pub fn store(&self) -> &S
        ensures { S.content result.now ≡ content self.now.history }
    {
        &self.store
    }
}
