ghost use Rattle.std.specs.Prelude.{◌≡◌, IfOk, OnOk, OnErr};
ghost use Rattle.session_table.specs.Tables.{IsTable, IsCapacity, IsSerial, new_table, live_count, Opened, Noted};
ghost use Rattle.session_table.specs.Tables.{Closed, IsLater};
ghost use Rattle.session_table.specs.Faults.{opening_fault, note_fault, close_fault, fault_in};

use crate::fault::TableFault;
use crate::session::{LiveSession, SessionId};
use crate::totals::{CloseKind, Totals};
use slab::Slab;
use std::alloc::{AllocError, Global};
use std::marker::Model;

/// The live sessions of a process, each with a serial, a bound on the messages that it may send, and how many it has
/// sent; and totals over all sessions. Only making a table takes memory.
///
/// Serials rise by one and none is used again. `opened` of the totals is always the sum of the number of live sessions,
/// `ended`, `refused`, `io` and `memory`.
#[derive(Drop)]
pub struct SessionTable {
    capacity: usize,
    // None once the last serial is used.
    next: Option<u64>,
    sessions: Slab<LiveSession>,
    totals: Totals,
}

impl Model for SessionTable {
    ghost use Rattle.std.specs.Prelude.{◌≤◌};
    ghost use Rattle.session_table.specs.Tables.{Table, IsTable};
    ghost use Rattle.session_table.specs.Views.{next_number, table_of};

    ghost Value = { Table };

    ghost view = { λ t. table_of t.capacity t.next t.sessions t.totals };

    ghost invariant = { λ t. (t.capacity ≤ t.sessions.capacity)
        × IsTable (table_of t.capacity t.next t.sessions t.totals) };
}

impl SessionTable {
    /// An empty table for this many live sessions, 1 to 1,024, whose first serial is 1.
    pub fn new(alloc: Global, capacity: usize) -> Result<SessionTable, AllocError>
        requires { IsCapacity capacity }
        ensures { IfOk result (λ t. t ≡ new_table capacity 1) }
    {
        SessionTable::starting_at(alloc, capacity, 1)
    }

    /// The same table with another first serial, 1 to 2^64 - 1.
    pub fn starting_at(
        alloc: Global,
        capacity: usize,
        serial: u64,
    ) -> Result<SessionTable, AllocError>
        requires capacity { IsCapacity capacity }
        requires serial { IsSerial serial }
        ensures { IfOk result (λ t. t ≡ new_table capacity serial) }
    {
        Ok(SessionTable {
            capacity,
            next: Some(serial),
            sessions: Slab::with_capacity(alloc, capacity)?,
            totals: Totals::none(),
        })
    }

    /// Opens a session that may send so many messages, under the next serial.
    ///
    /// Else 50 where as many are live as the capacity, then 53 where the last serial is used.
    pub fn open(&mut self, bound: u32) -> Result<SessionId, TableFault>
        ensures fault { fault_in result ≡ opening_fault self.old }
        ensures opened { IfOk result (λ id. Opened self.old self.new id bound) }
        ensures later { IsLater self.old self.new }
        ensures unchanged { OnErr result (self.new ≡ self.old) }
    {
        if self.sessions.len() >= self.capacity {
            return Err(TableFault::Full);
        }
        let serial = self.next.ok_or(TableFault::SerialsSpent)?;
        let key = self.sessions.insert_reserved(LiveSession {
            serial,
            bound,
            sent: 0,
        });
        self.next = serial.checked_add(1);
        self.totals = self.totals.opened();
        Ok(SessionId { key, serial })
    }

    /// Counts a message that the session is about to send.
    ///
    /// Else 51 where the id names no live session, 52 where it has sent as many messages as its bound.
    pub fn note_sent(&mut self, id: SessionId) -> Result<(), TableFault>
        ensures fault { fault_in result ≡ note_fault self.old id }
        ensures noted { OnOk result (Noted self.old self.new id) }
        ensures later { IsLater self.old self.new }
        ensures unchanged { OnErr result (self.new ≡ self.old) }
    {
        let Some(session) = self.sessions.get_mut(id.key) else {
            return Err(TableFault::Unknown);
        };
        if session.serial != id.serial {
            return Err(TableFault::Unknown);
        }
        if session.sent >= session.bound {
            return Err(TableFault::OverBound);
        }
        session.sent += 1;
        self.totals = self.totals.message();
        Ok(())
    }

    /// Ends the session in this way; its id then names none. Else 51 where the id names no live session.
    pub fn close(&mut self, id: SessionId, kind: CloseKind) -> Result<(), TableFault>
        ensures fault { fault_in result ≡ close_fault self.old id }
        ensures closed { OnOk result (Closed self.old self.new id kind) }
        ensures later { IsLater self.old self.new }
        ensures unchanged { OnErr result (self.new ≡ self.old) }
    {
        let there = self
            .sessions
            .get(id.key)
            .is_some_and(|session| session.serial == id.serial);
        if !there {
            return Err(TableFault::Unknown);
        }
        self.sessions.remove(id.key);
        self.totals = self.totals.closed(kind);
        Ok(())
    }

    /// What the table has counted since it was made.
    pub fn totals(&self) -> Totals
        ensures totals { result ≡ self.now.totals }
        ensures table { IsTable self.now }
    {
        self.totals
    }

    /// The number of live sessions, 0 to the capacity.
    pub fn live(&self) -> usize
        ensures live { result ≡ live_count self.now }
        ensures table { IsTable self.now }
    {
        self.sessions.len()
    }
}
