//! What a session holds of the table of sessions: that it is open there, that a message of it was counted, that the
//! table was asked to close it, and that the table refused. Only the functions here make these or take them apart, and
//! each of them calls the table.

ghost use Rattle.std.specs.Prelude.{◌≡◌, IfOk, OnOk, OnErr};
ghost use Rattle.session_table.specs.Faults.{table_fault_number, fault_in, opening_fault, note_fault, close_fault};
ghost use Rattle.session_table.specs.Tables.{Opened, Noted, Closed};
ghost use Rattle.peer_threads.specs.Outcomes.{kind_of};
ghost use Rattle.peer_threads.specs.Tokens.{refusal_in};

use crate::kind::kind_of;
use session_table::{CloseKind, Outcome, SessionId, SessionTable, TableFault};

/// A session that is open in the table. It cannot be let go: `close_as` takes it.
pub(crate) struct Booked {
    id: SessionId,
    // The bound that it was opened with.
    bound: u32,
}

impl Booked {
    /// The serial of the session.
    pub(crate) fn serial(&self) -> u64
        ensures { result ≡ self.now.id.serial }
    {
        self.id.serial()
    }
}

/// That the table has counted a message. It cannot be let go: the message is written with it.
pub(crate) struct Counted {
    id: SessionId,
}

impl Counted {
    /// The message is written.
    pub(crate) fn use_up(self) {
        let Counted { id: _ } = self;
    }
}

/// That the table was asked to close a session as this kind, and what it answered.
#[derive(Drop)]
pub(crate) struct Left {
    id: SessionId,
    kind: CloseKind,
    answer: Result<(), TableFault>,
}

/// That the table refused, and why.
#[derive(Drop)]
pub(crate) struct Refusal {
    fault: TableFault,
}

impl Refusal {
    /// The number of the refusal: 50 to 53.
    pub(crate) fn number(&self) -> u8
        ensures { result ≡ table_fault_number self.now.fault }
    {
        self.fault.number()
    }
}

/// Opens a session in the table that may send so many messages. Else 50 or 53.
pub(crate) fn open_in(sessions: &mut SessionTable, bound: u32) -> Result<Booked, Refusal>
    ensures fault { refusal_in result ≡ opening_fault sessions.old }
    ensures opened { IfOk result (λ b. Opened sessions.old sessions.new b.id bound × (b.bound ≡ bound)) }
    ensures unchanged { OnErr result (sessions.new ≡ sessions.old) }
{
    match sessions.open(bound) {
        Ok(id) => Ok(Booked { id, bound }),
        Err(fault) => Err(Refusal { fault }),
    }
}

/// Counts one message of the session in the table. Else 51 or 52.
pub(crate) fn note_in(sessions: &mut SessionTable, booked: &Booked) -> Result<Counted, Refusal>
    ensures fault { refusal_in result ≡ note_fault sessions.old booked.now.id }
    ensures noted { OnOk result (Noted sessions.old sessions.new booked.now.id) }
    ensures counted { IfOk result (λ c. c.id ≡ booked.now.id) }
    ensures unchanged { OnErr result (sessions.new ≡ sessions.old) }
{
    match sessions.note_sent(booked.id) {
        Ok(()) => Ok(Counted { id: booked.id }),
        Err(fault) => Err(Refusal { fault }),
    }
}

/// Closes the session in the table as the kind of its outcome. Else 51.
pub(crate) fn close_as(sessions: &mut SessionTable, booked: Booked, outcome: &Outcome) -> Left
    ensures left { (result.id ≡ booked.id) × (result.kind ≡ kind_of outcome.now) }
    ensures fault { fault_in result.answer ≡ close_fault sessions.old booked.id }
    ensures closed { OnOk result.answer (Closed sessions.old sessions.new booked.id (kind_of outcome.now)) }
{
    let Booked { id, bound: _ } = booked;
    let kind = kind_of(outcome);
    let answer = sessions.close(id, kind);
    Left { id, kind, answer }
}
