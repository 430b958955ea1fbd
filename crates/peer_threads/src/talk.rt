//! What a session says and hears, once it is opened.

ghost use Rattle.std.specs.Prelude.{◌≡◌, ◌≤◌, ◌<◌, ◌+◌, ◌^◌, ◌⊎◌, ℕ, true, false, [], ◌∷◌, List, Option, OnOk, IfErr};
ghost use Rattle.definitions.specs.Wire.{Came, Ended};
ghost use Rattle.definitions.specs.Ends.{is_live, is_over};
ghost use Rattle.definitions.specs.Engines.{Speaker, replied};
ghost use Rattle.definitions.specs.Hearing.{hear_now};
ghost use Rattle.ends_core.specs.Turns.{answer_of, messages_in};
ghost use Rattle.wire_core.specs.Events.{event_value};
ghost use Rattle.peer_threads.specs.Inboxes.{Counts, ReadOn};
ghost use Rattle.peer_threads.specs.Laws.{Laws};
ghost use Rattle.peer_threads.specs.Outcomes.{Origin, traffic_of, seen};
ghost use Rattle.peer_threads.specs.Senders.{Adds};
ghost use Rattle.peer_threads.specs.Listening.{FaresOn};
ghost use Rattle.peer_threads.specs.declared.stop.Stop.TheVariants as stops;
ghost use Rattle.peer_threads.specs.Underway.{Underway, Talked, Unsaid, Refuses, StopsBy, heard_as, most_sent, said_by};

use crate::booking::Booking;
use crate::connection::Connection;
use crate::gate::Gate;
use crate::inbox::Inbox;
use crate::sender::Sender;
use crate::stop::Stop;
use digest_core::WireSummary;
use ends_core::{Role, SessionEnd, Turn};
use io_core::Watched;
use std::io::{Read, Write};
use std::sync::Wait;
use store_core::RangeStore;
use wire_core::{Event, Message, Part, encode_message};

/// The laws of an exchange of messages, in one place.
pub(crate) fn exchange_laws<F: WireSummary>()
    ensures { Laws F.summary F.profile }
{
    laws::talks::hearings_go_on::<F>();
    laws::talks::own_begins::<F>();
    laws::talks::bytes_agree::<F>();
}

/// Says one message: takes all memory for it, counts it in the table, writes it, and asks the gate.
pub(crate) fn say<T: Wait, G: Gate, W: Write, F: WireSummary>(
    booking: &Booking<'_, T, G>,
    sender: &mut Sender<F>,
    writer: &mut Watched<W>,
    message: &Message<F>,
) -> Result<(), Stop>
    requires fine { writer.old.failed ≡ false }
    requires room { sender.old.sent < 4294967295 }
    ensures said { OnOk result (Adds F.profile sender.old sender.new (W.contents writer.old.inner)
        (W.contents writer.new.inner) (message.now ∷ [])) }
    ensures fine { OnOk result (writer.new.failed ≡ false) }
    ensures unsaid { IfErr result (λ stop. Unsaid F.profile sender.old sender.new (W.contents writer.old.inner)
        (W.contents writer.new.inner) writer.new.failed (message.now ∷ []) stop) }
    ensures few { (sender.new.sent ≡ sender.old.sent) ⊎ (sender.new.sent ≡ sender.old.sent + 1) }
    ensures passed { OnOk result
        (G.answers booking.now.host.now.gate.now booking.now.booked.id.serial sender.new.sent true) }
    ensures shut { IfErr result (λ stop. stop ≡ stops.Refused 54 →
        G.answers booking.now.host.now.gate.now booking.now.booked.id.serial sender.new.sent false) }
{
    let text = encode_message(booking.alloc(), message)?;
    let counted = booking.note()?;
    sender.send(writer, &text, counted)?;
    booking.pass(sender.sent())
}

/// Says the reply of an end, if it has one.
fn reply<T: Wait, G: Gate, W: Write, F: WireSummary>(
    booking: &Booking<'_, T, G>,
    sender: &mut Sender<F>,
    writer: &mut Watched<W>,
    turn: Turn<F>,
) -> Result<(), Stop>
    requires fine { writer.old.failed ≡ false }
    requires room { sender.old.sent + messages_in turn < 4294967296 }
    ensures said { OnOk result (Adds F.profile sender.old sender.new (W.contents writer.old.inner)
        (W.contents writer.new.inner) (replied (answer_of turn))) }
    ensures fine { OnOk result (writer.new.failed ≡ false) }
    ensures unsaid { IfErr result (λ stop. Unsaid F.profile sender.old sender.new (W.contents writer.old.inner)
        (W.contents writer.new.inner) writer.new.failed (replied (answer_of turn)) stop) }
    ensures few { sender.new.sent ≤ sender.old.sent + messages_in turn }
{
    match turn {
        Turn::Reply(message) => say(booking, sender, writer, &message),
        Turn::Over => Ok(()),
    }
}

/// Takes one part of the peer's message.
pub(crate) fn take<T: Wait, G: Gate, P: Role, S: RangeStore, F: WireSummary>(
    booking: &Booking<'_, T, G>,
    party: &mut SessionEnd<P, S, F>,
    part: &Part<F>,
) -> Result<(), Stop>
    requires { is_over party.old.end.stage ≡ false }
    ensures heard { OnOk result (heard_as party.new
        ≡ hear_now F.summary party.old.end party.old.taken (Came part.now)) }
    ensures end { OnOk result (party.new.end ≡ party.old.end) }
    ensures most { OnOk result (most_sent F.summary P.side party.new ≡ most_sent F.summary P.side party.old) }
    ensures stopped { IfErr result (λ stop. Refuses F.summary party.old (Came part.now) stop) }
{
    Ok(party.take(booking.alloc(), part)?)
}

/// Takes the end of the peer's message, and says the reply to it, if it wants one.
pub(crate) fn end<T: Wait, G: Gate, P: Role, S: RangeStore, W: Write, F: WireSummary>(
    booking: &Booking<'_, T, G>,
    party: &mut SessionEnd<P, S, F>,
    sender: &mut Sender<F>,
    writer: &mut Watched<W>,
) -> Result<(), Stop>
    requires fine { writer.old.failed ≡ false }
    requires count { sender.old.sent ≡ party.old.end.sent }
    ensures heard { OnOk result (heard_as party.new
        ≡ hear_now F.summary party.old.end party.old.taken Ended) }
    ensures said { OnOk result (Adds F.profile sender.old sender.new (W.contents writer.old.inner)
        (W.contents writer.new.inner) (said_by party.old Ended)) }
    ensures fine { OnOk result (writer.new.failed ≡ false) }
    ensures count { OnOk result (sender.new.sent ≡ party.new.end.sent) }
    ensures most { OnOk result (most_sent F.summary P.side party.new ≡ most_sent F.summary P.side party.old) }
    ensures stopped { IfErr result (λ stop. StopsBy F.summary F.profile party.old Ended sender.old sender.new
        (W.contents writer.old.inner) (W.contents writer.new.inner) writer.new.failed stop) }
    ensures few { sender.new.sent ≤ most_sent F.summary P.side party.old }
{
    let _ = party.sent(); // proof only: no more messages than the bound
    let turn = party.end(booking.alloc())?;
    let _ = party.sent(); // proof only: no more messages than the bound
    reply(booking, sender, writer, turn)
}

/// Hears one event: a part, the end of a message, or a fault frame.
fn hear<T: Wait, G: Gate, P: Role, S: RangeStore, W: Write, F: WireSummary>(
    booking: &Booking<'_, T, G>,
    party: &mut SessionEnd<P, S, F>,
    sender: &mut Sender<F>,
    writer: &mut Watched<W>,
    event: Event<F>,
) -> Result<(), Stop>
    requires fine { writer.old.failed ≡ false }
    requires count { sender.old.sent ≡ party.old.end.sent }
    requires goes { is_over party.old.end.stage ≡ false }
    ensures heard { OnOk result (heard_as party.new
        ≡ hear_now F.summary party.old.end party.old.taken (event_value event)) }
    ensures said { OnOk result (Adds F.profile sender.old sender.new (W.contents writer.old.inner)
        (W.contents writer.new.inner) (said_by party.old (event_value event))) }
    ensures fine { OnOk result (writer.new.failed ≡ false) }
    ensures count { OnOk result (sender.new.sent ≡ party.new.end.sent) }
    ensures most { OnOk result (most_sent F.summary P.side party.new ≡ most_sent F.summary P.side party.old) }
    ensures stopped { IfErr result (λ stop. StopsBy F.summary F.profile party.old (event_value event) sender.old
        sender.new (W.contents writer.old.inner) (W.contents writer.new.inner) writer.new.failed stop) }
    ensures few { sender.new.sent ≤ most_sent F.summary P.side party.old }
{
    let _ = party.sent(); // proof only: no more messages than the bound
    match event {
        Event::Part(part) => take(booking, party, &part),
        Event::End => end(booking, party, sender, writer),
        Event::Fault(code) => Err(Stop::PeerRefused(code)),
    }
}

/// Hears one event after another until the session is over.
pub(crate) fn talk<T: Wait, G: Gate, P: Role, S: RangeStore, R: Read, W: Write, F: WireSummary>(
    booking: &Booking<'_, T, G>,
    party: &mut SessionEnd<P, S, F>,
    inbox: &mut Inbox<F>,
    sender: &mut Sender<F>,
    connection: &mut Connection<R, W>,
) -> Result<(), Stop>
    requires fine { connection.old.writer.failed ≡ false }
    requires listens { connection.old.reader.failed ≡ false }
    requires count { sender.old.sent ≡ party.old.end.sent }
    ensures talked { (s : Speaker F) (unread : Origin) (held : Option (List ℕ)) → is_live s.start.stage ≡ true →
        Underway F.summary F.profile s party.old inbox.old sender.old
        (traffic_of unread (R.remaining connection.old.reader.inner) held (W.contents connection.old.writer.inner)) →
        Talked F.summary F.profile s party.new.end sender.new
        (traffic_of unread (R.remaining connection.new.reader.inner) held (W.contents connection.new.writer.inner))
        (seen connection.new.reader.failed connection.new.reader.ended) connection.new.writer.failed result }
    ensures on { (s : Speaker F) (unread : Origin) (held : Option (List ℕ)) → is_live s.start.stage ≡ true →
        Underway F.summary F.profile s party.old inbox.old sender.old
        (traffic_of unread (R.remaining connection.old.reader.inner) held (W.contents connection.old.writer.inner)) →
        ReadOn (R.remaining connection.old.reader.inner) (R.remaining connection.new.reader.inner) }
    ensures few { sender.new.sent ≤ most_sent F.summary P.side party.old }
    ensures reads { inbox.old.reads ≤ 2 ^ 32 →
        Counts connection.old.reader.reads connection.new.reader.reads inbox.old inbox.new }
    ensures fared { FaresOn connection.old.reader.reads inbox.old.reads connection.new.reader.failed
        connection.new.reader.reads result }
{
    exchange_laws::<F>();
    let _ = party.sent(); // proof only: no more messages than the bound
    'turns: loop {
        if party.is_over() {
            return Ok(());
        }
        let event = inbox.next(booking.alloc(), &mut connection.reader)?;
        hear(booking, party, sender, &mut connection.writer, event)?;
    }
}
