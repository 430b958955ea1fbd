//! One session over a reader and a writer.

ghost use Rattle.std.specs.Prelude.{◌≡◌, ◌≤◌, ◌+◌, ◌^◌, ◌⊎◌, ◌++◌, ℕ, false, List, Option, None, length, map, fold};
ghost use Rattle.std.specs.Prelude.{IfOk, IfErr, OnOk};
ghost use Rattle.std.specs.Arc.{arc_value};
ghost use Rattle.definitions.specs.Placing.{opening_fault};
ghost use Rattle.definitions.specs.Ranks.{rank_by};
ghost use Rattle.definitions.specs.Histories.{content};
ghost use Rattle.definitions.specs.Replies.{Peer, opening};
ghost use Rattle.definitions.specs.Wire.{Came};
ghost use Rattle.definitions.specs.Ends as ends;
ghost use Rattle.definitions.specs.Ends.{is_over};
ghost use Rattle.definitions.specs.Engines.{initiating, responding};
ghost use Rattle.definitions.specs.Hearing.{Goes_on, hear};
ghost use Rattle.definitions.specs.Worlds.{opened_of};
ghost use Rattle.wire_core.specs.Events.{event_value};
ghost use Rattle.ends_core.specs.Turns.{fresh};
ghost use Rattle.version_lock.specs.Calls.{Looked};
ghost use Rattle.peer_threads.specs.Inboxes.{Counts, HasRead, Reads, ReadOn};
ghost use Rattle.peer_threads.specs.Listening.{InStep, Fares, FaresOn, StepsOn, HasFared, IsNoBreak};
ghost use Rattle.peer_threads.specs.Choices.{ChosenSpeaks, ChosenUnopened, ChosenFirst};
ghost use Rattle.peer_threads.specs.Hellos.{IsHello};
ghost use Rattle.peer_threads.specs.Outcomes.{Origin, Reader, After, traffic, traffic_of, traffic_after, seen};
ghost use Rattle.peer_threads.specs.Outcomes.{Speaks, Unopened, CameFirst, HasVersion, peer_at};
ghost use Rattle.ends_core.specs.Sides.{peer_of};
ghost use Rattle.peer_threads.specs.Senders.{sender_state};
ghost use Rattle.peer_threads.specs.Underway.{Exchanged, FirstWent, StopsAmong, StopsBegun, first_held, first_place};
ghost use Rattle.peer_threads.specs.Underway.{heard_as, message_came, most_sent, IsNone, Refuses, Stopped, Talked};
ghost use Rattle.peer_threads.specs.Underway.{Spoke};

use crate::booking::{Booking, Host};
use crate::bounds::sides_keep_bounds;
use crate::connection::Connection;
use crate::ending::{concluded, stopped};
use crate::gate::Gate;
use crate::hello::{Hello, read_hello};
use crate::inbox::Inbox;
use crate::pinned_ends::{new_initiator, new_responder};
use crate::sender::Sender;
use crate::shared::Shared;
use crate::stop::Stop;
use crate::talk::{end, exchange_laws, say, take, talk};
use digest_core::{Counted, Fingerprint, Print, WireSummary};
use ends_core::{Role, SessionEnd};
use io_core::Watched;
use place_core::Place;
use session_table::Outcome;
use std::alloc::{AllocError, Global};
use std::io::{Read, Write};
use std::sync::Wait;
use store_core::RangeStore;
use version_lock::{Pin, Seat};
use wire_core::{Event, Message, Part};

/// What has come of a session before it is opened: the parts of the peer's first message, and what was read after its
/// end.
#[derive(Drop)]
struct Begun<F: WireSummary> {
    inbox: Inbox<F>,
    first: Vec<Part<F>>,
}

/// Puts an event of a first message to its parts: whether it ends the message. Else 20 or 22, by the first event that
/// may not come.
fn put_first<F: WireSummary>(
    place: &mut Place<F>,
    parts: &mut Vec<Part<F>>,
    event: Event<F>,
) -> Result<bool, Stop>
    requires place { place.old.now ≡ first_place F.summary parts.old.items }
    ensures place { OnOk result (place.new.now ≡ first_place F.summary parts.new.items) }
    ensures went { IfOk result
        (λ ended. FirstWent F.summary parts.old.items parts.new.items (event_value event) ended) }
    ensures stopped { IfErr result (λ stop. (P : Peer) →
        Refuses F.summary (first_held F.summary P parts.old.items) (event_value event) stop) }
    ensures quiet { IfErr result IsNoBreak }
{
    match event {
        Event::Part(part) => {
            place.next(&part)?;
            parts.push(part)?;
            Ok(false)
        }
        Event::End => {
            place.finish()?;
            Ok(true)
        }
        Event::Fault(code) => Err(Stop::PeerRefused(code)),
    }
}

/// Waits for the peer's first message: the parts of it.
fn first_parts<R: Read, F: WireSummary>(
    alloc: Global,
    inbox: &mut Inbox<F>,
    reader: &mut Watched<R>,
) -> Result<Vec<Part<F>>, Stop>
    requires listens { reader.old.failed ≡ false }
    ensures first { IfOk result (λ parts. opening_fault F.summary.may_cut parts.items ≡ None) }
    ensures came { IfOk result
        (λ parts. Reads F.profile (R.remaining reader.old.inner) (R.remaining reader.new.inner) inbox.old
        (λ bytes es. HasRead F.profile inbox.new bytes (es ++ message_came parts.items))) }
    ensures stopped { IfErr result
        (λ stop. Reads F.profile (R.remaining reader.old.inner) (R.remaining reader.new.inner) inbox.old
        (λ bytes es. StopsBegun F.summary F.profile (seen reader.new.failed reader.new.ended) inbox.new bytes es
        stop)) }
    ensures reads { Counts reader.old.reads reader.new.reads inbox.old inbox.new }
    ensures listens { OnOk result (reader.new.failed ≡ false) }
    ensures fared { FaresOn reader.old.reads inbox.old.reads reader.new.failed reader.new.reads result }
    ensures step { StepsOn reader.old.reads inbox.old.reads reader.new.reads inbox.new.reads result }
{
    let mut place = Place::opening(alloc);
    let mut parts = Vec::new(alloc);
    'parts: loop {
        let event = inbox.next(alloc, reader)?;
        let is_whole = put_first(&mut place, &mut parts, event)?;
        if is_whole {
            return Ok(parts);
        }
    }
}

/// Answers the peer's hello with the own one, and waits for the first message. Refused 1 where the hello is not that of
/// the profile.
fn first_message<R: Read, W: Write, F: WireSummary>(
    alloc: Global,
    hello: Hello,
    sender: &mut Sender<F>,
    connection: &mut Connection<R, W>,
) -> Result<Begun<F>, Stop>
    requires hello { IsHello hello }
    requires fine { connection.old.writer.failed ≡ false }
    requires listens { connection.old.reader.failed ≡ false }
    requires new { sender.old ≡ sender_state false 0 }
    ensures first { IfOk result (λ o. opening_fault F.summary.may_cut o.first.items ≡ None) }
    ensures met { IfOk result (λ o. Exchanged F.profile o.inbox sender.new
        (traffic_after hello.bytes (R.remaining connection.old.reader.inner) (R.remaining connection.new.reader.inner)
        (W.contents connection.old.writer.inner) (W.contents connection.new.writer.inner))
        (message_came o.first.items)) }
    ensures fine { IfOk result (λ _. connection.new.writer.failed ≡ false) }
    ensures stopped { IfErr result (λ stop. (P : Peer) → Stopped F.summary F.profile IsNone
        (responding F.summary P) sender.new (traffic_after hello.bytes (R.remaining connection.old.reader.inner)
        (R.remaining connection.new.reader.inner)
        (W.contents connection.old.writer.inner) (W.contents connection.new.writer.inner))
        (seen connection.new.reader.failed connection.new.reader.ended)
        connection.new.writer.failed stop) }
    ensures none { sender.new.sent ≡ 0 }
    ensures reads { IfOk result
        (λ o. (connection.new.reader.reads + hello.reads ≤ connection.old.reader.reads + o.inbox.reads)
        × (o.inbox.reads ≤ 2 ^ 32)) }
    ensures stopped_reads { IfErr result
        (λ _. connection.new.reader.reads + hello.reads ≤ connection.old.reader.reads + 2 ^ 32) }
    ensures listens { IfOk result (λ _. connection.new.reader.failed ≡ false) }
    ensures fared { FaresOn connection.old.reader.reads hello.reads connection.new.reader.failed
        connection.new.reader.reads result }
    ensures step { (start : ℕ) → InStep start connection.old.reader.reads hello.reads →
        IfOk result (λ o. InStep start connection.new.reader.reads o.inbox.reads) }
{
    exchange_laws::<F>();
    let mut inbox = Inbox::<F>::after(alloc, hello)?;
    sender.greet(&mut connection.writer)?;
    let first = first_parts(alloc, &mut inbox, &mut connection.reader)?;
    Ok(Begun { inbox, first })
}

/// Takes the parts of the first message.
fn take_all<T: Wait, G: Gate, P: Role, S: RangeStore, F: WireSummary>(
    booking: &Booking<'_, T, G>,
    party: &mut SessionEnd<P, S, F>,
    parts: &[Part<F>],
) -> Result<(), Stop>
    requires { is_over party.old.end.stage ≡ false }
    ensures heard { OnOk result (heard_as party.new
        ≡ fold (hear F.summary) (Goes_on party.old.end party.old.taken) (map Came parts.now)) }
    ensures end { OnOk result (party.new.end ≡ party.old.end) }
    ensures most { OnOk result (most_sent F.summary P.side party.new ≡ most_sent F.summary P.side party.old) }
    ensures stopped { IfErr result (λ stop. StopsAmong F.summary party.old parts.now stop) }
{
    for part in parts {
        take(booking, party, part)?;
    }
    Ok(())
}

/// Answers the first message, and each one after it.
fn answer<T: Wait, G: Gate, P: Role, S: RangeStore, R: Read, W: Write, F: WireSummary>(
    booking: &Booking<'_, T, G>,
    party: &mut SessionEnd<P, S, F>,
    begun: Begun<F>,
    sender: &mut Sender<F>,
    connection: &mut Connection<R, W>,
) -> Result<(), Stop>
    requires fine { connection.old.writer.failed ≡ false }
    requires listens { connection.old.reader.failed ≡ false }
    requires booked { booking.now.booked.bound ≡ most_sent F.summary P.side party.old }
    requires count { sender.old.sent ≡ party.old.end.sent }
    requires goes { is_over party.old.end.stage ≡ false }
    ensures talked { (p : Peer) (steps : List ℕ) (unread : Origin) (held : Option (List ℕ)) →
        party.old ≡ fresh steps (ends.responder F.summary p) →
        Exchanged F.profile begun.inbox sender.old (traffic_of unread (R.remaining connection.old.reader.inner) held
        (W.contents connection.old.writer.inner)) (message_came begun.first.items) →
        Talked F.summary F.profile (responding F.summary p) party.new.end sender.new
        (traffic_of unread (R.remaining connection.new.reader.inner) held (W.contents connection.new.writer.inner))
        (seen connection.new.reader.failed connection.new.reader.ended) connection.new.writer.failed result }
    ensures on { (p : Peer) (steps : List ℕ) (unread : Origin) (held : Option (List ℕ)) →
        party.old ≡ fresh steps (ends.responder F.summary p) →
        Exchanged F.profile begun.inbox sender.old (traffic_of unread (R.remaining connection.old.reader.inner) held
        (W.contents connection.old.writer.inner)) (message_came begun.first.items) →
        ReadOn (R.remaining connection.old.reader.inner) (R.remaining connection.new.reader.inner) }
    ensures few { sender.new.sent ≤ most_sent F.summary P.side party.old }
    ensures reads { begun.inbox.reads ≤ 2 ^ 32 →
        connection.new.reader.reads + begun.inbox.reads ≤ connection.old.reader.reads + 2 ^ 32 }
    ensures fared { FaresOn connection.old.reader.reads begun.inbox.reads connection.new.reader.failed
        connection.new.reader.reads result }
{
    exchange_laws::<F>();
    let Begun { mut inbox, first } = begun;
    let _ = party.sent(); // proof only: no more messages than the bound
    take_all(booking, party, &first)?;
    end(booking, party, sender, &mut connection.writer)?;
    talk(booking, party, &mut inbox, sender, connection)
}

/// The side that is spoken to first, with the version that it speaks of.
fn respond<T: Wait, S: RangeStore, G: Gate, R: Read, W: Write, F: WireSummary>(
    host: &Host<'_, T, G>,
    pin: Pin<S>,
    begun: Begun<F>,
    mut sender: Sender<F>,
    connection: &mut Connection<R, W>,
) -> Outcome
    requires fits { length pin.items ≤ (arc_value host.now.accepted.now).table.cap }
    requires fine { connection.old.writer.failed ≡ false }
    requires listens { connection.old.reader.failed ≡ false }
    requires none { sender.sent ≡ 0 }
    ensures bytes { (unread : Origin) (held : Option (List ℕ)) →
        Exchanged F.profile begun.inbox sender (traffic_of unread (R.remaining connection.old.reader.inner) held
        (W.contents connection.old.writer.inner)) (message_came begun.first.items) →
        Spoke F.summary F.profile
        (responding F.summary (peer_of (arc_value host.now.accepted.now) pin.items)) pin.version
        (rank_by (arc_value host.now.accepted.now).steps (length pin.items) + 1)
        (traffic_of unread (R.remaining connection.new.reader.inner) held (W.contents connection.new.writer.inner))
        (seen connection.new.reader.failed connection.new.reader.ended)
        (seen connection.new.writer.failed connection.new.writer.ended) result }
    ensures on { (unread : Origin) (held : Option (List ℕ)) →
        Exchanged F.profile begun.inbox sender (traffic_of unread (R.remaining connection.old.reader.inner) held
        (W.contents connection.old.writer.inner)) (message_came begun.first.items) →
        ReadOn (R.remaining connection.old.reader.inner) (R.remaining connection.new.reader.inner) }
    ensures version { HasVersion result pin.version }
    ensures reads { begun.inbox.reads ≤ 2 ^ 32 →
        connection.new.reader.reads + begun.inbox.reads ≤ connection.old.reader.reads + 2 ^ 32 }
    ensures fared { (start : ℕ) → InStep start connection.old.reader.reads begun.inbox.reads →
        HasFared start connection.new.reader.failed connection.new.reader.reads result }
{
    let version = pin.version();
    let mut party = match new_responder(host, pin) {
        Ok(party) => party,
        Err(AllocError) => return stopped(sender, &mut connection.writer, Stop::Memory),
    };
    let booking = match Booking::open(host, party.bound()) {
        Ok(booking) => booking,
        Err(refusal) => return stopped(sender, &mut connection.writer, Stop::from(refusal)),
    };
    let talked = answer(&booking, &mut party, begun, &mut sender, connection);
    let outcome = concluded(party, version, sender, &mut connection.writer, talked);
    let _left = booking.close(&outcome);
    outcome
}

/// Writes the hello and the first message, and answers each message that comes.
fn speak<T: Wait, G: Gate, P: Role, S: RangeStore, R: Read, W: Write, F: WireSummary>(
    booking: &Booking<'_, T, G>,
    party: &mut SessionEnd<P, S, F>,
    first: &Message<F>,
    sender: &mut Sender<F>,
    connection: &mut Connection<R, W>,
) -> Result<(), Stop>
    requires fine { connection.old.writer.failed ≡ false }
    requires listens { connection.old.reader.failed ≡ false }
    requires booked { booking.now.booked.bound ≡ most_sent F.summary P.side party.old }
    requires new { sender.old ≡ sender_state false 0 }
    requires one { party.old.end.sent ≡ 1 }
    ensures talked { (p : Peer) (steps : List ℕ) → party.old ≡ fresh steps (ends.initiator F.summary p) →
        first.now ≡ opening F.summary p →
        Talked F.summary F.profile (initiating F.summary p) party.new.end sender.new
        (traffic (R.remaining connection.old.reader.inner) (R.remaining connection.new.reader.inner)
        (W.contents connection.old.writer.inner)
        (W.contents connection.new.writer.inner))
        (seen connection.new.reader.failed connection.new.reader.ended) connection.new.writer.failed result }
    ensures few { sender.new.sent ≤ most_sent F.summary P.side party.old }
    ensures reads { connection.new.reader.reads ≤ connection.old.reader.reads + 2 ^ 32 }
    ensures fared { Fares connection.old.reader.reads connection.new.reader.failed connection.new.reader.reads result }
{
    let mut inbox = Inbox::new(booking.alloc())?;
    sender.greet(&mut connection.writer)?;
    let _ = party.sent(); // proof only: no more messages than the bound
    say(booking, sender, &mut connection.writer, first)?;
    talk(booking, party, &mut inbox, sender, connection)
}

/// The side that speaks first, with the version that it speaks of.
pub(crate) fn initiate<T: Wait, S: RangeStore, G: Gate, R: Read, W: Write, F: WireSummary>(
    host: &Host<'_, T, G>,
    pin: Pin<S>,
    connection: &mut Connection<R, W>,
) -> Outcome
    requires fits { length pin.items ≤ (arc_value host.now.accepted.now).table.cap }
    requires fine { connection.old.writer.failed ≡ false }
    requires listens { connection.old.reader.failed ≡ false }
    ensures bytes { Spoke F.summary F.profile
        (initiating F.summary (peer_of (arc_value host.now.accepted.now) pin.items)) pin.version
        (opened_of F.summary (arc_value host.now.accepted.now).steps
        (peer_of (arc_value host.now.accepted.now) pin.items) + 2)
        (traffic (R.remaining connection.old.reader.inner) (R.remaining connection.new.reader.inner)
        (W.contents connection.old.writer.inner)
        (W.contents connection.new.writer.inner)) (seen connection.new.reader.failed connection.new.reader.ended)
        (seen connection.new.writer.failed connection.new.writer.ended) result }
    ensures version { HasVersion result pin.version }
    ensures reads { connection.new.reader.reads ≤ connection.old.reader.reads + 2 ^ 32 }
    ensures fared { HasFared connection.old.reader.reads connection.new.reader.failed connection.new.reader.reads
        result }
{
    let version = pin.version();
    let mut sender = Sender::<F>::new();
    let (mut party, first) = match new_initiator(host, pin) {
        Ok(started) => started,
        Err(AllocError) => return stopped(sender, &mut connection.writer, Stop::Memory),
    };
    let booking = match Booking::open(host, party.bound()) {
        Ok(booking) => booking,
        Err(refusal) => return stopped(sender, &mut connection.writer, Stop::from(refusal)),
    };
    let talked = speak(&booking, &mut party, &first, &mut sender, connection);
    let outcome = concluded(party, version, sender, &mut connection.writer, talked);
    let _left = booking.close(&outcome);
    outcome
}

/// Answers the peer after its hello, in the profile of the summary, until the session ends.
fn serve_after<T: Wait, S: RangeStore, G: Gate, R: Read, W: Write, F: WireSummary>(
    rt: &T,
    alloc: Global,
    shared: &Shared<'_, S, G>,
    seat: &mut Seat<S>,
    hello: Hello,
    connection: &mut Connection<R, W>,
) -> Outcome
    requires lock { seat.old.table_id ≡ shared.now.lock.now }
    requires fits { seat.old.view.cap ≤ (arc_value shared.now.accepted.now).table.cap }
    requires hello { IsHello hello }
    requires fine { connection.old.writer.failed ≡ false }
    requires listens { connection.old.reader.failed ≡ false }
    ensures seat { seat.new.table_id ≡ seat.old.table_id }
    ensures view { (Looked seat.old.view seat.new.view
        × (length (content seat.new.view.base) ≤ (arc_value shared.now.accepted.now).table.cap))
        ⊎ ((seat.new.view ≡ seat.old.view)
        × Unopened F.summary F.profile (traffic_after hello.bytes (R.remaining connection.old.reader.inner)
        (R.remaining connection.new.reader.inner) (W.contents connection.old.writer.inner)
        (W.contents connection.new.writer.inner))
        (seen connection.new.reader.failed connection.new.reader.ended)
        (seen connection.new.writer.failed connection.new.writer.ended) result) }
    ensures opened { (seat.new.view ≡ seat.old.view) ⊎ CameFirst F.summary F.profile
        (After hello.bytes (R.remaining connection.old.reader.inner)) (R.remaining connection.new.reader.inner) }
    ensures bytes { Speaks F.summary F.profile
        (length (content seat.new.view.base) ≤ (arc_value shared.now.accepted.now).table.cap)
        (responding F.summary (peer_at (arc_value shared.now.accepted.now) seat.new.view)) (length seat.new.view.base)
        (rank_by (arc_value shared.now.accepted.now).steps
        (length (peer_at (arc_value shared.now.accepted.now) seat.new.view).items) + 1)
        (arc_value shared.now.accepted.now).table.limit (traffic_after hello.bytes
        (R.remaining connection.old.reader.inner)
        (R.remaining connection.new.reader.inner) (W.contents connection.old.writer.inner)
        (W.contents connection.new.writer.inner))
        (seen connection.new.reader.failed connection.new.reader.ended)
        (seen connection.new.writer.failed connection.new.writer.ended) result }
    ensures version { HasVersion result (length seat.new.view.base) }
    ensures reads { connection.new.reader.reads + hello.reads ≤ connection.old.reader.reads + 2 ^ 32 }
    ensures fared { (start : ℕ) → InStep start connection.old.reader.reads hello.reads →
        HasFared start connection.new.reader.failed connection.new.reader.reads result }
{
    laws::codec::feeds_join::<F>();
    laws::talks::opening_is_exact::<F>();
    sides_keep_bounds::<F>(shared.accepted);
    let host = Host::of(rt, alloc, shared);
    let mut sender = Sender::<F>::new();
    let begun = match first_message(alloc, hello, &mut sender, connection) {
        Ok(begun) => begun,
        Err(stop) => return stopped(sender, &mut connection.writer, stop),
    };
    match shared.lock.pin(rt, alloc, seat) {
        Ok(pin) => respond(&host, pin, begun, sender, connection),
        Err(AllocError) => stopped(sender, &mut connection.writer, Stop::Memory),
    }
}

/// Answers the peer on this connection, which speaks first, until the session ends, in the profile whose hello the peer
/// says: that of the counted fingerprint, the compact one, or else that of two lanes. The seat is used for one `pin`,
/// once the peer's first message has come whole: one Sum over everything, and its end, or in the compact profile a cut.
pub fn serve_one<T: Wait, S: RangeStore, G: Gate, R: Read, W: Write>(
    rt: &T,
    alloc: Global,
    shared: &Shared<'_, S, G>,
    seat: &mut Seat<S>,
    connection: &mut Connection<R, W>,
) -> Outcome
    requires lock { seat.old.table_id ≡ shared.now.lock.now }
    requires fits { seat.old.view.cap ≤ (arc_value shared.now.accepted.now).table.cap }
    requires fresh { (connection.old.reader.failed ≡ false) × (connection.old.reader.ended ≡ false)
        × (connection.old.writer.failed ≡ false) }
    ensures seat { seat.new.table_id ≡ seat.old.table_id }
    // The seat is as one `pin` leaves it, and its set fits; or as before, and then no message was said, and what the
    // outcome says holds of any peer.
    ensures view { (Looked seat.old.view seat.new.view
        × (length (content seat.new.view.base) ≤ (arc_value shared.now.accepted.now).table.cap))
        ⊎ ((seat.new.view ≡ seat.old.view)
        × ChosenUnopened (traffic (R.remaining connection.old.reader.inner) (R.remaining connection.new.reader.inner)
        (W.contents connection.old.writer.inner) (W.contents connection.new.writer.inner))
        (seen connection.new.reader.failed connection.new.reader.ended)
        (seen connection.new.writer.failed connection.new.writer.ended) result) }
    // Where the seat was used, what this call read begins with a first message.
    ensures opened { (seat.new.view ≡ seat.old.view)
        ⊎ ChosenFirst (Reader (R.remaining connection.old.reader.inner)) (R.remaining connection.new.reader.inner) }
    // What the outcome says, in the profile that the bytes read choose.
    ensures bytes { ChosenSpeaks (length (content seat.new.view.base) ≤ (arc_value shared.now.accepted.now).table.cap)
        (peer_at (arc_value shared.now.accepted.now) seat.new.view) (length seat.new.view.base)
        (rank_by (arc_value shared.now.accepted.now).steps
        (length (peer_at (arc_value shared.now.accepted.now) seat.new.view).items) + 1)
        (arc_value shared.now.accepted.now).table.limit
        (traffic (R.remaining connection.old.reader.inner) (R.remaining connection.new.reader.inner)
        (W.contents connection.old.writer.inner)
        (W.contents connection.new.writer.inner)) (seen connection.new.reader.failed connection.new.reader.ended)
        (seen connection.new.writer.failed connection.new.writer.ended) result }
    ensures version { HasVersion result (length seat.new.view.base) }
    ensures reads { connection.new.reader.reads ≤ connection.old.reader.reads + 2 ^ 32 }
    // The reader has failed, or was read 2^32 times, only where the outcome says so.
    ensures fared { HasFared connection.old.reader.reads connection.new.reader.failed connection.new.reader.reads
        result }
{
    exchange_laws::<Fingerprint>();
    sides_keep_bounds::<Fingerprint>(shared.accepted);
    let hello = match read_hello(&mut connection.reader) {
        Ok(hello) => hello,
        Err(stop) => return stopped(Sender::<Fingerprint>::new(), &mut connection.writer, stop),
    };
    let is_counted = hello.bytes == Counted::hello();
    let is_compact = hello.bytes == Print::hello();
    if is_counted {
        serve_after::<T, S, G, R, W, Counted>(rt, alloc, shared, seat, hello, connection)
    } else if is_compact {
        serve_after::<T, S, G, R, W, Print>(rt, alloc, shared, seat, hello, connection)
    } else {
        serve_after::<T, S, G, R, W, Fingerprint>(rt, alloc, shared, seat, hello, connection)
    }
}
