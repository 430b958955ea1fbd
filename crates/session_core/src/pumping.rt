//! Reading, pushing, making due and writing, as far as a stream goes that never waits.

ghost use Rattle.std.specs.Prelude.{◌≡◌, ◌≢◌, ◌<◌, ◌≤◌, ℕ, true, false, [], List, length, take, OnOk, OnErr};
ghost use Rattle.session_core.specs.Links.{Fails, MovesSo, Stands};
ghost use Rattle.session_core.specs.Overs.{EndsBy, Rests};
ghost use Rattle.session_core.specs.declared.fault.LinkFault.TheVariants as faults;
ghost use Rattle.session_core.specs.declared.polled.Last.TheVariants as lasts;
ghost use Rattle.session_core.specs.Sessions as sessions;
ghost use Rattle.session_core.specs.Sessions.{Pushes, due};

use crate::fault::LinkFault;
use crate::polled::{Last, Polled};
use crate::pumped::{Pause, Pumped, both, pause_of};
use crate::session::Session;
use crate::state::State;
use digest_core::WireSummary;
use ends_core::Role;
use std::alloc::Global;
use std::io::{Read, Write};
use store_core::RangeStore;

/// How many reads and writes one call makes at most.
const TURNS: usize = 16;

/// Writes once of what is due.
fn say_once<O: Write, R: Role, S: RangeStore, F: WireSummary>(
    writer: &mut Polled<O>,
    session: &mut Session<R, S, F>,
) -> Result<Pumped, LinkFault>
    requires { 0 < length session.old.talk.outbox.ready }
    ensures moved { (unread : _) → MovesSo F.summary F.profile session.old session.new unread unread
        (O.contents writer.old.way) (O.contents writer.new.way) result }
    ensures stands { (r : _) → Stands F.profile result session.new r writer.new.last }
    ensures fails { (r : _) → Fails result r writer.new.last }
    ensures over { session.new.over ≡ session.old.over }
    ensures state { session.new.talk.state ≡ session.old.talk.state }
{
    let count = writer.write(session.due());
    session.take(count);
    let pause = pause_of(writer.last(), LinkFault::Write)?;
    Ok(Pumped {
        pause,
        read: 0,
        written: count as u64,
    })
}

/// Pushes what a read gave. At the end of the input the session is told so. Where memory runs out, some of the piece
/// may have been pushed.
fn hear<R: Role, S: RangeStore, F: WireSummary>(
    alloc: Global,
    session: &mut Session<R, S, F>,
    piece: &[u8],
    last: Last,
) -> Result<(), LinkFault>
    requires goes { sessions.is_open session.old.talk.state ≡ true }
    requires none { last ≢ lasts.Moved → piece.now ≡ [] }
    ensures pushes { OnOk result (Pushes F.summary F.profile session.old piece.now session.new) }
    ensures some { OnErr result ((n : ℕ) × Pushes F.summary F.profile session.old (take n piece.now) session.new) }
    ensures fault { OnErr result (result ≡ Err faults.Memory) }
    ensures ended { OnOk result (last ≡ lasts.Ended → session.new.over ≡ true) }
    ensures waits { last ≡ lasts.Waits → session.new ≡ session.old }
    ensures over { OnOk result (EndsBy session.old session.new last) }
{
    match last {
        Last::Moved => {
            let taken = session.push(alloc, piece)?;
            if taken < piece.len() {
                return Err(LinkFault::Memory);
            }
            Ok(())
        }
        Last::Ended => {
            session.finish();
            Ok(())
        }
        _ => Ok(()),
    }
}

/// Reads once, and pushes what came.
fn hear_once<I: Read, R: Role, S: RangeStore, F: WireSummary>(
    alloc: Global,
    reader: &mut Polled<I>,
    session: &mut Session<R, S, F>,
    room: &mut [u8],
) -> Result<Pumped, LinkFault>
    requires goes { sessions.is_open session.old.talk.state ≡ true }
    requires none { due F.profile session.old.talk ≡ [] }
    requires room { 0 < length room.old }
    ensures moved { (held : _) → MovesSo F.summary F.profile session.old session.new (I.remaining reader.old.way)
        (I.remaining reader.new.way) held held result }
    ensures stands { (w : _) → Stands F.profile result session.new reader.new.last w }
    ensures fails { (w : _) → Fails result reader.new.last w }
    ensures over { OnOk result (EndsBy session.old session.new reader.new.last) }
    ensures room { length room.new ≡ length room.old }
{
    let count = reader.read(room);
    hear(alloc, session, &room[..count], reader.last())?;
    let pause = pause_of(reader.last(), LinkFault::Read)?;
    Ok(Pumped {
        pause,
        read: count as u64,
        written: 0,
    })
}

/// Whether the session goes on.
fn is_open<R: Role, S: RangeStore, F: WireSummary>(session: &Session<R, S, F>) -> bool
    ensures { result ≡ sessions.is_open session.now.talk.state }
{
    matches!(session.state(), State::Open)
}

/// Makes the text of all that is due, and then writes once of it, if there is any; else it reads once, and pushes what
/// came.
fn move_once<I: Read, O: Write, R: Role, S: RangeStore, F: WireSummary>(
    alloc: Global,
    reader: &mut Polled<I>,
    writer: &mut Polled<O>,
    session: &mut Session<R, S, F>,
    room: &mut [u8],
) -> Result<Pumped, LinkFault>
    requires room { 0 < length room.old }
    ensures moved { MovesSo F.summary F.profile session.old session.new (I.remaining reader.old.way)
        (I.remaining reader.new.way) (O.contents writer.old.way) (O.contents writer.new.way) result }
    ensures stands { Stands F.profile result session.new reader.new.last writer.new.last }
    ensures fails { Fails result reader.new.last writer.new.last }
    ensures over { OnOk result (EndsBy session.old session.new reader.new.last) }
    ensures rests { OnOk result (Rests session.old session.new reader.old.last reader.new.last) }
    ensures room { length room.new ≡ length room.old }
{
    session.make_due(alloc)?;
    if !session.due().is_empty() {
        return say_once(writer, session);
    }
    if !is_open(session) {
        return Ok(Pumped {
            pause: Pause::Over,
            read: 0,
            written: 0,
        });
    }
    hear_once(alloc, reader, session, room)
}

/// Makes due what the session has to say and writes it, and reads what is there and pushes it, as far as both go: at
/// most 16 reads and writes. Nothing is read while something is due.
///
/// It says how it left off, and how many bytes it read and wrote. A read or a write that would wait reads or writes
/// nothing. After an error the session is to be dropped: some bytes that were read last may not have been pushed.
pub fn pump<I: Read, O: Write, R: Role, S: RangeStore, F: WireSummary>(
    alloc: Global,
    reader: &mut Polled<I>,
    writer: &mut Polled<O>,
    session: &mut Session<R, S, F>,
    room: &mut [u8],
) -> Result<Pumped, LinkFault>
    requires room { 0 < length room.old }
    ensures moved { MovesSo F.summary F.profile session.old session.new (I.remaining reader.old.way)
        (I.remaining reader.new.way) (O.contents writer.old.way) (O.contents writer.new.way) result }
    ensures stands { Stands F.profile result session.new reader.new.last writer.new.last }
    ensures fails { Fails result reader.new.last writer.new.last }
    ensures over { OnOk result (EndsBy session.old session.new reader.new.last) }
    ensures rests { OnOk result (Rests session.old session.new reader.old.last reader.new.last) }
    ensures room { length room.new ≡ length room.old }
{
    let mut pumped = move_once(alloc, reader, writer, session, room)?;
    for _turn in 1..TURNS {
        if pumped.pause != Pause::More {
            return Ok(pumped);
        }
        let next = move_once(alloc, reader, writer, session, room)?;
        pumped = both(pumped, next);
    }
    Ok(pumped)
}
