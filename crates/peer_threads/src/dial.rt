//! One session of the side that speaks first, over a reader and a writer.

ghost use Rattle.std.specs.Prelude.{◌≡◌, ◌≤◌, ◌+◌, ◌^◌, ⊤, false, length};
ghost use Rattle.std.specs.Arc.{arc_value};
ghost use Rattle.definitions.specs.Sets.{IsSet};
ghost use Rattle.definitions.specs.Worlds.{opened_of};
ghost use Rattle.definitions.specs.Engines.{initiating};
ghost use Rattle.ends_core.specs.Sides.{peer_of};
ghost use Rattle.version_lock.specs.Calls.{Looked};
ghost use Rattle.peer_threads.specs.Listening.{HasFared};
ghost use Rattle.peer_threads.specs.Outcomes.{Speaks, HasVersion, peer_at, traffic, seen};

use crate::booking::Host;
use crate::bounds::sides_keep_bounds;
use crate::connection::Connection;
use crate::ending::stopped;
use crate::engines::initiate;
use crate::gate::Gate;
use crate::sender::Sender;
use crate::shared::Shared;
use crate::stop::Stop;
use digest_core::WireSummary;
use session_table::Outcome;
use std::alloc::{AllocError, Global};
use std::io::{Read, Write};
use std::sync::Wait;
use store_core::{RangeStore, set_laws};
use version_lock::{Pin, Seat};

/// Speaks first to the peer on this connection over the items that are pinned, until the session ends.
pub fn dial_pinned<T: Wait, S: RangeStore, G: Gate, R: Read, W: Write, F: WireSummary>(
    rt: &T,
    alloc: Global,
    shared: &Shared<'_, S, G>,
    pin: Pin<S>,
    connection: &mut Connection<R, W>,
) -> Outcome
    requires set { IsSet pin.items }
    requires fits { length pin.items ≤ (arc_value shared.now.accepted.now).table.cap }
    requires fresh { (connection.old.reader.failed ≡ false) × (connection.old.reader.ended ≡ false)
        × (connection.old.writer.failed ≡ false) }
    ensures bytes { Speaks F.summary F.profile ⊤
        (initiating F.summary (peer_of (arc_value shared.now.accepted.now) pin.items)) pin.version
        (opened_of F.summary (arc_value shared.now.accepted.now).steps
        (peer_of (arc_value shared.now.accepted.now) pin.items) + 2)
        (arc_value shared.now.accepted.now).table.limit
        (traffic (R.remaining connection.old.reader.inner) (R.remaining connection.new.reader.inner)
        (W.contents connection.old.writer.inner)
        (W.contents connection.new.writer.inner)) (seen connection.new.reader.failed connection.new.reader.ended)
        (seen connection.new.writer.failed connection.new.writer.ended) result }
    ensures version { HasVersion result pin.version }
    ensures reads { connection.new.reader.reads ≤ connection.old.reader.reads + 2 ^ 32 }
    ensures fared { HasFared connection.old.reader.reads connection.new.reader.failed connection.new.reader.reads
        result }
{
    sides_keep_bounds::<F>(shared.accepted);
    let host = Host::of(rt, alloc, shared);
    initiate::<T, S, G, R, W, F>(&host, pin, connection)
}

/// Speaks first to the peer on this connection, until the session ends. The seat is used for one `pin`, first of all.
pub fn dial_one<T: Wait, S: RangeStore, G: Gate, R: Read, W: Write, F: WireSummary>(
    rt: &T,
    alloc: Global,
    shared: &Shared<'_, S, G>,
    seat: &mut Seat<S>,
    connection: &mut Connection<R, W>,
) -> Outcome
    requires lock { seat.old.table_id ≡ shared.now.lock.now }
    requires fits { seat.old.view.cap ≤ (arc_value shared.now.accepted.now).table.cap }
    requires fresh { (connection.old.reader.failed ≡ false) × (connection.old.reader.ended ≡ false)
        × (connection.old.writer.failed ≡ false) }
    ensures seat { seat.new.table_id ≡ seat.old.table_id }
    ensures view { Looked seat.old.view seat.new.view }
    ensures bytes { Speaks F.summary F.profile ⊤
        (initiating F.summary (peer_at (arc_value shared.now.accepted.now) seat.new.view))
        (length seat.new.view.base)
        (opened_of F.summary (arc_value shared.now.accepted.now).steps
        (peer_at (arc_value shared.now.accepted.now) seat.new.view) + 2)
        (arc_value shared.now.accepted.now).table.limit
        (traffic (R.remaining connection.old.reader.inner) (R.remaining connection.new.reader.inner)
        (W.contents connection.old.writer.inner)
        (W.contents connection.new.writer.inner)) (seen connection.new.reader.failed connection.new.reader.ended)
        (seen connection.new.writer.failed connection.new.writer.ended) result }
    ensures version { HasVersion result (length seat.new.view.base) }
    ensures reads { connection.new.reader.reads ≤ connection.old.reader.reads + 2 ^ 32 }
    ensures fared { HasFared connection.old.reader.reads connection.new.reader.failed connection.new.reader.reads
        result }
{
    sides_keep_bounds::<F>(shared.accepted);
    set_laws::set_of_a_list();
    match shared.lock.pin(rt, alloc, seat) {
        Ok(pin) => dial_pinned::<T, S, G, R, W, F>(rt, alloc, shared, pin, connection),
        Err(AllocError) => stopped(Sender::<F>::new(), &mut connection.writer, Stop::Memory),
    }
}
