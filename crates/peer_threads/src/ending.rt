//! How a session ends: the one place that makes an outcome, and that refuses on the wire.

ghost use Rattle.std.specs.Prelude.{◌≡◌, ◌≤◌, ℕ, Bool, List, Option};
ghost use Rattle.definitions.specs.Accounts.{Seen};
ghost use Rattle.definitions.specs.Engines.{Speaker};
ghost use Rattle.peer_threads.specs.Outcomes.{Origin, traffic_of, seen, HasVersion};
ghost use Rattle.peer_threads.specs.Stops.{outcome_of};
ghost use Rattle.peer_threads.specs.Listening.{Fares, HasFared, StopFares};
ghost use Rattle.peer_threads.specs.Underway.{Talked, Spoke, Leaves};

use crate::sender::Sender;
use crate::stop::Stop;
use digest_core::WireSummary;
use ends_core::{Role, SessionEnd};
use io_core::Watched;
use session_table::Outcome;
use std::io::Write;
use store_core::RangeStore;

/// The number of the refusal for want of memory.
const NO_MEMORY: u8 = 90;

/// The outcome of a session that stopped. Where this side refuses, one fault frame is written.
pub(crate) fn stopped<W: Write, F: WireSummary>(
    sender: Sender<F>,
    writer: &mut Watched<W>,
    stop: Stop,
) -> Outcome
    ensures outcome { result ≡ outcome_of sender.sent stop }
    ensures leaves { Leaves F.profile sender (W.contents writer.old.inner) (W.contents writer.new.inner)
        writer.old.failed writer.new.failed stop }
    ensures fared { (start reads : ℕ) (failed : Bool) → StopFares start failed reads stop →
        HasFared start failed reads result }
{
    let sent = sender.sent();
    match stop {
        Stop::Refused(code) => {
            sender.refuse(writer, code);
            Outcome::Refused { code, sent }
        }
        Stop::Memory => {
            sender.refuse(writer, NO_MEMORY);
            Outcome::Memory { sent }
        }
        Stop::PeerRefused(code) => Outcome::PeerRefused { code, sent },
        Stop::Io(side) => Outcome::Io { side, sent },
    }
}

/// The outcome of a session that was talked to its end, or stopped.
pub(crate) fn concluded<P: Role, S: RangeStore, W: Write, F: WireSummary>(
    party: SessionEnd<P, S, F>,
    version: usize,
    sender: Sender<F>,
    writer: &mut Watched<W>,
    talked: Result<(), Stop>,
) -> Outcome
    ensures bytes { (s : Speaker F) (bound : ℕ) (unread : Origin) (left held : Option (List ℕ)) (r : Seen) →
        Talked F.summary F.profile s party.end sender
        (traffic_of unread left held (W.contents writer.old.inner)) r writer.old.failed talked →
        sender.sent ≤ bound → Spoke F.summary F.profile s version bound
        (traffic_of unread left held (W.contents writer.new.inner)) r
        (seen writer.new.failed writer.new.ended) result }
    ensures version { HasVersion result version }
    ensures fared { (start reads : ℕ) (failed : Bool) → Fares start failed reads talked →
        HasFared start failed reads result }
{
    match talked {
        Ok(()) => Outcome::Ended {
            learned: party.into_learned(),
            sent: sender.sent(),
            version,
        },
        Err(stop) => stopped(sender, writer, stop),
    }
}
