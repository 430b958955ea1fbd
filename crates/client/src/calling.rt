//! Sessions over connections to servers.

ghost use Rattle.std.specs.Prelude.{◌≡◌, ◌≤◌, ℕ, IsTrue, ◌↔◌, IfOk};
ghost use Rattle.std.specs.Arc.{arc_value};
ghost use Rattle.session_table.specs.declared.outcome.Outcome.TheVariants as outcomes;

use crate::reaching::connect_to;
use crate::talking::{Talk, converse};
use item_files::WireProfile;
use peer_threads::Outcome;
use printing_core::{Fault, Refusal, Stats};
use range_tree::Tree;
use settings_core::AskedProfile;
use std::alloc::Global;
use std::net::{Net, TcpStream};
use std::rt::Files;
use std::sync::{Arc, Wait};
use std::time::Clock;
use strategy_check::Accepted;
use tcp_front::{Stream, finish};
use version_log::Log;

/// The number of the refusal of a hello that is not known.
const BAD_HELLO: u8 = 1;

/// Whether the session was refused for the hello of the other side.
pub fn is_unknown(outcome: &Outcome) -> bool
    ensures { IsTrue result ↔ ((sent : ℕ) × (outcome.now ≡ outcomes.Refused 1 sent)) }
{
    matches!(
        outcome,
        Outcome::Refused {
            code: BAD_HELLO,
            ..
        }
    )
}

/// A connection to the server of this address.
#[derive(Drop)]
pub struct Call<'a> {
    /// The address.
    pub address: &'a str,
    /// The connection.
    pub stream: Stream,
}

impl<'a> Call<'a> {
    /// Connects. Else 61 or 90.
    pub fn to<R: Files + Net<Stream = TcpStream> + AllocGlobal>(
        rt: &R,
        address: &'a str,
        patience: u32,
    ) -> Result<Call<'a>, Refusal<'a>>
        ensures { IfOk result (λ call. call.address.now ≡ address.now) }
    {
        let stream = connect_to(rt, address, patience)?;
        Ok(Call { address, stream })
    }

    /// Runs one session as the initiator over this log, which is let go, and ends the connection. What comes of it, and
    /// what it cost. Else 90, or `io write` before it has begun.
    pub fn run_once<R: Wait + Clock>(
        &self,
        rt: &R,
        alloc: Global,
        accepted: &Arc<Accepted>,
        log: Log<Tree>,
        talk: Talk<'_>,
    ) -> Result<(Outcome, Stats), Fault>
        requires cap { log.cap ≤ (arc_value accepted.now).table.cap }
    {
        let stream = &self.stream;
        let (outcome, stats) = converse(rt, alloc, accepted, log, talk, (stream, stream))?;
        let left = u64::from(talk.limits.most_bytes).saturating_sub(stats.received.bytes);
        finish(rt, stream, left);
        Ok((outcome, stats))
    }

    /// The same; and where the best profile is asked for, and the server does not know the compact one, once more in
    /// profile 1, over a second connection. What comes of the last. Else 61 as well.
    pub fn run<R>(
        self,
        rt: &R,
        accepted: &Arc<Accepted>,
        log: Log<Tree>,
        talk: Talk<'_>,
    ) -> Result<(Outcome, Stats), Refusal<'a>>
    where
        R: Files + Net<Stream = TcpStream> + Wait + Clock + AllocGlobal,
        requires cap { log.cap ≤ (arc_value accepted.now).table.cap }
    {
        let alloc = rt.alloc();
        if talk.profile != AskedProfile::Best {
            return Ok(self.run_once(rt, alloc, accepted, log, talk)?);
        }
        let again = log.copy(alloc)?;
        let (outcome, stats) = self.run_once(rt, alloc, accepted, log, talk)?;
        if !is_unknown(&outcome) {
            return Ok((outcome, stats));
        }
        let second = Call::to(rt, self.address, talk.limits.patience)?;
        let talk = talk.only_in(WireProfile::One);
        Ok(second.run_once(rt, alloc, accepted, again, talk)?)
    }
}
