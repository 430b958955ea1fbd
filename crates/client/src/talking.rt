//! One session as the initiator, over a reader and a writer.

ghost use Rattle.std.specs.Prelude.{◌≡◌, ◌≤◌};
ghost use Rattle.std.specs.Arc.{arc_value};
ghost use Rattle.settings_core.specs.declared.profiles.AskedProfile.TheVariants as asked;

use crate::resumed::Resumed;
use digest_core::{Counted, Fingerprint, Print, WireSummary};
use io_core::{Watched, write_output};
use item_core::Range;
use item_files::WireProfile;
use loading::{
    FrameReader, FrameWriter, frames_from, frames_to, millis_since, received_by, sent_by,
};
use peer_threads::{Connection, OpenGate, Outcome, Shared, dial_one};
use printing_core::{Fault, Stats};
use range_tree::Tree;
use session_table::SessionTable;
use settings_core::AskedProfile;
use shard_core::{SetName, Which};
use std::alloc::Global;
use std::io::{Read, Write};
use std::sync::{Arc, Mutex, Wait};
use std::time::{Clock, Instant};
use strategy_check::Accepted;
use tcp_front::{Limits, limited};
use version_lock::{Seat, VersionLock};
use version_log::Log;

/// Of what a session speaks.
#[derive(Clone, Copy)]
pub struct Spoken<'a> {
    /// What the set is called, and how it is cut.
    pub set: SetName<'a>,
    /// The shard, or the directory.
    pub which: Which,
    /// The range of the items.
    pub range: &'a Range,
}

/// How a session is run.
#[derive(Clone, Copy)]
pub struct Talk<'a> {
    /// The wire profile that is spoken.
    pub profile: AskedProfile,
    /// What a connection may cost.
    pub limits: Limits,
    /// Of what the other side is told that it is spoken, if it is told.
    pub set: Option<Spoken<'a>>,
}

impl<'a> Talk<'a> {
    /// The same in this profile and no other.
    pub fn only_in(self, profile: WireProfile) -> Talk<'a>
        ensures { (result.profile ≡ asked.Exactly profile) × (result.limits ≡ self.entry.limits)
            × (result.set ≡ self.entry.set) }
    {
        Talk {
            profile: AskedProfile::Exactly(profile),
            ..self
        }
    }
}

/// Speaks first with such summaries, over this reader and this writer; reads no more than so many bytes of frames. What
/// comes of it, and what it cost.
fn dial<R: Wait + Clock, I: Read + Drop, O: Write + Drop, F: WireSummary>(
    rt: &R,
    alloc: Global,
    shared: &Shared<'_, Tree, OpenGate>,
    seat: &mut Seat<Tree>,
    ends: (FrameReader<I>, FrameWriter<O>),
    most_bytes: u32,
) -> (Outcome, Stats)
    requires lock { seat.old.table_id ≡ shared.now.lock.now }
    requires fits { seat.old.view.cap ≤ (arc_value shared.now.accepted.now).table.cap }
    ensures { seat.new.table_id ≡ seat.old.table_id }
{
    let (reader, writer) = ends;
    let start = Instant::now(rt).ok();
    let mut connection = Connection::new(limited(Resumed::new(reader), most_bytes), writer);
    let outcome = dial_one::<_, _, _, _, _, F>(rt, alloc, shared, seat, &mut connection);
    let Connection { reader, writer } = connection;
    let stats = Stats {
        sent: sent_by(&writer.into_inner()),
        received: received_by(&reader.into_inner().into_inner().into_inner()),
        millis: millis_since(rt, start),
    };
    (outcome, stats)
}

/// Writes of what is spoken, if the other side is told: how many bytes. Else 90 or `io write`.
fn name_set<O: Write>(
    alloc: Global,
    set: Option<Spoken<'_>>,
    writer: &mut O,
) -> Result<u64, Fault> {
    let Some(Spoken { set, which, range }) = set else {
        return Ok(0);
    };
    let mut selector = Vec::new(alloc);
    set.push(&mut selector, which, range)?;
    write_output(&mut Watched::new(writer), &selector)?;
    Ok(selector.len() as u64)
}

/// Runs one session as the initiator, in the first profile that is asked for, over this log, which is let go, and over
/// this reader and this writer. What comes of it, and what it cost. Else 90, or `io write` before it has begun.
pub fn converse<R: Wait + Clock, I: Read + Drop, O: Write + Drop>(
    rt: &R,
    alloc: Global,
    accepted: &Arc<Accepted>,
    log: Log<Tree>,
    talk: Talk<'_>,
    ends: (I, O),
) -> Result<(Outcome, Stats), Fault>
    requires cap { log.cap ≤ (arc_value accepted.now).table.cap }
{
    let (lock, mut seat) = VersionLock::new(alloc, log)?;
    let sessions = Mutex::new(SessionTable::new(alloc, 1)?);
    let shared = Shared {
        lock: &lock,
        accepted,
        sessions: &sessions,
        gate: &OpenGate,
    };
    let (reader, mut writer) = ends;
    let named = name_set(alloc, talk.set, &mut writer)?;
    let ends = (frames_from(alloc, reader), frames_to(alloc, writer));
    let most = talk.limits.most_bytes;
    let (outcome, mut stats) = match talk.profile.first() {
        WireProfile::One => dial::<_, _, _, Fingerprint>(rt, alloc, &shared, &mut seat, ends, most),
        WireProfile::Two => dial::<_, _, _, Counted>(rt, alloc, &shared, &mut seat, ends, most),
        WireProfile::Compact => dial::<_, _, _, Print>(rt, alloc, &shared, &mut seat, ends, most),
    };
    stats.sent.bytes = stats.sent.bytes.saturating_add(named);
    Ok((outcome, stats))
}
