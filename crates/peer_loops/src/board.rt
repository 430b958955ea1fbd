//! What those look at who watch a server: what its loops tell of their peers.

ghost use Rattle.std.specs.Prelude.{◌≡◌, nat_eq, nat_lt, if◌then◌else◌};

use std::alloc::{AllocError, Global};
use std::sync::atomic::{AtomicBool, AtomicU64, Ordering};
use std::sync::{Condvar, Mutex, Wait};
use std::time::{Clock, Duration};
use watch_core::{Standing, Visit, Watch, metrics_text, page_text};

/// How many loops may tell of their peers.
const LOOPS: usize = 32;

/// After how many seconds a wait ends anyway.
const PAUSE: u64 = 1;

/// What one loop has now.
#[derive(Drop)]
struct Gauge {
    /// How many peers.
    peers: AtomicU64,
    /// How many bytes of memory are counted for them.
    kept: AtomicU64,
}

/// What one loop has now, as it told last.
#[derive(Clone, Copy, Debug, PartialEq, Eq)]
pub(crate) struct Load {
    /// How many bytes of memory are counted for its peers.
    pub(crate) kept: u64,
    /// How many peers it has.
    pub(crate) peers: u64,
}

impl Load {
    /// Whether it is less: in bytes, and of the same bytes in peers.
    pub(crate) fn is_lighter(self, other: Load) -> bool
        ensures { result ≡ (if nat_eq self.kept other.kept then nat_lt self.peers other.peers
            else nat_lt self.kept other.kept) }
    {
        if self.kept == other.kept {
            return self.peers < other.peers;
        }
        self.kept < other.kept
    }
}

/// What is told under one lock.
#[derive(Drop)]
struct Told {
    watch: Watch,
    /// Whether the server is done.
    is_over: bool,
}

/// What the loops of a server tell of their peers, for all threads that look at it.
#[derive(Drop)]
pub struct Board {
    told: Mutex<Told>,
    changed: Condvar,
    gauges: Vec<Gauge>,
    /// Whether the server is to stop, and when the peers that are still there are let go, in milliseconds of the steady
    /// clock.
    is_stopping: AtomicBool,
    stops_at: AtomicU64,
}

/// The last visits.
#[derive(Drop)]
pub struct Recent {
    /// Those that are kept, oldest first.
    pub visits: Vec<Visit>,
    /// How many visits there were.
    pub all: u64,
}

/// So many loops that have nobody.
fn gauges(alloc: Global, count: usize) -> Result<Vec<Gauge>, AllocError> {
    let mut gauges = Vec::with_capacity(alloc, count)?;
    for _ in 0..count {
        gauges.push(Gauge {
            peers: AtomicU64::new(0),
            kept: AtomicU64::new(0),
        })?;
    }
    Ok(gauges)
}

/// Whether a wait goes on: the server is not done, and there was no visit after the first so many.
fn goes_on(told: &Told, seen: u64) -> bool {
    !told.is_over && told.watch.counts.visits() <= seen
}

impl Board {
    /// Nobody has come so far.
    pub fn new(alloc: Global) -> Result<Board, AllocError> {
        Ok(Board {
            told: Mutex::new(Told {
                watch: Watch::new(alloc)?,
                is_over: false,
            }),
            changed: Condvar::new(),
            gauges: gauges(alloc, LOOPS)?,
            is_stopping: AtomicBool::new(false),
            stops_at: AtomicU64::new(0),
        })
    }

    /// A peer is gone.
    pub(crate) fn tell<T: Wait>(&self, rt: &T, visit: Visit) {
        self.told.lock(rt).watch.note(visit);
        self.changed.notify_all();
    }

    /// The loop of this number has so many peers now, and counts so many bytes for them.
    pub(crate) fn show(&self, index: usize, peers: u64, kept: u64) {
        if let Some(gauge) = self.gauges.get(index) {
            gauge.peers.store(peers, Ordering::SeqCst);
            gauge.kept.store(kept, Ordering::SeqCst);
        }
    }

    /// What the loop of this number told last that it has.
    pub(crate) fn load(&self, index: usize) -> Load {
        self.gauges.get(index).map_or(
            Load { kept: 0, peers: 0 },
            |gauge| Load {
                kept: gauge.kept.load(Ordering::SeqCst),
                peers: gauge.peers.load(Ordering::SeqCst),
            },
        )
    }

    /// The server is to stop: nobody more is taken in, and who is there at this time, in milliseconds of the steady
    /// clock, is let go. A second call changes nothing.
    pub fn stop(&self, at: u64) {
        if !self.is_stopping() {
            self.stops_at.store(at, Ordering::SeqCst);
            self.is_stopping.store(true, Ordering::SeqCst);
        }
    }

    /// Whether the server is to stop.
    pub fn is_stopping(&self) -> bool {
        self.is_stopping.load(Ordering::SeqCst)
    }

    /// Whether those are to be let go who are still there at this time.
    pub(crate) fn lets_go(&self, now: u64) -> bool {
        self.is_stopping() && self.stops_at.load(Ordering::SeqCst) <= now
    }

    /// The server is done.
    pub fn end<T: Wait>(&self, rt: &T) {
        self.told.lock(rt).is_over = true;
        self.changed.notify_all();
    }

    /// Whether the server is done.
    pub fn is_over<T: Wait>(&self, rt: &T) -> bool {
        self.told.lock(rt).is_over
    }

    /// Waits until there was a visit after the first so many, the server is done, or a second is over. Whether the
    /// server is done.
    pub fn wait_for_more<R: Wait + Clock>(&self, rt: &R, seen: u64) -> bool {
        let told = self.told.lock(rt);
        let waited = self.changed.wait_timeout_while(
            rt,
            told,
            Duration::from_secs(PAUSE),
            |told| goes_on(told, seen),
        );
        waited.0.is_over
    }

    /// The visits after the first so many.
    pub fn visits_after<T: Wait>(
        &self,
        rt: &T,
        alloc: Global,
        seen: u64,
    ) -> Result<Recent, AllocError> {
        let told = self.told.lock(rt);
        Ok(Recent {
            visits: told.watch.after(alloc, seen)?,
            all: told.watch.counts.visits(),
        })
    }

    /// How many peers all loops have now.
    pub fn peers(&self) -> u64 {
        let mut peers: u64 = 0;
        for gauge in &self.gauges {
            peers = peers.saturating_add(gauge.peers.load(Ordering::SeqCst));
        }
        peers
    }

    /// How many bytes all loops count for them.
    pub fn kept(&self) -> u64 {
        let mut kept: u64 = 0;
        for gauge in &self.gauges {
            kept = kept.saturating_add(gauge.kept.load(Ordering::SeqCst));
        }
        kept
    }

    /// The metrics of a server that stands so.
    pub fn metrics<T: Wait>(
        &self,
        rt: &T,
        alloc: Global,
        standing: &Standing<'_>,
    ) -> Result<Vec<u8>, AllocError> {
        metrics_text(alloc, standing, &self.told.lock(rt).watch.counts)
    }

    /// The page of a server that stands so.
    pub fn page<T: Wait>(
        &self,
        rt: &T,
        alloc: Global,
        standing: &Standing<'_>,
    ) -> Result<Vec<u8>, AllocError> {
        let told = self.told.lock(rt);
        let sessions = told.watch.newest_sessions(alloc)?;
        page_text(alloc, standing, &told.watch.counts, &sessions)
    }
}
