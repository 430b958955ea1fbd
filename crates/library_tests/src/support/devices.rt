//! Readers and writers that do little at a time and that fail, a gate, and outcomes as text.

use ends_core::Learned;
use item_core::Item;
use peer_threads::{Gate, Outcome};
use shard_core::Floor;
use std::alloc::{AllocError, Global};
use std::io;
use std::io::{ErrorKind, Read, Write};
use std::sync::atomic::{AtomicU64, Ordering};
use std::sync::{Mutex, OnceLock};
use std::thread::yield_now;
use version_log::LogFault;

/// A reader that gives at most so many bytes a call.
#[derive(Drop)]
pub(crate) struct PieceReader {
    pub(crate) bytes: Vec<u8>,
    pub(crate) taken: usize,
    pub(crate) piece: usize,
}

impl Read for PieceReader {
    fn read(&mut self, buf: &mut [u8]) -> io::Result<usize> {
        let from = self.taken.min(self.bytes.len());
        let rest = &self.bytes[from..];
        let count = rest.len().min(buf.len()).min(self.piece);
        buf[..count].copy_from_slice(&rest[..count]);
        self.taken = from + count;
        Ok(count)
    }
}

/// A writer that takes at most so many bytes a call, and keeps them where others can see them.
#[derive(Drop)]
pub(crate) struct PieceWriter<'a> {
    pub(crate) held: &'a Mutex<Vec<u8>>,
    pub(crate) piece: usize,
}

impl Write for PieceWriter<'_> {
    fn write(&mut self, buf: &[u8]) -> io::Result<usize> {
        let count = buf.len().min(self.piece);
        // no other thread has it while this one writes
        let Some(mut held) = self.held.try_lock() else {
            return Err(io::Error::from(ErrorKind::WouldBlock));
        };
        held.extend_from_slice(&buf[..count])?;
        Ok(count)
    }

    fn flush(&mut self) -> io::Result<()> {
        Ok(())
    }
}

/// A reader or a writer of which one call fails: the first where none is left before it.
#[derive(Drop)]
pub(crate) struct Failing<T> {
    pub(crate) inner: T,
    pub(crate) calls_left: u64,
}

impl<T> Failing<T> {
    /// Counts a call. Else it is the one that fails.
    fn call(&mut self) -> io::Result<()> {
        if self.calls_left == 0 {
            return Err(io::Error::from(ErrorKind::ConnectionReset));
        }
        self.calls_left -= 1;
        Ok(())
    }
}

impl<R: Read> Read for Failing<R> {
    fn read(&mut self, buf: &mut [u8]) -> io::Result<usize> {
        self.call()?;
        self.inner.read(buf)
    }
}

impl<W: Write> Write for Failing<W> {
    fn write(&mut self, buf: &[u8]) -> io::Result<usize> {
        self.call()?;
        self.inner.write(buf)
    }

    fn flush(&mut self) -> io::Result<()> {
        self.inner.flush()
    }
}

/// When a gate lets a session go on.
#[derive(Clone, Copy, Debug, PartialEq, Eq)]
pub(crate) enum Rule {
    Always,
    Never,
    /// The session with the serial 1 once that with the serial 2 has ended; never, if that does not come.
    SecondFirst,
}

/// A gate that keeps how each session ended, as text, how often it was told of an end, how many items the log took, how
/// many found no room, how many sessions were settled, and how many of their items were left out.
#[derive(Drop)]
pub(crate) struct Witness {
    pub(crate) alloc: Global,
    pub(crate) rule: Rule,
    /// How many items of a session are admitted.
    pub(crate) most: usize,
    pub(crate) first: OnceLock<String>,
    pub(crate) second: OnceLock<String>,
    pub(crate) told: AtomicU64,
    pub(crate) taken: AtomicU64,
    pub(crate) full: AtomicU64,
    pub(crate) settled: AtomicU64,
    pub(crate) left_out: AtomicU64,
}

impl Witness {
    /// A gate that admits at most so many items of a session.
    pub(crate) fn new(alloc: Global, rule: Rule, most: usize) -> Witness {
        Witness {
            alloc,
            rule,
            most,
            first: OnceLock::new(),
            second: OnceLock::new(),
            told: AtomicU64::new(0),
            taken: AtomicU64::new(0),
            full: AtomicU64::new(0),
            settled: AtomicU64::new(0),
            left_out: AtomicU64::new(0),
        }
    }

    // Looks 100,000,000 times whether the second session has ended.
    fn waits_for_second(&self) -> bool {
        for turn in 0..100_000_000u32 {
            if self.second.get().is_some() {
                return true;
            }
            if turn % 1_000 == 0 {
                yield_now();
            }
        }
        false
    }

    /// Where the end of the session with this serial is kept.
    fn end_of(&self, serial: u64) -> &OnceLock<String> {
        if serial == 1 {
            &self.first
        } else {
            &self.second
        }
    }
}

impl Gate for Witness {
    fn pass(&self, serial: u64, _sent: u32) -> bool {
        match self.rule {
            Rule::Always => true,
            Rule::Never => false,
            Rule::SecondFirst => serial != 1 || self.waits_for_second(),
        }
    }

    fn ended(&self, serial: u64, outcome: &Outcome) {
        self.told.fetch_add(1, Ordering::SeqCst);
        let Ok(text) = shown_outcome(self.alloc, outcome) else {
            return;
        };
        let _there = self.end_of(serial).try_set(text);
    }

    fn admits(&self, _serial: u64, _count: usize) -> usize {
        self.most
    }

    fn floor(&self) -> Floor {
        Floor::none()
    }

    fn took(&self, _item: &Item) {
        self.taken.fetch_add(1, Ordering::SeqCst);
    }

    fn dropped(&self, fault: LogFault, count: usize) {
        if fault == LogFault::Full {
            self.full.fetch_add(count as u64, Ordering::SeqCst);
        }
    }

    fn settled(&self, serial: u64, left_out: usize) {
        // only a session that it was told of
        let is_told = self.end_of(serial).get().is_some();
        self.settled.fetch_add(u64::from(is_told), Ordering::SeqCst);
        self.left_out.fetch_add(left_out as u64, Ordering::SeqCst);
    }
}

/// Appends the items, or `-` if there are none.
fn push_items(text: &mut String, items: &[Item]) -> Result<(), AllocError> {
    if items.is_empty() {
        text.push('-')?;
    }
    for item in items {
        for byte in item.bytes() {
            text.push(char::from(*byte))?;
        }
    }
    Ok(())
}

fn shown_learned(alloc: Global, learned: &Learned) -> Result<String, AllocError> {
    let mut text = String::new(alloc);
    text.push_str("ours ")?;
    push_items(&mut text, &learned.ours().to_vec(alloc)?)?;
    text.push_str(" theirs ")?;
    push_items(&mut text, &learned.theirs().to_vec(alloc)?)?;
    Ok(text)
}

fn shown_end(alloc: Global, outcome: &Outcome) -> Result<String, AllocError> {
    match outcome {
        Outcome::Ended {
            learned,
            version,
            ..
        } => {
            let learned = shown_learned(alloc, learned)?;
            format!(in alloc; "Ended {learned} version {version}")
        }
        Outcome::Refused { code, .. } => format!(in alloc; "Refused {code}"),
        Outcome::PeerRefused { code, .. } => format!(in alloc; "PeerRefused {code}"),
        Outcome::Io { side, .. } => format!(in alloc; "Io {side:?}"),
        Outcome::Memory { .. } => format!(in alloc; "Memory"),
    }
}

/// The kind of the outcome with its numbers and what was learned, and then how many messages were sent.
pub(crate) fn shown_outcome(alloc: Global, outcome: &Outcome) -> Result<String, AllocError> {
    let mut text = shown_end(alloc, outcome)?;
    write!(text, " sent {}", outcome.sent())?;
    Ok(text)
}
