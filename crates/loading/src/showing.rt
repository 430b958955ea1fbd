//! How far a set is loaded, on one line of a terminal.

use crate::clock::millis_since;
use printing_core::{end_progress, tell_file_read, tell_hashing, tell_input_read};
use std::io;
use std::io::{Read, Write};
use std::time::{Clock, Instant};

/// After how many milliseconds of a load a terminal is shown how far it is.
const PAUSE: u64 = 1_000;

/// The bytes of a MiB.
const MIB: u64 = 1_048_576;

/// Where it is shown how far a set is loaded, once that takes longer than a second.
#[derive(Drop)]
pub struct Screen<'a, R, E> {
    rt: &'a R,
    err: &'a mut E,
    // When the load began; none where nothing is shown.
    start: Option<Instant>,
}

impl<'a, R: Clock, E: Write> Screen<'a, R, E> {
    /// A load begins, which is shown or not. Where the clock fails it is not.
    pub fn begin(rt: &'a R, err: &'a mut E, shows: bool) -> Screen<'a, R, E> {
        let start = if shows { Instant::now(rt).ok() } else { None };
        Screen { rt, err, start }
    }

    /// What the load is run by.
    pub fn rt(&self) -> &'a R {
        self.rt
    }

    /// Where refusals and warnings are told.
    pub fn err(&mut self) -> &mut E {
        &mut *self.err
    }

    /// Whether it is shown now how far the load is.
    fn is_shown(&self) -> bool {
        millis_since(self.rt, self.start).is_some_and(|millis| millis >= PAUSE)
    }

    /// So many items are hashed now.
    pub fn hash(&mut self, items: usize) {
        if self.is_shown() {
            tell_hashing(&mut *self.err, items);
        }
    }

    /// Clears the line, if anything is shown.
    pub fn clear(&mut self) {
        if self.is_shown() {
            end_progress(&mut *self.err);
        }
    }
}

/// A reader that is shown on a screen: how far it is read, of the bytes that it has, where their number is known.
#[derive(Drop)]
pub struct Shown<'s, 'a, R, E, I> {
    screen: &'s mut Screen<'a, R, E>,
    inner: I,
    size: Option<u64>,
    // When its first byte was asked for.
    start: Option<Instant>,
    read: u64,
    // The percent, or the MiB, that were shown last.
    last: Option<u64>,
}

impl<'s, 'a, R: Clock, E: Write, I> Shown<'s, 'a, R, E, I> {
    /// Nothing is read so far.
    pub fn new(
        screen: &'s mut Screen<'a, R, E>,
        inner: I,
        size: Option<u64>,
    ) -> Shown<'s, 'a, R, E, I> {
        let start = Instant::now(screen.rt).ok();
        Shown {
            screen,
            inner,
            size: size.filter(|size| *size > 0),
            start,
            read: 0,
            last: None,
        }
    }

    /// How much was read: so many percent, or so many MiB where the size is not known.
    fn amount(&self) -> u64 {
        match self.size {
            Some(size) => (self.read.saturating_mul(100) / size.max(1)).min(100),
            None => self.read / MIB,
        }
    }

    /// How many seconds the rest takes, of so many bytes in all, at the speed so far.
    fn seconds_left(&self, size: u64) -> u64 {
        let millis = millis_since(self.screen.rt, self.start).unwrap_or(0);
        let rest = size.saturating_sub(self.read);
        millis.saturating_mul(rest) / self.read.max(1) / 1_000
    }

    /// Shows how far it is read, where that is another percent or another MiB than was shown.
    fn show(&mut self) {
        let amount = self.amount();
        if self.last == Some(amount) || !self.screen.is_shown() {
            return;
        }
        self.last = Some(amount);
        match self.size {
            Some(size) => {
                let seconds = self.seconds_left(size);
                tell_file_read(self.screen.err(), amount, seconds);
            }
            None => tell_input_read(self.screen.err(), amount),
        }
    }
}

impl<'s, 'a, R: Clock, E: Write, I: Read> Read for Shown<'s, 'a, R, E, I> {
    fn read(&mut self, buf: &mut [u8]) -> io::Result<usize> {
        let count = self.inner.read(buf)?;
        self.read = self.read.saturating_add(count as u64);
        self.show();
        Ok(count)
    }
}
