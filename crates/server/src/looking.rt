//! What those who write to files say to the thread that looks what stands at their paths, and what it says to them.
//! Threads that `join` makes cannot look themselves.

use std::sync::atomic::{AtomicBool, Ordering};
use std::sync::{Condvar, Mutex, Wait};
use std::time::{Clock, Duration};

/// After how many seconds it is looked without being asked.
const PAUSE: u64 = 1;

/// For how many seconds it is waited that those who write begin.
const START: u64 = 2;

/// What is told under one lock.
#[derive(Drop)]
struct Told {
    /// How often it was asked to look, and how many of these are done.
    asked: u64,
    done: u64,
    /// Whether those who write have begun.
    is_begun: bool,
    /// Whether somebody looks.
    is_tended: bool,
    /// Whether no more is to be written.
    is_over: bool,
}

/// Those who write, and the one who looks.
#[derive(Drop)]
pub struct Looking {
    told: Mutex<Told>,
    changed: Condvar,
    /// Whether nobody has to ask: it was looked for what is written now, or nobody looks.
    is_known: AtomicBool,
}

/// Why the one who looks is to look now.
#[derive(Clone, Copy)]
pub struct Turn {
    /// How often it was asked to look.
    pub asked: u64,
    /// Whether somebody waits for that.
    pub is_asked: bool,
    /// Whether no more is to be written.
    pub is_over: bool,
}

impl Looking {
    /// Nobody looks so far.
    pub fn new() -> Looking {
        Looking {
            told: Mutex::new(Told {
                asked: 0,
                done: 0,
                is_begun: false,
                is_tended: false,
                is_over: false,
            }),
            changed: Condvar::new(),
            is_known: AtomicBool::new(true),
        }
    }

    /// Those who write begin now.
    pub fn begin<T: Wait>(&self, rt: &T) {
        self.told.lock(rt).is_begun = true;
        self.changed.notify_all();
    }

    /// Waits until those who write have begun, for two seconds at most. Whether they have.
    fn have_begun<R: Wait + Clock>(&self, rt: &R) -> bool {
        let told = self.told.lock(rt);
        let waited = self.changed.wait_timeout_while(
            rt,
            told,
            Duration::from_secs(START),
            |told| !told.is_begun,
        );
        waited.0.is_begun
    }

    /// Somebody looks from now on, if those who write have begun. If they have not after two seconds, there was no
    /// thread for them: they begin once nobody looks.
    pub fn attend<R: Wait + Clock>(&self, rt: &R) -> bool {
        if !self.have_begun(rt) {
            return false;
        }
        self.told.lock(rt).is_tended = true;
        self.is_known.store(false, Ordering::SeqCst);
        true
    }

    /// Nobody looks from now on.
    pub fn leave<T: Wait>(&self, rt: &T) {
        self.is_known.store(true, Ordering::SeqCst);
        self.told.lock(rt).is_tended = false;
        self.changed.notify_all();
    }

    /// From now on no more is to be written.
    pub fn end<T: Wait>(&self, rt: &T) {
        self.told.lock(rt).is_over = true;
        self.changed.notify_all();
    }

    /// What is written next is written later: if somebody looks, it is looked again before it.
    pub fn forget<T: Wait>(&self, rt: &T) {
        let told = self.told.lock(rt);
        if told.is_tended {
            self.is_known.store(false, Ordering::SeqCst);
        }
    }

    /// Asks what stands at the paths, unless that is known, and waits for it a second at most.
    pub fn ask<R: Wait + Clock>(&self, rt: &R) {
        if self.is_known.load(Ordering::SeqCst) {
            return;
        }
        let mut told = self.told.lock(rt);
        let asked = told.asked.saturating_add(1);
        told.asked = asked;
        self.changed.notify_all();
        let _waited = self.changed.wait_timeout_while(
            rt,
            told,
            Duration::from_secs(PAUSE),
            |told| told.is_tended && told.done < asked,
        );
    }

    /// Waits until somebody asks, a second is over, or no more is to be written.
    pub fn wait<R: Wait + Clock>(&self, rt: &R) -> Turn {
        let told = self.told.lock(rt);
        let waited = self.changed.wait_timeout_while(
            rt,
            told,
            Duration::from_secs(PAUSE),
            |told| !told.is_over && told.asked == told.done,
        );
        Turn {
            asked: waited.0.asked,
            is_asked: waited.0.asked != waited.0.done,
            is_over: waited.0.is_over,
        }
    }

    /// Tells those who have asked so far that it was looked.
    pub fn answer<T: Wait>(&self, rt: &T, turn: Turn) {
        if turn.is_asked {
            self.is_known.store(true, Ordering::SeqCst);
            self.told.lock(rt).done = turn.asked;
            self.changed.notify_all();
        }
    }
}
