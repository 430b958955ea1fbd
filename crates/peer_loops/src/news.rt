//! What is known of a set beside its parts: how often something was put in, and its directory.

use range_tree::Tree;
use std::sync::atomic::{AtomicBool, Ordering};
use std::sync::{Condvar, Mutex, Wait};
use std::time::{Clock, Duration};

/// What is known of a set beside its parts, for all threads that put items in or wait for some.
#[derive(Drop)]
pub struct News {
    // How often something was put in.
    count: Mutex<u64>,
    changed: Condvar,
    // Whether the server is done: it is set while the count is held.
    is_over: AtomicBool,
    /// The directory of the parts, if it was made, and nothing was put in since. Whoever makes it holds it and asks one
    /// part after the other; whoever puts items in has let the part go before it takes the directory.
    pub(crate) directory: Mutex<Option<Tree>>,
}

impl News {
    /// Nothing was put in so far.
    pub fn new() -> News {
        News {
            count: Mutex::new(0),
            changed: Condvar::new(),
            is_over: AtomicBool::new(false),
            directory: Mutex::new(None),
        }
    }

    /// Something was put in, and its part is let go, or all partners are to be called: the directory is made anew when
    /// somebody asks for it, and those who wait for news go on.
    pub fn tell<T: Wait>(&self, rt: &T) {
        *self.directory.lock(rt) = None;
        let mut count = self.count.lock(rt);
        *count = count.saturating_add(1);
        drop(count);
        self.changed.notify_all();
    }

    /// How often something was put in.
    pub fn count<T: Wait>(&self, rt: &T) -> u64 {
        *self.count.lock(rt)
    }

    /// The server is done.
    pub fn end<T: Wait>(&self, rt: &T) {
        let count = self.count.lock(rt);
        self.is_over.store(true, Ordering::SeqCst);
        drop(count);
        self.changed.notify_all();
    }

    /// Whether the server is done.
    pub fn is_over(&self) -> bool {
        self.is_over.load(Ordering::SeqCst)
    }

    /// What says so to those who wait for a connection.
    pub(crate) fn ending(&self) -> &AtomicBool {
        &self.is_over
    }

    /// Waits until something was put in after the first so many times, the server is done, or so many milliseconds are
    /// over. Whether the server is done.
    pub fn wait<R: Wait + Clock>(&self, rt: &R, seen: u64, millis: u64) -> bool {
        let count = self.count.lock(rt);
        let most = Duration::from_millis(millis);
        let is_over = &self.is_over;
        let _waited = self.changed.wait_timeout_while(rt, count, most, |count| {
            *count <= seen && !is_over.load(Ordering::SeqCst)
        });
        self.is_over()
    }
}
