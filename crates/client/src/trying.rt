//! Sessions that are tried again.

use printing_core::{Fault, tell_again};
use settings_core::pause_before;
use std::io::Write;
use std::time::{Clock, Duration};

/// How often sessions are still tried again, and how often they were.
#[derive(Clone, Copy)]
pub struct Tries {
    left: u32,
    made: u32,
    explains: bool,
}

impl Tries {
    /// As many as are asked for; none if no number is given. Whether standard error is told of each.
    pub fn new(retry: Option<u32>, explains: bool) -> Tries {
        Tries {
            left: retry.unwrap_or(0),
            made: 0,
            explains,
        }
    }

    /// How many are left.
    pub fn left(&self) -> u32 {
        self.left
    }

    /// Waits before the next one, and counts it.
    pub fn pause<R: Clock, E: Write>(&mut self, rt: &R, err: &mut E) {
        let seconds = pause_before(self.made);
        if self.explains {
            tell_again(err, seconds);
        }
        rt.sleep(Duration::from_secs(u64::from(seconds)));
        self.left = self.left.saturating_sub(1);
        self.made = self.made.saturating_add(1);
    }

    /// The same after a session that ended so, where one is left and the fault may pass. Whether it is to be made.
    pub fn wait<R: Clock, E: Write>(&mut self, rt: &R, fault: Option<Fault>, err: &mut E) -> bool {
        let Some(fault) = fault else {
            return false;
        };
        let goes_on = self.left > 0 && fault.may_pass();
        if goes_on {
            self.pause(rt, err);
        }
        goes_on
    }
}
