//! When a partner is called again.

ghost use Rattle.std.specs.Prelude.{◌≡◌, ◌≤◌, ◌^◌};
ghost use Rattle.peer_loops.specs.Pauses.{around, doubled, is_due, pause_after};

/// For how many milliseconds a partner is not called after its last session, whatever the news are.
pub(crate) const LEAST_PAUSE: u64 = 200;

/// The seconds after which a partner is called again that refuses.
pub(crate) const REFUSED_PAUSE: u64 = 60;

/// How many times as long as at first, after so many pauses: twice as long each time, 64 times at most.
fn doubled(times: u32) -> u64
    ensures value { result ≡ doubled times }
    ensures few { result ≤ 64 }
{
    if times < 6 { 1 << times } else { 64 }
}

/// The seconds after the n-th session in a row that did not come about: `every`, then twice as long each time, and at
/// most 16 times, or a minute where that is longer.
pub(crate) fn pause_after(every: u32, failures: u32) -> u64
    ensures { result ≡ pause_after every failures }
{
    let every = u64::from(every);
    let longest = (every * 16).max(60);
    (every * doubled(failures.saturating_sub(1))).min(longest)
}

/// About so many milliseconds: up to a tenth less or more, by a number that is drawn.
pub(crate) fn around(millis: u64, draw: u64) -> u64
    requires few { millis ≤ 2 ^ 60 }
    ensures { result ≡ around millis draw }
{
    millis - millis / 10 + draw % (millis / 5 + 1)
}

/// When a partner is called next if there is no news, and when its last session ended.
#[derive(Clone, Copy, Debug, PartialEq, Eq)]
pub(crate) struct Times {
    pub(crate) due: u64,
    pub(crate) ended: u64,
}

impl Times {
    /// Whether it is called now: its time has come; or there is news, and its last session ended long enough ago.
    pub(crate) fn are_over(self, now: u64, has_news: bool) -> bool
        ensures { result ≡ is_due self.due self.ended now has_news }
    {
        self.due <= now || (has_news && now.saturating_sub(self.ended) >= LEAST_PAUSE)
    }

    /// How many milliseconds are left until then.
    pub(crate) fn left(self, now: u64, has_news: bool) -> u64 {
        let left = self.due.saturating_sub(now);
        if has_news {
            left.min(LEAST_PAUSE.saturating_sub(now.saturating_sub(self.ended)))
        } else {
            left
        }
    }
}

/// Numbers by chance, which need be no better than that two nodes do not draw the same ones.
#[derive(Clone, Copy)]
pub(crate) struct Chance(u64);

impl Chance {
    /// Numbers from this one on.
    pub(crate) fn from(seed: u64) -> Chance {
        Chance(seed)
    }

    /// The next number.
    pub(crate) fn draw(&mut self) -> u64 {
        self.0 = self
            .0
            .wrapping_mul(6_364_136_223_846_793_005)
            .wrapping_add(1_442_695_040_888_963_407);
        self.0 >> 33
    }
}
