//! How long sessions took.

ghost use Rattle.std.specs.Prelude.{◌≡◌, EachIndex};
ghost use Rattle.watch_core.specs.Counting.{Lasted, bucket_at, no_durations, with_duration};

/// How many bounds there are.
const BOUNDS: usize = 13;

/// How many sessions took no longer than a bound. The count stops at 2^64 - 1.
#[derive(Clone, Copy, Debug, PartialEq, Eq)]
pub struct Bucket {
    /// The bound, in milliseconds.
    pub bound: u64,
    /// How many sessions took no longer.
    pub count: u64,
}

/// A bound that no session has kept so far.
const fn empty(bound: u64) -> Bucket
    ensures { result ≡ record { bound = bound; count = 0 } }
{
    Bucket { bound, count: 0 }
}

impl Bucket {
    /// The same after a session that took so long.
    fn with(self, millis: u64) -> Bucket
        ensures { result ≡ with_duration millis self }
    {
        if millis <= self.bound {
            return Bucket {
                bound: self.bound,
                count: self.count.saturating_add(1),
            };
        }
        self
    }
}

/// How long sessions took.
#[derive(Drop)]
pub struct Durations {
    /// By bounds, which rise.
    pub buckets: [Bucket; BOUNDS],
    /// The milliseconds of all. They stop at 2^64 - 1.
    pub millis: u64,
}

/// Counts a session that took so long in each bucket that it belongs to.
fn add_to_all(buckets: &mut [Bucket], millis: u64)
    ensures { EachIndex buckets.new (λ k. bucket_at buckets.new k ≡ with_duration millis (bucket_at buckets.old k)) }
{
    for bucket in buckets.iter_mut() {
        *bucket = bucket.with(millis);
    }
}

impl Durations {
    /// No session so far.
    pub fn none() -> Durations
        ensures { result ≡ no_durations }
    {
        Durations {
            buckets: [
                empty(5),
                empty(10),
                empty(25),
                empty(50),
                empty(100),
                empty(250),
                empty(500),
                empty(1_000),
                empty(2_500),
                empty(5_000),
                empty(10_000),
                empty(60_000),
                empty(600_000),
            ],
            millis: 0,
        }
    }

    /// Counts a session that took so many milliseconds.
    pub fn add(&mut self, millis: u64)
        ensures { Lasted millis self.old self.new }
    {
        add_to_all(&mut self.buckets, millis);
        self.millis = self.millis.saturating_add(millis);
    }
}
