//! The partners of a server, and when each is called.

use crate::part_gate::Told;
use crate::pauses::{Chance, REFUSED_PAUSE, Times, around, pause_after};
use std::alloc::{AllocError, Global};
use std::sync::{Mutex, Wait};
use watch_core::{Partnered, Turn};

/// How many partners are called at once, at most.
pub const AT_ONCE: usize = 8;

/// No pause is longer, in milliseconds: each is at most 16 days.
const MOST_PAUSE: u64 = 1_400_000_000;

/// Where a partner is called.
#[derive(Clone, Copy, Debug, PartialEq, Eq)]
pub enum Place<'a> {
    /// At an IP address, or at each address of a host's name, and a port.
    Tcp(&'a str),
    /// At the path of a Unix socket.
    Unix(&'a str),
}

/// A partner: its address as it was given, and where that is.
#[derive(Clone, Copy, Debug, PartialEq, Eq)]
pub struct Partner<'a> {
    /// The address.
    pub address: &'a str,
    /// Where that is.
    pub place: Place<'a>,
}

/// What is told of a partner with which a turn ended so.
fn told_of(turn: Turn) -> Told {
    match turn {
        Turn::Ended => Told::Back,
        Turn::NotReached | Turn::CutOff => Told::Away,
        Turn::Refuses(code) => Told::Refuses(code),
        Turn::IsRefused(code) => Told::IsRefused(code),
    }
}

/// One partner in the list.
#[derive(Clone, Copy)]
struct Entry<'a> {
    partner: Partner<'a>,
    times: Times,
    /// Whether it is called just now.
    is_called: bool,
    /// How often something had been put into the set when its last session began.
    seen: u64,
    /// How many turns in a row did not end.
    failures: u32,
    /// How the last one was, if there was one; and the last one that did not end.
    turn: Option<Turn>,
    fault: Option<Turn>,
    ended: u64,
    failed: u64,
    last: Option<u64>,
    /// How many turns are to be over before the next pause: some were asked for.
    wanted: u64,
}

impl<'a> Entry<'a> {
    /// A partner that is called at once.
    fn new(partner: Partner<'a>) -> Entry<'a> {
        Entry {
            partner,
            times: Times { due: 0, ended: 0 },
            is_called: false,
            seen: 0,
            failures: 0,
            turn: None,
            fault: None,
            ended: 0,
            failed: 0,
            last: None,
            wanted: 0,
        }
    }

    /// Whether something was put in after its last session began, which ended.
    fn has_news(&self, news: u64) -> bool {
        self.is_up() && news > self.seen
    }

    /// How many turns with it are over.
    fn over(&self) -> u64 {
        self.ended.saturating_add(self.failed)
    }

    /// How many are over once one is that is to begin now.
    fn next_over(&self) -> u64 {
        self.over()
            .saturating_add(u64::from(self.is_called))
            .saturating_add(1)
    }

    /// How many milliseconds are left until it is to be called.
    fn left(&self, now: u64, news: u64) -> u64 {
        if self.wanted > self.over() {
            return 0;
        }
        self.times.left(now, self.has_news(news))
    }

    /// Whether it is to be called now.
    fn is_due(&self, now: u64, news: u64) -> bool {
        let is_time = self.wanted > self.over() || self.times.are_over(now, self.has_news(news));
        !self.is_called && is_time
    }

    /// Whether its last session ended.
    fn is_up(&self) -> bool {
        self.turn == Some(Turn::Ended)
    }

    /// How it stands at this time.
    fn standing(&self, now: u64) -> Partnered<'a> {
        Partnered {
            address: self.partner.address,
            ended: self.ended,
            failed: self.failed,
            behind: u64::from(self.failures),
            silent: self.last.map(|last| now.saturating_sub(last)),
            fault: self.fault,
        }
    }

    /// How long it is not called, in milliseconds, once a turn ended so.
    fn pause(&self, every: u32, turn: Turn) -> u64 {
        let seconds = match turn {
            Turn::Ended => u64::from(every),
            Turn::NotReached | Turn::CutOff => pause_after(every, self.failures),
            Turn::Refuses(_) | Turn::IsRefused(_) => REFUSED_PAUSE,
        };
        seconds.saturating_mul(1_000)
    }

    /// Counts a turn that ended so. What is told of the partner, if that is new.
    fn count(&mut self, turn: Turn, now: u64) -> Option<Told> {
        let before = told_of(self.turn.unwrap_or(Turn::Ended));
        let told = told_of(turn);
        self.turn = Some(turn);
        if turn == Turn::Ended {
            self.failures = 0;
            self.ended = self.ended.saturating_add(1);
            self.last = Some(now);
        } else {
            self.failures = self.failures.saturating_add(1);
            self.failed = self.failed.saturating_add(1);
            self.fault = Some(turn);
        }
        (before != told).then_some(told)
    }
}

/// What is under one lock.
#[derive(Drop)]
struct Schedule<'a> {
    entries: Vec<Entry<'a>>,
    chance: Chance,
}

/// The partners of a server, for all threads that call them.
#[derive(Drop)]
pub struct Partners<'a> {
    every: u32,
    count: usize,
    schedule: Mutex<Schedule<'a>>,
}

/// A partner that is called now.
#[derive(Clone, Copy)]
pub(crate) struct Call<'a> {
    pub(crate) index: usize,
    pub(crate) partner: Partner<'a>,
    /// How often something had been put into the set.
    pub(crate) news: u64,
}

impl<'a> Partners<'a> {
    /// These partners, each called so many seconds after its last session ended, 1 to 86,400. The seed is of what
    /// varies by chance.
    pub fn new(
        alloc: Global,
        every: u32,
        seed: u64,
        partners: &[Partner<'a>],
    ) -> Result<Partners<'a>, AllocError> {
        let mut entries = Vec::with_capacity(alloc, partners.len())?;
        for partner in partners {
            entries.push(Entry::new(*partner))?;
        }
        Ok(Partners {
            every: every.min(86_400),
            count: partners.len(),
            schedule: Mutex::new(Schedule {
                entries,
                chance: Chance::from(seed),
            }),
        })
    }

    /// By how many threads they are called.
    pub fn threads(&self) -> usize {
        self.count.min(AT_ONCE)
    }

    /// A partner that is to be called now, of all of them that whose last session ended first. It is called by nobody
    /// else until its turn is over. If there are more partners than threads, half of the threads are for those that are
    /// up: whoever does not answer holds up no other.
    pub(crate) fn next<T: Wait>(&self, rt: &T, now: u64, news: u64) -> Option<Call<'a>> {
        let mut schedule = self.schedule.lock(rt);
        let up_alone = self.count > AT_ONCE && called_down(&schedule.entries) >= AT_ONCE / 2;
        let index = first_due(&schedule.entries, (now, news), up_alone)?;
        let entry = schedule.entries.get_mut(index)?;
        entry.is_called = true;
        entry.seen = news;
        Some(Call {
            index,
            partner: entry.partner,
            news,
        })
    }

    /// How many milliseconds are left until one is to be called, 10 to 1,000.
    pub(crate) fn wait<T: Wait>(&self, rt: &T, now: u64, news: u64) -> u64 {
        let schedule = self.schedule.lock(rt);
        let mut wait = 1_000;
        for entry in &schedule.entries {
            if !entry.is_called {
                wait = wait.min(entry.left(now, news));
            }
        }
        wait.max(10)
    }

    /// The turn of this partner ended so, now; the news up to that one are its own. What is told of it, if that is new.
    pub(crate) fn is_over<T: Wait>(
        &self,
        rt: &T,
        index: usize,
        turn: Turn,
        (now, seen): (u64, u64),
    ) -> Option<Told> {
        let mut schedule = self.schedule.lock(rt);
        let draw = schedule.chance.draw();
        let entry = schedule.entries.get_mut(index)?;
        let told = entry.count(turn, now);
        let pause = entry.pause(self.every, turn).min(MOST_PAUSE);
        entry.is_called = false;
        entry.seen = seen;
        entry.times = Times {
            due: now.saturating_add(around(pause, draw)),
            ended: now,
        };
        told
    }

    /// Each of them is to be called at once. How many turns with each are over once one is that begins from now on.
    pub fn call_all<T: Wait>(&self, rt: &T, alloc: Global) -> Result<Vec<u64>, AllocError> {
        let mut schedule = self.schedule.lock(rt);
        let mut wanted = Vec::with_capacity(alloc, self.count)?;
        for entry in schedule.entries.iter_mut() {
            entry.wanted = entry.next_over();
            wanted.push(entry.wanted)?;
        }
        Ok(wanted)
    }

    /// Whether so many turns with each of them are over.
    pub fn have_had<T: Wait>(&self, rt: &T, wanted: &[u64]) -> bool {
        let schedule = self.schedule.lock(rt);
        for (index, entry) in schedule.entries.iter().enumerate() {
            if wanted
                .get(index)
                .is_some_and(|wanted| entry.over() < *wanted)
            {
                return false;
            }
        }
        true
    }

    /// How each of them stands at this time of the steady clock.
    pub fn standings<T: Wait>(
        &self,
        rt: &T,
        alloc: Global,
        now: u64,
    ) -> Result<Vec<Partnered<'a>>, AllocError> {
        let schedule = self.schedule.lock(rt);
        let mut standings = Vec::with_capacity(alloc, schedule.entries.len())?;
        for entry in &schedule.entries {
            standings.push(entry.standing(now))?;
        }
        Ok(standings)
    }
}

/// How many partners are called just now that are not up.
fn called_down(entries: &[Entry<'_>]) -> usize {
    entries
        .iter()
        .filter(|entry| entry.is_called && !entry.is_up())
        .count()
}

/// The place of the partner that is to be called now, if there is one: of several that whose last session ended first;
/// of those that are up alone, if that is asked for.
fn first_due(entries: &[Entry<'_>], (now, news): (u64, u64), up_alone: bool) -> Option<usize> {
    let mut first: Option<(usize, u64)> = None;
    for (index, entry) in entries.iter().enumerate() {
        if entry.is_due(now, news) && (entry.is_up() || !up_alone) {
            first = earlier(first, index, entry.times.ended);
        }
    }
    let (index, _) = first?;
    Some(index)
}

/// The first of two: that so far, or that of this place, whose last session ended then.
fn earlier(first: Option<(usize, u64)>, index: usize, ended: u64) -> Option<(usize, u64)> {
    match first {
        Some((_, least)) if least <= ended => first,
        _ => Some((index, ended)),
    }
}
