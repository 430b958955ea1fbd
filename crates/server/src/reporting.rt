//! A gate that writes to files what each session found and each item that the log took, and that bounds what one
//! session may put into the log.

ghost use Rattle.std.specs.Prelude.{◌≡◌, true, false, IfSome};
ghost use Rattle.definitions.specs.Items.{comes_before};
ghost use Rattle.server.specs.Admitting.{IsFloorOf, IsNotLower, LetsIn};
ghost use Rattle.server.specs.Keeping.{Covers};

use crate::book::Wanted;
use crate::books::{Books, Keeping};
use crate::following::When;
use crate::ledger::{Closed, Kept, Ledger};
use crate::looking::Looking;
use http_core::Arrivals;
use io_core::Device;
use item_core::{Item, Lower, Range};
use item_files::ItemForm;
use loading::{Disk, floor_at, higher, now, seconds_now};
use peer_loops::{PartGate, Told};
use peer_threads::{Gate, Outcome};
use printing_core::{
    Fault, Reporting, SessionName, left_out_line, report_text, tell_no_time, tell_partner_away,
    tell_partner_back, tell_partner_refused,
};
use settings_core::FloorRule;
use shard_core::{Floor, Which};
use std::alloc::{AllocError, Global};
use std::fs::File;
use std::io::Write;
use std::rt::Files;
use std::sync::atomic::{AtomicBool, AtomicU64, Ordering};
use std::sync::{Mutex, Wait};
use std::time::Clock;
use version_log::LogFault;

/// After how many milliseconds it is looked at the paths without being asked, and what waits is tried again.
const DUE: u64 = 1_000;

/// What is written of a session, and how much of it may be put into the log.
#[derive(Clone, Copy)]
pub struct Rules<'a> {
    /// How a session is reported.
    pub reporting: Reporting,
    /// How many items of one session may be put into the log, if there is a bound.
    pub most_learned: Option<u32>,
    /// Whether what is learned is to outlive a loss of power.
    pub is_durable: bool,
    /// Which items the set forgets.
    pub forgets: &'a FloorRule,
}

/// The floor of a set, or the highest one so far, if that is higher. The highest one is noted.
fn raised(highest: &mut Lower, floor: Floor) -> Floor
    ensures floor { IsNotLower result floor }
    ensures highest { comes_before result.range.lower highest.old ≡ false }
    ensures noted { highest.new ≡ result.range.lower }
{
    let lower = higher(*highest, *floor.range.lower());
    *highest = lower;
    Floor::at(lower, floor.time)
}

/// The items whose lines are to be kept: those that were entered, where the lines of the others are told; else all that
/// were given.
fn wanted_of<'i>(
    rules: Rules<'_>,
    are_told: bool,
    entered: &'i Vec<Item>,
    given: &'i Vec<Item>,
) -> Wanted<'i>
    ensures entered { are_told ≡ true → result.items.now.items ≡ entered.now.items }
    ensures given { are_told ≡ false → result.items.now.items ≡ given.now.items }
    ensures rules { (result.form ≡ rules.entry.reporting.form) × (result.is_durable ≡ rules.entry.is_durable) }
{
    Wanted {
        form: rules.reporting.form,
        items: if are_told { entered } else { given },
        is_durable: rules.is_durable,
    }
}

/// The gate of a server: it writes to the files of a disk.
pub type DiskReporter<'r, 'a, R, E> = Reporter<'r, 'a, R, Disk<File>, E>;

/// A gate that lets every session go on, and writes what is asked for of each.
#[derive(Drop)]
pub struct Reporter<'r, 'a, R: Wait, D, E> {
    rt: &'r R,
    alloc: Global,
    /// What is written, and how much is put into the log.
    pub rules: Rules<'a>,
    /// The greatest number of items of the log.
    cap: usize,
    ledger: Mutex<Ledger<'a, D, E>>,
    /// Whether each session is reported.
    reports: bool,
    looking: Looking,
    /// How many items were put in, and how many were dropped, for those who watch.
    inserted: AtomicU64,
    dropped: AtomicU64,
    /// How many items were forgotten.
    forgotten: AtomicU64,
    /// The highest floor so far.
    highest: Mutex<Lower>,
    /// Whether it was told of an item that has no time.
    is_untimed_told: AtomicBool,
    /// How many sessions put in now what they learned: of an item that the log has a line may not be told yet.
    adding: AtomicU64,
}

impl<'r, 'a, R: Wait, D: Device + Drop, E: Write + Drop> Reporter<'r, 'a, R, D, E> {
    /// Writes to these files from now on, and to this standard error what is to be told of them.
    pub fn new(
        rt: &'r R,
        alloc: Global,
        rules: Rules<'a>,
        cap: usize,
        books: Books<'a, D>,
        err: E,
    ) -> Reporter<'r, 'a, R, D, E> {
        let reports = books.has_report();
        Reporter {
            rt,
            alloc,
            rules,
            cap,
            ledger: Mutex::new(Ledger::new(books, err)),
            reports,
            looking: Looking::new(),
            inserted: AtomicU64::new(0),
            dropped: AtomicU64::new(0),
            forgotten: AtomicU64::new(0),
            highest: Mutex::new(Lower::start()),
            is_untimed_told: AtomicBool::new(false),
            adding: AtomicU64::new(0),
        }
    }

    /// The same, and the last items that the log takes from now on are kept.
    pub fn with_arrivals(self, arrivals: Arrivals) -> Reporter<'r, 'a, R, D, E> {
        self.ledger.lock(self.rt).arrivals = Some(arrivals);
        self
    }

    /// How many items the log ever took.
    pub fn taken(&self) -> u64 {
        match &self.ledger.lock(self.rt).arrivals {
            Some(arrivals) => arrivals.taken(),
            None => 0,
        }
    }

    /// How many items the log took before the oldest one that is kept.
    pub fn first_taken(&self) -> u64 {
        match &self.ledger.lock(self.rt).arrivals {
            Some(arrivals) => arrivals.first(),
            None => 0,
        }
    }

    /// The items that the log took after the first so many, but no more than `most` of them; none where one of them is
    /// not kept, or where it has not taken so many.
    pub fn taken_after(&self, seen: u64, most: usize) -> Result<Option<Vec<Item>>, AllocError> {
        match &self.ledger.lock(self.rt).arrivals {
            Some(arrivals) => arrivals.after(self.alloc, seen, most),
            None => Ok(None),
        }
    }

    /// How the set is kept.
    pub fn keeping(&self) -> Keeping {
        self.ledger.lock(self.rt).books.keeping()
    }

    /// Tries to write what waits.
    pub fn try_again(&self) {
        self.ledger.lock(self.rt).try_again();
    }

    /// How many items of peers were put into the log.
    pub fn inserted(&self) -> u64 {
        self.inserted.load(Ordering::SeqCst)
    }

    /// How many items of peers were dropped.
    pub fn dropped_so_far(&self) -> u64 {
        self.dropped.load(Ordering::SeqCst)
    }

    /// How many items were forgotten.
    pub fn forgotten(&self) -> u64 {
        self.forgotten.load(Ordering::SeqCst)
    }

    /// How many lines wait to be written, over all files.
    pub fn waiting_lines(&self) -> u64 {
        self.ledger.lock(self.rt).books.waiting_lines()
    }

    /// How many writes failed, over all files.
    pub fn failed(&self) -> u64 {
        self.ledger.lock(self.rt).books.failed()
    }

    /// Whether something is written that may have to be tried again.
    pub fn may_wait(&self) -> bool {
        self.ledger.lock(self.rt).books.is_any()
    }

    /// Those who write begin now.
    pub fn begin(&self) {
        self.looking.begin(self.rt);
    }

    /// From now on no more is to be written.
    pub fn end(&self) {
        self.looking.end(self.rt);
    }

    /// Closes the files.
    pub fn close(self) -> Closed {
        let Reporter { ledger, .. } = self;
        ledger.into_inner().close()
    }
}

impl<R: Wait + Clock, D: Device + Drop, E: Write + Drop> Reporter<'_, '_, R, D, E> {
    /// Notes items that the log took from a program, and sees that the lines of all that it gave are kept. Those of
    /// items that the log had are told again where a session that taught them may not have told them yet, or after a
    /// sync that failed. None where lines may be lost.
    pub fn keep(&self, entered: &Vec<Item>, given: &Vec<Item>) -> Option<Kept>
        ensures { IfSome result (λ kept. Covers kept entered.now.items given.now.items) }
    {
        self.inserted
            .fetch_add(entered.len() as u64, Ordering::SeqCst);
        self.looking.ask(self.rt);
        let mut ledger = self.ledger.lock(self.rt);
        let are_told = self.adding.load(Ordering::SeqCst) == 0 && !ledger.books.is_doubtful();
        let wanted = wanted_of(self.rules, are_told, entered, given);
        let kept = ledger.keep(self.alloc, entered, wanted);
        drop(ledger);
        self.looking.forget(self.rt);
        kept
    }

    /// Reports a session that is over, if there is a report. Before it is written it is looked what stands at the path.
    fn report(&self, session: &SessionName<'_>, outcome: &Outcome) {
        if self.reports {
            self.looking.forget(self.rt);
            self.looking.ask(self.rt);
            let text = report_text(self.alloc, self.rules.reporting, session, outcome);
            self.ledger.lock(self.rt).report(text);
        }
    }
}

impl<R, E: Write + Drop> Reporter<'_, '_, R, Disk<File>, E>
where
    R: Files<File = File> + Wait + Clock + AllocGlobal,
{
    /// Goes on in files that others put in the place of those that are open.
    pub fn follow(&self, when: When) {
        let form = self.rules.reporting.form;
        self.ledger.lock(self.rt).follow(self.rt, form, when);
    }

    /// Looks what stands at the paths, each second and before something is written, and tries again each second to
    /// write what waits; until the end. If those who write do not begin, it ends at once.
    pub fn tend(&self) {
        if !self.looking.attend(self.rt) {
            return;
        }
        let mut last = now(self.rt);
        for _ in self.rt.forever() {
            let turn = self.looking.wait(self.rt);
            if turn.is_over {
                self.looking.leave(self.rt);
                return;
            }
            let now = now(self.rt);
            let is_due = !turn.is_asked || now.saturating_sub(last) >= DUE;
            if is_due {
                last = now;
            }
            self.look(is_due);
            self.looking.answer(self.rt, turn);
        }
    }

    /// Rewrites the file that keeps the set without what the set has forgotten, if it forgets and the file is due.
    fn forget(&self) {
        if *self.rules.forgets != FloorRule::none() {
            let floor = self.floor();
            let form = self.rules.reporting.form;
            self.ledger.lock(self.rt).forget(self.rt, form, &floor);
        }
    }

    /// Goes on in files that others put in the place of those that are open; if a second is over, what waits is tried
    /// again, and what is forgotten is left out.
    fn look(&self, is_due: bool) {
        if is_due {
            self.follow(When::Due);
            self.ledger.lock(self.rt).try_again();
            self.forget();
        } else {
            self.follow(When::Asked);
        }
    }
}

impl<R: Wait + Clock, D: Device + Drop, E: Write + Drop> Gate for Reporter<'_, '_, R, D, E> {
    ghost answers = { λ _ _ _ goes. goes ≡ true };

    ghost lets_in = { λ reporter _. LetsIn reporter.rules.most_learned };

    ghost floors = { λ reporter. IsFloorOf reporter.rules.forgets.now };

    fn pass(&self, _serial: u64, _sent: u32) -> bool {
        true
    }

    fn ended(&self, serial: u64, outcome: &Outcome) {
        let session = SessionName {
            serial,
            which: None,
            range: Range::whole(),
            partner: None,
        };
        self.report(&session, outcome);
    }

    fn admits(&self, _serial: u64, count: usize) -> usize {
        self.adding.fetch_add(1, Ordering::SeqCst);
        match self.rules.most_learned {
            Some(most) => count.min(most as usize),
            None => count,
        }
    }

    fn floor(&self) -> Floor {
        let floor = floor_at(*self.rules.forgets, seconds_now(self.rt));
        raised(&mut self.highest.lock(self.rt), floor)
    }

    fn is_below(&self, item: &Item) {
        let is_timed = match self.rules.forgets.time() {
            Some(form) => form.has_time(item),
            None => true,
        };
        if !is_timed && !self.is_untimed_told.swap(true, Ordering::SeqCst) {
            let form = self.rules.reporting.form;
            tell_no_time(self.alloc, &mut self.ledger.lock(self.rt).err, form, item);
        }
    }

    fn took(&self, item: &Item) {
        let form = self.rules.reporting.form;
        self.inserted.fetch_add(1, Ordering::SeqCst);
        self.looking.ask(self.rt);
        self.ledger.lock(self.rt).learn(self.alloc, form, item);
    }

    fn dropped(&self, fault: LogFault, count: usize) {
        self.dropped.fetch_add(count as u64, Ordering::SeqCst);
        self.ledger.lock(self.rt).drop_more(fault, count, self.cap);
    }

    fn settled(&self, serial: u64, left_out: usize) {
        let mut ledger = self.ledger.lock(self.rt);
        if left_out > 0 && self.reports {
            ledger.report(left_out_line(self.alloc, serial, left_out));
        }
        if self.rules.is_durable {
            ledger.sync();
        }
        self.looking.forget(self.rt);
        self.adding.fetch_sub(1, Ordering::SeqCst);
    }
}

impl<R: Wait + Clock, D: Device + Drop, E: Write + Drop> PartGate for Reporter<'_, '_, R, D, E> {
    fn ended_in(&self, serial: u64, part: Option<Which>, range: &Range, outcome: &Outcome) {
        let session = SessionName {
            serial,
            which: part,
            range: *range,
            partner: None,
        };
        self.report(&session, outcome);
    }

    fn ended_with(&self, address: &str, serial: u64, part: Option<Which>, outcome: &Outcome) {
        let session = SessionName {
            serial,
            which: part,
            range: Range::whole(),
            partner: Some(address),
        };
        self.report(&session, outcome);
    }

    fn forgot(&self, count: usize) {
        self.forgotten.fetch_add(count as u64, Ordering::SeqCst);
    }

    fn is_told(&self, address: &str, told: Told) {
        let mut ledger = self.ledger.lock(self.rt);
        match told {
            Told::Away => tell_partner_away(&mut ledger.err, address),
            Told::Back => tell_partner_back(&mut ledger.err, address),
            Told::Refuses(code) => {
                tell_partner_refused(&mut ledger.err, address, Fault::Session { code })
            }
            Told::IsRefused(code) => {
                tell_partner_refused(&mut ledger.err, address, Fault::PeerRefused { code })
            }
        }
    }
}
