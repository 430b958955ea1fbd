//! What the words of a call ask for.

ghost use Rattle.std.specs.Prelude.{◌≡◌, ◌||◌, is_some};

use crate::profiles::AskedProfile;
use item_files::ItemForm;

/// What the words of a call ask for.
#[derive(Clone, Copy, Debug, PartialEq, Eq)]
pub struct Call<'a> {
    /// What is to be done.
    pub command: Command<'a>,
    /// Whether more is said of a refusal, in a second line.
    pub explains: bool,
}

/// What a call asks for.
#[derive(Clone, Copy, Debug, PartialEq, Eq)]
pub enum Command<'a> {
    /// The reply to one message.
    Answer(AnswerWords<'a>),
    /// The check of a strategy.
    Check(CheckWords<'a>),
    /// The choice of a strategy for two sets and a line.
    Plan(PlanWords<'a>),
    /// The run of a scenario.
    Sim,
    /// Sessions with those who connect.
    Serve(ServeWords<'a>),
    /// One session with who listens.
    Sync(SyncWords<'a>),
    /// Items that are put into the set of a server on this machine.
    Put(PutWords<'a>),
    /// The items that the set of a server on this machine took.
    News(NewsWords<'a>),
    /// The end of a server on this machine.
    Stop(StopWords<'a>),
    /// How a server on this machine stands.
    Status(StatusWords<'a>),
}

/// What `answer` is asked for.
#[derive(Clone, Copy, Debug, PartialEq, Eq)]
pub struct AnswerWords<'a> {
    /// Whether the input and the output are hex text.
    pub hexed: bool,
    /// How the item file is read.
    pub form: ItemForm,
    /// The path of the item file.
    pub items: &'a str,
}

/// What `check` is asked for.
#[derive(Clone, Copy, Debug, PartialEq, Eq)]
pub struct CheckWords<'a> {
    /// Whether what sessions cost is printed too.
    pub cost: bool,
    /// How many items a set has in these sessions, 1 to 65,536, if it is given.
    pub items: Option<u32>,
    /// How many bytes an item has in them, 4 to 64, if it is given.
    pub item_length: Option<u32>,
    /// The path of the strategy file, or the name of a shipped strategy.
    pub file: &'a str,
}

/// What `plan` is asked for.
#[derive(Clone, Copy, Debug, PartialEq, Eq)]
pub struct PlanWords<'a> {
    /// The path of a strategy file, or the name of a shipped strategy, if one is given.
    pub table: Option<&'a str>,
    /// How many items a set has, 1 to 262,144,000, if it is given.
    pub items: Option<u32>,
    /// In how many items the sets differ, 0 to 262,144,000, if it is given.
    pub differences: Option<u32>,
    /// How many bytes an item has, 4 to 64, if it is given.
    pub item_length: Option<u32>,
    /// The milliseconds of a round trip, 0 to 60,000, if they are given.
    pub round_trip: Option<u32>,
    /// The megabits in a second, 1 to 100,000, if they are given.
    pub rate: Option<u32>,
    /// How many seconds are spent on a search for a quicker one, 1 to 3,600; `None` where there is no search.
    pub search: Option<u32>,
}

/// What `serve` is asked for.
#[derive(Clone, Copy, Debug, PartialEq, Eq)]
pub struct ServeWords<'a> {
    /// The path of the strategy file, or the name of a shipped strategy.
    pub table: &'a str,
    /// The address to listen at.
    pub address: &'a str,
    /// Whether one session is spoken over standard input and output, and nothing is listened at.
    pub stdio: bool,
    /// The name of the set, if one is given.
    pub set: Option<&'a str>,
    /// The set is cut into 2 to this power shards, 0 to 12, if it is given.
    pub shards: Option<u32>,
    /// Which of the shards are kept, if it is given.
    pub only: Option<&'a str>,
    /// How many loops serve them, 1 to 16, and as many more for those whose messages are long.
    pub workers: u8,
    /// After how many connections it ends, 1 to 1,000,000; `None` where it has no end.
    pub sessions: Option<u32>,
    /// How many seconds a peer may be silent, 1 to 86,400.
    pub patience: u32,
    /// How many bytes of a session are read, from 1,024 on.
    pub most_bytes: u32,
    /// How many peers there are at once, 1 to 65,535, if it is given.
    pub peers: Option<u32>,
    /// How many peers of one address there are at once, 1 to 65,535, if it is given.
    pub peers_of_one: Option<u32>,
    /// How many seconds a session may go on, 1 to 604,800, if they are given.
    pub session_seconds: Option<u32>,
    /// How many MiB of memory are counted for all peers at most, 1 to 1,048,576, if they are given.
    pub memory: Option<u32>,
    /// The path of the file for what each session found, if one is given.
    pub report: Option<&'a str>,
    /// The path of the file for what is learned of peers, if one is given.
    pub learned: Option<&'a str>,
    /// The path of the file that keeps the set, if one is given: it is read at the start, and what is learned is
    /// appended to it.
    pub keep: Option<&'a str>,
    /// Whether the files are synced to the disk after each session's items.
    pub durable: bool,
    /// How many items of one session are put into the set at most, 1 to 4,294,967,295; `None` where there is no
    /// limit.
    pub most_learned: Option<u32>,
    /// Whether nothing that peers have is put into the set.
    pub read_only: bool,
    /// How many items of one session are reported at most; `None` where there is no limit.
    pub report_items: Option<u32>,
    /// The address at which metrics and a page answer HTTP, if one is given.
    pub metrics: Option<&'a str>,
    /// The address at which browsers connect, over WebSockets, if one is given.
    pub websocket: Option<&'a str>,
    /// The origins of the pages that may connect there, with a comma between two, if there are any.
    pub origin: Option<&'a str>,
    /// The item below which all are forgotten, if one is given.
    pub not_below: Option<&'a str>,
    /// How old items may be, if it is given.
    pub newest: Option<&'a str>,
    /// The form of the times that the items begin with, if it is given.
    pub time_form: Option<&'a str>,
    /// The addresses of the partners, with a comma between two, if there are any: servers with which the set is kept
    /// equal.
    pub partners: Option<&'a str>,
    /// How many seconds after the last session with a partner the next one begins, 1 to 86,400, if it is given.
    pub every: Option<u32>,
    /// The address at which this machine's own programs are answered, if one is given.
    pub control: Option<&'a str>,
    /// Whether standard error gets a line for each session.
    pub log: bool,
    /// How the item file is read, and how items are written.
    pub form: ItemForm,
    /// The path of the item file. `None` only where there is a file that keeps the set.
    pub items: Option<&'a str>,
}

impl ServeWords<'_> {
    /// Whether it may listen nowhere for peers: it has partners, or browsers connect to it.
    pub fn may_be_alone(&self) -> bool
        ensures { result ≡ (is_some self.entry.now.partners || is_some self.entry.now.websocket) }
    {
        self.partners.is_some() || self.websocket.is_some()
    }
}

/// What `sync` is asked for.
#[derive(Clone, Copy, Debug, PartialEq, Eq)]
pub struct SyncWords<'a> {
    /// The path of the strategy file, or the name of a shipped strategy.
    pub table: &'a str,
    /// The address to connect to.
    pub address: &'a str,
    /// Whether the session is spoken over standard input and output, and nothing is connected to.
    pub stdio: bool,
    /// The name of the set, if one is given.
    pub set: Option<&'a str>,
    /// The set is cut into 2 to this power shards, 0 to 12, if it is given.
    pub shards: Option<u32>,
    /// Which of the shards are spoken of, if it is given.
    pub only: Option<&'a str>,
    /// How many sessions there are at once, 1 to 64, if it is given.
    pub at_once: Option<u32>,
    /// The item from which on it is spoken of the set, if one is given.
    pub from: Option<&'a str>,
    /// The item before which it is spoken of the set, if one is given.
    pub to: Option<&'a str>,
    /// The bytes with which the items begin that it is spoken of, if they are given.
    pub prefix: Option<&'a str>,
    /// The path of the file for the lines of the session, if one is given.
    pub out: Option<&'a str>,
    /// The path of the file to which what is learned is appended, if one is given. It may be the item file.
    pub keep: Option<&'a str>,
    /// The wire profile that is to be spoken.
    pub profile: AskedProfile,
    /// How many seconds the connect, a read or a write may take, 1 to 86,400.
    pub patience: u32,
    /// How many bytes of the session are read, from 1,024 on.
    pub most_bytes: u32,
    /// How often a session that could not be held, or that ended in the middle, is tried again, 0 to 1,000, if it is
    /// given.
    pub retry: Option<u32>,
    /// Whether the status says that the sets differ.
    pub checks: bool,
    /// Whether the numbers of the items are printed in place of the items.
    pub counts: bool,
    /// Whether counts and seconds are printed.
    pub stats: bool,
    /// How the item file is read, and how items are printed.
    pub form: ItemForm,
    /// The path of the item file.
    pub items: &'a str,
}

/// What `put` is asked for.
#[derive(Clone, Copy, Debug, PartialEq, Eq)]
pub struct PutWords<'a> {
    /// The address at which the server answers programs of its machine, if it is given.
    pub control: Option<&'a str>,
    /// How the file is read.
    pub form: ItemForm,
    /// The path of the file, or `-`.
    pub file: &'a str,
}

/// What `news` is asked for.
#[derive(Clone, Copy, Debug, PartialEq, Eq)]
pub struct NewsWords<'a> {
    /// The address at which the server answers programs of its machine, if it is given.
    pub control: Option<&'a str>,
    /// How many of the first items are left out, if it is given.
    pub after: Option<u32>,
    /// Whether it goes on with those that come.
    pub follows: bool,
}

/// What `stop` is asked for.
#[derive(Clone, Copy, Debug, PartialEq, Eq)]
pub struct StopWords<'a> {
    /// The address at which the server answers programs of its machine, if it is given.
    pub control: Option<&'a str>,
}

/// What `status` is asked for.
#[derive(Clone, Copy, Debug, PartialEq, Eq)]
pub struct StatusWords<'a> {
    /// The address at which the server answers programs of its machine, if it is given.
    pub control: Option<&'a str>,
    /// Whether it is printed as JSON.
    pub json: bool,
}
