//! Refusals: the one line of each, and the second line where there is something to say.

ghost use Rattle.std.specs.Prelude.{◌≡◌, ◌≤◌, ◌^◌, Some, None};
ghost use Rattle.printing_core.specs.FaultsOf.{of_log};
ghost use Rattle.printing_core.specs.Refusals.{told, bare, in_file, in_node, IsOfLine, IsOfFile, IsOfSet, IsOfShards};
ghost use Rattle.printing_core.specs.Refusals.{input_refusal, scenario_refusal, listen_refusal, connect_refusal};
ghost use Rattle.printing_core.specs.Refusals.{message_why, session_why, peer_why, serving_why};
ghost use Rattle.printing_core.specs.declared.fault.Fault.TheVariants as faults;
ghost use Rattle.printing_core.specs.declared.why.Why.TheVariants as whys;
ghost use Rattle.io_core.specs.declared.read_fault.ReadFault.TheVariants as reads;

use crate::fault::Fault;
use crate::reasons::{why_bad_line, why_full, why_message, why_peer, why_session};
use crate::why::{Origin, Why};
use io_core::{InputFault, ReadFault, WriterFailed};
use item_files::{BadLine, LoadFault, SettingsFault};
use sim_core::{ScenarioError, ScenarioFault};
use std::alloc::{AllocError, AllocFailed, Global};
use tcp_front::{ConnectFault, Limits, ListenFault};
use version_log::LogFault;

/// What stands in place of a file's name where items, or a scenario, are in none.
pub const STANDARD_INPUT: &str = "standard input";

/// The number of the refusal of a shard that no server has, or two have.
const NO_SHARD: u8 = 56;

/// The number of the refusal of a directory with an item that is no entry.
const BAD_ENTRY: u8 = 57;

/// This file, or this input.
fn in_file(file: &str) -> Origin<'_>
    ensures { result ≡ in_file file.entry }
{
    Origin { file, node: None }
}

/// The node of this number of the scenario in an input.
fn in_node(file: &str, node: usize) -> Origin<'_>
    ensures { result ≡ in_node file.entry node }
{
    let node = Some(node);
    Origin { file, node }
}

/// Why a run is refused, and where that is seen.
#[derive(Debug, Drop)]
pub struct Refusal<'a> {
    /// The refusal, which prints as one line.
    pub fault: Fault,
    /// The second line, where there is something to say.
    pub why: Option<Why<'a>>,
}

impl<'a> Refusal<'a> {
    /// The refusal for this fault, with this second line.
    fn told(fault: Fault, why: Why<'a>) -> Refusal<'a>
        ensures { result ≡ told fault why.entry }
    {
        let why = Some(why);
        Refusal { fault, why }
    }

    /// The refusal of a file by a bad line of it.
    fn of_line(alloc: Global, file: &'a str, bad: &BadLine) -> Refusal<'a>
        ensures { IsOfLine file.entry bad.now result }
    {
        Refusal {
            fault: Fault::BadItemLine { line: bad.number },
            why: why_bad_line(alloc, file, bad),
        }
    }

    /// The refusal of a file of items, or of a strategy.
    pub fn of_file(alloc: Global, file: &'a str, fault: SettingsFault) -> Refusal<'a>
        ensures { IsOfFile file.entry fault result }
    {
        let origin = in_file(file);
        match fault {
            SettingsFault::CannotRead(cause) => Refusal::of_unread(file, cause),
            SettingsFault::BadItemLine(bad) => Refusal::of_line(alloc, file, &bad),
            SettingsFault::TooManyItems { cap, count: _ } => {
                Refusal::told(Fault::TooManyItems, Why::TooManyItems { origin, cap })
            }
            SettingsFault::NotToml => Refusal::told(Fault::NotToml, Why::NotToml { origin }),
            SettingsFault::Strategy(flaw) => {
                Refusal::told(Fault::Strategy(flaw.fault), Why::Strategy { origin, flaw })
            }
            SettingsFault::Check(fault) => {
                Refusal::told(Fault::Check(fault), Why::NotAccepted { origin, fault })
            }
            SettingsFault::Memory => Refusal::from(Fault::Memory),
        }
    }

    /// The refusal of a file of the items of a set that may be cut into shards.
    pub fn of_set_file(alloc: Global, file: &'a str, fault: SettingsFault) -> Refusal<'a>
        ensures { IsOfSet file.entry fault result }
    {
        match fault {
            SettingsFault::TooManyItems { cap, count } => {
                Refusal::told(Fault::TooManyItems, why_full(file, cap, count))
            }
            fault => Refusal::of_file(alloc, file, fault),
        }
    }

    /// The refusal of a file of items of shards, of at most `cap` items each.
    pub fn of_shards_file(alloc: Global, file: &'a str, cap: usize, fault: LoadFault) -> Refusal<'a>
        ensures { IsOfShards file.entry cap fault result }
    {
        match fault {
            LoadFault::CannotRead(cause) => Refusal::of_unread(file, cause),
            LoadFault::TooLong => Refusal::of_unread(file, ReadFault::TooLongForShards),
            LoadFault::BadItemLine(bad) => Refusal::of_line(alloc, file, &bad),
            LoadFault::TooManyItems { shard } => {
                Refusal::told(Fault::TooManyItems, Why::FullShard { file, shard, cap })
            }
            LoadFault::Memory => Refusal::from(Fault::Memory),
        }
    }

    /// The refusal of a strategy that is in no file, where those of these names are shipped.
    pub fn of_no_table(file: &'a str, names: &'static str) -> Refusal<'a>
        ensures { result ≡ told Fault.CannotRead (whys.NoTable file.entry names.entry) }
    {
        Refusal::told(Fault::CannotRead, Why::NoTable { file, names })
    }

    /// The refusal of a strategy whose cap is below the number of shards, 2 to the power of `bits`.
    pub fn of_few_places(file: &'a str, bits: u8) -> Refusal<'a>
        requires { bits ≤ 12 }
        ensures { result ≡ told Fault.TooManyItems (whys.FewPlaces file.entry (2 ^ bits)) }
    {
        let shards = 1 << bits;
        Refusal::told(Fault::TooManyItems, Why::FewPlaces { file, shards })
    }

    /// The refusal of a file that is not opened.
    pub fn of_unread(file: &'a str, cause: ReadFault) -> Refusal<'a>
        ensures { result ≡ told Fault.CannotRead (whys.Unread file.entry cause) }
    {
        Refusal::told(Fault::CannotRead, Why::Unread { file, cause })
    }

    /// The refusal of a file that takes no more.
    pub fn of_unwritten(file: &'a str) -> Refusal<'a>
        ensures { result ≡ told Fault.WriterFailed (whys.Unread file.entry reads.Unwritable) }
    {
        let cause = ReadFault::Unwritable;
        Refusal::told(Fault::WriterFailed, Why::Unread { file, cause })
    }

    /// The refusal of an input of this name.
    pub fn of_input(file: &'a str, fault: InputFault) -> Refusal<'a>
        ensures { result ≡ input_refusal file.entry fault }
    {
        match fault {
            InputFault::CannotRead(cause) => Refusal::of_unread(file, cause),
            InputFault::Memory => Refusal::from(Fault::Memory),
        }
    }

    /// The refusal of a scenario in an input of this name.
    pub fn of_scenario(file: &'a str, error: ScenarioError) -> Refusal<'a>
        ensures { result ≡ scenario_refusal file.entry error }
    {
        let ScenarioError::Fault(fault) = error else {
            return Refusal::from(Fault::Memory);
        };
        match fault {
            ScenarioFault::NotToml => {
                let origin = in_file(file);
                Refusal::told(Fault::NotToml, Why::NotToml { origin })
            }
            ScenarioFault::Strategy { node, flaw } => {
                let origin = in_node(file, node);
                Refusal::told(Fault::Strategy(flaw.fault), Why::Strategy { origin, flaw })
            }
            ScenarioFault::Check { node, fault } => {
                let origin = in_node(file, node);
                Refusal::told(Fault::Check(fault), Why::NotAccepted { origin, fault })
            }
            ScenarioFault::TooManyItems { node, cap } => {
                let origin = in_node(file, node);
                let cap = cap as usize;
                Refusal::told(Fault::TooManyItems, Why::TooManyItems { origin, cap })
            }
            ScenarioFault::BadScenario => Refusal::told(Fault::BadScenario, Why::NotScenario),
            ScenarioFault::BadStep { step } => {
                Refusal::told(Fault::BadStep { step }, Why::NotStep { step })
            }
        }
    }

    /// The refusal of the input of `answer`, as hex or as bytes, or of its output.
    pub fn of_message(is_hexed: bool, fault: Fault) -> Refusal<'a>
        ensures { result ≡ record { fault = fault; why = message_why is_hexed fault } }
    {
        let why = why_message(is_hexed, fault);
        Refusal { fault, why }
    }

    /// The refusal of a session with a server, of which so many bytes were read.
    pub fn of_session_after(limits: Limits, received: u64, fault: Fault) -> Refusal<'a>
        ensures { result ≡ record { fault = fault; why = session_why limits received fault } }
    {
        let why = why_session(limits, received, fault);
        Refusal { fault, why }
    }

    /// The refusal of a session over standard input and output, of which so many bytes may be read.
    pub fn of_peer(most_bytes: u32, fault: Fault) -> Refusal<'a>
        ensures { result ≡ record { fault = fault; why = peer_why most_bytes fault } }
    {
        let why = why_peer(most_bytes, fault);
        Refusal { fault, why }
    }

    /// The refusal of a listener at this address.
    pub fn of_listen(address: &'a str, fault: ListenFault) -> Refusal<'a>
        ensures { result ≡ listen_refusal address.entry fault }
    {
        match fault {
            ListenFault::Unreached(cause) => {
                Refusal::told(Fault::Bind, Why::Address { address, cause })
            }
            ListenFault::Memory => Refusal::from(Fault::Memory),
        }
    }

    /// The refusal of a connection to this address.
    pub fn of_connect(address: &'a str, fault: ConnectFault) -> Refusal<'a>
        ensures { result ≡ connect_refusal address.entry fault }
    {
        match fault {
            ConnectFault::Unreached(cause) => {
                Refusal::told(Fault::Connect, Why::Address { address, cause })
            }
            ConnectFault::Memory => Refusal::from(Fault::Memory),
        }
    }

    /// The refusal of a server whose workers ended.
    pub fn of_serving(fault: Fault) -> Refusal<'a>
        ensures { result ≡ record { fault = fault; why = serving_why fault } }
    {
        match fault {
            Fault::Accept => Refusal::told(fault, Why::NoRoom),
            _ => Refusal::from(fault),
        }
    }

    /// The refusal of servers of which none has this shard.
    pub fn of_no_shard(shard: u16) -> Refusal<'a>
        ensures { result ≡ told (Fault.Session 56) (whys.NoServer shard) }
    {
        Refusal::told(Fault::Session { code: NO_SHARD }, Why::NoServer { shard })
    }

    /// The refusal of servers of which two have this shard.
    pub fn of_two_servers(shard: u16) -> Refusal<'a>
        ensures { result ≡ told (Fault.Session 56) (whys.TwoServers shard) }
    {
        Refusal::told(Fault::Session { code: NO_SHARD }, Why::TwoServers { shard })
    }

    /// The refusal of a server whose directory has an item that is no entry.
    pub fn of_bad_entry() -> Refusal<'a>
        ensures { result ≡ told (Fault.Session 57) whys.BadEntry }
    {
        Refusal::told(Fault::Session { code: BAD_ENTRY }, Why::BadEntry)
    }
}

impl From<Fault> for Refusal<'_> {
    ghost from_gives = { λ f r. r ≡ bare f };

    fn from(fault: Fault) -> Self {
        Refusal { fault, why: None }
    }
}

impl From<LogFault> for Refusal<'_> {
    ghost from_gives = { λ f r. r ≡ bare (of_log f) };

    fn from(fault: LogFault) -> Self {
        Refusal::from(Fault::from(fault))
    }
}

impl From<WriterFailed> for Refusal<'_> {
    ghost from_gives = { λ _ r. r ≡ told faults.WriterFailed whys.Output };

    fn from(failed: WriterFailed) -> Self {
        Refusal::told(Fault::from(failed), Why::Output)
    }
}

impl From<AllocError> for Refusal<'_> {
    ghost from_gives = { λ _ r. r ≡ bare faults.Memory };

    fn from(_refused: AllocError) -> Self {
        Refusal::from(Fault::Memory)
    }
}

impl<T: Drop> From<AllocFailed<T>> for Refusal<'_> {
    ghost from_gives = { λ _ r. r ≡ bare faults.Memory };

    fn from(_refused: AllocFailed<T>) -> Self {
        Refusal::from(Fault::Memory)
    }
}
