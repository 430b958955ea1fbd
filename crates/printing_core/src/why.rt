//! The second line of a refusal: what it speaks of, and the usual cause.

use crate::wants::{AddressWant, CheckWant, FlawWant, LineWant, RowOrigin};
use io_core::ReadFault;
use item_files::LineFlaw;
use session_table::session_refusal_name;
use std::fmt;
use std::io::Write;
use strategy_check::CheckFault;
use strategy_core::StrategyFlaw;
use tcp_front::Unreached;
use thiserror::Error;

/// Where a strategy, or items, stand: a file or standard input, and the node of a scenario, from 0, if it is one's.
#[derive(Clone, Copy, Debug, PartialEq, Eq)]
pub struct Origin<'a> {
    pub file: &'a str,
    pub node: Option<usize>,
}

impl fmt::Display for Origin<'_> {
    fn fmt<W: fmt::Write>(&self, f: &mut fmt::Formatter<W>) -> fmt::Result {
        let file = self.file;
        match self.node {
            Some(node) => write!(f, "{file} node {node}"),
            None => write!(f, "{file}"),
        }
    }
}

/// Who is on the other side of a session.
#[derive(Clone, Copy, Debug, PartialEq, Eq)]
pub enum OtherSide {
    /// Who listens, over the network.
    Server,
    /// Who speaks over standard input and output.
    Peer,
}

impl fmt::Display for OtherSide {
    fn fmt<W: fmt::Write>(&self, f: &mut fmt::Formatter<W>) -> fmt::Result {
        match self {
            OtherSide::Server => write!(f, "the server"),
            OtherSide::Peer => write!(f, "the peer"),
        }
    }
}

/// The usual cause of a refusal, with the file, address or input that it speaks of. It prints as one line, in which its
/// values stand in their order.
#[derive(Debug, Drop, Error)]
pub enum Why<'a> {
    /// A file, or standard input, was not read; or a file not opened to be written to.
    #[error("{file}: {cause}")]
    Unread {
        file: &'a str,
        cause: ReadFault,
    },
    /// A file is not there, and no strategy of its name is shipped, but those of these names.
    #[error("{file} is no file, and no shipped table: {names}")]
    NoTable {
        file: &'a str,
        names: &'static str,
    },
    /// A line of an item file, from 1, is bad, and so begins as it is shown.
    #[error("{file} line {line}{}", LineWant(*.flaw, .shown))]
    BadLine {
        file: &'a str,
        line: usize,
        flaw: LineFlaw,
        shown: String,
    },
    /// There are more different items than this.
    #[error("{origin}: more than {cap} different items")]
    TooManyItems {
        origin: Origin<'a>,
        cap: usize,
    },
    /// A set has more different items than the cap, which may be greater.
    #[error("{file}: more than {cap} different items: the cap of a table may be 65536")]
    LowCap {
        file: &'a str,
        cap: usize,
    },
    /// A set has more different items than the greatest cap, and fits into 2 to this power shards.
    #[error("{file}: more than {cap} different items: say --shards {bits} on both sides")]
    NoShards {
        file: &'a str,
        cap: usize,
        bits: u8,
    },
    /// A shard has more different items than this.
    #[error("{file}: shard {shard} has more than {cap} different items")]
    FullShard {
        file: &'a str,
        shard: u16,
        cap: usize,
    },
    /// A strategy has a cap below the number of shards.
    #[error("{file}: {shards} shards need a cap of at least {shards}")]
    FewPlaces {
        file: &'a str,
        shards: u32,
    },
    /// A text is no TOML.
    #[error("{origin}: it is no TOML text")]
    NotToml {
        origin: Origin<'a>,
    },
    /// There is no strategy.
    #[error("{}: {}", RowOrigin(*.origin, .flaw.row), FlawWant(*.flaw))]
    Strategy {
        origin: Origin<'a>,
        flaw: StrategyFlaw,
    },
    /// A strategy is not accepted.
    #[error("{origin}: {}", CheckWant(*.fault))]
    NotAccepted {
        origin: Origin<'a>,
        fault: CheckFault,
    },
    /// An address is not listened at, or not reached.
    #[error("{}", AddressWant(.address, *.cause))]
    Address {
        address: &'a str,
        cause: Unreached,
    },
    /// A connection was not accepted.
    #[error("the system has no room for one more connection")]
    NoRoom,
    /// The input of `answer` was not read, or is too long.
    #[error("standard input cannot be read, or has more than 16,777,216 bytes")]
    NoInput,
    /// It is to be hex, and is not.
    #[error("standard input is not hex")]
    NotHex,
    /// It is to be the bytes of a message, and is not.
    #[error("standard input is not the bytes of a message; hex is read with --hex")]
    NotBytes,
    /// It is hex, and spells no message.
    #[error("standard input is not the hex of a message")]
    NotMessage,
    /// It ends too early.
    #[error("standard input ends before the message does")]
    CutInput,
    /// Its message has a part that cannot be answered.
    #[error("standard input has a part that is no Sum")]
    NotSum,
    /// It has no nodes, steps or items of a scenario.
    #[error("standard input: a scenario needs 2 to 16 nodes with items, and steps")]
    NotScenario,
    /// A text of the scenario, from 0, spells no step.
    #[error("standard input: step {step}, counted from 0, has no form of a step")]
    NotStep {
        step: usize,
    },
    /// Standard output takes nothing.
    #[error("standard output is closed or full")]
    Output,
    /// The other side speaks something else.
    #[error("{side} does not speak this protocol")]
    Stranger {
        side: OtherSide,
    },
    /// The other side sent what may not be sent.
    #[error("{side} broke the rules of the protocol")]
    Unruly {
        side: OtherSide,
    },
    /// A session needs a message of more than 131,072 parts.
    #[error("a message of more than 131,072 parts is needed: {side} may hold more than 65,536 items")]
    TooManyParts {
        side: OtherSide,
    },
    /// The other side speaks of another set.
    #[error("{side} speaks of another set")]
    OtherSet {
        side: OtherSide,
    },
    /// The other side refused, with this number.
    #[error("{side} refused: {}", session_refusal_name(*.code))]
    Refusing {
        side: OtherSide,
        code: u8,
    },
    /// A server closed, or was silent for so many seconds.
    #[error("the server closed the connection, or was silent for {patience} seconds")]
    Silent {
        patience: u32,
    },
    /// A server closed, or took nothing for so many seconds.
    #[error("the server closed the connection, or took nothing for {patience} seconds")]
    NotTaking {
        patience: u32,
    },
    /// A server ended in the middle of a message.
    #[error("the connection ended in the middle of a message: the server ended, or made room for others. Try again.")]
    Ended,
    /// A server sent more than so many bytes.
    #[error("the server sent more than {most_bytes} bytes: --most-bytes allows more")]
    TooMuch {
        most_bytes: u32,
    },
    /// A server has another set, or other shards, or reads items in another form.
    #[error("the server has another --set, other --shards, or --text or --hash on one side alone")]
    OtherShape,
    /// A server read no hello: it was told of a set, and has none that is named, or the other way round.
    #[error("the server refused: BadHello: does one side say --set or --shards, and the other not?")]
    NoHello,
    /// A peer closed too early, or so many bytes were too few.
    #[error("the peer closed in the middle of a message, or sent more than {most_bytes} bytes")]
    Cut {
        most_bytes: u32,
    },
    /// Standard input, which a peer is to write, is not read.
    #[error("standard input cannot be read")]
    PeerUnread,
    /// Standard output, which a peer is to read, takes nothing.
    #[error("the peer has closed, or standard output is full")]
    PeerClosed,
    /// No server has this shard.
    #[error("no server has shard {shard}")]
    NoServer {
        shard: u16,
    },
    /// Two servers have this shard.
    #[error("two servers have shard {shard}")]
    TwoServers {
        shard: u16,
    },
    /// An item of a server's directory is no entry.
    #[error("the server's directory has an entry that is none")]
    BadEntry,
}

/// Prints the line. One that is not taken changes nothing.
pub fn tell_why<E: Write>(err: &mut E, why: &Why<'_>) {
    let _told = writeln!(err, "{why}");
}
