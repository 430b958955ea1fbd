//! Addresses as the words give them, with a port.

ghost use Rattle.settings_core.specs.Spans.{AreInSpan};
ghost use Rattle.rangesync.specs.Done.{IsChecking};

use settings_core::{
    Address, CONTROL_PORT, Command, DEFAULT_PORT, METRICS_PORT, NO_ADDRESS, NewsWords, PutWords,
    ServeWords, StatusWords, StopWords, SyncWords, WEBSOCKET_PORT, address_of, whole_address,
};
use std::alloc::{AllocError, Global};

/// The address of this word with this port, if it has none; the path of a Unix socket as it stands.
fn with_port(alloc: Global, word: &str, port: &str) -> Result<String, AllocError> {
    match address_of(word) {
        Address::Tcp(address) => whole_address(alloc, address, port),
        Address::Unix(_) => String::from_str(alloc, word),
    }
}

/// The addresses in a word, which has a comma between them, each with a port.
fn all_with_ports(alloc: Global, word: &str) -> Result<String, AllocError> {
    let mut text = String::new(alloc);
    for (index, address) in word.split(',').enumerate() {
        if index > 0 {
            text.push_str(",")?;
        }
        text.push_str(&with_port(alloc, address, DEFAULT_PORT)?)?;
    }
    Ok(text)
}

/// Where a command listens or connects: each address with a port.
#[derive(Drop)]
pub struct Addresses {
    /// Of sessions: one, or several with a comma between them.
    sessions: String,
    /// Of metrics, if they are asked for.
    metrics: Option<String>,
    /// Of browsers, if they may connect.
    websocket: Option<String>,
    /// Of the partners, with a comma between two, if there are any.
    partners: Option<String>,
    /// Of this machine's own programs, if they are answered.
    control: Option<String>,
}

/// The address of a word that may not be given, with this port, if it has none.
fn any_with_port(
    alloc: Global,
    word: Option<&str>,
    port: &str,
) -> Result<Option<String>, AllocError> {
    match word {
        Some(word) => Ok(Some(with_port(alloc, word, port)?)),
        None => Ok(None),
    }
}

/// The addresses of the partners, if there are any.
fn partners_of(alloc: Global, partners: Option<&str>) -> Result<Option<String>, AllocError> {
    match partners {
        Some(word) => Ok(Some(all_with_ports(alloc, word)?)),
        None => Ok(None),
    }
}

/// Where a server listens for peers. One with partners or browsers that nobody else may call listens nowhere: the word
/// stays.
fn listened_at(alloc: Global, words: ServeWords<'_>) -> Result<String, AllocError> {
    if words.may_be_alone() && words.address == NO_ADDRESS {
        return String::from_str(alloc, NO_ADDRESS);
    }
    with_port(alloc, words.address, DEFAULT_PORT)
}

/// The addresses of a server.
fn server_addresses(alloc: Global, words: ServeWords<'_>) -> Result<Addresses, AllocError> {
    Ok(Addresses {
        sessions: listened_at(alloc, words)?,
        metrics: any_with_port(alloc, words.metrics, METRICS_PORT)?,
        websocket: any_with_port(alloc, words.websocket, WEBSOCKET_PORT)?,
        partners: partners_of(alloc, words.partners)?,
        control: any_with_port(alloc, words.control, CONTROL_PORT)?,
    })
}

/// The address of a `sync`; of one that speaks of shards, all of its addresses.
fn asker_addresses(alloc: Global, words: SyncWords<'_>) -> Result<Addresses, AllocError> {
    let sessions = if words.shards.is_some() {
        all_with_ports(alloc, words.address)?
    } else {
        with_port(alloc, words.address, DEFAULT_PORT)?
    };
    Ok(Addresses {
        sessions,
        metrics: None,
        websocket: None,
        partners: None,
        control: None,
    })
}

/// The address of the door at which a command asks: the one that is given, or else the usual one, if there is one.
fn door_addresses(
    alloc: Global,
    given: Option<&str>,
    usual: Option<&str>,
) -> Result<Addresses, AllocError> {
    Ok(Addresses {
        sessions: String::new(alloc),
        metrics: None,
        websocket: None,
        partners: None,
        control: any_with_port(alloc, given.or(usual), CONTROL_PORT)?,
    })
}

/// Where a command listens or connects: 7700 is the port of an address that has none, 7708 that of
/// browsers, 7702 that of metrics, and 7707 that of this machine's own programs, which have a usual address.
pub fn addresses_of(
    alloc: Global,
    command: Command<'_>,
    usual: Option<&str>,
) -> Result<Addresses, AllocError> {
    match command {
        Command::Serve(words) => server_addresses(alloc, words),
        Command::Sync(words) => asker_addresses(alloc, words),
        Command::Put(words) => door_addresses(alloc, words.control, usual),
        Command::News(words) => door_addresses(alloc, words.control, usual),
        Command::Stop(words) => door_addresses(alloc, words.control, usual),
        Command::Status(words) => door_addresses(alloc, words.control, usual),
        _ => door_addresses(alloc, None, None),
    }
}

/// Whether a command asks at a door, and none is known.
pub fn lacks_door(command: Command<'_>) -> bool {
    match command {
        Command::Put(words) => words.control.is_none(),
        Command::News(words) => words.control.is_none(),
        Command::Stop(words) => words.control.is_none(),
        Command::Status(words) => words.control.is_none(),
        _ => false,
    }
}

/// The same command at these addresses.
pub fn at_addresses<'a>(command: Command<'a>, addresses: &'a Addresses) -> Command<'a>
    requires { AreInSpan command }
    ensures span { AreInSpan result }
    ensures checks { IsChecking result → IsChecking command.entry }
{
    match command {
        Command::Serve(words) => Command::Serve(ServeWords {
            address: &addresses.sessions,
            metrics: addresses.metrics.as_deref(),
            websocket: addresses.websocket.as_deref(),
            partners: addresses.partners.as_deref(),
            control: addresses.control.as_deref(),
            ..words
        }),
        Command::Sync(words) => Command::Sync(SyncWords {
            address: &addresses.sessions,
            ..words
        }),
        other => at_door(other, addresses.control.as_deref()),
    }
}

/// The same command, which asks at this door if it asks at one.
fn at_door<'a>(command: Command<'a>, control: Option<&'a str>) -> Command<'a>
    requires { AreInSpan command }
    ensures span { AreInSpan result }
    ensures checks { IsChecking result → IsChecking command.entry }
{
    match command {
        Command::Put(words) => Command::Put(PutWords { control, ..words }),
        Command::News(words) => Command::News(NewsWords { control, ..words }),
        Command::Stop(_words) => Command::Stop(StopWords { control }),
        Command::Status(words) => Command::Status(StatusWords { control, ..words }),
        other => other,
    }
}
