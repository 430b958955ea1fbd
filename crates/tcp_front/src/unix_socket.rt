//! Unix sockets: the file that one has is made, a stale one is replaced, and it is removed at the end.

use crate::fault::{ConnectFault, ListenFault};
use crate::limits::Limits;
use crate::listener::Listener;
use crate::patience::bounded;
use crate::socket::Socket;
use crate::stream::Stream;
use crate::unreached::{Unreached, path_flaw, unix_unheard, unix_unmet};
use std::fs::Metadata;
use std::io::ErrorKind;
use std::net::Net;
use std::os::unix::fs::{FileTypeExt, MetadataExt};
use std::os::unix::net::{UnixListener, UnixStream};
use std::rt::Files;
use std::time::Clock;
use std::{fs, io};

/// Which file it is, by the numbers of the system: those of the device and of the file on it.
#[derive(Clone, Copy, Debug, PartialEq, Eq)]
pub struct Identity {
    device: u64,
    number: u64,
}

impl Identity {
    /// Which file this is known of.
    pub fn of(metadata: &Metadata) -> Identity {
        Identity {
            device: metadata.dev(),
            number: metadata.ino(),
        }
    }
}

/// The file of a Unix socket that is listened at.
#[derive(Clone, Copy)]
pub(crate) struct SocketFile<'a> {
    path: &'a str,
    // None where the system did not tell it.
    identity: Option<Identity>,
}

/// Which socket stands at the path, if one does.
fn socket_at<R: Files>(rt: &R, path: &str) -> Option<Identity> {
    let metadata = fs::symlink_metadata(rt, path).ok()?;
    if !metadata.file_type().is_socket() {
        return None;
    }
    Some(Identity::of(&metadata))
}

impl<'a> SocketFile<'a> {
    /// The socket that was made at the path.
    fn of<R: Files>(rt: &R, path: &'a str) -> SocketFile<'a> {
        SocketFile {
            path,
            identity: socket_at(rt, path),
        }
    }

    /// Removes the file, if it is still the one that was made. A file that is not removed is stale from then on.
    pub(crate) fn remove<R: Files>(self, rt: &R) {
        if self.identity.is_some() && socket_at(rt, self.path) == self.identity {
            let _removed = fs::remove_file(rt, self.path);
        }
    }
}

/// What stands at a path, if it is known and is no socket.
fn standing_at<R: Files>(rt: &R, path: &str) -> Option<Unreached> {
    let metadata = fs::metadata(rt, path).ok()?;
    if metadata.is_dir() {
        Some(Unreached::Folder)
    } else if metadata.file_type().is_socket() {
        None
    } else {
        Some(Unreached::NotASocket)
    }
}

/// Whether nobody listens at the path, who would be refused.
fn refuses<R: Net>(rt: &R, path: &str) -> bool {
    match UnixStream::connect(rt, path) {
        Ok(_answers) => false,
        Err(error) => error.kind() == ErrorKind::ConnectionRefused,
    }
}

/// Whether a socket stands at the path at which nobody listens: its server has ended and left it.
fn is_stale<R: Files + Net>(rt: &R, path: &str) -> bool {
    socket_at(rt, path).is_some() && refuses(rt, path)
}

/// Makes a socket in place of the stale one at the path.
fn replace<R: Files + Net>(rt: &R, path: &str) -> io::Result<UnixListener> {
    fs::remove_file(rt, path)?;
    UnixListener::bind(rt, path)
}

/// Makes a socket at the path. One that is stale is replaced.
fn bind<R: Files + Net>(rt: &R, path: &str) -> Result<UnixListener, ListenFault> {
    let made = match UnixListener::bind(rt, path) {
        Err(error) if error.kind() == ErrorKind::AddrInUse => {
            if let Some(flaw) = standing_at(rt, path) {
                return Err(ListenFault::Unreached(flaw));
            }
            if is_stale(rt, path) {
                replace(rt, path)
            } else {
                Err(error)
            }
        }
        made => made,
    };
    made.map_err(|error| ListenFault::of(unix_unheard(&error)))
}

/// Listens at a Unix socket, which is made at this path with the mode that the process gives to files; for all else it
/// is as `listen`. Who may write to the file, and may search its folder, may connect. A socket that stands there is
/// replaced if nobody listens at it.
///
/// Fails with 60 if the path is empty or has more than 107 bytes, if something else stands there, somebody listens
/// there, or the socket cannot be made, and with 90.
pub fn listen_unix<'a, R: Files + Net + Clock + AllocGlobal>(
    rt: &'a R,
    path: &'a str,
    connections: Option<u32>,
    limits: Limits,
) -> Result<Listener<'a, R>, ListenFault> {
    if let Some(flaw) = path_flaw(path) {
        return Err(ListenFault::Unreached(flaw));
    }
    let socket = Socket::Unix(bind(rt, path)?);
    let file = SocketFile::of(rt, path);
    Ok(Listener::new(rt, socket, connections, limits).with_file(file))
}

/// A connection to who listens at the path, none of whose reads and writes takes longer.
fn reach<R: Net>(rt: &R, path: &str, patience: u32) -> io::Result<Stream> {
    bounded(Stream::Unix(UnixStream::connect(rt, path)?), patience)
}

/// Connects to a Unix socket as `connect_unix` does, but looks at no file: what stands at the path that is no socket is
/// nobody who listens.
pub fn call_unix<R: Net>(rt: &R, path: &str, patience: u32) -> Result<Stream, ConnectFault> {
    if let Some(flaw) = path_flaw(path) {
        return Err(ConnectFault::Unreached(flaw));
    }
    match reach(rt, path, patience) {
        Ok(stream) => Ok(stream),
        Err(error) => Err(ConnectFault::of(unix_unmet(&error))),
    }
}

/// Connects to a Unix socket. A read or a write that takes longer than this many seconds fails.
///
/// Fails with 61 if the path is empty or has more than 107 bytes, something else stands there, or nobody listens there,
/// and with 90.
pub fn connect_unix<R: Files + Net>(
    rt: &R,
    path: &str,
    patience: u32,
) -> Result<Stream, ConnectFault> {
    if let Some(flaw) = path_flaw(path).or_else(|| standing_at(rt, path)) {
        return Err(ConnectFault::Unreached(flaw));
    }
    call_unix(rt, path, patience)
}
