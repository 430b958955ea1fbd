//! What loops run over.

use std::net::{Net, TcpListener, TcpStream};
use std::sync::Wait;
use std::thread::Threads;
use std::time::Clock;

/// Sockets, threads and a clock. Files are beside it, since no thread that `join` makes may have them.
pub trait Loops: Net<Listener = TcpListener, Stream = TcpStream>
    + Threads
    + Wait
    + Clock
    + AllocGlobal
    + Sync {}

impl<R> Loops for R
where
    R: Net<Listener = TcpListener, Stream = TcpStream>
        + Threads
        + Wait
        + Clock
        + AllocGlobal
        + Sync,
{}
