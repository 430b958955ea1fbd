//! Connections over TCP and Unix sockets: a listener that workers share, and a connection that is made.
#![tactic(auto)]

mod attended;
mod closing;
mod connecting;
mod fault;
mod half;
mod limits;
mod listener;
mod origin;
mod patience;
mod ready;
mod socket;
mod stream;
#[cfg(test)]
mod tests;
mod trying;
mod unix_socket;
mod unreached;
mod web;

pub use attended::{Attended, attend};
pub use closing::finish;
pub use connecting::{addresses_of, connect, connect_any};
pub use fault::{ConnectFault, ListenFault};
pub use half::Half;
pub use limits::{Limits, limited};
pub use listener::{Listener, listen};
pub use ready::Arrival;
pub use stream::Stream;
pub use unix_socket::{Identity, call_unix, connect_unix, listen_unix};
pub use unreached::Unreached;
