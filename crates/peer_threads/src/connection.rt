//! Both ways of a connection.

ghost use Rattle.std.specs.Prelude.{◌≡◌, false, None};

use io_core::Watched;

/// Both ways of a connection, which notes what fails or ends.
#[derive(Drop)]
pub struct Connection<R, W> {
    /// What the peer sends.
    pub reader: Watched<R>,
    /// What is sent to the peer.
    pub writer: Watched<W>,
}

impl<R, W> Connection<R, W> {
    /// Nothing was read or written so far.
    pub fn new(reader: R, writer: W) -> Connection<R, W>
        ensures reader { result.reader
            ≡ record { inner = reader; failed = false; ended = false; reads = 0; fault = None } }
        ensures writer { result.writer
            ≡ record { inner = writer; failed = false; ended = false; reads = 0; fault = None } }
    {
        Connection {
            reader: Watched::new(reader),
            writer: Watched::new(writer),
        }
    }
}
