//! How long a call on a connection may take.

ghost use Rattle.std.specs.Prelude.{◌≡◌, ◌*◌};
ghost use Rattle.std.specs.Duration.{as_nanos};

use crate::stream::Stream;
use std::io;
use std::time::Duration;

/// This many seconds.
pub(crate) fn seconds(patience: u32) -> Duration
    ensures { as_nanos result ≡ patience * 1_000_000_000 }
{
    Duration::from_secs(u64::from(patience))
}

/// The connection, of which from now on a read or a write that takes longer than this many seconds fails.
pub(crate) fn bounded(stream: Stream, patience: u32) -> io::Result<Stream> {
    stream.set_read_timeout(Some(seconds(patience)))?;
    stream.set_write_timeout(Some(seconds(patience)))?;
    Ok(stream)
}
