//! The frames of a connection, in whichever profile they are spelled, and what goes over it.

ghost use Rattle.std.specs.Prelude.{◌≡◌};
ghost use Rattle.loading.specs.Metering.{unread, unwritten, tally_as};

use crate::metering::Metered;
use compact_core::{Packing, Unpacking};
use digest_core::Print;
use printing_core::Tally;
use std::alloc::Global;

/// What is read of a peer: frames, counted as such, and the bytes that they came as.
pub type FrameReader<R> = Metered<Unpacking<Metered<R>, Print>>;

/// What is written to a peer: frames, counted as such, and the bytes that they are sent as.
pub type FrameWriter<W> = Metered<Packing<Metered<W>, Print>>;

/// The frames of what this reader gives.
pub fn frames_from<R>(alloc: Global, reader: R) -> FrameReader<R>
    ensures { result ≡ unread reader }
{
    Metered::new(Unpacking::new(alloc, Metered::new(reader)))
}

/// A writer of frames over this one.
pub fn frames_to<W>(alloc: Global, writer: W) -> FrameWriter<W>
    ensures { result ≡ unwritten writer }
{
    Metered::new(Packing::new(alloc, Metered::new(writer)))
}

/// The messages and parts that came, and the bytes that they came as.
pub fn received_by<R>(reader: &FrameReader<R>) -> Tally
    ensures { result ≡ tally_as reader.now.tally reader.now.inner.reader.tally.bytes }
{
    Tally {
        bytes: reader.inner().reader().tally().bytes,
        ..reader.tally()
    }
}

/// The messages and parts that were sent, and the bytes that they were sent as.
pub fn sent_by<W>(writer: &FrameWriter<W>) -> Tally
    ensures { result ≡ tally_as writer.now.tally writer.now.inner.writer.tally.bytes }
{
    Tally {
        bytes: writer.inner().writer().tally().bytes,
        ..writer.tally()
    }
}
