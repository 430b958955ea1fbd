//! What comes in on a connection: the one place that reads.

ghost use Rattle.std.specs.Prelude.{◌≡◌, ◌-◌, ◌<◌, ◌≤◌, ◌^◌, false, [], None, length, IfOk, IfErr, OnOk};
ghost use Rattle.std.specs.Prelude.{IfNone, IfSome};
ghost use Rattle.definitions.specs.Accounts.{Seen};
ghost use Rattle.wire_core.specs.Feeds.{fault_at};
ghost use Rattle.peer_threads.specs.Hellos.{IsHello};
ghost use Rattle.peer_threads.specs.Outcomes.{seen};
ghost use Rattle.peer_threads.specs.Listening.{FaresOn, StepsOn, IsNoBreak, rest_of};
ghost use Rattle.peer_threads.specs.Inboxes.{HasRead, StopsAt, Next, SoFar, Reads, Counts, Held, Fetched};

use crate::hello::Hello;
use crate::piece::Piece;
use crate::stop::Stop;
use digest_core::WireSummary;
use io_core::Watched;
use session_table::Direction;
use std::alloc::{AllocError, Global};
use std::io::Read;
use std::marker::Model;
use wire_core::{Event, Feed, WireFault};

/// How often a session may read.
const MAX_READS: u64 = 1 << 32;

/// A stream that comes in by pieces, and hands out its events one by one.
///
/// It keeps the piece that was read last, and of the stream before it the bytes of an unfinished frame.
#[derive(Drop)]
pub(crate) struct Inbox<F: WireSummary> {
    feed: Feed<F>,
    piece: Piece,
    reads: u64,
}

impl<F: WireSummary> Model for Inbox<F> {
    ghost use Rattle.std.specs.Prelude.{◌≤◌, ◌^◌};
    ghost use Rattle.peer_threads.specs.Inboxes.{InboxState};

    ghost Value = { InboxState };

    ghost view = { λ a. record { feed = a.feed; waiting = a.piece; reads = a.reads } };

    ghost invariant = { λ a. a.reads ≤ 2 ^ 32 };
}

impl<F: WireSummary> Inbox<F> {
    /// Nothing has been read.
    pub(crate) fn new(alloc: Global) -> Result<Inbox<F>, AllocError>
        ensures read { IfOk result (λ b. HasRead F.profile b [] []) }
        ensures reads { IfOk result (λ b. b.reads ≡ 0) }
    {
        Ok(Inbox {
            feed: Feed::new(alloc),
            piece: Piece::new(alloc)?,
            reads: 0,
        })
    }

    /// After the hello that came. Refused 1 where it is not that of the profile.
    pub(crate) fn after(alloc: Global, hello: Hello) -> Result<Inbox<F>, Stop>
        requires { IsHello hello }
        ensures read { IfOk result (λ b. HasRead F.profile b hello.bytes []) }
        ensures reads { IfOk result (λ b. b.reads ≡ hello.reads) }
        ensures stopped { IfErr result (λ stop. (s : Seen) → StopsAt F.profile s hello.bytes [] stop) }
        ensures quiet { IfErr result IsNoBreak }
    {
        if hello.bytes != F::hello() {
            return Err(Stop::Refused(WireFault::BadHello.number()));
        }
        Ok(Inbox {
            feed: Feed::after_hello(alloc),
            piece: Piece::new(alloc)?,
            reads: hello.reads,
        })
    }

    /// The next event.
    ///
    /// Refused 1 to 12 by the first fault of the stream, after the events before it, and 3 at the end of the input.
    pub(crate) fn next<R: Read>(
        &mut self,
        alloc: Global,
        reader: &mut Watched<R>,
    ) -> Result<Event<F>, Stop>
        requires listens { reader.old.failed ≡ false }
        ensures read { Reads F.profile (R.remaining reader.old.inner) (R.remaining reader.new.inner) self.old
            (λ bytes es. Next F.profile (seen reader.new.failed reader.new.ended) self.new bytes es result) }
        ensures reads { Counts reader.old.reads reader.new.reads self.old self.new }
        ensures listens { OnOk result (reader.new.failed ≡ false) }
        ensures fared { FaresOn reader.old.reads self.old.reads reader.new.failed reader.new.reads result }
        ensures step { StepsOn reader.old.reads self.old.reads reader.new.reads self.new.reads result }
        ensures less { OnOk result (rest_of self.new < rest_of self.old) }
    {
        'reads: loop {
            match self.next_held(alloc)? {
                Some(event) => return Ok(event),
                None => self.read_more(reader)?,
            }
        }
    }

    /// The next event of the bytes that wait. Where there is none, all of them are fed.
    fn next_held(&mut self, alloc: Global) -> Result<Option<Event<F>>, Stop>
        ensures held { SoFar F.profile self.old
            (λ bytes es. (s : Seen) → Held F.profile s self.new bytes es result) }
        ensures none { IfOk result (λ made. IfNone made ((self.new.waiting ≡ [])
            × (fault_at self.new.feed.standing ≡ None))) }
        ensures reads { (self.new.reads ≡ self.old.reads) × (self.new.reads ≤ 2 ^ 32) }
        ensures less { IfOk result (λ made. IfSome made (λ _. length self.new.waiting < length self.old.waiting)) }
        ensures quiet { IfErr result IsNoBreak }
    {
        let (taken, event) = self.feed.next(alloc, self.piece.rest())?;
        self.piece.skip(taken);
        Ok(event)
    }

    /// Reads once.
    fn read_more<R: Read>(&mut self, reader: &mut Watched<R>) -> Result<(), Stop>
        requires waiting { self.old.waiting ≡ [] }
        requires listens { reader.old.failed ≡ false }
        ensures read { Reads F.profile (R.remaining reader.old.inner) (R.remaining reader.new.inner) self.old
            (λ bytes es. Fetched F.profile (seen reader.new.failed reader.new.ended) self.new bytes es result) }
        ensures feed { self.new.feed ≡ self.old.feed }
        ensures more { OnOk result (2 ^ 32 - self.new.reads < 2 ^ 32 - self.old.reads) }
        ensures reads { Counts reader.old.reads reader.new.reads self.old self.new }
        ensures listens { OnOk result (reader.new.failed ≡ false) }
        ensures fared { FaresOn reader.old.reads self.old.reads reader.new.failed reader.new.reads result }
        ensures step { StepsOn reader.old.reads self.old.reads reader.new.reads self.new.reads result }
        ensures less { OnOk result (rest_of self.new ≤ rest_of self.old) }
    {
        if self.reads >= MAX_READS {
            return Err(Stop::Io(Direction::Read));
        }
        self.reads += 1;
        let Ok(count) = self.piece.fill(reader) else {
            return Err(Stop::Io(Direction::Read));
        };
        if count == 0 {
            return Err(Stop::Refused(WireFault::Truncated.number()));
        }
        Ok(())
    }
}
