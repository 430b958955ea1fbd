ghost use Rattle.std.specs.Prelude.{◌≡◌, true, false, None, [], ◌++◌, ◌+◌, ◌<◌, ◌≤◌, length, take};
ghost use Rattle.std.specs.Prelude.{IfOk, IfErr, OnOk, OnErr, Ok};
ghost use Rattle.std.specs.Int.{w32, from_be_bytes};
ghost use Rattle.std.specs.Option.{option_to_list};
ghost use Rattle.definitions.specs.Wire.{max_body};
ghost use Rattle.definitions.specs.Streams.{Before_hello, In_message, Faulted, feed, Means, finish_fault, stays};
ghost use Rattle.wire_core.specs.Events.{event_values};
ghost use Rattle.wire_core.specs.Refused.{fault_number};
ghost use Rattle.wire_core.specs.Standings.{is_over, put_after, standing_of};
ghost use Rattle.wire_core.specs.Feeds.{fed_into, Holds, events_since, Continues, fault_at, fault_in, refusal_in};
ghost use Rattle.wire_core.specs.Feeds.{UnlessMemory, IfMemory};
ghost use Rattle.wire_core.specs.Nexts.{TakesNext, IsFedAlone, Refuses, frame_end, taken_by};

use crate::event::Event;
use crate::fault::{DecodeError, WireFault};
use crate::pieces::{are_few, keep, next_length};
use crate::standing::Standing;
use crate::stream::take_next;
use digest_core::{Fingerprint, WireSummary};
use std::alloc::{AllocError, Global};
use std::marker::{Model, PhantomData};

/// A stream that comes in pieces: a hello, and then frames. Keeps the bytes of an unfinished hello or frame, and no
/// more.
#[derive(Debug, Drop)]
pub struct Feed<F: WireSummary = Fingerprint> {
    standing: Standing,
    kept: Vec<u8>,
    of: PhantomData<F>,
}

impl<F: WireSummary> Model for Feed<F> {
    ghost use Rattle.std.specs.Prelude.{◌≡◌};
    ghost use Rattle.definitions.specs.Streams.{feed, stays};
    ghost use Rattle.wire_core.specs.Feeds.{StreamState};

    ghost Value = { StreamState };

    ghost use Rattle.wire_core.specs.Standings.{standing_of};

    ghost view = { λ a. record { standing = standing_of a.standing; kept = a.kept.items } };

    ghost invariant = { λ a. feed F.profile (standing_of a.standing) a.kept.items
        ≡ stays (standing_of a.standing) a.kept.items };
}

/// What stands next in a stream.
#[derive(Debug, Drop)]
pub struct NextEvent<F: WireSummary = Fingerprint> {
    /// How many bytes of the piece it takes.
    pub taken: usize,
    /// The event that these end, if they do.
    pub event: Option<Event<F>>,
    /// The feed after them.
    pub feed: Feed<F>,
}

/// Reads the hello, where it is due, and a frame, in bytes that reach no further: the event, if the frame is whole, and
/// the feed then.
fn read_alone<F: WireSummary>(
    alloc: Global,
    bytes: &[u8],
    standing: Standing,
) -> Result<(Option<Event<F>>, Feed<F>), DecodeError>
    requires counts { is_over (standing_of standing) ≡ false }
    requires one { length bytes.now ≤ frame_end (standing_of standing) bytes.now }
    ensures { IsFedAlone (feed F.profile (standing_of standing) bytes.now) result }
{
    laws::codec::feeds_rest::<F>();
    laws::codec::are_bytes(bytes);
    let mut left = bytes;
    let (standing, event) = take_next(alloc, &mut left, standing)?;
    let kept = Vec::from_slice(alloc, left)?;
    let feed = Feed {
        standing,
        kept,
        of: PhantomData,
    };
    Ok((event, feed))
}

/// Appends an event, if there is one.
fn push_if<F: WireSummary>(
    out: &mut Vec<Event<F>>,
    event: Option<Event<F>>,
) -> Result<(), AllocError>
    ensures ok { OnOk result (out.new.items ≡ out.old.items ++ option_to_list event) }
    ensures before { take (length out.old.items) out.new.items ≡ out.old.items }
{
    if let Some(event) = event {
        out.push(event)?;
    }
    Ok(())
}

impl<F: WireSummary> Feed<F> {
    /// Where it stands so, and no bytes are kept.
    fn at(alloc: Global, standing: Standing) -> Feed<F>
        ensures { result ≡ record { standing = standing_of standing; kept = [] } }
    {
        Feed {
            standing,
            kept: Vec::new(alloc),
            of: PhantomData,
        }
    }

    /// Before the hello.
    pub fn new(alloc: Global) -> Feed<F>
        ensures { result ≡ record { standing = Before_hello; kept = [] } }
    {
        Feed::at(alloc, Standing::BeforeHello)
    }

    /// After the hello: as the new feed is once the hello was fed to it, and nothing else.
    pub fn after_hello(alloc: Global) -> Feed<F>
        ensures state { result ≡ record { standing = In_message 0; kept = [] } }
        ensures hello { Holds F.profile result F.profile.hello [] }
    {
        Feed::at(alloc, Standing::InMessage(0))
    }

    /// After a fault.
    pub fn stopped(alloc: Global, fault: WireFault) -> Feed<F>
        ensures { result ≡ record { standing = Faulted (fault_number fault); kept = [] } }
    {
        Feed::at(alloc, Standing::Faulted(fault))
    }

    /// Reads on in the stream, and appends the events that the piece completes.
    ///
    /// Which events these are is the relation `Means`: the kept bytes and the piece, from where the stream stood, are
    /// their texts, and then what is kept. The first fault, 1 to 12, is answered at the byte that tells it, after the
    /// events before it, and at every later call. Where memory runs out, the feed and the events are as before the
    /// call. After a fault or a fault frame no memory is wanted.
    pub fn feed(
        &mut self,
        alloc: Global,
        piece: &[u8],
        out: &mut Vec<Event<F>>,
    ) -> Result<(), DecodeError>
        // The meaning, by the grammar of a stream.
        ensures means { UnlessMemory result (Means F.profile self.old.standing
            (events_since out.old.items out.new.items) (self.old.kept ++ piece.now) self.new.standing self.new.kept) }
        // The same by computation.
        ensures fed { UnlessMemory result (put_after (event_values out.old.items)
            (feed F.profile self.old.standing (self.old.kept ++ piece.now))
            ≡ fed_into (event_values out.new.items) self.new) }
        ensures before { take (length out.old.items) out.new.items ≡ out.old.items }
        ensures fault { UnlessMemory result (refusal_in result ≡ fault_at self.new.standing) }
        ensures memory { IfMemory result ((self.new ≡ self.old) × (out.new.items ≡ out.old.items)) }
        // Where what follows counts no more, it answers the fault that there is, if any, and never 90.
        ensures over { is_over self.old.standing ≡ true →
            (refusal_in result ≡ fault_at self.old.standing) × IfMemory result ⊥ }
        // The cutting does not matter: the events of all calls are those of the stream.
        ensures joined { UnlessMemory result (Continues F.profile self.old piece.now self.new) }
    {
        laws::codec::feed_is_exact::<F>();
        laws::codec::feeds_join::<F>();
        laws::codec::are_bytes(&self.kept);
        laws::codec::are_bytes(piece);
        self.read(alloc, piece, out)
    }

    /// Reads on, with the clauses of `feed` that need no law.
    fn read(
        &mut self,
        alloc: Global,
        piece: &[u8],
        out: &mut Vec<Event<F>>,
    ) -> Result<(), DecodeError>
        ensures fed { UnlessMemory result (put_after (event_values out.old.items)
            (feed F.profile self.old.standing (self.old.kept ++ piece.now))
            ≡ fed_into (event_values out.new.items) self.new) }
        ensures before { take (length out.old.items) out.new.items ≡ out.old.items }
        ensures fault { UnlessMemory result (refusal_in result ≡ fault_at self.new.standing) }
        ensures memory { IfMemory result ((self.new ≡ self.old) × (out.new.items ≡ out.old.items)) }
        ensures over { is_over self.old.standing ≡ true →
            (refusal_in result ≡ fault_at self.old.standing) × IfMemory result ⊥ }
    {
        if self.standing.is_over() {
            return Ok(self.standing.fault()?);
        }
        if self.keep(piece)? {
            return Ok(());
        }
        let events = out.len();
        match self.read_all(alloc, piece, out) {
            Ok(feed) => {
                *self = feed;
                Ok(self.standing.fault()?)
            }
            Err(refused) => {
                out.truncate(events);
                Err(DecodeError::from(refused))
            }
        }
    }

    /// Appends all events that the piece completes, and gives the feed after it.
    fn read_all(
        &self,
        alloc: Global,
        piece: &[u8],
        out: &mut Vec<Event<F>>,
    ) -> Result<Feed<F>, AllocError>
        ensures fed { IfOk result (λ f. put_after (event_values out.old.items)
            (feed F.profile self.now.standing (self.now.kept ++ piece.now)) ≡ fed_into (event_values out.new.items) f) }
        ensures before { take (length out.old.items) out.new.items ≡ out.old.items }
    {
        let mut rest = piece;
        let mut there = self.read_one(alloc, &mut rest, out)?;
        'events: while !rest.is_empty() {
            there = there.read_one(alloc, &mut rest, out)?;
        }
        Ok(there)
    }

    /// Takes the next event off the front of a piece and appends it, and gives the feed after it.
    fn read_one(
        &self,
        alloc: Global,
        piece: &mut &[u8],
        out: &mut Vec<Event<F>>,
    ) -> Result<Feed<F>, AllocError>
        ensures step { IfOk result (λ f. put_after (event_values out.old.items)
            (feed F.profile self.now.standing (self.now.kept ++ piece.old.now))
            ≡ put_after (event_values out.new.items) (feed F.profile f.standing (f.kept ++ piece.new.now))) }
        ensures rest { IfOk result (λ f. feed F.profile f.standing f.kept ≡ stays f.standing f.kept) }
        ensures shorter { IfOk result (λ _. 0 < length piece.old.now → length piece.new.now < length piece.old.now) }
        ensures before { take (length out.old.items) out.new.items ≡ out.old.items }
    {
        laws::codec::feeds_join::<F>();
        laws::codec::are_bytes(&self.kept);
        laws::codec::are_bytes(piece);
        match self.after(alloc, piece) {
            Ok(NextEvent { taken, event, feed }) => {
                *piece = &piece[taken..];
                push_if(out, event)?;
                Ok(feed)
            }
            Err(DecodeError::Fault(fault)) => {
                *piece = &[];
                Ok(Feed::stopped(alloc, fault))
            }
            Err(DecodeError::Memory) => Err(AllocError),
        }
    }

    /// Takes the next event off the front of a piece: gives the number of bytes that it took, and the event.
    ///
    /// It takes at least one byte, and none after the event's frame. Where the piece ends inside the hello or a frame,
    /// or the stream is over by a fault frame, it takes all of it and gives no event. A fault is answered at the byte
    /// that tells it, and at every later call. Where memory runs out, the feed is as before the call.
    pub fn next(
        &mut self,
        alloc: Global,
        piece: &[u8],
    ) -> Result<(usize, Option<Event<F>>), DecodeError>
        ensures next { TakesNext F.profile self.old piece.now result self.new }
        ensures fault { UnlessMemory result (refusal_in result ≡ fault_at self.new.standing) }
        // The events of all calls are those of the stream.
        ensures joined { UnlessMemory result (Continues F.profile self.old (taken_by result piece.now) self.new) }
    {
        laws::codec::feeds_join::<F>();
        laws::codec::are_bytes(piece);
        if self.keep(piece)? {
            return Ok((piece.len(), None));
        }
        match self.after(alloc, piece) {
            Ok(NextEvent { taken, event, feed }) => {
                *self = feed;
                Ok((taken, event))
            }
            Err(DecodeError::Fault(fault)) => {
                *self = Feed::stopped(alloc, fault);
                Err(DecodeError::Fault(fault))
            }
            Err(DecodeError::Memory) => Err(DecodeError::Memory),
        }
    }

    /// The same, and the feed stays as it is: what stands next tells the feed after it. A fault leaves it `stopped`.
    pub fn after(&self, alloc: Global, piece: &[u8]) -> Result<NextEvent<F>, DecodeError>
        ensures next { IfOk result (λ n. TakesNext F.profile self.now piece.now (Ok (n.taken, n.event)) n.feed) }
        ensures faultless { IfOk result (λ n. fault_at n.feed.standing ≡ None) }
        ensures refused { IfErr result (Refuses F.profile self.now piece.now) }
    {
        laws::codec::next_is_exact::<F>();
        laws::codec::feeds_join::<F>();
        laws::codec::are_bytes(&self.kept);
        laws::codec::are_bytes(piece);
        if self.standing.is_over() {
            self.standing.fault()?;
            return Ok(NextEvent {
                taken: piece.len(),
                event: None,
                feed: Feed::at(alloc, Standing::MeaningOver),
            });
        }
        let taken = next_length(&self.kept, piece, self.standing);
        let (event, feed) = self.read_after(alloc, &piece[..taken])?;
        Ok(NextEvent { taken, event, feed })
    }

    /// Reads what stands next after the kept bytes, of which a piece has no byte more.
    fn read_after(
        &self,
        alloc: Global,
        piece: &[u8],
    ) -> Result<(Option<Event<F>>, Feed<F>), DecodeError>
        requires counts { is_over self.now.standing ≡ false }
        requires one { length (self.now.kept ++ piece.now) ≤ frame_end self.now.standing (self.now.kept ++ piece.now) }
        ensures { IsFedAlone (feed F.profile self.now.standing (self.now.kept ++ piece.now)) result }
    {
        if self.kept.is_empty() {
            return read_alone(alloc, piece, self.standing);
        }
        let mut bytes = Vec::with_capacity(alloc, self.kept.len() + piece.len())?;
        bytes.extend_from_slice(&self.kept)?;
        bytes.extend_from_slice(piece)?;
        read_alone(alloc, &bytes, self.standing)
    }

    /// Keeps a piece that ends neither the hello nor a frame, and returns whether it did.
    ///
    /// Where it did not, and where memory runs out, the feed is as before.
    pub fn keep(&mut self, piece: &[u8]) -> Result<bool, AllocError>
        ensures kept { IfOk result (λ is_kept. is_kept ≡ true →
            (feed F.profile self.old.standing (self.old.kept ++ piece.now) ≡ fed_into [] self.new)
            × (fault_at self.new.standing ≡ None)) }
        ensures same { IfOk result (λ is_kept. is_kept ≡ false → self.new ≡ self.old) }
        // It keeps every piece that does not reach the end of the hello or frame, as far as the kept bytes tell.
        ensures short { IfOk result (λ is_kept. is_kept ≡ false → is_over self.old.standing ≡ false →
            length self.old.kept < 4 → 4 ≤ length self.old.kept + length piece.now) }
        ensures frame { IfOk result (λ is_kept. is_kept ≡ false → is_over self.old.standing ≡ false →
            4 ≤ length self.old.kept →
            4 + from_be_bytes w32 (take 4 self.old.kept) ≤ length self.old.kept + length piece.now) }
        ensures memory { OnErr result ((self.new ≡ self.old) × (is_over self.old.standing ≡ false)) }
    {
        if self.standing.is_over() {
            return Ok(false);
        }
        let kept = &mut self.kept;
        keep::<F>(kept, piece, self.standing)
    }

    /// Whether the stream may end here.
    ///
    /// It may not inside the hello or a frame, and not after a part whose message has no end yet (3); a fault stays.
    pub fn finish(&self) -> Result<(), WireFault>
        ensures fault { fault_in result ≡ finish_fault self.now.standing self.now.kept }
        // Less than the longest frame is kept.
        ensures few { length self.now.kept < 4 + max_body }
    {
        are_few::<F>(&self.kept, self.standing);
        match self.standing {
            Standing::MeaningOver => Ok(()),
            Standing::Faulted(fault) => Err(fault),
            Standing::InMessage(0) if self.kept.is_empty() => Ok(()),
            _ => Err(WireFault::Truncated),
        }
    }
}
