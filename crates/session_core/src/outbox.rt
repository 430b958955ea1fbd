//! What a side has to say: texts that are made, and messages whose text is not made yet.

ghost use Rattle.std.specs.Prelude.{◌≡◌, ◌≢◌, ◌+◌, ◌-◌, ◌≤◌, ◌++◌, [], vec_len, length, drop, map, min, flat_map, IfOk};
ghost use Rattle.std.specs.Prelude.{IfErr, OnOk, OnErr};
ghost use Rattle.ends_core.specs.declared.turn.EndFault.TheVariants as faults;
ghost use Rattle.definitions.specs.Wire.{message_text};
ghost use Rattle.definitions.specs.Ends.{own_of};
ghost use Rattle.ends_core.specs.Sizes as sizes;
ghost use Rattle.session_core.specs.Kept.{kept_to_say};
ghost use Rattle.session_core.specs.Outboxes as outboxes;
ghost use Rattle.session_core.specs.Outboxes.{outbox_state, ends_after, ends_from, less, Answered};

use digest_core::WireSummary;
use ends_core::{EndFault, Role, SessionEnd, Turn, messages_size, open_size};
use std::alloc::{AllocError, Global};
use std::marker::Model;
use store_core::RangeStore;
use wire_core::{Message, encode_hello, push_message};

/// What a side has to say and nobody has taken.
#[derive(Drop)]
pub(crate) struct Outbox<F: WireSummary> {
    made: Vec<u8>,
    // The bytes in front of this place were taken.
    from: usize,
    // Where the texts of messages end, counted from that place.
    ends: Vec<usize>,
    unsaid: Vec<Message<F>>,
}

impl<F: WireSummary> Model for Outbox<F> {
    ghost use Rattle.std.specs.Prelude.{◌+◌, ◌≤◌, drop, vec_len, vec_items};
    ghost use Rattle.session_core.specs.Outboxes.{OutboxState, outbox_state};

    ghost Value = { OutboxState F };

    ghost view = { λ o. outbox_state (drop o.from (vec_items o.made)) o.ends.items o.unsaid.items };

    // Of the bytes that were taken no more are kept than are still to be said.
    ghost invariant = { λ o. o.from + o.from ≤ vec_len o.made };
}

/// Where a text of so many bytes ends that begins at this place. No text ends above the greatest number: there is no
/// memory for it.
fn end_of(start: usize, count: usize) -> Result<usize, AllocError>
    ensures { IfOk result (λ end. end ≡ start + count) }
{
    match start.checked_add(count) {
        Some(end) => Ok(end),
        None => Err(AllocError),
    }
}

/// The texts of messages, and these bytes after them; and where the texts of the messages end, if the first begins at
/// this place.
fn texts_of<F: WireSummary>(
    alloc: Global,
    messages: &[Message<F>],
    last: &[u8],
    start: usize,
) -> Result<(Vec<u8>, Vec<usize>), AllocError>
    ensures texts { IfOk result (λ made. made.0.items ≡ flat_map (message_text F.profile) messages.now ++ last.now) }
    ensures ends { IfOk result (λ made. made.1.items ≡ ends_from F.profile start messages.now) }
{
    let mut texts = Vec::new(alloc);
    let mut ends = Vec::with_capacity(alloc, messages.len())?;
    for message in messages {
        push_message(&mut texts, message)?;
        ends.push(end_of(start, texts.len())?)?;
    }
    texts.extend_from_slice(last)?;
    Ok((texts, ends))
}

/// The hello.
pub(crate) fn hello_text<F: WireSummary>(alloc: Global) -> Result<Vec<u8>, AllocError>
    ensures { IfOk result (λ text. text.items ≡ F.profile.hello) }
{
    let mut text = Vec::new(alloc);
    text.extend_from_slice(&encode_hello::<F>())?;
    Ok(text)
}

/// Gives back the memory of the bytes in front of this place, once they are half of all. Returns the place then.
fn forget(made: &mut Vec<u8>, from: usize) -> usize
    requires { from ≤ vec_len made.old }
    ensures rest { drop result made.new.items ≡ drop from made.old.items }
    ensures few { result + result ≤ vec_len made.new }
{
    if from < made.len() - from {
        return from;
    }
    made.drain(..from);
    made.shrink_to_fit();
    0
}

/// How many of the first places are no further on than this one.
fn passed(ends: &[usize], count: usize) -> usize
    ensures few { result ≤ length ends.now }
    ensures rest { ends_after count ends.now ≡ map (λ x. x - count) (drop result ends.now) }
{
    let mut passed = 0;
    while passed < ends.len() && ends[passed] <= count {
        passed += 1;
    }
    passed
}

/// Counts places from one that is so much further on.
fn lower_all(ends: &mut [usize], count: usize)
    ensures { ends.new ≡ map (λ x. x - count) ends.old }
{
    for end in ends.iter_mut() {
        *end = end.saturating_sub(count);
    }
}

/// The places once so many bytes were taken.
fn pass(ends: &mut Vec<usize>, count: usize)
    ensures { ends.new.items ≡ ends_after count ends.old.items }
{
    let passed = passed(ends, count);
    ends.drain(..passed);
    lower_all(ends, count);
}

impl<F: WireSummary> Outbox<F> {
    /// These bytes are to be said, and then these messages.
    pub(crate) fn of(alloc: Global, made: Vec<u8>, unsaid: Vec<Message<F>>) -> Outbox<F>
        ensures { result ≡ outbox_state made.items [] unsaid.items }
    {
        Outbox {
            made,
            from: 0,
            ends: Vec::new(alloc),
            unsaid,
        }
    }

    /// Ends a message that an end has taken, and says the reply, if it wants one. Returns what is counted for our
    /// message that waits then.
    pub(crate) fn answer<R: Role, S: RangeStore>(
        &mut self,
        alloc: Global,
        end: &mut SessionEnd<R, S, F>,
    ) -> Result<u64, EndFault>
        ensures answered { Answered end.old end.new self.old self.new result }
        ensures waits { IfOk result (λ n. n ≡ sizes.message_size (own_of end.new.end.stage)) }
        ensures refused { IfErr result (λ f. f ≢ faults.Memory → own_of end.new.end.stage ≡ []) }
    {
        self.unsaid.reserve(1)?;
        match end.end(alloc)? {
            Turn::Reply(reply) => {
                let waits = open_size(reply.parts());
                self.unsaid.push_reserved(reply);
                Ok(waits)
            }
            Turn::Over => Ok(0),
        }
    }

    /// Makes all texts, and these bytes after them. Where memory runs out nothing has changed.
    pub(crate) fn make(&mut self, alloc: Global, last: &[u8]) -> Result<(), AllocError>
        ensures made { OnOk result (self.new ≡ outboxes.made F.profile self.old last.now) }
        ensures memory { OnErr result (self.new ≡ self.old) }
    {
        let (texts, ends) = texts_of(alloc, &self.unsaid, last, self.ready().len())?;
        self.append(texts, ends)?;
        self.unsaid.clear();
        Ok(())
    }

    /// Appends text, in which messages end at these places. It is not copied where all before it was taken.
    fn append(&mut self, texts: Vec<u8>, ends: Vec<usize>) -> Result<(), AllocError>
        ensures added { OnOk result (self.new ≡ outbox_state (self.old.ready ++ texts.items)
            (self.old.ends ++ ends.items) self.old.later) }
        ensures memory { OnErr result (self.new ≡ self.old) }
    {
        let mut ends = ends;
        let count = self.ends.len();
        self.ends.append(&mut ends)?;
        if self.from == self.made.len() {
            self.made = texts;
            self.from = 0;
            return Ok(());
        }
        match self.made.extend_from_slice(&texts) {
            Ok(()) => Ok(()),
            Err(AllocError) => {
                self.ends.truncate(count);
                Err(AllocError)
            }
        }
    }

    /// The bytes whose text is made.
    pub(crate) fn ready(&self) -> &[u8]
        ensures { result.now ≡ self.now.ready }
    {
        &self.made[self.from..]
    }

    /// What is counted for it.
    pub(crate) fn kept(&self) -> u64
        ensures { result ≡ kept_to_say self.now }
    {
        (self.ready().len() as u64).saturating_add(messages_size(&self.unsaid))
    }

    /// Takes this many of these bytes off the front, or all where there are fewer, and returns how many it took.
    pub(crate) fn take(&mut self, count: usize) -> usize
        ensures count { result ≡ min count (length self.old.ready) }
        ensures rest { self.new ≡ less result self.old }
    {
        let taken = count.min(self.made.len() - self.from);
        self.from = forget(&mut self.made, self.from + taken);
        pass(&mut self.ends, taken);
        taken
    }

    /// How many messages nobody has taken whole.
    pub(crate) fn unwritten(&self) -> u64
        ensures { result ≡ sizes.plus (length self.now.ends) (length self.now.later) }
    {
        (self.ends.len() as u64).saturating_add(self.unsaid.len() as u64)
    }
}
