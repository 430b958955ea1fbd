//! Of which set a peer speaks, and of which part of it.

ghost use Rattle.std.specs.Prelude.{◌≡◌, ◌==◌, ◌||◌, length, option_map};
ghost use Rattle.std.specs.Io.Take.{take_inner};
ghost use Rattle.peer_loops.specs.Fronts.{chosen_in, refusal_at, refusal_in, said_by, said_openly, set_of};

use crate::desks::Desks;
use compact_core::{Packing, Unpacking};
use digest_core::Print;
use hub_core::{Greeting, HELLO, Peer, Phase};
use item_core::Range;
use shard_core::{AfterSelector, Selecting, SetName, Which, says_part};
use std::alloc::Global;
use std::io::Write;
use tcp_front::Half;
use wire_core::encode_fault;

/// What is read of a peer: its input, or what comes after the selector of it; in the compact profile the frames that it
/// means.
pub(crate) type Reader = Unpacking<AfterSelector<Half>, Print>;

/// What is written to a peer: in the compact profile the compact text of frames.
pub(crate) type Writer = Packing<Half, Print>;

/// The number of the refusal of a peer that does not say of which set it speaks, where it has to.
const BAD_HELLO: u8 = 1;

/// The number of the refusal of a peer that speaks of a set that is not here.
pub const WRONG_SET: u8 = 55;

/// The number of the refusal of a peer whose input ended too early.
pub(crate) const TRUNCATED: u8 = 3;

/// What peers have to say before their hello.
#[derive(Clone, Copy)]
pub enum Front<'a> {
    /// Nothing: all speak of the only part.
    Open,
    /// What the set is called: they speak of the only part.
    Named(SetName<'a>),
    /// What the set is called, and of which of its shards they speak, or of the directory.
    Cut(SetName<'a>),
}

/// A part of the set of which a peer speaks: a shard or the directory, and the range of the items that are meant.
#[derive(Clone, Copy, Debug, PartialEq, Eq)]
pub(crate) struct Chosen {
    pub(crate) which: Which,
    pub(crate) range: Range,
}

impl<'a> Front<'a> {
    /// What the set is called, if peers have to say it.
    pub fn set(self) -> Option<SetName<'a>>
        ensures { result ≡ set_of self.entry }
    {
        match self {
            Front::Open => None,
            Front::Named(set) | Front::Cut(set) => Some(set),
        }
    }

    /// The part that a gate is told of where a session was over this one: none of a set that is not cut.
    pub(crate) fn told(self, which: Which) -> Option<Which> {
        match self {
            Front::Cut(_) => Some(which),
            Front::Open | Front::Named(_) => None,
        }
    }
}

/// What is read of a peer that has come: what comes after its selector. Where it does not have to say of which set it
/// speaks, it may say of which range of its items.
pub(crate) fn reader_of(alloc: Global, front: Front<'_>, reader: Half) -> Reader {
    let reader = match front.set() {
        Some(_) => AfterSelector::new(reader),
        None => AfterSelector::of_parts(reader),
    };
    Unpacking::new(alloc, reader)
}

/// Whether it is known of which set a peer speaks: its hello has come, and ours is written; or its input is over.
fn is_known(greeting: &Greeting) -> bool
    ensures { result ≡ ((greeting.now.said == 4) || greeting.now.over) }
{
    greeting.said() == HELLO || greeting.is_over()
}

/// What the bytes that came of a peer say that need not say of which set it speaks: of which part, or else of all.
fn said_openly(came: &[u8]) -> Selecting
    ensures { result ≡ said_openly came.now }
{
    if says_part(came) {
        return SetName::nameless().read(came);
    }
    Selecting::Selected(Which::Shard(0), Range::whole(), 0)
}

/// What the bytes that came of a peer say of the set of which it speaks.
fn said_by(front: Front<'_>, came: &[u8]) -> Selecting
    ensures { result ≡ said_by front.entry came.now }
{
    match front {
        Front::Named(set) | Front::Cut(set) => set.read(came),
        Front::Open => said_openly(came),
    }
}

/// The part of which a peer speaks, if it has said so.
pub(crate) fn part_of(front: Front<'_>, reader: &Reader) -> Option<Chosen>
    ensures { option_map (λ c. (c.which, c.range)) result ≡ chosen_in (said_by front.entry reader.now.reader.came) }
{
    match said_by(front, reader.reader().came()) {
        Selecting::Selected(which, range, _) => Some(Chosen { which, range }),
        _ => None,
    }
}

/// The number of the refusal of a peer that says this, and says no more.
fn refusal_in(desks: &Desks, said: Selecting) -> Option<u8>
    ensures { result ≡ refusal_in desks.now.first (length desks.now.list.items) said }
{
    match said {
        Selecting::Selected(which, _, _) if desks.keeps(which) => None,
        Selecting::Selected(..) | Selecting::WrongSet => Some(WRONG_SET),
        Selecting::NoSelector => Some(BAD_HELLO),
        // its input ended inside a selector that was right so far
        Selecting::More => Some(TRUNCATED),
    }
}

/// The number of the refusal of a peer that speaks of another set, of none, or of a part that is not kept, once that is
/// known.
pub(crate) fn refusal_of(front: Front<'_>, desks: &Desks, peer: &Peer<Reader, Writer>) -> Option<u8>
    ensures { result ≡ refusal_at front.entry desks.now.first (length desks.now.list.items) peer.now.phase
        (take_inner peer.now.reader.way).reader.came }
{
    match peer.phase() {
        Phase::Greeting(greeting) if is_known(greeting) => {
            refusal_in(desks, said_by(front, peer.reader().reader().came()))
        }
        _ => None,
    }
}

/// Writes what can be written at once of a fault frame, after what is not written of our hello.
pub(crate) fn tell_refusal(phase: &Phase, writer: &mut Writer, code: u8) {
    if let Phase::Greeting(greeting) = phase {
        let hello = greeting.hello();
        let _told = writer.write(&hello[greeting.said()..]);
    }
    let _told = writer.write(&encode_fault(code));
}
