//! Frames of a WebSocket that a client sends, taken apart byte by byte: in whatever pieces they come.

ghost use Rattle.std.specs.Prelude.{◌≡◌, ◌<◌, ◌≤◌, ◌+◌, ◌++◌, ℕ, false, None, Some, length, take, drop, option_map};
ghost use Rattle.std.specs.Prelude.{IfSome, List, option_to_list};
ghost use Rattle.std.specs.List.{AllByRecursion};
ghost use Rattle.http_core.specs.Frames as frames;
ghost use Rattle.http_core.specs.Frames.{FrameState};
ghost use Rattle.http_core.specs.Frames.{asked_in, begun, code_of, ended, entered, flaw_of, fresh, headed, in_body};
ghost use Rattle.http_core.specs.Frames.{is_sent_by_client, kept_ping, kind_of, run, said_of, settled, step, unmasked};
ghost use Rattle.http_core.specs.Frames.{with_ping};
ghost use Rattle.http_core.specs.SentFrames.{SentFrame, MaySend, encoded, last_ping, stream_of};

use arrayvec::ArrayVec;
use std::marker::Model;
use websocket::protocol::frame::FrameHeader;
use websocket::protocol::frame::coding::{Control, Data, OpCode};

/// How many bytes the head of a frame has at most.
const MOST_HEAD: usize = 14;

/// How many bytes the payload of a ping has at most.
const MOST_PING: usize = 125;

/// Why no more is read of a stream of frames.
#[derive(Clone, Copy, Debug, PartialEq, Eq)]
pub enum Stop {
    /// The client has closed it.
    Closed,
    /// It is no stream of frames of a client.
    Protocol,
    /// There is text in it.
    Text,
    /// A frame is too long.
    TooLong,
}

impl Stop {
    /// The code with which it is closed.
    pub fn code(self) -> u16
        ensures { result ≡ code_of self }
    {
        match self {
            Stop::Closed => 1000,
            Stop::Protocol => 1002,
            Stop::Text => 1003,
            Stop::TooLong => 1009,
        }
    }
}

/// What the payload of a frame is.
#[derive(Clone, Copy, Debug, PartialEq, Eq)]
pub(crate) enum Kind {
    /// Bytes of the stream.
    Data,
    /// What is to be sent back.
    Ping,
    /// What was sent back, unasked.
    Pong,
    /// Why it is closed.
    Close,
}

/// A frame whose payload is read.
#[derive(Clone, Copy, Debug, PartialEq, Eq)]
pub(crate) struct Body {
    pub(crate) kind: Kind,
    pub(crate) key: [u8; 4],
    /// Which byte of the key is the next one's.
    pub(crate) turn: u8,
    /// How many bytes are still to come.
    pub(crate) left: u64,
}

/// How far a stream of frames was read.
#[derive(Drop)]
pub(crate) struct Frames {
    // How many bytes the payload of a frame may have.
    most: u64,
    // What came of the head of the next frame.
    head: ArrayVec<u8, MOST_HEAD>,
    body: Option<Body>,
    // Whether a message has begun of which more frames are to come.
    goes_on: bool,
    // The payload of the last ping, and whether it is whole and not answered.
    ping: ArrayVec<u8, MOST_PING>,
    asks: bool,
    stop: Option<Stop>,
}

impl Model for Frames {
    ghost use Rattle.http_core.specs.Frames.{FrameState};

    ghost Value = { FrameState };

    ghost view = { λ f. record {
      most = f.most;
      head = f.head.items;
      body = f.body;
      goes_on = f.goes_on;
      ping = f.ping.items;
      asks = f.asks;
      stop = f.stop;
    } };
}

/// What the payload of a frame with this head is.
fn kind_of(opcode: OpCode) -> Kind
    ensures { result ≡ kind_of opcode }
{
    match opcode {
        OpCode::Data(_) => Kind::Data,
        OpCode::Control(Control::Ping) => Kind::Ping,
        OpCode::Control(Control::Pong) => Kind::Pong,
        OpCode::Control(Control::Close) => Kind::Close,
    }
}

/// Whether a client may send a frame with this head: it has a mask, and no bit that nobody agreed on.
fn is_sent_by_client(header: &FrameHeader) -> bool
    ensures { result ≡ is_sent_by_client header.now }
{
    header.mask.is_some() && !header.rsv1 && !header.rsv2 && !header.rsv3
}

/// Why a frame with this opcode is not taken, if it is not.
fn flaw_of_kind(most: u64, is_inside: bool, header: &FrameHeader, length: u64) -> Option<Stop>
    ensures { result ≡ frames.flaw_of_kind most is_inside header.now length header.now.opcode }
{
    match header.opcode {
        OpCode::Control(_) if !header.is_final || length > MOST_PING as u64 => Some(Stop::Protocol),
        OpCode::Control(_) => None,
        OpCode::Data(Data::Text) => Some(Stop::Text),
        OpCode::Data(Data::Binary) if is_inside => Some(Stop::Protocol),
        OpCode::Data(Data::Continue) if !is_inside => Some(Stop::Protocol),
        OpCode::Data(_) if length > most => Some(Stop::TooLong),
        OpCode::Data(_) => None,
    }
}

/// Why a frame with this head is not taken, if it is not.
fn flaw_of(most: u64, is_inside: bool, header: &FrameHeader, length: u64) -> Option<Stop>
    ensures { result ≡ flaw_of most is_inside header.now length }
{
    if !is_sent_by_client(header) {
        return Some(Stop::Protocol);
    }
    flaw_of_kind(most, is_inside, header, length)
}

/// The byte under the mask of a frame.
fn unmasked(body: Body, byte: u8) -> u8
    ensures { result ≡ unmasked body byte }
{
    byte ^ body.key[usize::from(body.turn % 4)]
}

/// Puts a byte at this place, if there is one; how many bytes stand in front then.
fn put(bytes: &mut [u8], kept: usize, said: Option<u8>) -> usize
    requires { kept < length bytes.old }
    ensures count { result ≡ kept + length (option_to_list said) }
    ensures front { take result bytes.new ≡ take kept bytes.old ++ option_to_list said }
    ensures rest { (n : ℕ) → kept < n → drop n bytes.new ≡ drop n bytes.old }
    ensures room { length bytes.new ≡ length bytes.old }
{
    let Some(byte) = said else {
        return kept;
    };
    bytes[kept] = byte;
    kept + 1
}

impl Frames {
    /// Nothing was read; a frame may have so many bytes of payload.
    pub(crate) fn new(most: u64) -> Frames
        ensures { result ≡ fresh most }
    {
        Frames {
            most,
            head: ArrayVec::new(),
            body: None,
            goes_on: false,
            ping: ArrayVec::new(),
            asks: false,
            stop: None,
        }
    }

    /// Why no more is read, if none is.
    pub(crate) fn stop(&self) -> Option<Stop>
        ensures { result ≡ self.now.stop }
    {
        self.stop
    }

    /// The payload of the last ping, if that is whole and not answered: at most 125 bytes.
    pub(crate) fn ping(&self) -> Option<&[u8]>
        ensures ping { option_map (λ text. text.now) result ≡ asked_in self.now }
        ensures few { IfSome result (λ text. length text.now ≤ 125) }
    {
        self.asks.then_some(self.ping.as_slice())
    }

    /// The last ping is answered.
    pub(crate) fn answer_ping(&mut self)
        ensures { self.new ≡ record self.old { asks = false } }
    {
        self.asks = false;
    }

    /// A frame has ended whose payload was this.
    fn end_body(&mut self, kind: Kind)
        ensures { self.new ≡ ended kind (record self.old { body = None }) }
    {
        self.body = None;
        match kind {
            Kind::Data | Kind::Pong => {}
            Kind::Ping => self.asks = true,
            Kind::Close => self.stop = Some(Stop::Closed),
        }
    }

    /// Ends the frame whose payload is read, if none of it is still to come.
    fn settle(&mut self, body: Body)
        ensures { self.new ≡ settled (Some body) (record self.old { body = Some body }) }
    {
        self.body = Some(body);
        if body.left == 0 {
            self.end_body(body.kind);
        }
    }

    /// Forgets the ping before, where a frame of this kind has begun.
    fn make_way(&mut self, kind: Kind)
        ensures { self.new ≡ with_ping kind self.old }
    {
        if kind == Kind::Ping {
            self.ping.clear();
            self.asks = false;
        }
    }

    /// A frame with this head has begun.
    fn enter(&mut self, header: &FrameHeader, length: u64)
        ensures { self.new ≡ (let t = entered header.now length self.old in settled t.body t) }
    {
        self.head.clear();
        if let OpCode::Data(_) = header.opcode {
            self.goes_on = !header.is_final;
        }
        let kind = kind_of(header.opcode);
        self.make_way(kind);
        self.settle(Body {
            kind,
            key: header.mask.unwrap_or([0; 4]),
            turn: 0,
            left: length,
        });
    }

    /// Begins a frame with this head, if it is taken.
    fn begin(&mut self, header: &FrameHeader, length: u64)
        ensures { self.new
            ≡ begun (flaw_of self.old.most self.old.goes_on header.now length) header.now length self.old }
    {
        match flaw_of(self.most, self.goes_on, header, length) {
            Some(flaw) => self.stop = Some(flaw),
            None => self.enter(header, length),
        }
    }

    /// Takes one more byte of a head.
    fn add_to_head(&mut self, byte: u8)
        ensures { self.new ≡ headed self.old byte }
    {
        if self.head.try_push(byte).is_err() {
            self.stop = Some(Stop::Protocol);
            return;
        }
        match FrameHeader::parse(&self.head) {
            Ok(Some((header, length))) => self.begin(&header, length),
            Ok(None) => {}
            Err(_) => self.stop = Some(Stop::Protocol),
        }
    }

    /// Keeps a byte of a payload, if it is of a ping.
    fn keep_ping(&mut self, kind: Kind, byte: u8)
        ensures { self.new ≡ record self.old { ping = kept_ping kind self.old.ping byte } }
    {
        if kind == Kind::Ping {
            let _full = self.ping.try_push(byte);
        }
    }

    /// Takes one more byte of a payload.
    fn add_to_body(&mut self, body: Body, byte: u8) -> Option<u8>
        ensures state { self.new ≡ in_body body self.old byte }
        ensures said { result ≡ said_of body.kind (unmasked body byte) }
    {
        let byte = unmasked(body, byte);
        self.keep_ping(body.kind, byte);
        self.settle(Body {
            turn: (body.turn % 4 + 1) % 4,
            left: body.left.saturating_sub(1),
            ..body
        });
        (body.kind == Kind::Data).then_some(byte)
    }

    /// Takes one more byte; the byte of the stream that it gives, if it gives one.
    fn take(&mut self, byte: u8) -> Option<u8>
        ensures state { self.new ≡ (step self.old byte).0 }
        ensures said { result ≡ (step self.old byte).1 }
    {
        if self.stop.is_some() {
            return None;
        }
        match self.body {
            Some(body) => self.add_to_body(body, byte),
            None => {
                self.add_to_head(byte);
                None
            }
        }
    }

    /// Takes bytes that came, and puts the bytes of the stream that they give in their place, from the front on: how
    /// many there are. What stands behind these has no meaning.
    pub(crate) fn unframe(&mut self, bytes: &mut [u8]) -> usize
        ensures state { self.new ≡ (run self.old bytes.old).0 }
        ensures said { take result bytes.new ≡ (run self.old bytes.old).1 }
        ensures few { result ≤ length bytes.new }
        ensures room { length bytes.new ≡ length bytes.old }
    {
        let mut kept = 0;
        for at in 0..bytes.len() {
            let said = self.take(bytes[at]);
            kept = put(bytes, kept, said);
        }
        kept
    }
}

/// However bytes are cut in two, they give what they give at once: the state after both pieces, and the bytes of the
/// stream.
#[tactic(auto, using(crate::proofs::Pieces::state_after_both, crate::proofs::Pieces::said_of_both))]
pub fn pieces_do_not_matter()
    ensures state { (s : FrameState) (front back : List ℕ) →
        (run s (front ++ back)).0 ≡ (run (run s front).0 back).0 }
    ensures said { (s : FrameState) (front back : List ℕ) →
        (run s (front ++ back)).1 ≡ (run s front).1 ++ (run (run s front).0 back).1 }
{}

/// Whole frames that a client may send, with pings and pongs between those of a message, give their payloads in order:
/// the bytes of the stream are those of the data frames, nothing stops it, and the last ping is to be answered.
#[tactic(auto, using(crate::proofs::Whole::in_order, crate::proofs::Whole::no_stop, crate::proofs::Whole::last_asked))]
pub fn whole_frames_give_their_payloads()
    ensures said { (most : ℕ) (sent : List SentFrame) → AllByRecursion (MaySend most) sent →
        (run (fresh most) (encoded false sent)).1 ≡ stream_of sent }
    ensures goes_on { (most : ℕ) (sent : List SentFrame) → AllByRecursion (MaySend most) sent →
        (run (fresh most) (encoded false sent)).0.stop ≡ None }
    ensures ping { (most : ℕ) (sent : List SentFrame) → AllByRecursion (MaySend most) sent →
        asked_in (run (fresh most) (encoded false sent)).0 ≡ last_ping None sent }
{}
