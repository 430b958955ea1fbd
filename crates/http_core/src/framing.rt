//! Frames of a WebSocket that a server sends.

ghost use Rattle.std.specs.Prelude.{◌≡◌, ◌<◌, ◌≤◌, ◌-◌, [], drop, length, min};
ghost use Rattle.http_core.specs.Framings as framings;
ghost use Rattle.http_core.specs.Framings.{begun, control_text, data_head};

use arrayvec::ArrayVec;
use std::marker::Model;

/// How many bytes the payload of a frame has at most that a server sends.
const MOST_PAYLOAD: usize = 65_535;

/// How far the last frame was written that a server sends, whose payload is bytes of the stream.
#[derive(Debug, Drop)]
pub struct Framing {
    // What is still to be written of its head.
    owed: ArrayVec<u8, 4>,
    // How many bytes of its payload are still to be written.
    left: usize,
}

impl Model for Framing {
    ghost use Rattle.http_core.specs.Framings.{FramingState};

    ghost Value = { FramingState };

    ghost view = { λ f. record { owed = f.owed.items; left = f.left } };
}

/// The head of a frame with so many bytes of the stream.
fn data_head(length: u16) -> ArrayVec<u8, 4>
    ensures { result.items ≡ data_head length }
{
    let mut head = ArrayVec::new();
    head.push(130);
    if length < 126 {
        head.push(length as u8);
    } else {
        let [high, low] = length.to_be_bytes();
        head.push(126);
        head.push(high);
        head.push(low);
    }
    head
}

impl Framing {
    /// No frame was begun.
    pub fn new() -> Framing
        ensures { result ≡ record { owed = []; left = 0 } }
    {
        Framing {
            owed: ArrayVec::new(),
            left: 0,
        }
    }

    /// Whether a frame was begun of which something is still to be written.
    pub fn is_inside(&self) -> bool
        ensures { result ≡ framings.is_inside self.now }
    {
        !self.owed.is_empty() || self.left > 0
    }

    /// What is still to be written of the head of the frame.
    pub fn owed(&self) -> &[u8]
        ensures { result.now ≡ self.now.owed }
    {
        &self.owed
    }

    /// So many bytes of the stream are to be written; how many of them go into this frame. Where the last one is whole,
    /// one begins.
    pub fn begin(&mut self, length: usize) -> usize
        ensures begun { self.new ≡ begun length self.old }
        ensures bytes { result ≡ min length self.new.left }
    {
        if !self.is_inside() && length > 0 {
            let most = length.min(MOST_PAYLOAD);
            self.owed = data_head(most as u16);
            self.left = most;
        }
        length.min(self.left)
    }

    /// So many bytes were written: of what is owed of the head, and then of the payload. How many of these.
    pub fn wrote(&mut self, count: usize) -> usize
        ensures head { self.new.owed ≡ drop count self.old.owed }
        ensures payload { result ≡ count - length self.old.owed }
        ensures left { self.new.left ≡ self.old.left - result }
    {
        let head = self.owed.len().min(count);
        self.owed.drain(..head);
        let payload = count - head;
        self.left = self.left.saturating_sub(payload);
        payload
    }
}

/// A frame with this opcode, and so many bytes of payload that are not of the stream: at most 125.
pub fn control_frame(opcode: u8, payload: &[u8]) -> ArrayVec<u8, 127>
    requires few { length payload.now ≤ 125 }
    requires opcode { opcode < 16 }
    ensures { result.items ≡ control_text opcode payload.now }
{
    let mut frame = ArrayVec::new();
    frame.push(128 + opcode);
    frame.push(payload.len() as u8);
    if frame.try_extend_from_slice(payload).is_err() {
        unreachable!()
    }
    frame
}
