//! Messages and their spelling in bytes.
#![tactic(auto)]

mod body;
mod decoding;
mod event;
mod fault;
mod feed;
mod field;
mod marks;
mod message;
mod part;
mod pieces;
mod reading;
mod spelling;
mod standing;
mod stream;

pub use decoding::decode_message;
pub use event::Event;
pub use fault::{DecodeError, PartFault, WireFault};
pub use feed::{Feed, NextEvent};
pub use marks::{Marks, has_padding};
pub use message::{MAX_PARTS, Message, TooManyParts};
pub use part::{Part, PartKind};
pub use spelling::{encode_fault, encode_hello, encode_message, encode_part, push_message};
pub use stream::take_event;
