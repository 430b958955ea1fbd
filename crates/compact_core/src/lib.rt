//! The compact spelling of messages: bytes between a connection, which has them so, and a session, which speaks frames.
#![tactic(auto)]

mod bound;
mod buffers;
mod bytes;
mod hello;
mod items;
mod kept;
mod packer;
mod packing;
mod parts;
mod sending;
mod spelling;
mod stop;
mod stream_packing;
mod units;
mod unpacker;
mod unpacking;

pub use packer::Packer;
pub use stream_packing::Packing;
pub use unpacker::Unpacker;
pub use unpacking::Unpacking;

#[cfg(test)]
mod stream_tests;
#[cfg(test)]
mod tests;
