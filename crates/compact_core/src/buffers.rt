//! Bytes that wait: what one read gives, and what is to be handed on.

ghost use Rattle.std.specs.Prelude.{◌≡◌, ◌<◌, ◌≤◌, [], min, IfOk, OnErr, IsTrue, ◌↔◌, length, take, drop, vec_len};
ghost use Rattle.std.specs.Io.KnownBytes.{Keeps, Consumes, IsAtEnd};

use std::alloc::{AllocError, Global};
use std::io;
use std::io::{ErrorKind, Read};
use std::marker::Model;

/// The greatest number of bytes that one read takes.
const ROOM: usize = 16_384;

/// Room for so many bytes.
fn room_for(alloc: Global, length: usize) -> Result<Vec<u8>, AllocError>
    ensures { IfOk result (λ v. vec_len v ≡ length) }
{
    vec![in alloc; 0u8; length]
}

/// Room for what one read gives.
fn piece_room(alloc: Global) -> io::Result<Vec<u8>>
    ensures { IfOk result (λ v. 0 < vec_len v) }
{
    match room_for(alloc, ROOM) {
        Ok(room) => Ok(room),
        Err(AllocError) => Err(io::Error::from(ErrorKind::OutOfMemory)),
    }
}

/// The bytes that one read gives: none at the end.
pub fn read_piece<R: Read>(alloc: Global, reader: &mut R) -> io::Result<Vec<u8>>
    ensures read { IfOk result (λ v. Consumes (R.remaining reader.old) (R.remaining reader.new) v.items) }
    ensures ended { IfOk result (λ v. v.items ≡ [] → IsAtEnd (R.remaining reader.new)) }
    ensures failed { OnErr result (Keeps (R.remaining reader.old) (R.remaining reader.new)) }
{
    let mut room = piece_room(alloc)?;
    let count = reader.read(&mut room)?;
    room.truncate(count);
    Ok(room)
}

/// Bytes that are handed on from the front. Contracts see those that are left.
#[derive(Drop)]
pub struct Queue {
    bytes: Vec<u8>,
    given: usize,
}

impl Model for Queue {
    ghost use Rattle.std.specs.Prelude.{ℕ, ◌≤◌, List, drop, vec_len, vec_items};

    ghost Value = { List ℕ };

    ghost view = { λ q. drop q.given (vec_items q.bytes) };

    ghost invariant = { λ q. q.given ≤ vec_len q.bytes };
}

impl Queue {
    /// These bytes.
    pub fn of(bytes: Vec<u8>) -> Queue
        ensures { result ≡ bytes.items }
    {
        Queue { bytes, given: 0 }
    }

    /// The bytes that are left.
    pub fn rest(&self) -> &[u8]
        ensures { result.now ≡ self.now }
    {
        let (_, rest) = self.bytes.split_at(self.given);
        rest
    }

    /// Whether none is left.
    pub fn is_empty(&self) -> bool
        ensures { IsTrue result ↔ (self.now ≡ []) }
    {
        self.rest().is_empty()
    }

    /// Lets go of so many bytes at the front.
    pub fn skip(&mut self, count: usize)
        requires { count ≤ length self.old }
        ensures { self.new ≡ drop count self.old }
    {
        self.given += count;
    }

    /// Hands on as many bytes as there are, or as there is room for.
    pub fn give(&mut self, room: &mut [u8]) -> usize
        ensures count { result ≡ min (length self.old) (length room.old) }
        ensures given { take result room.new ≡ take result self.old }
        ensures left { self.new ≡ drop result self.old }
        ensures room { length room.new ≡ length room.old }
    {
        let rest = self.rest();
        let count = rest.len().min(room.len());
        room[..count].copy_from_slice(&rest[..count]);
        self.skip(count);
        count
    }
}
