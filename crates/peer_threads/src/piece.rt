//! What one read gave.

ghost use Rattle.std.specs.Prelude.{◌≡◌, ◌≤◌, [], IfOk, OnErr, IsTrue, length, drop, vec_len};
ghost use Rattle.std.specs.Io.KnownBytes.{Consumes};
ghost use Rattle.definitions.specs.Items.{IsBytes};
ghost use Rattle.io_core.specs.Watch.{one_more};

use io_core::Watched;
use std::alloc::{AllocError, Global};
use std::io;
use std::io::Read;
use std::marker::Model;

/// The greatest number of bytes that one read takes.
const ROOM: usize = 65_536;

/// The bytes of one read that are not taken yet. Contracts see these bytes.
#[derive(Drop)]
pub(crate) struct Piece {
    room: Vec<u8>,
    // They stand from here on,
    from: usize,
    // up to here.
    end: usize,
}

impl Model for Piece {
    ghost use Rattle.std.specs.Prelude.{ℕ, ◌-◌, ◌<◌, ◌≤◌, List, take, drop, vec_len, vec_items};

    ghost Value = { List ℕ };

    ghost view = { λ p. take (p.end - p.from) (drop p.from (vec_items p.room)) };

    ghost invariant = { λ p. (p.from ≤ p.end) × (p.end ≤ vec_len p.room) × (0 < vec_len p.room)
        × (vec_len p.room ≤ 65536) };
}

/// Room for so many bytes.
fn room_for(alloc: Global, length: usize) -> Result<Vec<u8>, AllocError>
    ensures { IfOk result (λ v. vec_len v ≡ length) }
{
    vec![in alloc; 0u8; length]
}

impl Piece {
    /// Nothing was read.
    pub(crate) fn new(alloc: Global) -> Result<Piece, AllocError>
        ensures { IfOk result (λ p. p ≡ []) }
    {
        Ok(Piece {
            room: room_for(alloc, ROOM)?,
            from: 0,
            end: 0,
        })
    }

    /// The bytes that are not taken yet.
    pub(crate) fn rest(&self) -> &[u8]
        ensures { result.now ≡ self.now }
    {
        &self.room[self.from..self.end]
    }

    /// Takes so many bytes off the front.
    pub(crate) fn skip(&mut self, taken: usize)
        requires { taken ≤ length self.old }
        ensures { self.new ≡ drop taken self.old }
    {
        self.from += taken;
    }

    /// Reads once, over what stood here. Gives the number of bytes that came.
    pub(crate) fn fill<R: Read>(&mut self, reader: &mut Watched<R>) -> io::Result<usize>
        ensures bytes { IsBytes self.new
            × Consumes (R.remaining reader.old.inner) (R.remaining reader.new.inner) self.new }
        ensures count { IfOk result (λ count. count ≡ length self.new) }
        ensures ended { IfOk result (λ count. count ≡ 0 → IsTrue reader.new.ended) }
        ensures failed { OnErr result ((self.new ≡ []) × IsTrue reader.new.failed) }
        ensures kept { IfOk result (λ _. reader.new.failed ≡ reader.old.failed) }
        ensures few { length self.new ≤ 65536 }
        ensures reads { reader.new.reads ≡ one_more reader.old.reads }
    {
        // where the read fails, nothing is left
        self.from = 0;
        self.end = 0;
        self.end = reader.read(&mut self.room)?;
        laws::codec::are_bytes(self.rest());
        Ok(self.end)
    }
}
