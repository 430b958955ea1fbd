//! What a loop notes of a peer, beside what the hub has.

ghost use Rattle.std.specs.Prelude.{◌≡◌, ◌≢◌, ℕ, Some, IsSome, OnOk, slice_get};
ghost use Rattle.peer_loops.specs.Notes.{id_of, OthersKeep};

use crate::chosen::{Reader, Writer};
use hub_core::Peer;
use session_table::SessionId;
use std::alloc::{AllocError, Global};

/// What a loop notes of a peer.
#[derive(Clone, Copy, Debug, PartialEq, Eq)]
pub(crate) struct Note {
    /// Its session in the table, if it is there.
    pub(crate) id: Option<SessionId>,
    /// Whether it is among those with whom the loop goes on soon, or who wait for a place.
    pub(crate) is_listed: bool,
}

/// A peer on its way to another loop.
#[derive(Drop)]
pub(crate) struct Guest {
    pub(crate) peer: Peer<Reader, Writer>,
    pub(crate) id: Option<SessionId>,
}

/// The notes of all peers, by their keys.
#[derive(Drop)]
pub(crate) struct Notes {
    list: Vec<Note>,
}

impl Notes {
    /// Nothing is noted.
    pub(crate) fn new(alloc: Global) -> Notes {
        Notes {
            list: Vec::new(alloc),
        }
    }

    /// Notes that this peer has come, with this session, whoever had its key before.
    pub(crate) fn add(&mut self, key: usize, id: Option<SessionId>) -> Result<(), AllocError>
        ensures noted { OnOk result (id_of self.new.list.items key ≡ id) }
        ensures others { OthersKeep self.old.list.items self.new.list.items key }
    {
        if key >= self.list.len() {
            self.list.resize(key.saturating_add(1), NONE)?;
        }
        if let Some(note) = self.list.get_mut(key) {
            *note = Note {
                id,
                is_listed: false,
            };
        }
        Ok(())
    }

    /// Its session in the table, if it is there.
    pub(crate) fn id(&self, key: usize) -> Option<SessionId>
        ensures { result ≡ id_of self.now.list.items key }
    {
        self.list.get(key)?.id
    }

    /// Its session is in the table.
    pub(crate) fn book(&mut self, key: usize, id: SessionId)
        ensures booked { IsSome (slice_get self.old.list.items key) → id_of self.new.list.items key ≡ Some id }
        ensures others { OthersKeep self.old.list.items self.new.list.items key }
    {
        if let Some(note) = self.list.get_mut(key) {
            note.id = Some(id);
        }
    }

    /// Whether it was listed; from now on it is, or it is not.
    pub(crate) fn set_listed(&mut self, key: usize, is_listed: bool) -> bool
        ensures { (k : ℕ) → id_of self.new.list.items k ≡ id_of self.old.list.items k }
    {
        let Some(note) = self.list.get_mut(key) else {
            return is_listed;
        };
        let before = note.is_listed;
        note.is_listed = is_listed;
        before
    }
}

const NONE: Note = Note {
    id: None,
    is_listed: false,
};
