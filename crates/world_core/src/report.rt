ghost use Rattle.std.specs.Prelude.{◌≡◌, IfOk};
ghost use Rattle.definitions.specs.Talks.{nothing};
ghost use Rattle.world_core.specs.Reports.{knowledge_of};

use ends_core::Learned;
use item_core::Item;
use std::alloc::{AllocError, Global};

/// What a side of a session learned.
#[derive(Clone, Copy, Debug)]
pub struct Lists<'a> {
    // None of a side that has not begun.
    learned: Option<&'a Learned>,
}

impl<'a> Lists<'a> {
    /// What was learned.
    pub(crate) fn of(learned: &'a Learned) -> Lists<'a>
        ensures { knowledge_of result ≡ learned.now }
    {
        Lists {
            learned: Some(learned),
        }
    }

    /// Nothing.
    pub(crate) fn nothing() -> Lists<'a>
        ensures { knowledge_of result ≡ nothing }
    {
        Lists { learned: None }
    }

    /// Own items that the other lacks, in the order learned.
    pub fn ours(self, alloc: Global) -> Result<Vec<Item>, AllocError>
        ensures { IfOk result (λ items. items.items ≡ (knowledge_of self.entry).ours) }
    {
        match self.learned {
            Some(learned) => learned.ours().to_vec(alloc),
            None => Ok(Vec::new(alloc)),
        }
    }

    /// Items of the other that are lacked here, in the order learned.
    pub fn theirs(self, alloc: Global) -> Result<Vec<Item>, AllocError>
        ensures { IfOk result (λ items. items.items ≡ (knowledge_of self.entry).theirs) }
    {
        match self.learned {
            Some(learned) => learned.theirs().to_vec(alloc),
            None => Ok(Vec::new(alloc)),
        }
    }
}

/// What is shown of a session.
#[derive(Clone, Copy, Debug)]
pub struct Report<'a> {
    /// The node that speaks first.
    pub initiator_node: usize,
    /// The node that is spoken to first.
    pub responder_node: usize,
    /// How many messages were made.
    pub messages: usize,
    /// How many messages there may be, once the responder's version is chosen: 3 + min(2r, 2p + 1) by the responder's
    /// rank r and the greatest rank p of a part of the first message.
    pub bound: Option<usize>,
    /// The greatest number of parts of a message.
    pub parts: usize,
    /// Whether each message was handed over, and none follows.
    pub ended: bool,
    /// What the initiator learned so far.
    pub initiator_learned: Lists<'a>,
    /// What the responder learned so far.
    pub responder_learned: Lists<'a>,
}
