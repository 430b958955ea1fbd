use ends_core::Side;
use item_core::Item;

/// What may happen. Nodes and sessions go by their number, from 0.
#[derive(Clone, Copy, Debug, PartialEq, Eq)]
pub enum Step {
    /// The item is put into the node's history, if it is new and there is room.
    Insert(usize, Item),
    /// A session of an initiator and a responder begins: the initiator's version is chosen, and its message made.
    Open(usize, usize),
    /// The session's last message is handed over. At the first the responder's version is chosen.
    Deliver(usize),
    /// What the side of an ended session learned is put into the history of its node, in rising order, until there is
    /// no room.
    Absorb(usize, Side),
}

/// What a step did.
#[derive(Clone, Copy, Debug, PartialEq, Eq)]
pub enum Did {
    /// Nothing: there is no such node or session, the nodes of an Open are one, the session of a Deliver has ended, or
    /// that of an Absorb has not.
    Idle,
    /// The item is new: the history has become this version.
    Added(usize),
    /// The item was there already.
    Already,
    /// There is no room for the item.
    Full,
    /// The session with this number has begun.
    Opened(usize),
    /// The message was answered.
    Sent,
    /// The message was the last one.
    Over,
    /// So many items were new.
    Absorbed(usize),
}
