//! A session of a run.

ghost use Rattle.std.specs.Prelude.{◌≡◌, ◌<◌, ◌^◌, length, IfOk, IfSome, OnOk, OnErr};
ghost use Rattle.definitions.specs.Ends.{answer};
ghost use Rattle.laws.specs.Growing as growing;
ghost use Rattle.ends_core.specs.EndStates.{HasNone};
ghost use Rattle.ends_core.specs.Turns.{answer_in, answer_of, end_after};
ghost use Rattle.world_core.specs.Live.{session_of, made, beginning, responder_from, hearer, IsTaken, did_by, advanced};
ghost use Rattle.world_core.specs.Live.{heard_by, heard_by_responder, heard_by_initiator};
ghost use Rattle.world_core.specs.Steps.{did_of, side_of};
ghost use Rattle.world_core.specs.Reports.{knowledge_of, report_of};
ghost use Rattle.world_core.specs.Shown.{learned_in, learned_by, bound_by, shown};
ghost use Rattle.definitions.specs.Theorems.{node_of};

use crate::node::Node;
use crate::report::{Lists, Report};
use crate::step::Did;
use digest_core::WireSummary;
use ends_core::{EndFault, Initiator, Responder, Role, SessionEnd, Side, Turn};
use range_tree::Tree;
use std::alloc::{AllocError, Global};
use wire_core::Message;

/// A session of a run: its numbers, its ends, the message made last, and the greatest number of parts of a message.
#[derive(Drop)]
pub(crate) struct RunSession<F: WireSummary> {
    pub(crate) initiator_node: usize,
    pub(crate) responder_node: usize,
    pub(crate) initiator_version: usize,
    pub(crate) responder_version: Option<usize>,
    pub(crate) delivered: usize,
    pub(crate) first: Initiator<Tree, F>,
    pub(crate) second: Option<Responder<Tree, F>>,
    pub(crate) last: Message<F>,
    pub(crate) parts: usize,
}

/// What an end answered that does not refuse.
fn taken<F: WireSummary>(answered: Result<Turn<F>, EndFault>) -> Result<Turn<F>, AllocError>
    requires { IfSome (answer_in answered) IsTaken }
    ensures turn { IfOk result (λ turn. answer_in answered ≡ Some (answer_of turn)) }
    ensures memory { OnErr result (answer_in answered ≡ None) }
{
    match answered {
        Ok(turn) => Ok(turn),
        Err(EndFault::Memory) => Err(AllocError),
        Err(_) => unreachable!(),
    }
}

/// An end hears a message.
fn hear<R: Role, F: WireSummary>(
    alloc: Global,
    end: &mut SessionEnd<R, Tree, F>,
    message: &Message<F>,
) -> Result<Turn<F>, AllocError>
    requires none { HasNone end.old }
    requires taken { IsTaken (answer F.summary end.old.end message.now) }
    ensures turn { IfOk result (λ turn. answer_of turn ≡ answer F.summary end.old.end message.now) }
    ensures end { OnOk result (end.new ≡ end_after F.summary end.old message.now) }
    ensures memory { OnErr result (end.new ≡ end.old) }
{
    taken(end.receive(alloc, message))
}

/// The responder hears a message. Where there is none yet it begins, with the newest version of its node.
fn hear_at<F: WireSummary>(
    alloc: Global,
    second: &mut Option<Responder<Tree, F>>,
    node: &Node,
    message: &Message<F>,
) -> Result<Turn<F>, AllocError>
    requires none { HasNone (responder_from F.summary node.now second.old) }
    requires taken { IsTaken (answer F.summary (responder_from F.summary node.now second.old).end message.now) }
    ensures turn { IfOk result (λ turn. answer_of turn
        ≡ answer F.summary (responder_from F.summary node.now second.old).end message.now) }
    ensures end { OnOk result
        (second.new ≡ Some (end_after F.summary (responder_from F.summary node.now second.old) message.now)) }
    ensures memory { OnErr result (second.new ≡ second.old) }
{
    if let Some(end) = second {
        return hear(alloc, end, message);
    }
    let mut end = node.responder(alloc)?;
    let turn = hear(alloc, &mut end, message)?;
    *second = Some(end);
    Ok(turn)
}

/// What a responder learned so far.
fn learned_second<'b, F: WireSummary>(second: &'b Option<Responder<Tree, F>>) -> Lists<'b>
    ensures { knowledge_of result ≡ learned_in second.now }
{
    match second {
        Some(second) => Lists::of(second.learned()),
        None => Lists::nothing(),
    }
}

impl<F: WireSummary> RunSession<F> {
    /// A session that is opened at this node.
    pub(crate) fn open(
        alloc: Global,
        node: &Node,
        initiator_node: usize,
        responder_node: usize,
    ) -> Result<RunSession<F>, AllocError>
        ensures { IfOk result (λ l. l ≡ beginning F.summary initiator_node responder_node node.now) }
    {
        let (first, last) = node.initiator(alloc)?;
        let parts = last.parts().len();
        Ok(RunSession {
            initiator_node,
            responder_node,
            initiator_version: node.version(),
            responder_version: None,
            delivered: 0,
            first,
            second: None,
            last,
            parts,
        })
    }

    /// How many messages were made.
    pub(crate) fn messages(&self) -> usize
        ensures made { result ≡ made self.now }
        ensures few { result < 2 ^ 33 }
    {
        let answered = match &self.second {
            Some(second) => second.sent(),
            None => 0,
        };
        self.first.sent() as usize + answered as usize
    }

    /// The node of a side.
    pub(crate) fn node(&self, side: Side) -> usize
        ensures { result ≡ node_of (session_of self.now) (side_of side) }
    {
        match side {
            Side::Initiator => self.initiator_node,
            Side::Responder => self.responder_node,
        }
    }

    /// What a side learned so far.
    pub(crate) fn learned(&self, side: Side) -> Lists<'_>
        ensures { knowledge_of result ≡ learned_by self.now (side_of side) }
    {
        match side {
            Side::Initiator => Lists::of(self.first.learned()),
            Side::Responder => learned_second(&self.second),
        }
    }

    /// How many messages there may be, once the responder's version is chosen.
    fn bound(&self) -> Option<usize>
        ensures { result ≡ bound_by F.summary self.now }
    {
        let second = self.second.as_ref()?;
        let initiator = self.first.bound() as usize - 2;
        let responder = second.bound() as usize - 1;
        Some(3 + (2 * responder).min(2 * initiator + 1))
    }

    /// What is shown of the session.
    pub(crate) fn report(&self) -> Report<'_>
        ensures { report_of result ≡ shown F.summary self.now }
    {
        Report {
            initiator_node: self.initiator_node,
            responder_node: self.responder_node,
            messages: self.messages(),
            bound: self.bound(),
            parts: self.parts,
            ended: self.messages() == self.delivered,
            initiator_learned: self.learned(Side::Initiator),
            responder_learned: self.learned(Side::Responder),
        }
    }

    /// One message more was delivered, which was answered so.
    fn advance(&mut self, newest: usize, turn: Turn<F>) -> Did
        requires { self.old.delivered < 2 ^ 33 }
        ensures session { self.new ≡ advanced self.old newest (answer_of turn) }
        ensures did { did_of result ≡ did_by (answer_of turn) }
    {
        self.responder_version = Some(self.responder_version.unwrap_or(newest));
        self.delivered += 1;
        match turn {
            Turn::Reply(message) => {
                self.parts = self.parts.max(message.parts().len());
                self.last = message;
                Did::Sent
            }
            Turn::Over => Did::Over,
        }
    }

    /// The message made last is delivered to the responder.
    fn deliver_to_responder(&mut self, alloc: Global, node: &Node) -> Result<Did, AllocError>
        requires few { self.old.delivered < 2 ^ 33 }
        requires none { HasNone (responder_from F.summary node.now self.old.second) }
        requires taken { IsTaken
            (answer F.summary (responder_from F.summary node.now self.old.second).end self.old.last) }
        ensures session { OnOk result (self.new ≡ advanced (heard_by_responder F.summary self.old node.now)
            (length node.now.history) (answer F.summary (responder_from F.summary node.now self.old.second).end
            self.old.last)) }
        ensures did { IfOk result
            (λ did. did_of did ≡ did_by (answer F.summary (responder_from F.summary node.now self.old.second).end
            self.old.last)) }
        ensures memory { OnErr result (self.new ≡ self.old) }
    {
        let turn = hear_at(alloc, &mut self.second, node, &self.last)?;
        Ok(self.advance(node.version(), turn))
    }

    /// The message made last is delivered to the initiator.
    fn deliver_to_initiator(&mut self, alloc: Global, newest: usize) -> Result<Did, AllocError>
        requires few { self.old.delivered < 2 ^ 33 }
        requires none { HasNone self.old.first }
        requires taken { IsTaken (answer F.summary self.old.first.end self.old.last) }
        ensures session { OnOk result (self.new ≡ advanced (heard_by_initiator F.summary self.old) newest
            (answer F.summary self.old.first.end self.old.last)) }
        ensures did { IfOk result (λ did. did_of did ≡ did_by (answer F.summary self.old.first.end self.old.last)) }
        ensures memory { OnErr result (self.new ≡ self.old) }
    {
        let turn = hear(alloc, &mut self.first, &self.last)?;
        Ok(self.advance(newest, turn))
    }

    /// The message made last is delivered; its responder is at this node.
    pub(crate) fn deliver(&mut self, alloc: Global, node: &Node) -> Result<Did, AllocError>
        requires few { self.old.delivered < 2 ^ 33 }
        requires none { HasNone (hearer F.summary self.old node.now) }
        requires taken { IsTaken (answer F.summary (hearer F.summary self.old node.now).end self.old.last) }
        ensures session { OnOk result (self.new ≡ heard_by F.summary self.old node.now) }
        ensures did { IfOk result
            (λ did. did_of did ≡ did_by (answer F.summary (hearer F.summary self.old node.now).end self.old.last)) }
        ensures memory { OnErr result (self.new ≡ self.old) }
    {
        if is_even(self.delivered) {
            self.deliver_to_responder(alloc, node)
        } else {
            self.deliver_to_initiator(alloc, node.version())
        }
    }
}

/// Whether the number is even.
#[tactic(auto, using(crate::proofs::Parity::even_by_rem))]
fn is_even(number: usize) -> bool
    ensures { result ≡ growing.is_even number }
{
    number % 2 == 0
}
