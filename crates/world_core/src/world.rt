//! A run of nodes and sessions.

ghost use Rattle.std.specs.Prelude.{◌≡◌, ◌<◌, ℕ, length, slice_get, take, map, option_map, IfOk, OnOk, OnErr};
ghost use Rattle.std.specs.List.{AllByRecursion};
ghost use Rattle.definitions.specs.Theorems.{IsNode};
ghost use Rattle.definitions.specs.Worlds as worlds;
ghost use Rattle.world_core.specs.Laws.{DeliveryLaws, Laws};
ghost use Rattle.world_core.specs.Live.{IsRunning, world_of};
ghost use Rattle.definitions.specs.Sets.{set_of};
ghost use Rattle.world_core.specs.Reports.{knowledge_of, report_of};
ghost use Rattle.world_core.specs.Runs.{HasFewMessages, IsWithinBound, KeepsLimits, LearnsBoth, LearnsNothingWrong};
ghost use Rattle.world_core.specs.Runs.{HasFewParts, Holds, Came, ComesFrom, HasItemsOfRuns, EndsByDeliveries};
ghost use Rattle.world_core.specs.Runs.{AbsorbsAll, SpreadsIn};
ghost use Rattle.world_core.specs.Steps.{did_of, side_of, step_of, added_in, absorbed_at, absorbing, AbsorbsSome};
ghost use Rattle.world_core.specs.Steps.{IsCutShort};

use crate::node::Node;
use crate::report::{Lists, Report};
use crate::session::RunSession;
use crate::setup::Setup;
use crate::step::{Did, Step};
use digest_core::{Fingerprint, WireSummary};
use ends_core::Side;
use item_core::Item;
use std::alloc::{AllocError, Global};
use std::marker::Model;
use store_core::spans::distinct;

/// A run of nodes and sessions.
#[derive(Drop)]
pub struct World<F: WireSummary = Fingerprint> {
    nodes: Vec<Node>,
    sessions: Vec<RunSession<F>>,
}

impl<F: WireSummary> Model for World<F> {
    ghost use Rattle.definitions.specs.Worlds as worlds;
    ghost use Rattle.world_core.specs.Live.{world_of, IsRunning};

    ghost Value = { worlds.World };

    ghost view = { λ a. world_of a.nodes.items a.sessions.items };

    ghost invariant = { λ a. IsRunning F.summary a.nodes.items a.sessions.items };
}

/// What the laws say of a session that is looked at.
fn look_laws<F: WireSummary>()
    ensures { Laws F.summary }
{
    laws::talks::sessions_tell::<F>();
}

/// And of one whose message is delivered.
fn delivery_laws<F: WireSummary>()
    ensures { DeliveryLaws F.summary }
{
    look_laws::<F>();
    laws::talks::sessions_go_on::<F>();
    laws::talks::sessions_keep_nodes::<F>();
}

/// The nodes of a run that begins.
fn live_nodes(alloc: Global, prepared: &[Node]) -> Result<Vec<Node>, AllocError>
    ensures { IfOk result (λ nodes. nodes.items ≡ prepared.now) }
{
    let mut nodes = Vec::with_capacity(alloc, prepared.len())?;
    for node in prepared {
        nodes.push(node.copy(alloc)?)?;
    }
    Ok(nodes)
}

impl<F: WireSummary> World<F> {
    /// The nodes of the setup, and no session.
    pub fn new(alloc: Global, setup: &Setup) -> Result<World<F>, AllocError>
        ensures { IfOk result (λ w. w ≡ worlds.start setup.now) }
    {
        Ok(World {
            nodes: live_nodes(alloc, setup.nodes())?,
            sessions: Vec::new(alloc),
        })
    }

    /// The number of sessions.
    ///
    /// What `run` says of each session holds of each of them: see `report`. Some steps made this world of nodes that
    /// may stand in a setup; and whatever nodes and steps made it, each item of a history was in one of the nodes, or
    /// is one that a step inserts. A session that is delivered 513 times more, one after another, has ended.
    pub fn sessions(&self) -> usize
        ensures count { result ≡ length self.now.sessions }
        ensures hold { AllByRecursion (Holds F.summary self.now) self.now.sessions }
        ensures came { Came F.summary self.now }
        ensures items { HasItemsOfRuns F.summary self.now }
        ensures ends { EndsByDeliveries F.summary self.now }
    {
        laws::talks::history_claim::<F>();
        laws::talks::sessions_end::<F>();
        laws::talks::headline::<F>();
        laws::talks::knowledge_is_sound::<F>();
        laws::talks::talks_begin::<F>();
        laws::talks::cost_claim::<F>();
        store_core::set_laws::set_of_a_list();
        self.sessions.len()
    }

    /// Puts an item into the history of a node.
    fn insert(&mut self, alloc: Global, node: usize, item: Item) -> Result<Did, AllocError>
        ensures world { OnOk result
            (self.new ≡ (worlds.insert_at self.old node item (slice_get self.old.nodes node)).0) }
        ensures did { IfOk result
            (λ did. did_of did ≡ (worlds.insert_at self.old node item (slice_get self.old.nodes node)).1) }
        ensures memory { OnErr result (self.new ≡ self.old) }
    {
        laws::talks::sessions_stay::<F>();
        laws::talks::sessions_keep_nodes::<F>();
        let Some(node) = self.nodes.get_mut(node) else {
            return Ok(Did::Idle);
        };
        node.insert(alloc, item)
    }

    /// Opens a session of two nodes.
    fn open(&mut self, alloc: Global, initiator: usize, responder: usize) -> Result<Did, AllocError>
        ensures world { OnOk result
            (self.new ≡ (worlds.open_at self.old initiator responder (slice_get self.old.nodes initiator)
            (slice_get self.old.nodes responder)).0) }
        ensures did { IfOk result
            (λ did. did_of did ≡ (worlds.open_at self.old initiator responder (slice_get self.old.nodes initiator)
            (slice_get self.old.nodes responder)).1) }
        ensures memory { OnErr result (self.new ≡ self.old) }
    {
        laws::talks::sessions_open::<F>();
        laws::talks::sessions_keep_nodes::<F>();
        if initiator == responder {
            return Ok(Did::Idle);
        }
        if initiator >= self.nodes.len() {
            return Ok(Did::Idle);
        }
        if responder >= self.nodes.len() {
            return Ok(Did::Idle);
        }
        let session = RunSession::open(alloc, &self.nodes[initiator], initiator, responder)?;
        let number = self.sessions.len();
        self.sessions.push(session)?;
        Ok(Did::Opened(number))
    }

    /// Delivers the message of a session that was made last.
    fn deliver(&mut self, alloc: Global, number: usize) -> Result<Did, AllocError>
        ensures world { OnOk result
            (self.new ≡ (worlds.deliver_at F.summary self.old number (slice_get self.old.sessions number)).0) }
        ensures did { IfOk result
            (λ did. did_of did ≡ (worlds.deliver_at F.summary self.old number
            (slice_get self.old.sessions number)).1) }
        ensures memory { OnErr result (self.new ≡ self.old) }
    {
        delivery_laws::<F>();
        let Some(session) = self.sessions.get_mut(number) else {
            return Ok(Did::Idle);
        };
        if session.delivered >= session.messages() {
            return Ok(Did::Idle);
        }
        session.deliver(alloc, &self.nodes[session.responder_node])
    }

    /// Puts items into the history of a node, one after another, until there is no room.
    fn absorb_items(
        &mut self,
        alloc: Global,
        node: usize,
        items: &[Item],
    ) -> Result<Did, AllocError>
        requires { node < length self.old.nodes }
        ensures world { OnOk result (self.new ≡ absorbing self.old node (worlds.node_at self.old node) items.now) }
        ensures added { IfOk result (λ did. did_of did ≡ worlds.Absorbed
            (absorbed_at self.old node items.now).added) }
        ensures memory { OnErr result
            ((count : ℕ)
            × (self.new ≡ absorbing self.old node (worlds.node_at self.old node) (take count items.now))) }
    {
        let mut added = 0;
        for item in items {
            let did = self.insert(alloc, node, *item)?;
            let Some(new) = added_by(did) else {
                return Ok(Did::Absorbed(added));
            };
            added += new;
        }
        Ok(Did::Absorbed(added))
    }

    /// Puts what a side of an ended session learned into the history of its node.
    fn absorb(&mut self, alloc: Global, number: usize, side: Side) -> Result<Did, AllocError>
        ensures world { OnOk result
            (self.new ≡ (worlds.absorb_at F.summary self.old (side_of side)
            (slice_get self.old.sessions number)).0) }
        ensures did { IfOk result
            (λ did. did_of did ≡ (worlds.absorb_at F.summary self.old (side_of side)
            (slice_get self.old.sessions number)).1) }
        ensures memory { OnErr result (AbsorbsSome F.summary self.old number (side_of side) self.new) }
    {
        look_laws::<F>();
        let Some(session) = self.sessions.get(number) else {
            return Ok(Did::Idle);
        };
        if session.delivered < session.messages() {
            return Ok(Did::Idle);
        }
        let node = session.node(side);
        let items = rising(alloc, session.learned(side))?;
        self.absorb_items(alloc, node, &items)
    }

    /// Does a step, and says what it did. Where memory runs out nothing is changed, but that the Absorb of an ended
    /// session keeps what it put in before.
    pub fn step(&mut self, alloc: Global, step: Step) -> Result<Did, AllocError>
        ensures world { OnOk result (self.new ≡ (worlds.step F.summary self.old (step_of step)).0) }
        ensures did { IfOk result (λ did. did_of did ≡ (worlds.step F.summary self.old (step_of step)).1) }
        ensures memory { OnErr result (IsCutShort F.summary self.old (step_of step) self.new) }
        ensures absorbed { OnOk result (AbsorbsAll F.summary self.old (step_of step) self.new) }
    {
        laws::talks::absorb_claim::<F>();
        self.do_step(alloc, step)
    }

    /// Does a step, and says what it did.
    fn do_step(&mut self, alloc: Global, step: Step) -> Result<Did, AllocError>
        ensures world { OnOk result (self.new ≡ (worlds.step F.summary self.old (step_of step)).0) }
        ensures did { IfOk result (λ did. did_of did ≡ (worlds.step F.summary self.old (step_of step)).1) }
        ensures memory { OnErr result (IsCutShort F.summary self.old (step_of step) self.new) }
    {
        match step {
            Step::Insert(node, item) => self.insert(alloc, node, item),
            Step::Open(initiator, responder) => self.open(alloc, initiator, responder),
            Step::Deliver(session) => self.deliver(alloc, session),
            Step::Absorb(session, side) => self.absorb(alloc, session, side),
        }
    }

    /// What is shown of a session, if there is one with this number.
    ///
    /// The session has few messages, by the ranks of both tables and by the bound that is shown; no list in it is
    /// longer than its sender's limit; nothing wrong is learned, and once it has ended, where no unequal compared
    /// ranges share a fingerprint, both differences. No message has more parts than the widths of both tables allow for
    /// each item that only one of the two versions has, or than the first one has, and no more are shown. Whatever
    /// nodes
    /// and steps made this world, each item of a history was in one of the nodes, or is one that a step inserts.
    pub fn report(&self, session: usize) -> Option<Report<'_>>
        ensures report { option_map report_of result ≡ worlds.report F.summary self.now session }
        ensures holds { (s : worlds.Session) → slice_get self.now.sessions session ≡ Some s →
            Holds F.summary self.now s }
        ensures items { HasItemsOfRuns F.summary self.now }
    {
        let _ = self.sessions(); // proof only: what holds of each session
        look_laws::<F>();
        let session = self.sessions.get(session)?;
        Some(session.report())
    }
}

/// How many items an insert put in, unless there is no room.
fn added_by(did: Did) -> Option<usize>
    ensures { result ≡ added_in (did_of did) }
{
    match did {
        Did::Added(_) => Some(1),
        Did::Full => None,
        _ => Some(0),
    }
}

/// The items of the other side in rising order, each one once.
fn rising(alloc: Global, learned: Lists<'_>) -> Result<Vec<Item>, AllocError>
    ensures { IfOk result (λ sorted. sorted.items ≡ set_of (knowledge_of learned.entry).theirs) }
{
    Ok(distinct(learned.theirs(alloc)?))
}

/// The world after these steps, from the setup on.
fn run_steps<F: WireSummary>(
    alloc: Global,
    setup: &Setup,
    steps: &[Step],
) -> Result<World<F>, AllocError>
    ensures { IfOk result (λ w. w ≡ worlds.run F.summary (worlds.start setup.now) (map step_of steps.now)) }
{
    let mut world = World::new(alloc, setup)?;
    for step in steps {
        world.step(alloc, *step)?;
    }
    Ok(world)
}

/// The world after these steps, from the setup on.
///
/// Each session of it has few messages, by the ranks of both tables and by the bound that its report shows; no list in
/// it is longer than its sender's limit; nothing wrong is learned, and once it has ended, where no unequal compared
/// ranges share a fingerprint, both differences. No message has more parts than the widths of both tables allow for
/// each item that only one of the two versions has, or one. Each item of a history was there at the start, or was
/// inserted. An item travels along sessions, each opened after the last one was absorbed by a node below its cap.
pub fn run<F: WireSummary>(
    alloc: Global,
    setup: &Setup,
    steps: &[Step],
) -> Result<World<F>, AllocError>
    ensures world { IfOk result (λ w. w ≡ worlds.run F.summary (worlds.start setup.now) (map step_of steps.now)) }
    ensures few { IfOk result (λ w. AllByRecursion (HasFewMessages F.summary w) w.sessions) }
    ensures bound { IfOk result (λ w. AllByRecursion (IsWithinBound F.summary w) w.sessions) }
    ensures short { IfOk result (λ w. AllByRecursion (KeepsLimits F.summary w) w.sessions) }
    ensures both { IfOk result (λ w. AllByRecursion (LearnsBoth F.summary w) w.sessions) }
    ensures sound { IfOk result (λ w. AllByRecursion (LearnsNothingWrong F.summary w) w.sessions) }
    ensures cost { IfOk result (λ w. AllByRecursion (HasFewParts F.summary w) w.sessions) }
    ensures items { IfOk result (λ w. ComesFrom setup.now (map step_of steps.now) w) }
    ensures spread { IfOk result (λ w. SpreadsIn F.summary setup.now (map step_of steps.now) w) }
{
    laws::talks::spread_claim::<F>();
    let world = run_steps(alloc, setup, steps)?;
    let _ = world.sessions(); // proof only: what holds of each session
    Ok(world)
}
