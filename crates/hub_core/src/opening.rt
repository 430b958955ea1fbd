//! The session of a peer whose first message has come.

ghost use Rattle.std.specs.Prelude.{◌≡◌, ◌≤◌, ◌||◌, ℕ, List, [], true, false, length, take, IfOk, OnOk};
ghost use Rattle.std.specs.Arc.{arc_value};
ghost use Rattle.definitions.specs.Ends.{is_live};
ghost use Rattle.definitions.specs.Engines.{Speaker, responding};
ghost use Rattle.ends_core.specs.Sides.{peer_of};
ghost use Rattle.session_core.specs.Sessions.{Knows};
ghost use Rattle.range_tree.specs.Trees.{tree_items};
ghost use Rattle.hub_core.specs.Greetings.{told};
ghost use Rattle.hub_core.specs.Peers.{Knowing, IsChosen, over_in};

use crate::greeting::Greeting;
use crate::phase::Phase;
use digest_core::WireSummary;
use ends_core::Responding;
use range_tree::Tree;
use session_core::Session;
use std::alloc::{AllocError, Global};
use std::sync::Arc;
use store_core::RangeStore;
use strategy_check::Accepted;

/// A session to which nothing was pushed, and of whose hello these bytes were taken.
fn started<S: RangeStore, F: WireSummary>(
    alloc: Global,
    accepted: Arc<Accepted>,
    store: S,
    said: usize,
) -> Result<Session<Responding, S, F>, AllocError>
    requires fits { length (S.content store) ≤ (arc_value accepted).table.cap }
    requires few { said ≤ 4 }
    ensures knows { IfOk result (λ c. Knows F.summary F.profile
        (responding F.summary (peer_of (arc_value accepted) (S.content store))) c [] (take said F.profile.hello)) }
    ensures listens { IfOk result (λ c. c.over ≡ false) }
{
    let Ok(mut session) = Session::<Responding, S, F>::respond(alloc, accepted, store) else {
        return Err(AllocError);
    };
    session.make_due(alloc)?;
    session.take(said);
    Ok(session)
}

/// Tells a session that the input has ended, if it has, and makes the text of all that is due.
fn finish_if<S: RangeStore, F: WireSummary>(
    alloc: Global,
    session: &mut Session<Responding, S, F>,
    over: bool,
) -> Result<(), AllocError>
    ensures knows { OnOk result ((s : Speaker F) (pushed taken : List ℕ) → is_live s.start.stage ≡ true →
        Knows F.summary F.profile s session.old pushed taken → Knows F.summary F.profile s session.new pushed taken) }
    ensures over { session.new.over ≡ (over || session.old.over) }
{
    if over {
        session.finish();
        return session.make_due(alloc);
    }
    session.make_due(alloc)
}

/// The session of this greeting: all of its bytes are pushed, and what was written of our hello is taken.
fn begun<S: RangeStore, F: WireSummary>(
    alloc: Global,
    accepted: Arc<Accepted>,
    store: S,
    greeting: &Greeting,
) -> Result<Session<Responding, S, F>, AllocError>
    requires { length (S.content store) ≤ (arc_value accepted).table.cap }
    ensures knows { IfOk result (λ c. Knows F.summary F.profile
        (responding F.summary (peer_of (arc_value accepted) (S.content store))) c greeting.now.came
        (take greeting.now.said F.profile.hello)) }
    ensures over { IfOk result (λ c. c.over ≡ greeting.now.over) }
{
    let mut session = started(alloc, accepted, store, greeting.said())?;
    let taken = session.push(alloc, greeting.came())?;
    if taken < greeting.came().len() {
        return Err(AllocError);
    }
    finish_if(alloc, &mut session, greeting.is_over())?;
    Ok(session)
}

/// The session of this greeting, in the profile that its hello chooses.
pub(crate) fn opened(
    alloc: Global,
    accepted: &Arc<Accepted>,
    store: Tree,
    greeting: &Greeting,
) -> Result<Phase, AllocError>
    requires { length (tree_items store) ≤ (arc_value accepted.now).table.cap }
    ensures knows { IfOk result (λ phase. Knowing (peer_of (arc_value accepted.now) (tree_items store)) phase
        greeting.now.came (told greeting.now)) }
    ensures chosen { IfOk result (λ phase. IsChosen phase greeting.now.came) }
    ensures over { IfOk result (λ phase. over_in phase ≡ greeting.now.over) }
{
    let accepted = Arc::try_clone(accepted)?;
    if greeting.is_counted() {
        let session = begun(alloc, accepted, store, greeting)?;
        return Ok(Phase::Counted(Box::new(alloc, session)?));
    }
    if greeting.is_compact() {
        let session = begun(alloc, accepted, store, greeting)?;
        return Ok(Phase::Compact(Box::new(alloc, session)?));
    }
    let session = begun(alloc, accepted, store, greeting)?;
    Ok(Phase::Plain(Box::new(alloc, session)?))
}
