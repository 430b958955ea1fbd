//! What an end keeps of the parts of a message that has not ended.

ghost use Rattle.std.specs.Prelude.{◌≡◌, ◌≤◌, length, OnOk, OnErr, IfOk};
ghost use Rattle.definitions.specs.Ends as ends;
ghost use Rattle.definitions.specs.Messages as messages;
ghost use Rattle.definitions.specs.Talks.{and_then};
ghost use Rattle.definitions.specs.Taking.{grown};
ghost use Rattle.ends_core.specs.Drafts.{drafted, nothing_drafted};
ghost use Rattle.ends_core.specs.EndStates.{stage_of, taken_of, none_at};
ghost use Rattle.ends_core.specs.Turns.{answer_of};
ghost use Rattle.ends_core.specs.Closing.{IsDue, IsTaking, drafted_answer};
ghost use Rattle.ends_core.specs.Sizes.{drafted_size};

use crate::learned::Learned;
use crate::learning::learn_part;
use crate::reply::Reply;
use crate::replying::reply_part;
use crate::size::known_size;
use crate::stage::Stage;
use crate::turn::{EndFault, Turn};
use digest_core::WireSummary;
use item_core::Item;
use place_core::Place;
use std::alloc::{AllocError, Global};
use std::marker::Model;
use store_core::RangeStore;
use strategy_core::Strategy;
use wire_core::{Part, PartKind};

/// What an end keeps of the parts of a message that has not ended, beside its place.
#[derive(Debug, Drop)]
pub(crate) struct Draft<F: WireSummary> {
    opens: bool,
    reply: Reply<F>,
    learned: Learned,
}

impl<F: WireSummary> Model for Draft<F> {
    ghost use Rattle.ends_core.specs.Drafts.{Drafted};

    ghost Value = { Drafted F };

    ghost view = { λ a. record { opens = a.opens; reply = a.reply; learned = a.learned } };
}

/// Adds what was learned and goes on with a reply; or nothing, where memory runs out.
fn add_both<F: WireSummary>(
    alloc: Global,
    learned: &mut Learned,
    fresh: &Learned,
    reply: &mut Reply<F>,
    more: Vec<Part<F>>,
) -> Result<(), AllocError>
    ensures learned { OnOk result (learned.new ≡ and_then learned.old fresh.now) }
    ensures ok { OnOk result (reply.new ≡ grown reply.old more.items) }
    ensures err { OnErr result ((learned.new ≡ learned.old) × (reply.new ≡ reply.old)) }
{
    let ours = learned.ours().len();
    let theirs = learned.theirs().len();
    learned.append(fresh)?;
    match reply.grow(alloc, more) {
        Ok(()) => Ok(()),
        Err(AllocError) => {
            learned.cut(ours, theirs);
            Err(AllocError)
        }
    }
}

/// Whether the part wants a reply.
pub(crate) fn is_open<F: WireSummary>(part: &Part<F>) -> bool
    ensures { result ≡ messages.is_open part.now }
{
    part.kind() != PartKind::Answer
}

/// Whether another message follows one of these parts.
fn has_open<F: WireSummary>(parts: &[Part<F>]) -> bool
    ensures { result ≡ messages.has_open parts.now }
{
    parts.iter().any(|part| is_open(part))
}

/// Where the session stands after an own message of these parts, of which the open ones are kept.
fn stage_after_reply<F: WireSummary>(
    alloc: Global,
    sent: &[Part<F>],
) -> Result<Stage<F>, AllocError>
    ensures { IfOk result (λ s. (stage_of s ≡ ends.stage_after_reply sent.now)
        × (taken_of s nothing_drafted ≡ none_at (ends.stage_after_reply sent.now))) }
{
    if !has_open(sent) {
        return Ok(Stage::Over);
    }
    Ok(Stage::Open(Place::after(alloc, sent)?))
}

impl<F: WireSummary> Draft<F> {
    /// Of no part.
    pub(crate) fn nothing(alloc: Global) -> Draft<F>
        ensures { result ≡ nothing_drafted }
    {
        Draft {
            opens: false,
            reply: Reply::nothing(alloc),
            learned: Learned::nothing(alloc),
        }
    }

    /// Adds a part, which answers this list if it is an Answer. Unchanged where memory runs out.
    pub(crate) fn add<S: RangeStore>(
        &mut self,
        alloc: Global,
        strategy: &Strategy,
        store: &S,
        listed: &[Item],
        part: &Part<F>,
    ) -> Result<(), AllocError>
        requires { length (S.content store.now) ≤ strategy.now.cap }
        ensures ok { OnOk result (self.new
            ≡ drafted F.summary (record { table = strategy.now; items = S.content store.now })
            self.old listed.now part.now) }
        ensures err { OnErr result (self.new ≡ self.old) }
    {
        let more = reply_part(alloc, strategy, store, part)?;
        let fresh = learn_part(alloc, listed, part, &more)?;
        add_both(alloc, &mut self.learned, &fresh, &mut self.reply, more)?;
        self.opens = self.opens || is_open(part);
        Ok(())
    }

    /// Adds what the parts tell to what was learned before. Both are unchanged where memory runs out; else only what is
    /// answered is left here.
    pub(crate) fn teach(&mut self, learned: &mut Learned) -> Result<(), AllocError>
        ensures ok { OnOk result (learned.new ≡ and_then learned.old self.old.learned) }
        ensures answer { OnOk result (drafted_answer self.new ≡ drafted_answer self.old) }
        ensures err { OnErr result ((learned.new ≡ learned.old) × (self.new ≡ self.old)) }
    {
        learned.take_in(&mut self.learned)
    }

    /// Where the session stands after the end of the message.
    pub(crate) fn stage(&self, alloc: Global) -> Result<Stage<F>, EndFault>
        ensures { IsDue (drafted_answer self.now) result }
    {
        if !self.opens {
            return Ok(Stage::Over);
        }
        let Some(parts) = self.reply.parts() else {
            return Err(EndFault::TooManyParts);
        };
        Ok(stage_after_reply(alloc, parts)?)
    }

    /// How many bytes of memory are counted for it: the reply so far, and what was learned.
    pub(crate) fn size(&self) -> u64
        ensures { result ≡ drafted_size self.now.reply self.now.learned }
    {
        self.reply.size().saturating_add(known_size(&self.learned))
    }

    /// What is answered at the end of the message.
    pub(crate) fn into_turn(self) -> Turn<F>
        requires { IsTaking (drafted_answer self) }
        ensures { answer_of result ≡ drafted_answer self }
    {
        if !self.opens {
            return Turn::Over;
        }
        Turn::Reply(self.reply.into_message())
    }
}
