//! Taking one part of a message.

ghost use Rattle.std.specs.Prelude.{◌≡◌, ◌≤◌, false, length, Err, None, OnOk, IfSome, IfNone};
ghost use Rattle.definitions.specs.Items.{Apart};
ghost use Rattle.definitions.specs.Ends.{own_of};
ghost use Rattle.definitions.specs.Messages as messages;
ghost use Rattle.definitions.specs.Messages.{open_ranges};
ghost use Rattle.definitions.specs.Placing as placing;
ghost use Rattle.definitions.specs.Talks.{nothing};
ghost use Rattle.definitions.specs.Taking.{taken};
ghost use Rattle.ends_core.specs.Drafts.{taken_at};
ghost use Rattle.ends_core.specs.EndStates.{stage_at};
ghost use Rattle.ends_core.specs.Turns.{told_in};
ghost use Rattle.place_core.specs.Placements.{due};

use crate::draft::{Draft, is_open};
use crate::turn::EndFault;
use digest_core::WireSummary;
use item_core::Item;
use place_core::{Cursor, Place};
use std::alloc::{AllocError, Global};
use store_core::RangeStore;
use strategy_core::Strategy;
use wire_core::Part;

/// The list that an Answer answers, which was placed from where the cursor stood. Nothing is looked for where the part
/// is another one.
fn answered<'a, F: WireSummary>(place: &'a Place<F>, before: &Cursor, part: &Part<F>) -> &'a [Item]
    ensures { messages.is_open part.now ≡ false → result.now ≡ due place.now.own before.now }
{
    if is_open(part) {
        return &[];
    }
    place.due(before)
}

/// Places a part, and adds its reply and what it tells. Where memory runs out all is as before; where the part is
/// refused the place keeps the refusal.
pub(crate) fn take_part<S: RangeStore, F: WireSummary>(
    alloc: Global,
    strategy: &Strategy,
    store: &S,
    place: &mut Place<F>,
    draft: &mut Draft<F>,
    part: &Part<F>,
) -> Result<(), EndFault>
    requires few { length (S.content store.now) ≤ strategy.now.cap }
    requires apart { Apart (open_ranges (own_of (stage_at place.old))) }
    ensures fault { IfSome (told_in result) (λ o. o ≡ placing.refusal (placing.next place.old.now part.now)) }
    ensures ok { OnOk result (taken_at place.new draft.new ≡ taken F.summary (record {
      peer = record { table = strategy.now; items = S.content store.now };
      stage = stage_at place.old;
      sent = 0;
      learned = nothing;
    }) (taken_at place.old draft.old) part.now) }
    ensures own { (place.new.first ≡ place.old.first) × (place.new.cut ≡ place.old.cut)
        × (place.new.own ≡ place.old.own) }
    ensures memory { result ≡ Err EndFault.Memory → (place.new ≡ place.old) × (draft.new ≡ draft.old) }
    ensures decided { IfNone (told_in result) (placing.refusal (placing.next place.old.now part.now) ≡ None) }
{
    let before = place.cursor();
    place.next(part)?;
    let listed = answered(place, &before, part);
    match draft.add(alloc, strategy, store, listed, part) {
        Ok(()) => Ok(()),
        Err(AllocError) => {
            place.return_to(&before);
            Err(EndFault::Memory)
        }
    }
}
