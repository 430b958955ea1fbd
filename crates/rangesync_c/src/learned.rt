//! What a session learned.

ghost use Rattle.std.specs.Prelude.{◌≡◌, ◌≢◌, ◌≤◌, ◌<◌, ◌⊎◌, true, Some, None, Err, IfOk, IfErr};
ghost use Rattle.std.specs.Prelude.{length, take, slice_get};
ghost use Rattle.rangesync_c.specs.SessionStates.{learned_in, state_in};
ghost use Rattle.session_core.specs.declared.state.State.TheVariants as states;
ghost use Rattle.rangesync_c.specs.Meaning.{IfSession, no_session, IsNoPlace};

use crate::codes::{FINE, NOT_THERE, OTHER_KIND};
use crate::held::{Held, Thing};
use crate::items::write_item;
use core::mem::replace_with;
use item_core::Item;

/// How many items were learned that only this side has, and how many that only the other side has.
fn counts_of(thing: &Thing) -> Result<(usize, usize), u32>
    ensures number { IfErr result (λ code. code ≢ 0) }
    ensures counts { IfSession thing.now (λ s. IfOk result (λ n.
        (n.0 ≡ length (learned_in s).ours) × (n.1 ≡ length (learned_in s).theirs))) }
    ensures ended { IfOk result (λ _. IfSession thing.now (λ s. state_in s ≡ states.Ended)) }
    ensures not_yet { IfErr result (λ code. IfSession thing.now (λ s.
        (code ≡ 98) × (state_in s ≢ states.Ended))) }
    ensures kind { no_session thing.now ≡ true → result ≡ Err 99 }
{
    let Thing::Session(session) = thing else {
        return Err(OTHER_KIND);
    };
    match session.learned() {
        Some(learned) => Ok((learned.ours().len(), learned.theirs().len())),
        None => Err(NOT_THERE),
    }
}

/// Says how many items were learned that only this side has, and how many that only the other side has. 98 where the
/// session has not ended.
#[unsafe(no_mangle)]
pub extern "C" fn rs_session_learned(
    session: &mut Held,
    ours: &mut usize,
    theirs: &mut usize,
) -> u32
    ensures counts { result ≡ 0 → IfSession session.old.value (λ s.
        (ours.new ≡ length (learned_in s).ours) × (theirs.new ≡ length (learned_in s).theirs)) }
    ensures ended { result ≡ 0 → IfSession session.old.value (λ s. state_in s ≡ states.Ended) }
    ensures not_yet { result ≢ 0 → IfSession session.old.value (λ s.
        (result ≡ 98) × (state_in s ≢ states.Ended)) }
    ensures unsaid { result ≢ 0 → (ours.new ≡ ours.old) × (theirs.new ≡ theirs.old) }
    ensures kind { no_session session.old.value ≡ true → result ≡ 99 }
    ensures same { session.new.value ≡ session.old.value }
{
    let counts = replace_with(session, (), |session, _nothing| {
        let thing = session.into_thing();
        let counts = counts_of(&thing);
        (Held::of(thing), counts)
    });
    match counts {
        Ok((own, other)) => {
            *ours = own;
            *theirs = other;
            FINE
        }
        Err(code) => code,
    }
}

/// The item at this place among those that only this side has.
fn own_at(thing: &Thing, place: usize) -> Result<Item, u32>
    ensures number { IfErr result (λ code. code ≢ 0) }
    ensures item { IfSession thing.now (λ s. IfOk result (λ x. slice_get (learned_in s).ours place ≡ Some x)) }
    ensures ended { IfSession thing.now (λ s. IfOk result (λ _. state_in s ≡ states.Ended)) }
    ensures none { IfSession thing.now (λ s. IfErr result (λ code. (code ≡ 98)
        × (state_in s ≡ states.Ended → slice_get (learned_in s).ours place ≡ None))) }
    ensures kind { no_session thing.now ≡ true → result ≡ Err 99 }
{
    let Thing::Session(session) = thing else {
        return Err(OTHER_KIND);
    };
    let Some(learned) = session.learned() else {
        return Err(NOT_THERE);
    };
    match learned.ours().get(place) {
        Some(item) => Ok(item),
        None => Err(NOT_THERE),
    }
}

/// The item at this place among those that only the other side has.
fn other_at(thing: &Thing, place: usize) -> Result<Item, u32>
    ensures number { IfErr result (λ code. code ≢ 0) }
    ensures item { IfSession thing.now (λ s. IfOk result (λ x. slice_get (learned_in s).theirs place ≡ Some x)) }
    ensures ended { IfSession thing.now (λ s. IfOk result (λ _. state_in s ≡ states.Ended)) }
    ensures none { IfSession thing.now (λ s. IfErr result (λ code. (code ≡ 98)
        × (state_in s ≡ states.Ended → slice_get (learned_in s).theirs place ≡ None))) }
    ensures kind { no_session thing.now ≡ true → result ≡ Err 99 }
{
    let Thing::Session(session) = thing else {
        return Err(OTHER_KIND);
    };
    let Some(learned) = session.learned() else {
        return Err(NOT_THERE);
    };
    match learned.theirs().get(place) {
        Some(item) => Ok(item),
        None => Err(NOT_THERE),
    }
}

/// Writes the item at this place, from 0, of those that only this side has, and says its length. 98 where there is
/// none, where the session has not ended, or where there is no room for it: 64 bytes are enough.
#[unsafe(no_mangle)]
pub extern "C" fn rs_session_ours(
    session: &mut Held,
    place: usize,
    room: &mut [u8],
    used: &mut usize,
) -> u32
    ensures item { result ≡ 0 → IfSession session.old.value (λ s.
        slice_get (learned_in s).ours place ≡ Some (take used.new room.new)) }
    ensures ended { result ≡ 0 → IfSession session.old.value (λ s. state_in s ≡ states.Ended) }
    ensures refused { result ≢ 0 → IfSession session.old.value (λ s. (result ≡ 98) × (state_in s ≡ states.Ended →
        IsNoPlace (learned_in s).ours place (length room.old) used.new result)) }
    ensures few { result ≡ 0 → used.new ≤ length room.old }
    ensures unsaid { result ≢ 0 → (used.new ≡ used.old) ⊎ (length room.old < used.new) }
    ensures kind { no_session session.old.value ≡ true → result ≡ 99 }
    ensures failed { result ≢ 0 → room.new ≡ room.old }
    ensures same { session.new.value ≡ session.old.value }
{
    let found = replace_with(session, place, |session, place| {
        let thing = session.into_thing();
        let found = own_at(&thing, place);
        (Held::of(thing), found)
    });
    match found {
        Ok(item) => write_item(&item, room, used),
        Err(code) => code,
    }
}

/// Writes the item at this place, from 0, of those that only the other side has, as `rs_session_ours` does.
#[unsafe(no_mangle)]
pub extern "C" fn rs_session_theirs(
    session: &mut Held,
    place: usize,
    room: &mut [u8],
    used: &mut usize,
) -> u32
    ensures item { result ≡ 0 → IfSession session.old.value (λ s.
        slice_get (learned_in s).theirs place ≡ Some (take used.new room.new)) }
    ensures ended { result ≡ 0 → IfSession session.old.value (λ s. state_in s ≡ states.Ended) }
    ensures refused { result ≢ 0 → IfSession session.old.value (λ s. (result ≡ 98) × (state_in s ≡ states.Ended →
        IsNoPlace (learned_in s).theirs place (length room.old) used.new result)) }
    ensures few { result ≡ 0 → used.new ≤ length room.old }
    ensures unsaid { result ≢ 0 → (used.new ≡ used.old) ⊎ (length room.old < used.new) }
    ensures kind { no_session session.old.value ≡ true → result ≡ 99 }
    ensures failed { result ≢ 0 → room.new ≡ room.old }
    ensures same { session.new.value ≡ session.old.value }
{
    let found = replace_with(session, place, |session, place| {
        let thing = session.into_thing();
        let found = other_at(&thing, place);
        (Held::of(thing), found)
    });
    match found {
        Ok(item) => write_item(&item, room, used),
        Err(code) => code,
    }
}
