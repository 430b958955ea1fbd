//! Sessions.

ghost use Rattle.std.specs.Prelude.{◌≡◌, ◌≢◌, ◌≤◌, ◌<◌, ◌⊎◌, true, false, Ok, Err};
ghost use Rattle.std.specs.Prelude.{IsSomeAnd, IfOk, IfErr, IfSome, IfNone, length, take, drop, min};
ghost use Rattle.rangesync_c.specs.SessionStates.{Opens, Changes, PushesTo, Finishes, MakesDue, TakesOff, Pulls};
ghost use Rattle.rangesync_c.specs.SessionStates.{ready_of, due_of, state_in, bound_of, sent_by};
ghost use Rattle.session_core.specs.Sessions.{is_open};
ghost use Rattle.rangesync_c.specs.Meaning.{IfVersion, IfSession, IsSession, no_version, no_session};
ghost use Rattle.rangesync_c.specs.Meaning.{side_number, profile_number, state_number, state_code};
ghost use Rattle.rangesync_c.specs.Meaning.{NamesBoth, NamesNone, IsUnopened};

use crate::any_session::{AnySession, SessionProfile};
use crate::codes::{FINE, MEMORY, NOT_THERE, OTHER_KIND};
use crate::held::{Held, Slot, Thing, thing_out};
use core::mem::replace_with;
use ends_core::Side;
use std::alloc::{AllocError, Global};

/// The role of a number: 0 speaks first, 1 is spoken to first.
fn side_of(number: u32) -> Option<Side>
    ensures side { IfSome result (λ side. (side_number side ≡ number) × (number ≤ 1)) }
    ensures none { IfNone result (1 < number) }
{
    match number {
        0 => Some(Side::Initiator),
        1 => Some(Side::Responder),
        _ => None,
    }
}

/// The wire profile of a number, 1 or 2.
fn profile_of(number: u32) -> Option<SessionProfile>
    ensures profile { IfSome result (λ profile. (profile_number profile ≡ number) × (1 ≤ number) × (number ≤ 2)) }
    ensures none { IfNone result ((number ≡ 0) ⊎ (2 < number)) }
{
    match number {
        1 => Some(SessionProfile::One),
        2 => Some(SessionProfile::Two),
        _ => None,
    }
}

/// The role and the profile of their numbers.
fn side_by(role: u32, profile: u32) -> Option<(Side, SessionProfile)>
    ensures side { IfSome result (λ o. (side_number o.0 ≡ role) × (profile_number o.1 ≡ profile)) }
    ensures both { IfSome result (λ _. NamesBoth role profile) }
    ensures none { IfNone result (NamesNone role profile) }
{
    let side = side_of(role)?;
    let profile = profile_of(profile)?;
    Some((side, profile))
}

/// A session over a version. 98 for a number of no role or profile, and else 90.
fn session_over(alloc: Global, thing: &Thing, role: u32, profile: u32) -> Result<AnySession, u32>
    ensures number { IfErr result (λ code. code ≢ 0) }
    ensures opened { IfVersion thing.now (λ v. IfOk result (λ s. (side : _) × (wire : _)
        × (side_number side ≡ role) × (profile_number wire ≡ profile) × Opens v side wire s)) }
    ensures both { IfVersion thing.now (λ _. IfOk result (λ _. NamesBoth role profile)) }
    ensures refused { IfVersion thing.now (λ _. IfErr result (λ code. IsUnopened role profile code)) }
    ensures kind { no_version thing.now ≡ true → result ≡ Err 99 }
{
    let Thing::Version(version) = thing else {
        return Err(OTHER_KIND);
    };
    let Some((side, profile)) = side_by(role, profile) else {
        return Err(NOT_THERE);
    };
    let Ok(version) = version.copy(alloc) else {
        return Err(MEMORY);
    };
    match AnySession::open(alloc, version, side, profile) {
        Ok(session) => Ok(session),
        Err(AllocError) => Err(MEMORY),
    }
}

/// Opens a session over a version: the role is 0 where it speaks first, 1 where it is spoken to first, and the profile
/// 1 or 2. 98 for another number, and else 90.
#[unsafe(no_mangle)]
pub extern "C" fn rs_session_open(
    alloc: Global,
    version: &mut Held,
    role: u32,
    profile: u32,
    out: &mut Slot,
) -> u32
    ensures opened { result ≡ 0 → IfVersion version.old.value (λ v. IsSomeAnd out.new.value (λ made.
        IsSession made (λ s. (side : _) × (wire : _) × (side_number side ≡ role)
        × (profile_number wire ≡ profile) × Opens v side wire s))) }
    ensures refused { result ≢ 0 → IfVersion version.old.value (λ _. IsUnopened role profile result) }
    ensures kind { no_version version.old.value ≡ true → result ≡ 99 }
    ensures failed { result ≢ 0 → out.new.value ≡ out.old.value }
    ensures same { version.new.value ≡ version.old.value }
{
    let opened = replace_with(version, (role, profile), |version, (role, profile)| {
        let thing = version.into_thing();
        let opened = session_over(alloc, &thing, role, profile);
        (Held::of(thing), opened)
    });
    match opened {
        Ok(session) => thing_out(alloc, Thing::Session(session), out),
        Err(code) => code,
    }
}

/// Pushes bytes to a session.
fn push_to(alloc: Global, thing: &mut Thing, bytes: &[u8]) -> Result<usize, u32>
    ensures number { IfErr result (λ code. code ≢ 0) }
    ensures pushed { IfOk result (λ n. IfSession thing.old (λ s. IsSession thing.new (λ t.
        Changes s t (PushesTo (take n bytes.now))))) }
    ensures took { IfOk result (λ n. n ≤ length bytes.now) }
    ensures some { IfOk result (λ n. 0 < length bytes.now → 0 < n) }
    ensures all { IfOk result (λ n. IfSession thing.new (λ t.
        is_open (state_in t) ≡ false → n ≡ length bytes.now)) }
    ensures after { IfSession thing.old (λ s. is_open (state_in s) ≡ false →
        (result ≡ Ok (length bytes.now)) × (thing.new ≡ thing.old)) }
    ensures memory { IfErr result (λ code. IfSession thing.old (λ _. code ≡ 90)) }
    ensures kind { no_session thing.old ≡ true → result ≡ Err 99 }
    ensures failed { IfErr result (λ _. thing.new ≡ thing.old) }
{
    let Thing::Session(session) = thing else {
        return Err(OTHER_KIND);
    };
    match session.push(alloc, bytes) {
        Ok(taken) => Ok(taken),
        Err(AllocError) => Err(MEMORY),
    }
}

/// Pushes bytes of the peer, cut in any way, and says how many were taken: all, unless memory ran out; push the rest
/// again later. 90 where none was taken, and nothing has changed.
#[unsafe(no_mangle)]
pub extern "C" fn rs_session_push(
    alloc: Global,
    session: &mut Held,
    bytes: &[u8],
    taken: &mut usize,
) -> u32
    ensures pushed { result ≡ 0 → IfSession session.old.value (λ s. IsSession session.new.value (λ t.
        Changes s t (PushesTo (take taken.new bytes.now)))) }
    ensures took { result ≡ 0 → taken.new ≤ length bytes.now }
    // Some of the bytes are taken, and all of them where the session goes no further.
    ensures some { result ≡ 0 → 0 < length bytes.now → 0 < taken.new }
    ensures all { result ≡ 0 → IfSession session.new.value (λ t.
        is_open (state_in t) ≡ false → taken.new ≡ length bytes.now) }
    ensures after { IfSession session.old.value (λ s. is_open (state_in s) ≡ false →
        (result ≡ 0) × (session.new.value ≡ session.old.value)) }
    ensures memory { result ≢ 0 → IfSession session.old.value (λ _. result ≡ 90) }
    ensures kind { no_session session.old.value ≡ true → result ≡ 99 }
    ensures failed { result ≢ 0 → session.new.value ≡ session.old.value }
    ensures unsaid { result ≢ 0 → taken.new ≡ taken.old }
{
    let pushed = replace_with(session, bytes, |session, bytes| {
        let mut thing = session.into_thing();
        let pushed = push_to(alloc, thing.as_mut(), bytes);
        (Held::of(thing), pushed)
    });
    match pushed {
        Ok(count) => {
            *taken = count;
            FINE
        }
        Err(code) => code,
    }
}

/// Says that the bytes of a session's peer have ended.
fn finish(thing: &mut Thing) -> u32
    ensures finished { result ≡ 0 → IfSession thing.old (λ s. IsSession thing.new (λ t. Changes s t Finishes)) }
    ensures fine { IfSession thing.old (λ _. result ≡ 0) }
    ensures kind { no_session thing.old ≡ true → (result ≡ 99) × (thing.new ≡ thing.old) }
{
    match thing {
        Thing::Session(session) => {
            session.finish();
            FINE
        }
        _ => OTHER_KIND,
    }
}

/// Says that the peer's bytes end here: where the session has not ended, it is refused 3.
#[unsafe(no_mangle)]
pub extern "C" fn rs_session_finish(session: &mut Held) -> u32
    ensures finished { result ≡ 0 → IfSession session.old.value (λ s. IsSession session.new.value (λ t.
        Changes s t Finishes)) }
    ensures fine { IfSession session.old.value (λ _. result ≡ 0) }
    ensures kind { no_session session.old.value ≡ true →
        (result ≡ 99) × (session.new.value ≡ session.old.value) }
{
    replace_with(session, (), |session, _nothing| {
        let mut thing = session.into_thing();
        let answer = finish(thing.as_mut());
        (Held::of(thing), answer)
    })
}

/// How a session stands: 0 open, 1 ended, 2 refused by this side, 3 refused by the peer; and the number, or 0.
fn state_of(thing: &Thing) -> Result<(u32, u32), u32>
    ensures number { IfErr result (λ code. code ≢ 0) }
    ensures stands { IfSession thing.now (λ s. IfOk result (λ n.
        (n.0 ≡ state_number (state_in s)) × (n.1 ≡ state_code (state_in s)))) }
    ensures fine { IfSession thing.now (λ _. IfErr result (λ _. ⊥)) }
    ensures kind { no_session thing.now ≡ true → result ≡ Err 99 }
{
    let Thing::Session(session) = thing else {
        return Err(OTHER_KIND);
    };
    Ok(match session.state() {
        session_core::State::Open => (0, 0),
        session_core::State::Ended => (1, 0),
        session_core::State::Refused(code) => (2, u32::from(code)),
        session_core::State::PeerRefused(code) => (3, u32::from(code)),
    })
}

/// Says how a session stands: 0 open, 1 ended, 2 refused by this side, 3 refused by the peer; and the number of the
/// refusal, or 0.
#[unsafe(no_mangle)]
pub extern "C" fn rs_session_state(session: &mut Held, state: &mut u32, code: &mut u32) -> u32
    ensures stands { result ≡ 0 → IfSession session.old.value (λ s.
        (state.new ≡ state_number (state_in s)) × (code.new ≡ state_code (state_in s))) }
    ensures fine { IfSession session.old.value (λ _. result ≡ 0) }
    ensures unsaid { result ≢ 0 → (state.new ≡ state.old) × (code.new ≡ code.old) }
    ensures kind { no_session session.old.value ≡ true → result ≡ 99 }
    ensures same { session.new.value ≡ session.old.value }
{
    let stands = replace_with(session, (), |session, _nothing| {
        let thing = session.into_thing();
        let stands = state_of(&thing);
        (Held::of(thing), stands)
    });
    match stands {
        Ok((number, refusal)) => {
            *state = number;
            *code = refusal;
            FINE
        }
        Err(code) => code,
    }
}

/// Makes the text of what is due, and copies the front of it.
fn front_of(alloc: Global, thing: &mut Thing, most: usize) -> Result<Vec<u8>, u32>
    ensures number { IfErr result (λ code. code ≢ 0) }
    ensures front { IfOk result (λ front. IfSession thing.old (λ s. IsSession thing.new (λ t.
        Changes s t MakesDue × (front.items ≡ take most (ready_of t))))) }
    ensures few { IfOk result (λ front. length front.items ≤ most) }
    ensures memory { IfErr result (λ code. IfSession thing.old (λ _. code ≡ 90)) }
    ensures kind { no_session thing.old ≡ true → result ≡ Err 99 }
    ensures failed { IfErr result (λ _. (thing.new ≡ thing.old)
        ⊎ IfSession thing.old (λ s. IsSession thing.new (λ t. Changes s t MakesDue))) }
{
    let Thing::Session(session) = thing else {
        return Err(OTHER_KIND);
    };
    let Ok(()) = session.make_due(alloc) else {
        return Err(MEMORY);
    };
    let due = session.due();
    match Vec::from_slice(alloc, &due[..due.len().min(most)]) {
        Ok(front) => Ok(front),
        Err(_) => Err(MEMORY),
    }
}

/// The same of the session that a handle stands for.
fn front_at(alloc: Global, session: &mut Held, most: usize) -> Result<Vec<u8>, u32>
    ensures number { IfErr result (λ code. code ≢ 0) }
    ensures front { IfOk result (λ front. IfSession session.old.value (λ s. IsSession session.new.value (λ t.
        Changes s t MakesDue × (front.items ≡ take most (ready_of t))))) }
    ensures few { IfOk result (λ front. length front.items ≤ most) }
    ensures memory { IfErr result (λ code. IfSession session.old.value (λ _. code ≡ 90)) }
    ensures kind { no_session session.old.value ≡ true → result ≡ Err 99 }
    ensures failed { IfErr result (λ _. (session.new.value ≡ session.old.value)
        ⊎ IfSession session.old.value (λ s. IsSession session.new.value (λ t. Changes s t MakesDue))) }
{
    replace_with(session, most, |session, most| {
        let mut thing = session.into_thing();
        let front = front_of(alloc, thing.as_mut(), most);
        (Held::of(thing), front)
    })
}

/// Takes so many bytes off what is due.
fn take_off(thing: &mut Thing, count: usize)
    ensures taken { IfSession thing.old (λ s. IsSession thing.new (λ t.
        Changes s t (TakesOff (min count (length (ready_of s)))))) }
    ensures kind { no_session thing.old ≡ true → thing.new ≡ thing.old }
{
    if let Thing::Session(session) = thing {
        let _taken = session.take(count);
    }
}

/// The same of the session that a handle stands for.
fn take_at(session: &mut Held, count: usize)
    ensures taken { IfSession session.old.value (λ s. IsSession session.new.value (λ t.
        Changes s t (TakesOff (min count (length (ready_of s)))))) }
    ensures kind { no_session session.old.value ≡ true → session.new.value ≡ session.old.value }
{
    replace_with(session, count, |session, count| {
        let mut thing = session.into_thing();
        take_off(thing.as_mut(), count);
        (Held::of(thing), ())
    })
}

/// Copies bytes to the front of the room.
fn copy_front(front: &[u8], room: &mut [u8])
    requires { length front.now ≤ length room.old }
    ensures copied { take (length front.now) room.new ≡ front.now }
    ensures rest { drop (length front.now) room.new ≡ drop (length front.now) room.old }
{
    room[..front.len()].copy_from_slice(front);
}

/// Moves bytes that are due to the peer to `room`, as many as fit, and says how many. 90 where memory ran out, and no
/// byte was moved.
#[unsafe(no_mangle)]
pub extern "C" fn rs_session_pull(
    alloc: Global,
    session: &mut Held,
    room: &mut [u8],
    used: &mut usize,
) -> u32
    ensures pulled { result ≡ 0 → IfSession session.old.value (λ s. IsSession session.new.value (λ t.
        Changes s t (Pulls (take used.new room.new)))) }
    ensures few { result ≡ 0 → used.new ≤ length room.old }
    ensures all { result ≡ 0 → IfSession session.old.value (λ s.
        used.new ≡ min (length room.old) (length (due_of s))) }
    ensures memory { result ≢ 0 → IfSession session.old.value (λ _. result ≡ 90) }
    ensures rest { drop used.new room.new ≡ drop used.new room.old }
    ensures kind { no_session session.old.value ≡ true → result ≡ 99 }
    ensures failed { result ≢ 0 → (room.new ≡ room.old) × (used.new ≡ used.old) }
    ensures stays { result ≢ 0 → (session.new.value ≡ session.old.value)
        ⊎ IfSession session.old.value (λ s. IsSession session.new.value (λ t. Changes s t MakesDue)) }
{
    let front = match front_at(alloc, session, room.len()) {
        Ok(front) => front,
        Err(code) => return code,
    };
    copy_front(&front, room);
    *used = front.len();
    take_at(session, front.len());
    FINE
}

/// How many messages a session said, and how many it says at most.
fn messages_of(thing: &Thing) -> Result<(u32, u32), u32>
    ensures number { IfErr result (λ code. code ≢ 0) }
    ensures sent { IfSession thing.now (λ s. IfOk result (λ n. (n.0 ≡ sent_by s) × (n.1 ≡ bound_of s))) }
    ensures fine { IfSession thing.now (λ _. IfErr result (λ _. ⊥)) }
    ensures kind { no_session thing.now ≡ true → result ≡ Err 99 }
{
    match thing {
        Thing::Session(session) => Ok((session.sent(), session.bound())),
        _ => Err(OTHER_KIND),
    }
}

/// Says how many messages a session said, and how many it says at most, whatever comes.
#[unsafe(no_mangle)]
pub extern "C" fn rs_session_messages(session: &mut Held, sent: &mut u32, bound: &mut u32) -> u32
    ensures sent { result ≡ 0 → IfSession session.old.value (λ s.
        (sent.new ≡ sent_by s) × (bound.new ≡ bound_of s)) }
    ensures fine { IfSession session.old.value (λ _. result ≡ 0) }
    ensures unsaid { result ≢ 0 → (sent.new ≡ sent.old) × (bound.new ≡ bound.old) }
    ensures kind { no_session session.old.value ≡ true → result ≡ 99 }
    ensures same { session.new.value ≡ session.old.value }
{
    let messages = replace_with(session, (), |session, _nothing| {
        let thing = session.into_thing();
        let messages = messages_of(&thing);
        (Held::of(thing), messages)
    });
    match messages {
        Ok((said, most)) => {
            *sent = said;
            *bound = most;
            FINE
        }
        Err(code) => code,
    }
}
