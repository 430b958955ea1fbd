//! What a peer asks for before its hello.

ghost use Rattle.std.specs.Prelude.{◌≡◌, ◌≢◌, ◌⊎◌, ◌≤◌, true, false, Err, IsSomeAnd, IfOk, IfErr, length, take};
ghost use Rattle.definitions.specs.Items.{IsRange};
ghost use Rattle.shard_core.specs.Selectors.{selecting, selector_text, IsWhich};
ghost use Rattle.shard_core.specs.declared.selector.Selecting.TheVariants as said;
ghost use Rattle.rangesync_c.specs.ShardStates as states;
ghost use Rattle.rangesync_c.specs.Meaning.{IfShards, IsVersion, no_shards, is_judged, IsRefusedFor, IsUnmade};
ghost use Rattle.rangesync_c.specs.Meaning.{IsUnasked, Selects};

use crate::codes::{BAD_HELLO, MEMORY, NOT_THERE, OTHER_KIND, TRUNCATED, WRONG_SET};
use crate::front::{has_hello, profile_in};
use crate::held::{Held, Slot, Thing, thing_out};
use crate::set::Version;
use crate::sharded::{Shards, number_of};
use core::mem::replace_with;
use item_core::Range;
use shard_core::{Selecting, Which};
use std::alloc::Global;

/// What was asked for: the version, the number of its shard or of the directory, and the length of the selector.
#[derive(Drop)]
struct Asked {
    version: Version,
    number: u32,
    used: usize,
}

/// What a peer's first bytes select, and the length of their selector. 1 or 55 where they are refused, and 3 where they
/// end inside a selector.
fn selected(shards: &Shards, bytes: &[u8]) -> Result<(Which, Range, usize), u32>
    ensures number { IfErr result (λ code. code ≢ 0) }
    ensures selected { IfOk result (λ r. selecting shards.now.name shards.now.bits bytes.now
        ≡ said.Selected r.0 r.1 r.2) }
    ensures which { IfOk result (λ r. IsWhich shards.now.bits r.0 × IsRange r.1) }
    ensures text { IfOk result (λ r. take r.2 bytes.now ≡ selector_text shards.now.name shards.now.bits r.0 r.1) }
    ensures refused { IfErr result (λ code. IsRefusedFor shards.now bytes.now code) }
{
    match shards.selecting(bytes) {
        Selecting::Selected(which, range, used) => Ok((which, range, used)),
        Selecting::NoSelector => Err(BAD_HELLO),
        Selecting::WrongSet => Err(WRONG_SET),
        Selecting::More => Err(TRUNCATED),
    }
}

/// The same with the version of what is selected, and else 90.
fn asked_of(alloc: Global, shards: &Shards, bytes: &[u8]) -> Result<Asked, u32>
    ensures number { IfErr result (λ code. code ≢ 0) }
    ensures asked { IfOk result (λ r. Selects shards.now bytes.now r.number r.used r.version) }
    ensures refused { IfErr result (λ code.
        IsRefusedFor shards.now bytes.now code ⊎ IsUnmade shards.now bytes.now code) }
{
    let (which, range, used) = selected(shards, bytes)?;
    match shards.version(alloc, which, &range) {
        Ok(version) => Ok(Asked {
            version,
            number: number_of(which),
            used,
        }),
        Err(_) => Err(MEMORY),
    }
}

/// What a peer's first bytes ask for, once they are judged.
fn judged_in(
    alloc: Global,
    thing: &Thing,
    bytes: &[u8],
    ended: bool,
) -> Result<Result<Asked, u32>, u32>
    ensures number { IfErr result (λ code. code ≢ 0) }
    ensures refusal { IfOk result (λ judged. IfErr judged (λ code. code ≢ 0)) }
    ensures asked { IfShards thing.now (λ s. IfOk result (λ judged. IfOk judged (λ r.
        Selects s bytes.now r.number r.used r.version))) }
    ensures refused { IfShards thing.now (λ s. IfOk result (λ judged. IfErr judged (λ code.
        IsRefusedFor s bytes.now code ⊎ IsUnmade s bytes.now code))) }
    ensures judged { IfShards thing.now (λ _. IfOk result (λ _. is_judged ended bytes.now ≡ true)) }
    ensures not_yet { IfShards thing.now (λ _. IfErr result (λ code.
        (code ≡ 98) × (is_judged ended bytes.now ≡ false))) }
    ensures kind { no_shards thing.now ≡ true → result ≡ Err 99 }
{
    let Thing::Shards(shards) = thing else {
        return Err(OTHER_KIND);
    };
    if ended || has_hello(bytes) {
        return Ok(asked_of(alloc, shards, bytes));
    }
    Err(NOT_THERE)
}

/// Makes a handle of what was asked for, and says its number and the length of the selector.
fn asked_out(alloc: Global, asked: Asked, number: &mut u32, used: &mut usize, out: &mut Slot) -> u32
    ensures made { result ≡ 0 → IsSomeAnd out.new.value (λ made. IsVersion made (λ v. v ≡ asked.version)) }
    ensures said { result ≡ 0 → (number.new ≡ asked.number) × (used.new ≡ asked.used) }
    ensures memory { result ≢ 0 → result ≡ 90 }
    ensures failed { result ≢ 0 → out.new.value ≡ out.old.value }
    ensures unsaid { result ≢ 0 → (number.new ≡ number.old) × (used.new ≡ used.old) }
{
    let Asked {
        version,
        number: which,
        used: length,
    } = asked;
    let code = thing_out(alloc, Thing::Version(version), out);
    if code == 0 {
        *number = which;
        *used = length;
    }
    code
}

/// Makes a handle of the version that a peer's first bytes ask for, and says its number, the length of the selector and
/// the profile of the hello after it. 98 where more bytes must come, and once they have come or ended 1, 55 and 3, for
/// which the profile is said too, and 90.
#[unsafe(no_mangle)]
pub extern "C" fn rs_shards_asked(
    alloc: Global,
    shards: &mut Held,
    bytes: &[u8],
    ended: bool,
    number: &mut u32,
    used: &mut usize,
    profile: &mut u32,
    out: &mut Slot,
) -> u32
    ensures asked { result ≡ 0 → IfShards shards.old.value (λ s. IsSomeAnd out.new.value (λ made.
        IsVersion made (λ v. Selects s bytes.now number.new used.new v))) }
    ensures judged { result ≡ 0 → IfShards shards.old.value (λ _. is_judged ended bytes.now ≡ true) }
    ensures refused { result ≢ 0 → IfShards shards.old.value (λ s. IsUnasked s ended bytes.now result) }
    ensures profile { IfShards shards.old.value (λ _. is_judged ended bytes.now ≡ true →
        profile.new ≡ states.profile_in bytes.now) }
    ensures not_yet { IfShards shards.old.value (λ _. is_judged ended bytes.now ≡ false →
        profile.new ≡ profile.old) }
    ensures kind { no_shards shards.old.value ≡ true → (result ≡ 99) × (profile.new ≡ profile.old) }
    ensures failed { result ≢ 0 → out.new.value ≡ out.old.value }
    ensures unsaid { result ≢ 0 → (number.new ≡ number.old) × (used.new ≡ used.old) }
    ensures same { shards.new.value ≡ shards.old.value }
{
    let judged = replace_with(shards, (bytes, ended), |shards, (bytes, ended)| {
        let thing = shards.into_thing();
        let judged = judged_in(alloc, &thing, bytes, ended);
        (Held::of(thing), judged)
    });
    let asked = match judged {
        Ok(asked) => asked,
        Err(code) => return code,
    };
    *profile = profile_in(bytes);
    match asked {
        Ok(asked) => asked_out(alloc, asked, number, used, out),
        Err(code) => code,
    }
}
