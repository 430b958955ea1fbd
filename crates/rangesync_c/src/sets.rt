//! Sets of items.

ghost use Rattle.std.specs.Prelude.{◌≡◌, ◌≢◌, ◌<◌, ◌≤◌, ◌⊎◌, true, Ok, Err, IsSomeAnd, IfOk, IfErr, IfSome, IfNone};
ghost use Rattle.std.specs.Prelude.{length};
ghost use Rattle.rangesync_c.specs.SetStates.{newest, with_item, IsSetFrom, IsAnswer};
ghost use Rattle.std.specs.Arc.{arc_value};
ghost use Rattle.definitions.specs.Histories.{insertion};
ghost use Rattle.rangesync_c.specs.Faults.{embedded_fault_number};
ghost use Rattle.rangesync_c.specs.Meaning.{IfStrategy, IfSet, IsSet, IsVersion, no_strategy, no_set, form_number};
ghost use Rattle.rangesync_c.specs.Meaning.{IsNoSetIn, IsItemLength, IsNotPut};

use crate::codes::{FINE, MEMORY, NOT_THERE, OTHER_KIND};
use crate::fault::EmbeddedFault;
use crate::held::{Held, Slot, Thing, thing_out};
use crate::items::item_of;
use crate::set::{Set, Version};
use core::mem::replace_with;
use item_files::ItemForm;
use std::alloc::Global;
use std::sync::Arc;
use strategy_check::Accepted;

/// The form of an item file's text: 0 for hex, 1 for text lines.
pub(crate) fn form_of(number: u32) -> Option<ItemForm>
    ensures form { IfSome result (λ form. (form_number form ≡ number) × (number ≤ 1)) }
    ensures none { IfNone result (1 < number) }
{
    match number {
        0 => Some(ItemForm::Hex),
        1 => Some(ItemForm::Text),
        _ => None,
    }
}

/// One more owner of a strategy, and the form of a number. 98 for a number of no form, and else 90.
fn owner_of(thing: &Thing, number: u32) -> Result<(Arc<Accepted>, ItemForm), u32>
    ensures number { IfErr result (λ code. code ≢ 0) }
    ensures owner { IfStrategy thing.now (λ a. IfOk result (λ o. (arc_value o.0 ≡ a)
        × (form_number o.1 ≡ number) × (number ≤ 1))) }
    ensures refused { IfStrategy thing.now (λ _. IfErr result (λ code.
        ((code ≡ 98) × (1 < number)) ⊎ ((code ≡ 90) × (number ≤ 1)))) }
    ensures kind { no_strategy thing.now ≡ true → result ≡ Err 99 }
{
    let Thing::Strategy(accepted) = thing else {
        return Err(OTHER_KIND);
    };
    let Some(form) = form_of(number) else {
        return Err(NOT_THERE);
    };
    match Arc::try_clone(accepted) {
        Ok(owner) => Ok((owner, form)),
        Err(_) => Err(MEMORY),
    }
}

/// The same of the strategy that a handle stands for.
fn owner_at(strategy: &mut Held, number: u32) -> Result<(Arc<Accepted>, ItemForm), u32>
    ensures number { IfErr result (λ code. code ≢ 0) }
    ensures owner { IfStrategy strategy.old.value (λ a. IfOk result (λ o. (arc_value o.0 ≡ a)
        × (form_number o.1 ≡ number) × (number ≤ 1))) }
    ensures refused { IfStrategy strategy.old.value (λ _. IfErr result (λ code.
        ((code ≡ 98) × (1 < number)) ⊎ ((code ≡ 90) × (number ≤ 1)))) }
    ensures kind { no_strategy strategy.old.value ≡ true → result ≡ Err 99 }
    ensures same { strategy.new.value ≡ strategy.old.value }
{
    replace_with(strategy, number, |strategy, number| {
        let thing = strategy.into_thing();
        let owner = owner_of(&thing, number);
        (Held::of(thing), owner)
    })
}

/// Makes a handle of a set that was read, or says why there is none.
fn set_out(alloc: Global, set: Result<Set, EmbeddedFault>, out: &mut Slot) -> u32
    ensures made { result ≡ 0 → IsSomeAnd out.new.value (λ made. IsSet made (λ s. set ≡ Ok s)) }
    ensures refused { IfErr set (λ f. result ≡ embedded_fault_number f) }
    ensures memory { IfOk set (λ _. result ≢ 0 → result ≡ 90) }
    ensures failed { result ≢ 0 → out.new.value ≡ out.old.value }
{
    match set {
        Ok(set) => thing_out(alloc, Thing::Set(set), out),
        Err(fault) => u32::from(fault.number()),
    }
}

/// Makes a set of the items of an item file's text, which may be empty. The form is 0 for hex, 1 for text lines. 81
/// where a line is no item, 82 where there are more different items than the strategy's cap, 90; 98 for another form.
#[unsafe(no_mangle)]
pub extern "C" fn rs_set_read(
    alloc: Global,
    strategy: &mut Held,
    form: u32,
    text: &[u8],
    out: &mut Slot,
) -> u32
    ensures read { result ≡ 0 → IfStrategy strategy.old.value (λ a. IsSomeAnd out.new.value (λ made.
        IsSet made (λ s. (kind : _) × (form_number kind ≡ form) × IsSetFrom kind text.now a (Ok s)))) }
    ensures refused { result ≢ 0 → IfStrategy strategy.old.value (λ a. IsNoSetIn form text.now a result) }
    ensures kind { no_strategy strategy.old.value ≡ true → result ≡ 99 }
    ensures failed { result ≢ 0 → out.new.value ≡ out.old.value }
    ensures same { strategy.new.value ≡ strategy.old.value }
{
    match owner_at(strategy, form) {
        Ok((accepted, form)) => set_out(alloc, Set::from_text(alloc, accepted, form, text), out),
        Err(code) => code,
    }
}

/// Puts an item into a set.
fn insert_into(alloc: Global, thing: &mut Thing, bytes: &[u8]) -> Result<bool, u32>
    ensures number { IfErr result (λ code. code ≢ 0) }
    ensures new { IfOk result (λ _. IfSet thing.old (λ s. IsSet thing.new (λ t. t ≡ with_item s bytes.now))) }
    ensures answer { IfOk result (λ is_new. IfSet thing.old (λ s.
        IsAnswer (insertion s.accepted.table.cap s.history bytes.now) (Ok is_new))) }
    ensures item { IfOk result (λ _. IfSet thing.old (λ _. IsItemLength bytes.now)) }
    ensures refused { IfErr result (λ code. IfSet thing.old (λ s. IsNotPut s bytes.now code)) }
    ensures kind { no_set thing.old ≡ true → result ≡ Err 99 }
    ensures failed { IfErr result (λ _. thing.new ≡ thing.old) }
{
    let Thing::Set(set) = thing else {
        return Err(OTHER_KIND);
    };
    let item = item_of(bytes)?;
    match set.insert(alloc, item) {
        Ok(is_new) => Ok(is_new),
        Err(fault) => Err(u32::from(fault.number())),
    }
}

/// Puts an item into a set, and says whether it is new. 71 for no bytes, 72 for more than 64, 40 where the set is full,
/// 90; then nothing has changed.
#[unsafe(no_mangle)]
pub extern "C" fn rs_set_insert(
    alloc: Global,
    set: &mut Held,
    bytes: &[u8],
    is_new: &mut bool,
) -> u32
    ensures new { result ≡ 0 → IfSet set.old.value (λ s. IsSet set.new.value (λ t. t ≡ with_item s bytes.now)) }
    ensures answer { result ≡ 0 → IfSet set.old.value (λ s.
        IsAnswer (insertion s.accepted.table.cap s.history bytes.now) (Ok is_new.new)) }
    ensures item { result ≡ 0 → IfSet set.old.value (λ _. IsItemLength bytes.now) }
    ensures refused { result ≢ 0 → IfSet set.old.value (λ s. IsNotPut s bytes.now result) }
    ensures kind { no_set set.old.value ≡ true → result ≡ 99 }
    ensures failed { result ≢ 0 → set.new.value ≡ set.old.value }
    ensures unsaid { result ≢ 0 → is_new.new ≡ is_new.old }
{
    let inserted = replace_with(set, bytes, |set, bytes| {
        let mut thing = set.into_thing();
        let inserted = insert_into(alloc, thing.as_mut(), bytes);
        (Held::of(thing), inserted)
    });
    match inserted {
        Ok(answer) => {
            *is_new = answer;
            FINE
        }
        Err(code) => code,
    }
}

/// How many items a set has.
fn count_of(thing: &Thing) -> Result<usize, u32>
    ensures number { IfErr result (λ code. code ≢ 0) }
    ensures count { IfSet thing.now (λ s. result ≡ Ok (length s.history)) }
    ensures kind { no_set thing.now ≡ true → result ≡ Err 99 }
{
    match thing {
        Thing::Set(set) => Ok(set.count()),
        _ => Err(OTHER_KIND),
    }
}

/// Says how many items a set has, which is the number of its newest version.
#[unsafe(no_mangle)]
pub extern "C" fn rs_set_count(set: &mut Held, count: &mut usize) -> u32
    ensures count { IfSet set.old.value (λ s. (result ≡ 0) × (count.new ≡ length s.history)) }
    ensures kind { no_set set.old.value ≡ true → (result ≡ 99) × (count.new ≡ count.old) }
    ensures same { set.new.value ≡ set.old.value }
{
    let counted = replace_with(set, (), |set, _nothing| {
        let thing = set.into_thing();
        let counted = count_of(&thing);
        (Held::of(thing), counted)
    });
    match counted {
        Ok(number) => {
            *count = number;
            FINE
        }
        Err(code) => code,
    }
}

/// The newest version of a set.
fn version_of(alloc: Global, thing: &Thing) -> Result<Version, u32>
    ensures number { IfErr result (λ code. code ≢ 0) }
    ensures version { IfSet thing.now (λ s. IfOk result (λ v. v ≡ newest s)) }
    ensures memory { IfSet thing.now (λ _. IfErr result (λ code. code ≡ 90)) }
    ensures kind { no_set thing.now ≡ true → result ≡ Err 99 }
{
    match thing {
        Thing::Set(set) => match set.version(alloc) {
            Ok(version) => Ok(version),
            Err(_) => Err(MEMORY),
        },
        _ => Err(OTHER_KIND),
    }
}

/// Makes a handle of the newest version of a set, which stays as it is. It may be given to another thread.
#[unsafe(no_mangle)]
pub extern "C" fn rs_set_share(alloc: Global, set: &mut Held, out: &mut Slot) -> u32
    ensures version { result ≡ 0 → IfSet set.old.value (λ s. IsSomeAnd out.new.value (λ made.
        IsVersion made (λ v. v ≡ newest s))) }
    ensures memory { result ≢ 0 → IfSet set.old.value (λ _. result ≡ 90) }
    ensures kind { no_set set.old.value ≡ true → result ≡ 99 }
    ensures failed { result ≢ 0 → out.new.value ≡ out.old.value }
    ensures same { set.new.value ≡ set.old.value }
{
    let version = replace_with(set, (), |set, _nothing| {
        let thing = set.into_thing();
        let version = version_of(alloc, &thing);
        (Held::of(thing), version)
    });
    match version {
        Ok(version) => thing_out(alloc, Thing::Version(version), out),
        Err(code) => code,
    }
}
