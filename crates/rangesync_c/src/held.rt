//! What C holds: a pointer, which owns a strategy, a set, a version of a set, a session, or a set in shards.

ghost use Rattle.std.specs.Prelude.{◌≡◌, ◌≢◌, Option, Some};
ghost use Rattle.rangesync_c.specs.declared.held.Thing.{Thing};
ghost use Rattle.rangesync_c.specs.Owned.{held_owns, slot_owns};

use crate::any_session::AnySession;
use crate::loose::Loose;
use crate::set::{Set, Version};
use crate::sharded::Shards;
use std::alloc::Global;
use std::marker::Model;
use std::sync::Arc;
use strategy_check::Accepted;

/// What a handle stands for.
#[derive(Drop)]
pub enum Thing {
    /// A strategy that was accepted.
    Strategy(Arc<Accepted>),
    /// A set of items, which grows.
    Set(Set),
    /// A version of a set, which stays.
    Version(Version),
    /// A session.
    Session(AnySession),
    /// A set of any size, in shards.
    Shards(Shards),
}

/// A handle: to C a struct of one pointer.
#[repr(C)]
pub struct Held {
    at: *mut u8,
    alloc: Global,
    ghost value: { Thing },
}

impl Model for Held {
    ghost also_owns = { λ h. held_owns h.alloc h.at h.value };
}

impl Held {
    fn of_loose(loose: Loose<Thing, Global>) -> Held
        ensures { result.value ≡ loose.value }
    {
        let Loose { at, alloc } = loose;
        Held {
            at: at as *mut u8,
            alloc,
        }
    }

    fn into_loose(self) -> Loose<Thing, Global>
        ensures { result.value ≡ self.value }
    {
        let Held { at, alloc } = self;
        Loose {
            at: at as *mut Thing,
            alloc,
        }
    }

    /// The handle of a box.
    pub fn of(thing: Box<Thing>) -> Held
        ensures { result.value ≡ thing.value }
    {
        Held::of_loose(Loose::of(thing))
    }

    /// The box of a handle.
    pub fn into_thing(self) -> Box<Thing>
        ensures { result.value ≡ self.value }
    {
        self.into_loose().into_box()
    }
}

unsafe impl Send for Held {}

/// A value that any thread may be given. Only a call that asks for `Send` shows that `Held` has a proof of it.
fn for_any_thread<T: Send>(value: T) -> T
    ensures { result ≡ value }
{
    value
}

/// Where C has room for a handle. It owns none before one is made there.
#[repr(C)]
#[derive(Drop)]
pub struct Slot {
    at: *mut u8,
    alloc: Global,
    ghost value: { Option Thing },
}

impl Model for Slot {
    ghost also_owns = { λ p. slot_owns p.alloc p.at p.value };
}

impl Slot {
    /// The slot that this handle stands in.
    pub fn of(held: Held) -> Slot
        ensures { result.value ≡ Some held.value }
    {
        let Held { at, alloc } = held;
        Slot {
            at: at as *mut u8,
            alloc,
        }
    }
}

/// Makes a handle where C has room for one.
pub fn thing_out(alloc: Global, thing: Thing, out: &mut Slot) -> u32
    ensures made { result ≡ 0 → out.new.value ≡ Some thing }
    ensures failed { result ≢ 0 → (result ≡ 90) × (out.new.value ≡ out.old.value) }
{
    match Box::new(alloc, thing) {
        Ok(thing) => {
            *out = Slot::of(for_any_thread(Held::of(thing)));
            0
        }
        Err(_) => 90,
    }
}
