//! The two roles of an end.

ghost use Rattle.std.specs.Prelude.{◌≡◌, ◌≤◌};
ghost use Rattle.definitions.specs.Worlds as worlds;
ghost use Rattle.definitions.specs.Worlds.{Side};
ghost use Rattle.ends_core.specs.Roles.{bound_of};

use strategy_check::Accepted;

/// Whether an end speaks first, or is spoken to first.
pub trait Role {
    /// The side that it is.
    ghost side: { Side };

    /// The greatest number of messages that an end with n items sends: 2 above the greatest rank of a part of its first
    /// message, which may cut or not, where it speaks first, else 1 above its own rank.
    fn bound(accepted: &Accepted, n: u32, may_cut: bool) -> u32
        requires { n ≤ accepted.now.table.cap }
        ensures { result ≡ bound_of side may_cut accepted.now.table accepted.now.steps n };
}

/// The end speaks first.
pub struct Initiating;

impl Role for Initiating {
    ghost side = { worlds.Initiator };

    fn bound(accepted: &Accepted, n: u32, may_cut: bool) -> u32 {
        accepted.bound_as_initiator(n, may_cut)
    }
}

/// The end is spoken to first.
pub struct Responding;

impl Role for Responding {
    ghost side = { worlds.Responder };

    fn bound(accepted: &Accepted, n: u32, _may_cut: bool) -> u32 {
        accepted.bound_as_responder(n)
    }
}
