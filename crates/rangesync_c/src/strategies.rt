//! Strategies.

ghost use Rattle.std.specs.Prelude.{◌≡◌, ◌≢◌, Ok, IsSomeAnd, IsOkAnd, IfOk, IfErr};
ghost use Rattle.std.specs.Arc.{arc_value};
ghost use Rattle.rangesync_c.specs.Faults as faults;
ghost use Rattle.rangesync_c.specs.Faults.{embedded_fault_number};
ghost use Rattle.rangesync_c.specs.Meaning.{IsStrategy, IsRefusal};

use crate::fault::EmbeddedFault;
use crate::held::{Slot, Thing, thing_out};
use crate::strategy::read_strategy;
use std::alloc::Global;
use std::sync::Arc;
use strategy_check::Accepted;

/// Makes a handle of a strategy that was read, or says why there is none.
fn strategy_out(
    alloc: Global,
    strategy: Result<Arc<Accepted>, EmbeddedFault>,
    out: &mut Slot,
) -> u32
    ensures made { result ≡ 0 → IsSomeAnd out.new.value (λ made. IsStrategy made (λ a.
        IsOkAnd strategy (λ b. arc_value b ≡ a))) }
    ensures refused { IfErr strategy (λ f. result ≡ embedded_fault_number f) }
    ensures memory { IfOk strategy (λ _. result ≢ 0 → result ≡ 90) }
    ensures failed { result ≢ 0 → out.new.value ≡ out.old.value }
{
    match strategy {
        Ok(accepted) => thing_out(alloc, Thing::Strategy(accepted), out),
        Err(fault) => u32::from(fault.number()),
    }
}

/// Reads the strategy of a TOML text, and checks it. 28 to 35 where it is no strategy, 37, 36 or 38 where it is not
/// accepted, 90.
#[unsafe(no_mangle)]
pub extern "C" fn rs_strategy_read(alloc: Global, text: &[u8], out: &mut Slot) -> u32
    ensures read { result ≡ 0 → IsSomeAnd out.new.value (λ made. IsStrategy made (λ a.
        faults.IsStrategy (λ b. b) text.now (Ok a))) }
    ensures refused { result ≢ 0 → IsRefusal (faults.IsUnfit text.now) result }
    ensures failed { result ≢ 0 → out.new.value ≡ out.old.value }
{
    strategy_out(alloc, read_strategy(alloc, text), out)
}
