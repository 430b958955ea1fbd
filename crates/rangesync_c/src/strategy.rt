//! Strategies from texts.

ghost use Rattle.std.specs.Arc.{arc_value};
ghost use Rattle.rangesync_c.specs.Faults.{IsStrategy};

use crate::fault::EmbeddedFault;
use item_files::{SettingsFault, accepted_of};
use std::alloc::Global;
use std::sync::Arc;
use strategy_check::Accepted;

/// The strategy of a text, with its ranks, where it is accepted: else 37, 36 or 38.
fn accepted(alloc: Global, text: &[u8]) -> Result<Accepted, EmbeddedFault>
    ensures { IsStrategy (λ a. a) text.now result }
{
    match accepted_of(alloc, text) {
        Ok(accepted) => Ok(accepted),
        Err(SettingsFault::NotToml) => Err(EmbeddedFault::NotToml),
        Err(SettingsFault::Strategy(flaw)) => Err(EmbeddedFault::Strategy(flaw)),
        Err(SettingsFault::Check(fault)) => Err(EmbeddedFault::Check(fault)),
        Err(_) => Err(EmbeddedFault::Memory),
    }
}

/// The strategy of a TOML text, which many may share.
///
/// Fails with 28 to 35 where the text is no strategy, and then with 37, 36 or 38 where it is not accepted, and with 90.
pub fn read_strategy(alloc: Global, text: &[u8]) -> Result<Arc<Accepted>, EmbeddedFault>
    ensures { IsStrategy arc_value text.now result }
{
    Ok(Arc::new(alloc, accepted(alloc, text)?)?)
}
