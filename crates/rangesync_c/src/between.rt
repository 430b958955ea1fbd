//! Ranges by the bytes of their bounds.

ghost use Rattle.std.specs.Prelude.{◌≡◌, ◌≤◌, ◌<◌, length, IfOk, IfErr, Err, IsFalse};
ghost use Rattle.definitions.specs.Items.{is_below};
ghost use Rattle.item_core.specs.Bounds.{upper_value};
ghost use Rattle.item_core.specs.declared.item.LengthFault.TheVariants as lengths;
ghost use Rattle.rangesync_c.specs.SetStates as sets;
ghost use Rattle.rangesync_c.specs.SetStates.{AreBounds, IsNoRange};
ghost use Rattle.rangesync_c.specs.declared.fault.EmbeddedFault.TheVariants as faults;

use crate::fault::EmbeddedFault;
use item_core::{LengthFault, Lower, Range, Upper};

/// From these bytes on.
fn lower_of(bytes: &[u8]) -> Result<Lower, EmbeddedFault>
    ensures lower { IfOk result (λ x. (x ≡ bytes.now) × (length bytes.now ≤ 64)) }
    ensures long { IfErr result (λ f. (f ≡ faults.Length lengths.TooLong) × (64 < length bytes.now)) }
{
    match Lower::new(bytes) {
        Ok(lower) => Ok(lower),
        Err(_) => Err(EmbeddedFault::Length(LengthFault::TooLong)),
    }
}

/// Before the item of these bytes; to the end where there are none.
fn upper_of(bytes: &[u8]) -> Result<Upper, EmbeddedFault>
    ensures upper { IfOk result (λ y. (upper_value y ≡ sets.upper_of bytes.now) × (length bytes.now ≤ 64)) }
    ensures long { IfErr result (λ f. (f ≡ faults.Length lengths.TooLong) × (64 < length bytes.now)) }
{
    if bytes.is_empty() {
        return Ok(Upper::End);
    }
    match Upper::new(bytes) {
        Ok(upper) => Ok(upper),
        Err(_) => Err(EmbeddedFault::Length(LengthFault::TooLong)),
    }
}

/// The items from those bytes on and before these: from the start, or to the end, where there are none.
///
/// Fails with 72 just where a bound has more than 64 bytes, and else with 73 just where the lower one is not below the
/// upper one.
pub fn range_between(lower: &[u8], upper: &[u8]) -> Result<Range, EmbeddedFault>
    ensures range { IfOk result (λ X. X ≡ sets.between lower.now upper.now) }
    ensures bounds { IfOk result (λ _. AreBounds lower.now upper.now) }
    ensures refused { IfErr result (λ f. IsNoRange lower.now upper.now f) }
    ensures empty { result ≡ Err faults.EmptyRange → IsFalse (is_below lower.now (sets.upper_of upper.now)) }
{
    let from = lower_of(lower)?;
    let to = upper_of(upper)?;
    Ok(Range::new(from, to)?)
}
