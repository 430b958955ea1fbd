//! Room in a list that grows by a little at a time.

ghost use Rattle.std.specs.Prelude.{◌≡◌, ◌+◌, ◌≤◌, vec_len, vec_capacity, OnOk};

use std::alloc::AllocError;

/// Makes room for so many elements more, and for an eighth of those that are there. So a list is seldom copied, and has
/// little room that it does not use.
pub fn make_room<T>(list: &mut Vec<T>, more: usize) -> Result<(), AllocError>
    ensures items { list.new.items ≡ list.old.items }
    ensures room { OnOk result (vec_len list.new + more ≤ vec_capacity list.new) }
{
    if more <= list.capacity().saturating_sub(list.len()) {
        return Ok(());
    }
    list.reserve_exact(more.saturating_add(list.len() / 8))
}
