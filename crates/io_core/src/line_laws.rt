//! What the next opening of a file sees, as theorems.

ghost use Rattle.io_core.specs.Lines.{BeginningsAreWhole};
ghost use Rattle.io_core.specs.Keeping.{OpensWhole};

use crate::device::Device;

/// Lines were added to whole lines, and a beginning of it all was left: cut after its last line feed, it is the whole
/// lines and some of those that were added, in their order.
pub fn beginnings_are_whole()
    ensures { BeginningsAreWhole }
{}

/// What the device of a file of lines holds, cut after its last line feed, is what it held at first and some of the
/// lines that were told, in their order; and all that was whole before is among them.
pub fn openings_are_whole<D: Device>()
    ensures { OpensWhole D.held }
{}
