//! The numbers that a call returns beside those of refusals.

/// Nothing was refused.
pub(crate) const FINE: u32 = 0;

/// An item has no byte.
pub(crate) const EMPTY_ITEM: u32 = 71;

/// An item has more than 64 bytes.
pub(crate) const TOO_LONG: u32 = 72;

/// A peer's first bytes are no selector.
pub(crate) const BAD_HELLO: u32 = 1;

/// A peer's input ended inside a selector.
pub(crate) const TRUNCATED: u32 = 3;

/// The set has as many items as its cap.
pub(crate) const FULL: u32 = 40;

/// A peer asks for another set.
pub(crate) const WRONG_SET: u32 = 55;

/// What a peer sent is no directory.
pub(crate) const BAD_ENTRY: u32 = 57;

/// There are more shards than the cap.
pub(crate) const TOO_MANY_ITEMS: u32 = 82;

/// Memory ran out.
pub(crate) const MEMORY: u32 = 90;

/// There is no room for what is asked, or it is not there.
pub(crate) const NOT_THERE: u32 = 98;

/// The handle is of another kind.
pub(crate) const OTHER_KIND: u32 = 99;
