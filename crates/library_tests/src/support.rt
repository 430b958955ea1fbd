//! What the tests share.

pub(crate) mod devices;
pub(crate) mod frames;
pub(crate) mod tables;
