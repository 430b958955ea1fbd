//! Items and accepted strategies, shared by the tests.

use item_core::Item;
use std::alloc::Global;
use std::process::Abort;
use std::sync::Arc;
use std::test::Fail;
use strategy_check::{Accepted, check};
use strategy_core::Strategy;

/// Cap 8: lists one item, halves what is more.
pub(crate) const HALVES: &[u8] =
    b"cap = 8\nlimit = 1\nrounds = 3\nrow = [{upto = 1, list = true}, {upto = 8, split = [1, 1]}]";

pub(crate) fn item(rt: &impl Abort, bytes: &[u8]) -> Item {
    Item::new(bytes).ok().expect(rt, "an item")
}

/// Items of one byte each.
pub(crate) fn letters(rt: &impl Abort, alloc: Global, bytes: &[u8]) -> Result<Vec<Item>, Fail> {
    let mut items = Vec::new(alloc);
    for letter in bytes {
        items.push(item(rt, &[*letter]))?;
    }
    Ok(items)
}

pub(crate) fn strategy(rt: &impl Abort, alloc: Global, text: &[u8]) -> Strategy {
    Strategy::read(alloc, text).ok().expect(rt, "a strategy")
}

/// That strategy accepted, as the ends of a test share it.
pub(crate) fn accepted(rt: &impl Abort, alloc: Global) -> Arc<Accepted> {
    let halves = check(alloc, strategy(rt, alloc, HALVES));
    let shared = Arc::new(alloc, halves.ok().expect(rt, "accepted"));
    shared.ok().expect(rt, "memory")
}
