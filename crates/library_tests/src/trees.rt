//! Trees that grow by one item at a time, trees that threads load, and parts of a tree.

use item_core::{Item, Lower, Range, Upper};
use range_tree::Tree;
use std::alloc::Global;
use std::process::Abort;
use std::test::Fail;
use std::thread::Threads;
use store_core::{Insertion, RangeStore, set_laws, spans};

fn item(rt: &impl Abort, number: u16) -> Item {
    Item::new(&number.to_be_bytes()).ok().expect(rt, "an item")
}

/// The items of the first numbers.
fn first(rt: &impl Abort, alloc: Global, count: u16) -> Result<Vec<Item>, Fail> {
    let mut items = Vec::new(alloc);
    for number in 0..count {
        items.push(item(rt, number))?;
    }
    Ok(items)
}

fn added(rt: &impl Abort, alloc: Global, tree: &Tree, item: Item) -> Tree {
    match tree.with(alloc, item).expect(rt, "memory") {
        Insertion::New(tree) => tree,
        Insertion::Already => panic!(rt; "there already"),
    }
}

/// The tree of these items, put in one by one.
fn grown(rt: &impl Abort, alloc: Global, items: &[Item]) -> Tree {
    let mut tree = Tree::empty(alloc);
    for item in items {
        tree = added(rt, alloc, &tree, *item);
    }
    tree
}

/// A tree has the items that the loaded one has.
fn is_same(rt: &impl Abort, alloc: Global, tree: &Tree, loaded: &Tree) -> Result<(), Fail> {
    let held = tree.items(alloc, &Range::whole())?;
    let wanted = loaded.items(alloc, &Range::whole())?;
    assert!(rt; held.as_slice() == wanted.as_slice());
    assert!(rt; tree.sum(&Range::whole()) == loaded.sum(&Range::whole()));
    Ok(())
}

/// The first numbers, loaded by one thread and by as many as four, and put in one by one.
fn all_ways(rt: &(impl Abort + Threads + Sync), alloc: Global, count: u16) -> Result<(), Fail> {
    set_laws::set_of_a_list();
    let items = spans::distinct(first(rt, alloc, count)?);
    let loaded = Tree::from_rising(alloc, &items)?;
    assert!(rt; loaded.len() == usize::from(count));
    is_same(
        rt,
        alloc,
        &Tree::from_rising_on(rt, alloc, &items)?,
        &loaded,
    )?;
    is_same(rt, alloc, &grown(rt, alloc, &items), &loaded)
}

// None, one, the most for one thread, the fewest for two and for four, and many leaves of many branches.
#[test]
fn trees_of_each_size(rt: HostRuntime) -> Result<(), Fail> {
    let alloc = rt.alloc();
    for count in [0u16, 1, 1_023, 1_024, 2_047, 2_048, 20_001] {
        all_ways(&rt, alloc, count)?;
    }
    Ok(())
}

/// The part of a tree between two numbers has the items of that range.
fn part_is_same(
    rt: &impl Abort,
    alloc: Global,
    tree: &Tree,
    from: u16,
    to: u16,
) -> Result<(), Fail> {
    let range = Range::new(Lower::from(item(rt, from)), Upper::Before(item(rt, to)))
        .ok()
        .expect(rt, "a range");
    let part = tree.part(alloc, &range)?;
    let loaded = Tree::from_items(alloc, tree.items(alloc, &range)?)?;
    is_same(rt, alloc, &part, &loaded)
}

// Of leaves of 32 items: a part of one, short ends at both sides of one, at both sides of many, whole leaves, all, and
// none.
#[test]
fn parts_of_a_tree(rt: HostRuntime) -> Result<(), Fail> {
    let alloc = rt.alloc();
    let tree = Tree::from_items(alloc, first(&rt, alloc, 3_000)?)?;
    for (from, to) in [
        (5u16, 9u16),
        (31, 65),
        (1, 2_999),
        (32, 96),
        (0, 3_000),
        (3_000, 3_001),
    ] {
        part_is_same(&rt, alloc, &tree, from, to)?;
    }
    Ok(())
}

/// How many comparisons the fingerprint of the items between two bounds takes.
fn comparisons(rt: &impl Abort, tree: &Tree, lower: Lower, upper: Upper) -> usize {
    let range = Range::new(lower, upper).ok().expect(rt, "a range");
    let (sum, compared) = tree.sum_counted(&range);
    assert!(rt; sum == tree.sum(&range));
    assert!(rt; compared == tree.count_and_sum_counted(&range).2);
    compared
}

// Those of both bounds together. A start and an end of everything take none.
#[test]
fn comparisons_of_both_bounds_count(rt: HostRuntime) -> Result<(), Fail> {
    let alloc = rt.alloc();
    let tree = Tree::from_items(alloc, first(&rt, alloc, 2_000)?)?;
    let (from, to) = (item(&rt, 300), item(&rt, 1_500));
    let whole = Range::whole();
    let lower = comparisons(&rt, &tree, Lower::from(from), *whole.upper());
    let upper = comparisons(&rt, &tree, *whole.lower(), Upper::Before(to));
    let both = comparisons(&rt, &tree, Lower::from(from), Upper::Before(to));
    assert!(rt; lower > 0 && upper > 0);
    assert!(rt; lower.checked_add(upper) == Some(both));
    assert!(rt; comparisons(&rt, &tree, *whole.lower(), *whole.upper()) == 0);
    Ok(())
}
