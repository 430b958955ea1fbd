//! What a put answers beside sessions that put in what they learned, and when a device fails. No clause says what other
//! threads do, and no program can be stopped between two of their steps.

use crate::book::{Book, Kind, Name};
use crate::books::Books;
use crate::reporting::{Reporter, Rules};
use io_core::{Device, LineFile};
use item_core::Item;
use item_files::ItemForm;
use peer_threads::Gate;
use printing_core::Reporting;
use settings_core::FloorRule;
use std::alloc::Global;
use std::io;
use std::io::ErrorKind;
use std::sync::Wait;
use std::sync::atomic::{AtomicU64, Ordering};
use std::test::Fail;

/// A device that counts the bytes that it takes, and fails so many calls to sync it.
#[derive(Drop)]
struct Counting<'d> {
    taken: &'d AtomicU64,
    failing: &'d AtomicU64,
}

impl Device for Counting<'_> {
    fn append(&mut self, bytes: &[u8]) -> io::Result<usize> {
        self.taken.fetch_add(bytes.len() as u64, Ordering::SeqCst);
        Ok(bytes.len())
    }

    fn cut(&mut self, _length: u64) -> io::Result<()> {
        Ok(())
    }

    fn sync(&mut self) -> io::Result<()> {
        if self.failing.load(Ordering::SeqCst) == 0 {
            return Ok(());
        }
        self.failing.fetch_sub(1, Ordering::SeqCst);
        Err(io::Error::from(ErrorKind::Other))
    }
}

/// The file that keeps a set, over this device.
fn keep_over<'r>(alloc: Global, device: Counting<'r>) -> Books<'r, Counting<'r>> {
    let name = Name {
        kind: Kind::Keep,
        path: "set",
    };
    Books {
        report: None,
        learned: None,
        keep: Some(Book::new(alloc, name, LineFile::new(alloc, device, 0))),
    }
}

/// A gate that keeps a set over this device, and forgets nothing.
fn reporter<'r, R: Wait>(
    rt: &'r R,
    alloc: Global,
    device: Counting<'r>,
    forgets: &'r FloorRule,
) -> Reporter<'r, 'r, R, Counting<'r>, Vec<u8>> {
    let rules = Rules {
        reporting: Reporting {
            form: ItemForm::Text,
            most: None,
        },
        most_learned: None,
        is_durable: true,
        forgets,
    };
    Reporter::new(
        rt,
        alloc,
        rules,
        9,
        keep_over(alloc, device),
        Vec::new(alloc),
    )
}

#[test]
fn beside_a_session_that_has_not_told_its_items(rt: HostRuntime) -> Result<(), Fail> {
    let (taken, failing) = (AtomicU64::new(0), AtomicU64::new(0));
    let device = Counting {
        taken: &taken,
        failing: &failing,
    };
    let forgets = FloorRule::none();
    let gate = reporter(&rt, rt.alloc(), device, &forgets);
    let a = Item::new(b"a").expect(&rt, "an item");
    let b = Item::new(b"b").expect(&rt, "an item");
    let none = Vec::new(rt.alloc());
    let one = Vec::from_slice(rt.alloc(), &[a])?;
    let other = Vec::from_slice(rt.alloc(), &[b])?;
    let both = Vec::from_slice(rt.alloc(), &[a, b])?;
    // the set had it, and nobody puts in: its line is there
    assert!(rt; gate.keep(&none, &one).is_some());
    assert_eq!(rt; taken.load(Ordering::SeqCst), 0);
    // a session puts in what it learned: its line may not be there
    assert_eq!(rt; gate.admits(1, 5), 5);
    assert!(rt; gate.keep(&none, &one).is_some());
    assert_eq!(rt; taken.load(Ordering::SeqCst), 2);
    gate.settled(1, 0);
    assert!(rt; gate.keep(&none, &one).is_some());
    assert_eq!(rt; taken.load(Ordering::SeqCst), 2);
    assert!(rt; gate.keep(&other, &both).is_some());
    assert_eq!(rt; taken.load(Ordering::SeqCst), 4);
    Ok(())
}

#[test]
fn after_a_sync_that_failed(rt: HostRuntime) -> Result<(), Fail> {
    let (taken, failing) = (AtomicU64::new(0), AtomicU64::new(1));
    let device = Counting {
        taken: &taken,
        failing: &failing,
    };
    let forgets = FloorRule::none();
    let gate = reporter(&rt, rt.alloc(), device, &forgets);
    let a = Item::new(b"a").expect(&rt, "an item");
    let none = Vec::new(rt.alloc());
    let one = Vec::from_slice(rt.alloc(), &[a])?;
    assert!(rt; gate.keep(&one, &one).is_none());
    assert_eq!(rt; taken.load(Ordering::SeqCst), 2);
    // what was written before is in doubt: it is written once more
    assert!(rt; gate.keep(&none, &one).is_some());
    assert_eq!(rt; taken.load(Ordering::SeqCst), 4);
    Ok(())
}
