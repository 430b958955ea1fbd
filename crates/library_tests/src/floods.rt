//! The longest reply that a message may be, and a message to which the reply would be longer.

use crate::support::tables::{accepted, item, letters};
use digest_core::Fingerprint;
use ends_core::{EndFault, Responder, Turn};
use item_core::{Lower, Range, Upper};
use range_tree::Tree;
use std::alloc::Global;
use std::process::Abort;
use std::sync::Arc;
use std::test::Fail;
use store_core::RangeStore;
use strategy_check::Accepted;
use wire_core::{Part, decode_message, encode_message};

/// The range from these bytes up to those; no bytes are the start and the end.
fn range(rt: &impl Abort, lower: &[u8], upper: &[u8]) -> Range {
    let lower = Lower::new(lower).ok().expect(rt, "a lower bound");
    let upper = if upper.is_empty() {
        Upper::End
    } else {
        Upper::from(item(rt, upper))
    };
    Range::new(lower, upper).ok().expect(rt, "a range")
}

/// A Sum of 0 in lane 0 and 1 in lane 1, which is the fingerprint of none of these sets.
fn sum(range: Range) -> Part {
    let mut bytes = [0u8; 32];
    bytes[31] = 1;
    Part::sum(range, Fingerprint::from_bytes(bytes))
}

/// The letter e and a number of three bytes.
fn numbered(number: u32) -> [u8; 4] {
    let [_, high, middle, low] = number.to_be_bytes();
    [b'e', high, middle, low]
}

/// Sums over the ranges from c to e, from there to the numbered items in turn, and from the last one on.
fn flood(rt: &impl Abort, alloc: Global, last: u32) -> Result<Vec<Part>, Fail> {
    let mut parts = Vec::new(alloc);
    parts.push(sum(range(rt, b"c", b"e")))?;
    parts.push(sum(range(rt, b"e", &numbered(1))))?;
    for number in 1..last {
        parts.push(sum(range(rt, &numbered(number), &numbered(number + 1))))?;
    }
    parts.push(sum(range(rt, &numbered(last), b"")))?;
    Ok(parts)
}

/// A responder with the items a to d.
fn responder(
    rt: &impl Abort,
    alloc: Global,
    accepted: Arc<Accepted>,
) -> Result<Responder<Tree>, Fail> {
    let store = Tree::from_items(alloc, letters(rt, alloc, b"abcd")?)?;
    assert!(rt; store.len() <= accepted.cap() as usize);
    Ok(Responder::new(alloc, accepted, store))
}

/// The number by which a part is refused; none where it is taken.
fn number(taken: Result<(), EndFault>) -> Option<u8> {
    taken.err().map(EndFault::number)
}

/// How many parts the reply to these parts has, or the number of the refusal. A reply is read back from its bytes.
fn reply_to(
    rt: &impl Abort,
    alloc: Global,
    end: &mut Responder<Tree>,
    parts: &[Part],
) -> Result<Result<usize, u8>, Fail> {
    for part in parts {
        assert_eq!(rt; number(end.take(alloc, part)), None);
    }
    match end.end(alloc) {
        Ok(Turn::Reply(reply)) => {
            let count = reply.parts().len();
            let text = encode_message(alloc, &reply)?;
            assert!(rt; decode_message(alloc, &text) == Ok(reply));
            Ok(Ok(count))
        }
        Ok(Turn::Over) => Ok(Ok(0)),
        Err(fault) => Ok(Err(fault.number())),
    }
}

/// What comes of a flood up to this number, after a Sum over everything.
fn flooded(rt: &impl Abort, alloc: Global, last: u32) -> Result<Result<usize, u8>, Fail> {
    let mut end = responder(rt, alloc, accepted(rt, alloc))?;
    let opening = [sum(Range::whole())];
    assert_eq!(rt; reply_to(rt, alloc, &mut end, &opening)?, Ok(2));
    let flood = flood(rt, alloc, last)?;
    reply_to(rt, alloc, &mut end, &flood)
}

// An end that says memory ran out where a reply is long fails in this test.
#[test]
fn a_reply_of_as_many_parts_as_fit_and_of_one_more(rt: HostRuntime) -> Result<(), Fail> {
    let alloc = rt.alloc();
    assert_eq!(rt; flooded(&rt, alloc, 131_069)?, Ok(131_072));
    assert_eq!(rt; flooded(&rt, alloc, 131_070)?, Err(12));
    Ok(())
}
