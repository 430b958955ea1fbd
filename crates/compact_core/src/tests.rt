//! Bytes from outside, both ways and in pieces: no clause says what the definitions were meant to be.

use crate::{Packer, Unpacker};
use digest_core::{Fingerprint, Print, Summary, WireSummary};
use item_core::{Item, Lower, Range, Upper};
use std::alloc::{AllocError, Global};
use std::test::Fail;
use wire_core::{Marks, Part};

/// The frames that the bytes mean, where they come in pieces of this length.
fn unpacked(alloc: Global, text: &[u8], size: usize) -> Result<Vec<u8>, AllocError> {
    let mut unpacker: Unpacker<Print> = Unpacker::new(alloc);
    let mut frames = Vec::new(alloc);
    for piece in text.chunks(size.max(1)) {
        unpacker.push(alloc, piece, &mut frames)?;
    }
    Ok(frames)
}

/// The compact text of the frames, where they come in pieces of this length.
fn packed(alloc: Global, frames: &[u8], size: usize) -> Result<Vec<u8>, AllocError> {
    let mut packer: Packer<Print> = Packer::new(alloc);
    let mut text = Vec::new(alloc);
    for piece in frames.chunks(size.max(1)) {
        packer.push(alloc, piece, &mut text)?;
    }
    Ok(text)
}

/// Messages of the worked example, two spelled otherwise, and their frames.
const MESSAGES: [(&[u8], &[u8]); 5] = [
    // A skip to c, and a List up to g of cherry.
    (
        b"\x01c\x81g\x07\x06\x01herry\x00",
        b"\0\0\0\x10\x02\x01c\x01g\0\0\0\x01\x06cherry\0\0\0\x01\x04",
    ),
    // An Answer there: one mark, which is clear, and citron.
    (
        b"\x01c\xC1g\x09\x01\x00\x06\x01itron\x00",
        b"\0\0\0\x15\x03\x01c\x01g\0\0\0\x01\0\0\0\0\x01\x06citron\0\0\0\x01\x04",
    ),
    // A List over everything of a and ab, which have two lengths.
    (
        b"\x80\x07\0\0\x01a\x01\x01b\0",
        b"\0\0\0\x0C\x02\0\xFF\0\0\0\x02\x01a\x02ab\0\0\0\x01\x04",
    ),
    // An Answer over everything with nine marks, and ab and cd.
    (
        b"\xC0\x0A\x09\x01\x01\x02\0ab\0cd\0",
        b"\0\0\0\x13\x03\0\xFF\0\0\0\x09\x01\x01\0\0\0\x02\x02ab\x02cd\0\0\0\x01\x04",
    ),
    // No part, and then a fault.
    (b"\0\x08\x05", b"\0\0\0\x01\x04\0\0\0\x02\x05\x05"),
];

#[test]
fn messages_both_ways(rt: HostRuntime) -> Result<(), Fail> {
    let alloc = rt.alloc();
    for (text, frames) in MESSAGES {
        for size in [1, 3, 100] {
            assert_eq!(rt; unpacked(alloc, text, size)?.as_slice(), frames);
            assert_eq!(rt; packed(alloc, frames, size)?.as_slice(), text);
        }
    }
    Ok(())
}

/// Texts that are refused, and the frame that a session refuses with the same number.
const REFUSED: [(&[u8], &[u8]); 10] = [
    // 4: a head of no kind, a skip to an end.
    (b"\x10", b"\0\0\0\x01\0"),
    (b"\x01a\0", b"\0\0\0\x01\0"),
    // 5: a share of nothing, an end that shares.
    (b"\x49a", b"\0\0\0\x02\x01A"),
    (b"\x48", b"\0\0\0\x02\x01A"),
    // 2: a number that begins with nothing, a width alone.
    (b"\x80\x80", b"\0\0\0\0"),
    (b"\x80\x01\x01", b"\0\0\0\0"),
    // 7: one length said of each item.
    (b"\x80\x04\0\0\x01a", b"\0\0\0\x08\x02\0\xFF\0\0\0\x01\0"),
    // 8: an item twice.
    (
        b"\x80\x05\x01\0a\0a",
        b"\0\0\0\x0B\x02\0\xFF\0\0\0\x02\x01\0\x01\0",
    ),
    // 9: an item outside.
    (
        b"\x81a\x03\x01\0a",
        b"\0\0\0\x0A\x02\0\x01\0\0\0\0\x01\x01\0",
    ),
    // 10: a mark bit that is not used.
    (
        b"\xC0\x02\x01\x02",
        b"\0\0\0\x0C\x03\0\xFF\0\0\0\x01\x02\0\0\0\0",
    ),
];

#[test]
fn ten_refusals(rt: HostRuntime) -> Result<(), Fail> {
    let alloc = rt.alloc();
    for (text, frame) in REFUSED {
        for size in [1, 2, 100] {
            assert_eq!(rt; unpacked(alloc, text, size)?.as_slice(), frame);
        }
    }
    Ok(())
}

/// Numbers that look drawn.
#[derive(Drop)]
struct Numbers {
    state: u64,
}

impl Numbers {
    /// The next one, below 256.
    fn next(&mut self) -> u8 {
        self.state = self
            .state
            .wrapping_mul(6_364_136_223_846_793_005)
            .wrapping_add(1_442_695_040_888_963_407);
        (self.state >> 56) as u8
    }
}

/// Items of two or three bytes after this bound of two bytes, and before the next one.
fn items_after(
    alloc: Global,
    numbers: &mut Numbers,
    bound: [u8; 2],
) -> Result<Vec<Item>, AllocError> {
    let mut items = Vec::new(alloc);
    for last in 0..numbers.next() % 6 {
        items.push(Item::of(&[bound[0], bound[1], last]))?;
    }
    Ok(items)
}

/// A part between two bounds.
fn part_between(
    alloc: Global,
    numbers: &mut Numbers,
    range: Range,
    bound: [u8; 2],
) -> Result<Option<Part<Print>>, AllocError> {
    let items = items_after(alloc, numbers, bound)?;
    match numbers.next() % 3 {
        0 => Ok(Some(Part::sum(range, Print::of_set(0, Fingerprint::zero())))),
        1 => Ok(Part::list(range, items).ok()),
        _ => {
            let marks = Marks::new(alloc, &[true, numbers.next() > 99, false])?;
            Ok(Part::answer(range, marks, items).ok())
        }
    }
}

/// The frames of a message with a part for each of these letters, but for some.
fn drawn_frames(
    alloc: Global,
    numbers: &mut Numbers,
    letters: &[u8],
) -> Result<Vec<u8>, AllocError> {
    let mut frames = Vec::new(alloc);
    for letter in letters {
        let bound = [*letter, numbers.next()];
        let upper = Upper::Before(Item::of(&[letter.wrapping_add(1)]));
        if let Ok(range) = Range::new(Lower::of(&bound), upper)
            && let Some(part) = part_between(alloc, numbers, range, bound)?
        {
            part.push(&mut frames)?;
        }
    }
    frames.extend_from_slice(&[0, 0, 0, 1, 4])?;
    Ok(frames)
}

#[test]
fn drawn_messages_come_back(rt: HostRuntime) -> Result<(), Fail> {
    let alloc = rt.alloc();
    let mut numbers = Numbers { state: 7 };
    for size in 1..40 {
        let frames = drawn_frames(alloc, &mut numbers, b"bcdmno")?;
        let text = packed(alloc, &frames, size)?;
        assert!(rt; text.len() < frames.len());
        assert_eq!(rt; unpacked(alloc, &text, size)?.as_slice(), frames.as_slice());
    }
    Ok(())
}
