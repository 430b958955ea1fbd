//! Both adaptors, over a reader and a writer that move few bytes, and at times none. No clause speaks of errors.

use crate::{Packing, Unpacking};
use digest_core::{Print, WireSummary};
use std::alloc::Global;
use std::io;
use std::io::{ErrorKind, Read, Write};
use std::test::Fail;

/// What a side says, and what a session reads of it.
const SAID: &[u8] = b"RRS4\x01c\x81g\x07\x06\x01herry\x00\xC0\x0A\x09\x01\x01\x02\0ab\0cd\0";

const READ: &[u8] = b"RRS4\0\0\0\x10\x02\x01c\x01g\0\0\0\x01\x06cherry\0\0\0\x01\x04\
\0\0\0\x13\x03\0\xFF\0\0\0\x09\x01\x01\0\0\0\x02\x02ab\x02cd\0\0\0\x01\x04";

/// Every other call would wait; the others move so many bytes at most.
#[derive(Drop)]
struct Halting {
    bytes: Vec<u8>,
    at: usize,
    most: usize,
    waits: bool,
}

impl Halting {
    fn new(bytes: Vec<u8>, most: usize) -> Halting {
        Halting {
            bytes,
            at: 0,
            most,
            waits: false,
        }
    }

    fn call(&mut self) -> io::Result<()> {
        self.waits = !self.waits;
        if self.waits {
            return Err(io::Error::from(ErrorKind::WouldBlock));
        }
        Ok(())
    }
}

impl Read for Halting {
    fn read(&mut self, buf: &mut [u8]) -> io::Result<usize> {
        self.call()?;
        let rest = self.bytes.get(self.at..).unwrap_or(&[]);
        let count = rest.len().min(buf.len()).min(self.most);
        buf[..count].copy_from_slice(&rest[..count]);
        self.at = self.at.saturating_add(count);
        Ok(count)
    }
}

impl Write for Halting {
    fn write(&mut self, buf: &[u8]) -> io::Result<usize> {
        self.call()?;
        let count = buf.len().min(self.most);
        if self.bytes.extend_from_slice(&buf[..count]).is_err() {
            return Err(io::Error::from(ErrorKind::OutOfMemory));
        }
        Ok(count)
    }

    fn flush(&mut self) -> io::Result<()> {
        self.call()
    }
}

/// What is read of these bytes.
fn read_of(alloc: Global, said: &[u8], most: usize) -> Result<Vec<u8>, Fail> {
    let reader = Halting::new(Vec::from_slice(alloc, said)?, most);
    let mut stream: Unpacking<Halting, Print> = Unpacking::new(alloc, reader);
    let mut all = Vec::new(alloc);
    let mut room = [0u8; 9];
    for _ in 0..1000u32 {
        if let Ok(count) = stream.read(&mut room) {
            all.extend_from_slice(&room[..count])?;
        }
    }
    Ok(all)
}

/// What is sent of these bytes, where the caller hands on so many at a time, and comes again with those not told.
fn sent_of(alloc: Global, said: &[u8], most: usize) -> Result<Vec<u8>, Fail> {
    let writer = Halting::new(Vec::new(alloc), most);
    let mut stream: Packing<Halting, Print> = Packing::new(alloc, writer);
    let mut rest = said;
    for _ in 0..1000u32 {
        if let Ok(count) = stream.write(&rest[..rest.len().min(17)]) {
            rest = rest.get(count..).unwrap_or(&[]);
        }
    }
    Ok(Vec::from_slice(alloc, &stream.writer().bytes)?)
}

#[test]
fn streams_both_ways(rt: HostRuntime) -> Result<(), Fail> {
    let alloc = rt.alloc();
    for most in [1, 5, 100] {
        assert_eq!(rt; read_of(alloc, SAID, most)?.as_slice(), READ);
        assert_eq!(rt; sent_of(alloc, READ, most)?.as_slice(), SAID);
    }
    Ok(())
}

#[test]
fn another_hello_passes(rt: HostRuntime) -> Result<(), Fail> {
    let alloc = rt.alloc();
    let other: &[u8] = b"RRS1\0\0\0\x01\x04\x10";
    assert_eq!(rt; read_of(alloc, other, 3)?.as_slice(), other);
    assert_eq!(rt; sent_of(alloc, other, 3)?.as_slice(), other);
    Ok(())
}

/// The hello, and the frames of a message of so many Sums.
fn long_message(alloc: Global, sums: u16) -> Result<Vec<u8>, Fail> {
    let mut said = Vec::from_slice(alloc, &Print::hello())?;
    for number in 1..sums {
        said.extend_from_slice(b"\0\0\0\x13\x01\x02")?;
        said.extend_from_slice(&number.to_be_bytes())?;
        said.extend_from_slice(b"\x02")?;
        said.extend_from_slice(&number.saturating_add(1).to_be_bytes())?;
        said.extend_from_slice(&[7; 12])?;
    }
    said.extend_from_slice(b"\0\0\0\x01\x04")?;
    Ok(said)
}

#[test]
fn writes_are_told_by_pieces(rt: HostRuntime) -> Result<(), Fail> {
    let alloc = rt.alloc();
    let said = long_message(alloc, 2_000)?;
    let mut stream: Packing<Vec<u8>, Print> = Packing::new(alloc, Vec::new(alloc));
    let mut rest = said.as_slice();
    let mut calls = 0u32;
    for _ in 0..100u32 {
        if !rest.is_empty() {
            let Ok(count) = stream.write(rest) else {
                break;
            };
            rest = rest.get(count..).unwrap_or(&[]);
            calls = calls.saturating_add(1);
        }
    }
    // 45,986 bytes of frames, 16,384 at most a call
    assert_eq!(rt; calls, 3);
    let sent = stream.into_writer();
    assert_eq!(rt; sent.len(), 28_001);
    let mut back: Unpacking<&[u8], Print> = Unpacking::new(alloc, sent.as_slice());
    let mut all = Vec::new(alloc);
    assert!(rt; back.read_to_end(&mut all).is_ok());
    assert_eq!(rt; all.as_slice(), said.as_slice());
    Ok(())
}

#[test]
fn the_hello_is_read_alone(rt: HostRuntime) -> Result<(), Fail> {
    let alloc = rt.alloc();
    let mut stream: Unpacking<&[u8], Print> = Unpacking::new(alloc, SAID);
    let mut room = [0u8; 100];
    assert_eq!(rt; stream.read(&mut room).unwrap_or(0), 4);
    assert_eq!(rt; stream.reader().len(), SAID.len() - 4);
    assert_eq!(rt; &room[..4], b"RRS4".as_slice());
    Ok(())
}
