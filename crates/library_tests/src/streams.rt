//! What a stream answers is passed on, and noted. The contracts of `Read` and `Write` have no word for an error.

use io_core::Watched;
use session_core::{Last, Polled};
use std::io;
use std::io::{ErrorKind, Read, Write};

/// A reader and a writer, each call of which fails so, or moves at most so many bytes.
#[derive(Drop)]
struct Gives {
    error: Option<ErrorKind>,
    most: usize,
}

impl Gives {
    fn call(&self) -> io::Result<()> {
        match self.error {
            Some(kind) => Err(io::Error::from(kind)),
            None => Ok(()),
        }
    }
}

impl Read for Gives {
    fn read(&mut self, buf: &mut [u8]) -> io::Result<usize> {
        self.call()?;
        Ok(buf.len().min(self.most))
    }
}

impl Write for Gives {
    fn write(&mut self, buf: &[u8]) -> io::Result<usize> {
        self.call()?;
        Ok(buf.len().min(self.most))
    }

    fn flush(&mut self) -> io::Result<()> {
        self.call()
    }
}

/// What is noted of a read and of a write.
fn noted(error: Option<ErrorKind>, most: usize) -> (Last, Last) {
    let mut reader = Polled::new(Gives { error, most });
    let mut writer = Polled::new(Gives { error, most });
    let _read = reader.read(&mut [0u8; 4]);
    let _written = writer.write(b"abcd");
    (reader.last(), writer.last())
}

#[test]
fn what_is_noted(rt: HostRuntime) {
    let waits = noted(Some(ErrorKind::WouldBlock), 0);
    assert_eq!(rt; waits, (Last::Waits, Last::Waits));
    let interrupted = noted(Some(ErrorKind::Interrupted), 0);
    assert_eq!(rt; interrupted, (Last::Interrupted, Last::Interrupted));
    let failed = noted(Some(ErrorKind::ConnectionReset), 0);
    assert_eq!(rt; failed, (Last::Failed, Last::Failed));
    assert_eq!(rt; noted(None, 0), (Last::Ended, Last::Failed));
    assert_eq!(rt; noted(None, 3), (Last::Moved, Last::Moved));
}

/// The kind of an error, if there is one.
fn kind_of(came: io::Result<usize>) -> Option<ErrorKind> {
    match came {
        Ok(_) => None,
        Err(error) => Some(error.kind()),
    }
}

// A flush that is not passed on fails in this test.
#[test]
fn an_error_is_the_inner_one(rt: HostRuntime) {
    for kind in [ErrorKind::WouldBlock, ErrorKind::ConnectionReset] {
        let mut stream = Watched::new(Gives {
            error: Some(kind),
            most: 0,
        });
        assert_eq!(rt; kind_of(stream.read(&mut [0u8; 4])), Some(kind));
        assert_eq!(rt; kind_of(stream.write(b"abcd")), Some(kind));
        assert!(rt; stream.flush().is_err());
    }
}
