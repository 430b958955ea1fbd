//! Which calls of a device are made, and which failure is told. No clause says why a device refuses.

ghost use Rattle.std.specs.Prelude.{◌≡◌, Some};

use io_core::{Device, LineFile, Unwritten};
use std::alloc::Global;
use std::io;
use std::io::ErrorKind;
use std::test::Fail;

/// What a call does that does not go well.
#[derive(Clone, Copy)]
enum Trouble {
    /// It takes at most so many of the bytes that it is to append.
    Takes(usize),
    /// It fails, and has cut all but one byte of what it is to cut.
    Fails(ErrorKind),
}

/// A device in memory. Its first calls do what is listed, and all later ones go well.
#[derive(Drop)]
struct Memory {
    bytes: Vec<u8>,
    calls: usize,
    first: &'static [Option<Trouble>],
}

impl Memory {
    /// Counts a call, and tells what goes wrong.
    fn call(&mut self) -> Option<Trouble>
        ensures { self.new.bytes ≡ self.old.bytes }
    {
        let call = self.calls;
        self.calls = call.saturating_add(1);
        match self.first.get(call) {
            Some(trouble) => *trouble,
            None => None,
        }
    }
}

impl Device for Memory {
    ghost held = { λ memory. Some memory.bytes.items };

    ghost saved = { λ memory. Some memory.bytes.items };

    fn append(&mut self, bytes: &[u8]) -> io::Result<usize> {
        let most = match self.call() {
            Some(Trouble::Takes(most)) => most,
            _ => bytes.len(),
        };
        let count = most.min(bytes.len());
        self.bytes.extend_from_slice(&bytes[..count])?;
        Ok(count)
    }

    fn cut(&mut self, length: u64) -> io::Result<()> {
        if let Some(Trouble::Fails(kind)) = self.call() {
            self.bytes.truncate(length.saturating_add(1) as usize);
            return Err(io::Error::from(kind));
        }
        self.bytes.truncate(length as usize);
        Ok(())
    }

    fn sync(&mut self) -> io::Result<()> {
        if let Some(Trouble::Fails(kind)) = self.call() {
            return Err(io::Error::from(kind));
        }
        Ok(())
    }
}

/// A file of lines over a device in memory without a byte, whose lines have this length.
fn file_over(alloc: Global, length: u64, first: &'static [Option<Trouble>]) -> LineFile<Memory> {
    let device = Memory {
        bytes: Vec::new(alloc),
        calls: 0,
        first,
    };
    LineFile::new(alloc, device, length)
}

/// A line goes out by one call, and nothing is asked of the device where nothing waits.
#[test]
fn one_call_a_line(rt: HostRuntime) -> Result<(), Fail> {
    let mut file = file_over(rt.alloc(), 0, &[]);
    assert_eq!(rt; file.write(), Ok(()));
    assert_eq!(rt; file.device().calls, 0);
    file.tell(b"63\n64\n")?;
    assert_eq!(rt; file.write(), Ok(()));
    assert_eq!(rt; file.device().calls, 1);
    assert!(rt; file.sync().is_ok());
    assert_eq!(rt; file.device().calls, 2);
    assert_eq!(rt; file.device().bytes.as_slice(), b"63\n64\n".as_slice());
    Ok(())
}

/// The first line goes out, too little of the second one is taken, and that is not cut off at once.
const TROUBLES: &[Option<Trouble>] = &[
    None,
    Some(Trouble::Takes(4)),
    Some(Trouble::Fails(ErrorKind::TimedOut)),
];

#[test]
fn why_lines_wait(rt: HostRuntime) -> Result<(), Fail> {
    let mut file = file_over(rt.alloc(), 0, TROUBLES);
    file.tell(b"63\n")?;
    assert_eq!(rt; file.write(), Ok(()));
    file.tell(b"646566\n")?;
    assert_eq!(rt; file.write(), Err(Unwritten::Short));
    assert_eq!(rt; file.write(), Err(Unwritten::Failed(ErrorKind::TimedOut)));
    assert_eq!(rt; file.device().bytes.as_slice(), b"63\n6".as_slice());
    assert_eq!(rt; file.write(), Ok(()));
    assert_eq!(rt; file.device().bytes.as_slice(), b"63\n646566\n".as_slice());
    Ok(())
}

const FAILS: &[Option<Trouble>] = &[Some(Trouble::Fails(ErrorKind::Other))];

/// A sync that fails is told, and a device that can't hold so many bytes is not asked.
#[test]
fn other_failures(rt: HostRuntime) -> Result<(), Fail> {
    let mut file = file_over(rt.alloc(), u64::MAX - 2, FAILS);
    assert!(rt;
        file.sync()
            .is_err_and(|error| error.kind() == ErrorKind::Other)
    );
    file.tell(b"63\n")?;
    let too_large = Err(Unwritten::Failed(ErrorKind::FileTooLarge));
    assert_eq!(rt; file.write(), too_large);
    assert_eq!(rt; file.device().calls, 1);
    Ok(())
}
