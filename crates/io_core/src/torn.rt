//! Where the last whole line ends.

ghost use Rattle.std.specs.Prelude.{◌≤◌, ◌-◌, length, take, drop};
ghost use Rattle.io_core.specs.Lines.{Splits};

use memchr::memrchr;

/// How many bytes follow the last line feed: all of them if there is none.
pub fn torn_length(tail: &[u8]) -> usize
    ensures within { result ≤ length tail.now }
    ensures splits { let whole = length tail.now - result in
        Splits tail.now (take whole tail.now) (drop whole tail.now) }
{
    match memrchr(b'\n', tail) {
        Some(last) => tail.len() - (last + 1),
        None => tail.len(),
    }
}
