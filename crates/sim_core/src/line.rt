//! The time of a session on a line, as docs/STRATEGIES.md reckons it.

ghost use Rattle.std.specs.Prelude.{◌≡◌, ◌<◌, ◌≤◌, IsTrue};
ghost use Rattle.sim_core.specs.Lines.{line_micros, micros_of, round_trip, turn_micros, waits};

/// A line that loses nothing.
#[derive(Clone, Copy, Debug, PartialEq, Eq)]
pub struct Line {
    /// The milliseconds of a round trip.
    pub round_trip: u32,
    /// The megabits in a second: bits in a microsecond. At least 1.
    pub rate: u32,
}

/// The bytes that TCP sends at first without an answer: ten segments.
const FIRST_WINDOW: u64 = 14_600;

/// The microseconds that so many bytes take on a line.
fn micros_of(bytes: u64, rate: u32) -> u64
    requires { 1 ≤ rate }
    ensures { result ≡ micros_of bytes rate }
{
    bytes.saturating_mul(8) / u64::from(rate)
}

/// The microseconds of a round trip.
fn round_trip(line: Line) -> u64
    ensures { result ≡ round_trip line }
{
    u64::from(line.round_trip) * 1_000
}

/// Whether more is left than the window, and a window takes less than a round trip.
fn waits(line: Line, window: u64, left: u64) -> bool
    requires { 1 ≤ line.rate }
    ensures waits { result ≡ waits line window left }
    ensures more { IsTrue result → window < left }
{
    left > window && micros_of(window, line.rate) < round_trip(line)
}

/// The microseconds of one turn, half a round trip and its bytes, and the window of that side then. Where the turn is
/// longer than the window, and a window takes less than a round trip, it waits a round trip for twice the window.
fn turn_micros(line: Line, first: u64, bytes: usize) -> (u64, u64)
    requires rate { 1 ≤ line.rate }
    requires some { 0 < first }
    ensures micros { result ≡ turn_micros line first bytes }
    ensures some { 0 < result.1 }
{
    let mut left = bytes as u64;
    let mut window = first;
    let mut micros = round_trip(line) / 2;
    'windows: while waits(line, window, left) {
        micros = micros.saturating_add(round_trip(line));
        left -= window;
        window = window.saturating_mul(2);
    }
    (micros.saturating_add(micros_of(left, line.rate)), window)
}

/// The microseconds of a session with these turns, of one side and the other: a round trip to connect, and then one
/// turn after the other. Nothing is lost, and the program itself takes no time.
pub fn session_micros(line: Line, turns: &[usize]) -> u64
    requires { 1 ≤ line.rate }
    ensures { result ≡ line_micros line turns.now }
{
    let mut micros = round_trip(line);
    let mut own = FIRST_WINDOW;
    let mut other = FIRST_WINDOW;
    for turn in turns {
        let (more, window) = turn_micros(line, own, *turn);
        micros = micros.saturating_add(more);
        own = other;
        other = window;
    }
    micros
}
