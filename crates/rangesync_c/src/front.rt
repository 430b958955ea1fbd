//! The selector at the front of a peer's input, and the hello after it.

ghost use Rattle.std.specs.Prelude.{◌≡◌, ◌+◌, ◌*◌, ◌≤◌, length, drop, sum};
ghost use Rattle.shard_core.specs.Fronts.{begins_with, has_length, after_fields, front_length};
ghost use Rattle.shard_core.specs.declared.after_selector.KindsTaken.TheVariants.{Both};
ghost use Rattle.rangesync_c.specs.ShardStates.{has_hello, profile_in};

/// What a selector of all items begins with.
const MARK: [u8; 4] = [0x52, 0x52, 0x53, 0x4E];

/// What one of a part begins with.
const PART_MARK: [u8; 4] = [0x52, 0x52, 0x53, 0x50];

/// The hello of profile 2.
const SECOND_HELLO: [u8; 4] = [0x52, 0x52, 0x53, 0x32];

/// What a selector of all items has after its four bytes: a name, b and the number.
const FIELDS: [usize; 1] = [3];

/// What one of a part has there: these and two bounds.
const PART_FIELDS: [usize; 3] = [3, 0, 0];

/// Whether these bytes begin with these four.
fn begins_with(bytes: &[u8], first: &[u8; 4]) -> bool
    ensures { result ≡ begins_with bytes.now first.now }
{
    let front = &bytes[..bytes.len().min(4)];
    front == first.as_slice()
}

/// Whether the byte at a place has come, and says a length of at most 64.
fn has_length(bytes: &[u8], place: usize) -> bool
    ensures { result ≡ has_length bytes.now place }
{
    place < bytes.len() && bytes[place] <= 64
}

/// Where these fields end, which begin at place 4: each is a byte that says a length, so many bytes, and as many more
/// as are given. The first that says no length ends them.
fn fields_end(bytes: &[u8], fields: &[usize]) -> usize
    requires { 65 * length fields.now + sum fields.now ≤ 198 }
    ensures end { result ≡ after_fields 4 fields.now bytes.now }
    ensures few { result ≤ 202 }
{
    let mut place = 4;
    for more in fields {
        if !has_length(bytes, place) {
            return place + 1;
        }
        place += 1 + usize::from(bytes[place]) + *more;
    }
    place
}

/// How many of these bytes are a selector.
fn front_length(bytes: &[u8]) -> usize
    ensures length { result ≡ front_length Both bytes.now }
    ensures few { result ≤ 202 }
{
    if begins_with(bytes, &PART_MARK) {
        fields_end(bytes, &PART_FIELDS)
    } else if begins_with(bytes, &MARK) {
        fields_end(bytes, &FIELDS)
    } else {
        0
    }
}

/// Whether the hello has come.
pub(crate) fn has_hello(bytes: &[u8]) -> bool
    ensures { result ≡ has_hello bytes.now }
{
    front_length(bytes) + 4 <= bytes.len()
}

/// The bytes from a place on, none if there are none.
fn rest(bytes: &[u8], from: usize) -> &[u8]
    ensures { result.now ≡ drop from bytes.now }
{
    if from > bytes.len() {
        return &[];
    }
    &bytes[from..]
}

/// The wire profile of the hello, and 1 if it is of none.
pub(crate) fn profile_in(bytes: &[u8]) -> u32
    ensures { result ≡ profile_in bytes.now }
{
    if begins_with(rest(bytes, front_length(bytes)), &SECOND_HELLO) {
        2
    } else {
        1
    }
}
