//! A reader of what comes after a selector.

ghost use Rattle.std.specs.Prelude.{◌≡◌, ◌+◌, ◌*◌, ◌<◌, ◌≤◌, ◌++◌, ◌⊎◌, ℕ, List, [], true, false, length, take, sum};
ghost use Rattle.std.specs.Prelude.{Some, OnOk, OnErr, IfOk, Option};
ghost use Rattle.std.specs.Io.{ReadsAtMost};
ghost use Rattle.std.specs.Io.KnownBytes.{Consumes, IsAtEnd, Keeps, ReadConsumes};
ghost use Rattle.arrayvec.specs.ArrayVec.{array_vec_len};
ghost use Rattle.definitions.specs.Items.{Range, IsRange, same_range};
ghost use Rattle.definitions.specs.Items as items;
ghost use Rattle.shard_core.specs.Selectors.{selector_text};
ghost use Rattle.shard_core.specs.declared.selector.Which.{Which as Whichever};
ghost use Rattle.shard_core.specs.Fronts.{begins_with, takes_both, is_taken, has_length, after_fields};
ghost use Rattle.shard_core.specs.Fronts.{front_length, wanted, passed_on, ComesOn};

use crate::selector::{MARK, MAX_BOUND, PART_MARK, rest};
use arrayvec::ArrayVec;
use std::io;
use std::io::Read;
use std::marker::Model;

/// The most bytes that a selector has.
const MOST: usize = 202;

/// What a selector of the first kind has after its four bytes: a name, b and the number.
const FIELDS: [usize; 1] = [3];

/// What one of the second kind has there: these and two bounds.
const PART_FIELDS: [usize; 3] = [3, 0, 0];

/// Which selectors are taken off.
#[derive(Clone, Copy, Debug, PartialEq, Eq)]
enum KindsTaken {
    /// Those of both kinds.
    Both,
    /// Those of the second kind alone.
    Parts,
}

/// A reader that takes the selector off the front of its input, if it begins with one of a kind that is taken off, and
/// passes on what comes after it. An input that begins with other bytes is passed on whole.
#[derive(Drop)]
pub struct AfterSelector<R> {
    inner: R,
    kinds: KindsTaken,
    // What was read of the front.
    came: ArrayVec<u8, MOST>,
    // How many bytes of it are not passed on any more: those of the selector, and those that were passed on.
    passed: usize,
    // All of the front was read.
    is_whole: bool,
}

impl<R> Model for AfterSelector<R> {
    ghost use Rattle.std.specs.Prelude.{ℕ, ◌≤◌, length};
    ghost use Rattle.shard_core.specs.Fronts.{FrontState};

    ghost Value = { FrontState R };

    ghost view = { λ s. record {
      inner = s.inner;
      kinds = s.kinds;
      came = s.came.items;
      passed = s.passed;
      whole = s.is_whole;
    } };

    ghost invariant = { λ s. s.passed ≤ length s.came.items };
}

impl KindsTaken {
    /// Whether those of the first kind are taken off too.
    fn takes_both(self) -> bool
        ensures { result ≡ takes_both self }
    {
        match self {
            KindsTaken::Both => true,
            KindsTaken::Parts => false,
        }
    }
}

/// Whether these bytes begin with these four.
fn begins_with(bytes: &[u8], first: &[u8; 4]) -> bool
    ensures { result ≡ begins_with bytes.now first.now }
{
    let front = &bytes[..bytes.len().min(4)];
    front == first.as_slice()
}

/// Whether these bytes begin with the four of a selector that is taken off.
fn is_taken(kinds: KindsTaken, bytes: &[u8]) -> bool
    ensures { result ≡ is_taken kinds bytes.now }
{
    begins_with(bytes, &PART_MARK) || kinds.takes_both() && begins_with(bytes, &MARK)
}

/// Whether the byte at a place has come, and says a length of at most 64.
fn has_length(bytes: &[u8], place: usize) -> bool
    ensures { result ≡ has_length bytes.now place }
{
    place < bytes.len() && usize::from(bytes[place]) <= MAX_BOUND
}

/// Where these fields end, which begin at place 4: each is a byte that says a length, so many bytes, and as many more
/// as are given. The first that says no length ends them.
fn fields_end(bytes: &[u8], fields: &[usize]) -> usize
    requires { 65 * length fields.now + sum fields.now ≤ 198 }
    ensures end { result ≡ after_fields 4 fields.now bytes.now }
    ensures few { result ≤ 202 }
{
    let mut place = 4;
    for more in fields {
        if !has_length(bytes, place) {
            return place + 1;
        }
        place += 1 + usize::from(bytes[place]) + *more;
    }
    place
}

/// How many of these bytes are a selector.
fn front_length(kinds: KindsTaken, bytes: &[u8]) -> usize
    ensures length { result ≡ front_length kinds bytes.now }
    ensures few { result ≤ 202 }
{
    if !is_taken(kinds, bytes) {
        0
    } else if begins_with(bytes, &PART_MARK) {
        fields_end(bytes, &PART_FIELDS)
    } else {
        fields_end(bytes, &FIELDS)
    }
}

/// How many bytes are to be there before it is known how long the front is.
fn wanted(kinds: KindsTaken, bytes: &[u8]) -> usize
    ensures wanted { result ≡ wanted kinds bytes.now }
    ensures few { result ≤ 202 }
{
    if bytes.len() < 4 {
        4
    } else {
        front_length(kinds, bytes)
    }
}

/// Appends what was read.
fn keep(came: &mut ArrayVec<u8, MOST>, bytes: &[u8])
    requires { array_vec_len came.old + length bytes.now ≤ 202 }
    ensures { came.new.items ≡ came.old.items ++ bytes.now }
{
    if came.try_extend_from_slice(bytes).is_err() {
        unreachable!()
    }
}

impl<R: Read> AfterSelector<R> {
    /// A reader that has read nothing. Once all of the front was read, none is taken off any more.
    fn at_start(inner: R, kinds: KindsTaken, is_whole: bool) -> AfterSelector<R>
        ensures { result ≡ record { inner = inner; kinds = kinds; came = []; passed = 0; whole = is_whole } }
    {
        AfterSelector {
            inner,
            kinds,
            came: ArrayVec::new(),
            passed: 0,
            is_whole,
        }
    }

    /// A reader of what comes after the selector of this input, of either kind.
    pub fn new(inner: R) -> AfterSelector<R>
        ensures new { result ≡ record {
          inner = inner;
          kinds = KindsTaken.Both;
          came = [];
          passed = 0;
          whole = false;
        } }
        // It passes on what comes after a selector, and other bytes whole.
        ensures off { (name : List ℕ) (b : ℕ) (w : Whichever) (X : Range) (later : List ℕ) → length name ≤ 64 →
            IsRange X → passed_on result (Some (selector_text name b w X ++ later)) ≡ Some later }
        ensures other { (bytes : List ℕ) → is_taken KindsTaken.Both bytes ≡ false →
            passed_on result (Some bytes) ≡ Some bytes }
    {
        AfterSelector::at_start(inner, KindsTaken::Both, false)
    }

    /// A reader of what comes after the selector of this input, if that is one of a part.
    pub fn of_parts(inner: R) -> AfterSelector<R>
        ensures new { result ≡ record {
          inner = inner;
          kinds = KindsTaken.Parts;
          came = [];
          passed = 0;
          whole = false;
        } }
        // It passes on what comes after the selector of a part, and other bytes whole, also one of all items.
        ensures off { (name : List ℕ) (b : ℕ) (w : Whichever) (X : Range) (later : List ℕ) → length name ≤ 64 →
            IsRange X → same_range X items.whole ≡ false →
            passed_on result (Some (selector_text name b w X ++ later)) ≡ Some later }
        ensures other { (bytes : List ℕ) → is_taken KindsTaken.Parts bytes ≡ false →
            passed_on result (Some bytes) ≡ Some bytes }
        ensures first { (name : List ℕ) (b : ℕ) (w : Whichever) (later : List ℕ) →
            let bytes = selector_text name b w items.whole ++ later in
            passed_on result (Some bytes) ≡ Some bytes }
    {
        AfterSelector::at_start(inner, KindsTaken::Parts, false)
    }

    /// A reader of all of an input.
    pub fn whole(inner: R) -> AfterSelector<R>
        ensures new { result ≡ record {
          inner = inner;
          kinds = KindsTaken.Both;
          came = [];
          passed = 0;
          whole = true;
        } }
        ensures all { (unread : Option (List ℕ)) → passed_on result unread ≡ unread }
    {
        AfterSelector::at_start(inner, KindsTaken::Both, true)
    }

    /// What was read of the front: its selector, if it has one.
    pub fn came(&self) -> &[u8]
        ensures { result.now ≡ self.now.came }
    {
        &self.came
    }

    /// The reader of all of the input.
    pub fn inner(&self) -> &R
        ensures { result.now ≡ self.now.inner }
    {
        &self.inner
    }

    /// The same for good.
    pub fn into_inner(self) -> R
        ensures { result ≡ self.inner }
    {
        let AfterSelector { inner, .. } = self;
        inner
    }

    /// Reads on of the front, as many bytes as are wanted: none once no more are.
    fn read_more(&mut self) -> io::Result<usize>
        ensures came { IfOk result (λ n. (bytes : List ℕ) × (self.new.came ≡ self.old.came ++ bytes)
            × (length bytes ≡ n) × Consumes (R.remaining self.old.inner) (R.remaining self.new.inner) bytes) }
        ensures few { IfOk result (λ n. 0 < n → length self.old.came < 202) }
        ensures done { IfOk result (λ n. n ≡ 0 → (wanted self.new.kinds self.new.came ≤ length self.new.came)
            ⊎ IsAtEnd (R.remaining self.new.inner)) }
        ensures none { OnErr result ((self.new.came ≡ self.old.came)
            × Keeps (R.remaining self.old.inner) (R.remaining self.new.inner)) }
        ensures same { (self.new.passed ≡ self.old.passed) × (self.new.whole ≡ self.old.whole)
            × (self.new.kinds ≡ self.old.kinds) }
    {
        let wanted = wanted(self.kinds, &self.came);
        if wanted <= self.came.len() {
            return Ok(0);
        }
        let mut room = [0u8; MOST];
        let count = self.inner.read(&mut room[..wanted - self.came.len()])?;
        keep(&mut self.came, &room[..count]);
        Ok(count)
    }

    /// Reads the front, until it is known how long it is, or the input ends.
    fn take_front(&mut self) -> io::Result<()>
        requires { self.old.whole ≡ false }
        ensures whole { OnOk result (self.new.whole ≡ true) }
        ensures kept { Keeps (passed_on self.old (R.remaining self.old.inner))
            (passed_on self.new (R.remaining self.new.inner)) }
        ensures came { ComesOn self.old.came self.new.came (R.remaining self.old.inner)
            (R.remaining self.new.inner) [] }
    {
        'front: while self.read_more()? > 0 {}
        self.passed = front_length(self.kinds, &self.came).min(self.came.len());
        self.is_whole = true;
        Ok(())
    }

    /// Reads the front, unless all of it was read.
    fn make_whole(&mut self) -> io::Result<()>
        ensures whole { OnOk result (self.new.whole ≡ true) }
        ensures kept { Keeps (passed_on self.old (R.remaining self.old.inner))
            (passed_on self.new (R.remaining self.new.inner)) }
        ensures came { ComesOn self.old.came self.new.came (R.remaining self.old.inner)
            (R.remaining self.new.inner) [] }
    {
        if self.is_whole {
            return Ok(());
        }
        self.take_front()
    }

    /// Passes on what was read of the front and is no selector, as much as there is room for: how many bytes.
    fn pass_on(&mut self, buf: &mut [u8]) -> usize
        requires whole { self.old.whole ≡ true }
        requires some { self.old.passed < length self.old.came }
        ensures few { result ≤ length buf.new }
        ensures bytes { (unread : Option (List ℕ)) → Consumes (passed_on self.old unread) (passed_on self.new unread)
            (take result buf.new) }
        ensures some { result ≡ 0 → length buf.new ≡ 0 }
        ensures inner { self.new.inner ≡ self.old.inner }
        ensures came { self.new.came ≡ self.old.came }
        ensures room { length buf.new ≡ length buf.old }
    {
        let kept = rest(&self.came, self.passed);
        let count = kept.len().min(buf.len());
        buf[..count].copy_from_slice(&kept[..count]);
        self.passed += count;
        count
    }
}

impl<R: Read> Read for AfterSelector<R> {
    ghost remaining = { λ s. passed_on s (R.remaining s.inner) };

    fn read(&mut self, buf: &mut [u8]) -> io::Result<usize>
        ensures bound { ReadsAtMost result buf.new }
        ensures bytes { ReadConsumes (passed_on self.old (R.remaining self.old.inner))
            (passed_on self.new (R.remaining self.new.inner)) result buf.new }
        // What came of the front stays, and was read of the input before all else.
        ensures came { (after : List ℕ) × ComesOn self.old.came self.new.came (R.remaining self.old.inner)
            (R.remaining self.new.inner) after }
    {
        self.make_whole()?;
        if self.passed == self.came.len() {
            return self.inner.read(buf);
        }
        Ok(self.pass_on(buf))
    }
}
