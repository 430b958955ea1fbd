ghost use Rattle.std.specs.Prelude.{◌≡◌, ◌↔◌, ◌*◌, ◌<◌, ◌≤◌, ◌^◌, [], length, take, drop, IfOk, slice_get, not};
ghost use Rattle.std.specs.Prelude.{bytes_eq, IsTrue};
ghost use Rattle.std.specs.Cmp.{partial_equiv_from_equiv, bool_eq_equiv};
ghost use Rattle.std.specs.Cmp.Lexicographic.{lists_equiv};
ghost use Rattle.definitions.specs.Wire.{mark_bytes, mark_bytes_for};
ghost use Rattle.definitions.specs.Wire as wire;
ghost use Rattle.definitions.specs.Reading.{marks_in};
ghost use Rattle.wire_core.specs.Packed.{IsPacked};
ghost use Rattle.wire_core.specs.Same.{same_marks};

use std::alloc::{AllocError, Global};
use std::marker::Model;

/// The marks of an Answer, one for each listed item, eight to a byte.
#[derive(Debug, Drop)]
pub struct Marks {
    bytes: Vec<u8>,
    count: u32,
}

impl Model for Marks {
    ghost use Rattle.std.specs.Prelude.{List, Bool};
    ghost use Rattle.definitions.specs.Reading.{marks_in};
    ghost use Rattle.wire_core.specs.Packed.{IsPacked};

    ghost Value = { List Bool };

    ghost view = { λ a. marks_in a.count a.bytes.items };

    ghost invariant = { λ a. IsPacked a.count a.bytes.items };
}

impl Marks {
    /// The marks of the list, in order: at most 4,294,967,295 of them.
    pub fn new(alloc: Global, marks: &[bool]) -> Result<Marks, AllocError>
        requires { length marks.now < 2 ^ 32 }
        ensures { IfOk result (λ m. m ≡ marks.now) }
    {
        laws::codec::marks_come_back();
        Ok(Marks {
            bytes: packed(alloc, marks)?,
            count: marks.len() as u32,
        })
    }

    /// So many marks, packed in these bytes.
    pub fn of_packed(alloc: Global, bytes: &[u8], count: u32) -> Result<Marks, AllocError>
        requires { IsPacked count bytes.now }
        ensures { IfOk result (λ m. m ≡ marks_in count bytes.now) }
    {
        Ok(Marks {
            bytes: Vec::from_slice(alloc, bytes)?,
            count,
        })
    }

    /// The same marks again.
    pub fn copy(&self, alloc: Global) -> Result<Marks, AllocError>
        ensures { IfOk result (λ m. m ≡ self.now) }
    {
        Marks::of_packed(alloc, self.bytes.as_slice(), self.count)
    }

    /// The number of marks.
    pub fn len(&self) -> usize
        ensures length { result ≡ length self.now }
        ensures few { length self.now < 2 ^ 32 }
    {
        self.count as usize
    }

    /// Whether there are none.
    pub fn is_empty(&self) -> bool
        ensures { IsTrue result ↔ (self.now ≡ []) }
    {
        self.len() == 0
    }

    /// The mark at a place, from 0, if there is one.
    pub fn get(&self, index: usize) -> Option<bool>
        ensures { result ≡ slice_get self.now index }
    {
        if index >= self.count as usize {
            return None;
        }
        Some((self.bytes[index / 8] >> (index % 8)) % 2 == 1)
    }

    /// The marks, eight to a byte: mark i is the bit of value 2^(i mod 8) in byte i / 8, and unused bits are zero.
    pub fn bytes(&self) -> &[u8]
        ensures bytes { result.now ≡ mark_bytes self.now }
        ensures small { length result.now ≤ 2 ^ 29 }
    {
        &self.bytes
    }
}

impl PartialEq for Marks {
    ghost eq = { same_marks };

    ghost laws = { partial_equiv_from_equiv (lists_equiv bool_eq_equiv) };

    fn eq(&self, other: &Self) -> bool {
        laws::codec::marks_come_back();
        self.len() == other.len() && self.bytes() == other.bytes()
    }
}

impl Eq for Marks {
    ghost laws = { lists_equiv bool_eq_equiv };
}

/// The byte of eight marks or fewer: the first counts 1, the next 2, and so on.
fn mark_byte(marks: &[bool]) -> u8
    requires { length marks.now ≤ 8 }
    ensures byte { result ≡ wire.mark_byte marks.now }
    ensures small { result < 2 ^ length marks.now }
{
    match marks {
        [] => 0,
        [mark, rest @ ..] => u8::from(*mark) + 2 * mark_byte(rest),
    }
}

/// The byte of the eight marks from place 8 * index on, or of as many as there are.
fn byte_at(marks: &[bool], index: usize) -> u8
    requires { 8 * index ≤ length marks.now }
    ensures { result ≡ wire.mark_byte (take 8 (drop (8 * index) marks.now)) }
{
    let rest = &marks[8 * index..];
    mark_byte(&rest[..rest.len().min(8)])
}

/// The marks, eight to a byte.
fn packed(alloc: Global, marks: &[bool]) -> Result<Vec<u8>, AllocError>
    ensures { IfOk result (λ v. v.items ≡ mark_bytes marks.now) }
{
    let mut bytes = Vec::new(alloc);
    for index in 0..marks.len().div_ceil(8) {
        bytes.push(byte_at(marks, index))?;
    }
    Ok(bytes)
}

/// Whether a bit after the last of so many marks is set.
pub fn has_padding(bytes: &[u8], count: u32) -> bool
    requires { length bytes.now ≡ mark_bytes_for count }
    ensures { result ≡ not (bytes_eq bytes.now (mark_bytes (marks_in count bytes.now))) }
{
    laws::codec::padding_is_last();
    let used = count % 8;
    used != 0 && bytes.last().is_some_and(|byte| byte >> used != 0)
}
