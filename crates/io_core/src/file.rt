//! Lines that were told wait here until they are written whole.

ghost use Rattle.std.specs.Prelude.{◌≡◌, ◌⊎◌, ◌↔◌, ◌++◌, ◌+◌, ◌<◌, ◌≤◌, ◌^◌, ℕ, List, [], false, length, take, drop};
ghost use Rattle.std.specs.Prelude.{OnOk, OnErr, IfOk, IsTrue};
ghost use Rattle.std.specs.IoError.{error_kind};
ghost use Rattle.io_core.specs.declared.file.Unwritten.TheVariants as unwritten;
ghost use Rattle.io_core.specs.Lines.{AreLines, line_count};
ghost use Rattle.io_core.specs.Devices.{Holds, Rises, Stays};
ghost use Rattle.io_core.specs.Keeping.{IsKept, MovesOn, IsTooLong};

use crate::device::Device;
use crate::torn::torn_length;
use std::alloc::{AllocError, Global};
use std::io;
use std::io::ErrorKind;
use std::marker::Model;

/// Why lines still wait.
#[derive(Clone, Copy, Debug, PartialEq, Eq)]
pub enum Unwritten {
    /// The device took fewer bytes than it was given, and no whole line.
    Short,
    /// The device refused a call, or can't hold so many bytes.
    Failed(ErrorKind),
}

impl From<io::Error> for Unwritten {
    ghost from_gives = { λ error fault. fault ≡ unwritten.Failed (error_kind error) };

    fn from(error: io::Error) -> Unwritten {
        Unwritten::Failed(error.kind())
    }
}

/// A device that lines are added to, and the lines that wait.
#[derive(Drop)]
pub struct LineFile<D> {
    device: D,
    /// Of the whole lines that the device holds.
    whole_length: u64,
    /// There may be bytes after them.
    is_torn: bool,
    /// What was told and is not written: whole lines.
    waiting: Vec<u8>,
}

impl<D> Model for LineFile<D> {
    ghost use Rattle.io_core.specs.Lines.{AreLines};
    ghost use Rattle.io_core.specs.Keeping.{Kept};

    ghost Value = { Kept D };

    ghost view = { λ f. record {
      device = f.device;
      whole_length = f.whole_length;
      is_torn = f.is_torn;
      waiting = f.waiting.items;
    } };

    ghost invariant = { λ f. AreLines f.waiting.items };
}

/// How many of the first `taken` bytes are in lines that are whole there.
fn lines_within(waiting: &[u8], taken: usize) -> usize
    requires within { taken ≤ length waiting.now }
    requires lines { AreLines waiting.now }
    ensures within { result ≤ taken }
    ensures lines { AreLines (take result waiting.now) }
    ensures all { taken ≡ length waiting.now → result ≡ taken }
{
    taken - torn_length(&waiting[..taken])
}

/// Gives up so many bytes at the front.
fn give_up(waiting: &mut Vec<u8>, count: usize)
    requires { count ≤ length waiting.old.items }
    ensures { waiting.new.items ≡ drop count waiting.old.items }
{
    let left = waiting.len() - count;
    waiting.copy_within(count.., 0);
    waiting.truncate(left);
}

impl<D: Device> LineFile<D> {
    /// Over a device that holds so many bytes, which are whole lines. Nothing waits.
    pub fn new(alloc: Global, device: D, whole_length: u64) -> LineFile<D>
        ensures is { result ≡ record { device = device; whole_length = whole_length; is_torn = false; waiting = [] } }
        ensures kept { (base : List ℕ) → AreLines base → whole_length ≡ length base → Holds (D.held device) base
            → IsKept D.held base [] result }
    {
        LineFile {
            device,
            whole_length,
            is_torn: false,
            waiting: Vec::new(alloc),
        }
    }

    /// The device itself.
    pub fn device(&self) -> &D
        ensures { result.now ≡ self.now.device }
    {
        &self.device
    }

    /// How many bytes of whole lines the device holds.
    pub fn whole_length(&self) -> u64
        ensures { result ≡ self.now.whole_length }
    {
        self.whole_length
    }

    /// What was told and is not written: whole lines.
    pub fn waiting(&self) -> &[u8]
        ensures bytes { result.now ≡ self.now.waiting }
        ensures lines { AreLines self.now.waiting }
    {
        &self.waiting
    }

    /// How many lines wait.
    pub fn waiting_lines(&self) -> usize
        ensures { result ≡ line_count self.now.waiting }
    {
        self.waiting.iter().filter(|byte| **byte == b'\n').count()
    }

    /// Lines, which wait after what waits already.
    pub fn tell(&mut self, lines: &[u8]) -> Result<(), AllocError>
        requires { AreLines lines.now }
        ensures waits { OnOk result (self.new ≡ record self.old { waiting = self.old.waiting ++ lines.now }) }
        ensures kept { OnOk result ((base told : List ℕ) → IsKept D.held base told self.old
            → IsKept D.held base (told ++ lines.now) self.new) }
        ensures same { OnErr result (self.new ≡ self.old) }
    {
        self.waiting.extend_from_slice(lines)
    }

    /// Writes all that waits, by one call of the device if that takes all. What may follow the whole lines is cut off
    /// first. Where the device took whole lines and not all of them, the rest is tried at once.
    pub fn write(&mut self) -> Result<(), Unwritten>
        ensures kept { (base told : List ℕ) → IsKept D.held base told self.old → IsKept D.held base told self.new }
        ensures moves { MovesOn self.old self.new }
        ensures all { OnOk result (self.new.waiting ≡ []) }
        ensures whole { OnOk result ((base told : List ℕ) → IsKept D.held base told self.old
            → Holds (D.held self.new.device) (base ++ told)) }
        ensures refused { OnErr result (Rises (D.refusals self.old.device) (D.refusals self.new.device)
            ⊎ IsTooLong self.old) }
        ensures too_long { IsTooLong self.old → (result ≡ Err (Unwritten.Failed ErrorKind.FileTooLarge))
            × (self.new ≡ self.old) }
    {
        if self.is_too_long() {
            return Err(Unwritten::Failed(ErrorKind::FileTooLarge));
        }
        'turns: while !self.waiting().is_empty() {
            self.write_once()?;
        }
        Ok(())
    }

    /// Whether the device can't hold what waits as well.
    fn is_too_long(&self) -> bool
        ensures { IsTrue result ↔ IsTooLong self.now }
    {
        self.whole_length
            .checked_add(self.waiting.len() as u64)
            .is_none()
    }

    /// Cuts off what may follow the whole lines, and appends what waits.
    fn write_once(&mut self) -> Result<(), Unwritten>
        requires some { 0 < length self.old.waiting }
        requires room { self.old.whole_length + length self.old.waiting < 2 ^ 64 }
        ensures kept { (base told : List ℕ) → IsKept D.held base told self.old → IsKept D.held base told self.new }
        ensures moves { MovesOn self.old self.new }
        ensures less { OnOk result (length self.new.waiting < length self.old.waiting) }
        ensures stays { Stays (D.refusals self.old.device) (D.refusals self.new.device) }
        ensures refused { OnErr result (Rises (D.refusals self.old.device) (D.refusals self.new.device)) }
    {
        self.heal()?;
        if self.append()? == 0 {
            return Err(Unwritten::Short);
        }
        Ok(())
    }

    /// Cuts off what may follow the whole lines, as `write` does before it writes: after a failure nothing torn is
    /// left.
    pub fn heal(&mut self) -> Result<(), Unwritten>
        ensures kept { (base told : List ℕ) → IsKept D.held base told self.old → IsKept D.held base told self.new }
        ensures waits { self.new.waiting ≡ self.old.waiting }
        ensures size { self.new.whole_length ≡ self.old.whole_length }
        ensures clean { OnOk result (self.new.is_torn ≡ false) }
        ensures whole { self.old.is_torn ≡ false → self.new ≡ self.old }
        ensures stays { Stays (D.refusals self.old.device) (D.refusals self.new.device) }
        ensures refused { OnErr result (Rises (D.refusals self.old.device) (D.refusals self.new.device)) }
    {
        if self.is_torn {
            self.device.cut(self.whole_length)?;
            self.is_torn = false;
        }
        Ok(())
    }

    /// Appends what waits, and tells how many bytes of it went in whole lines: these wait no longer.
    fn append(&mut self) -> Result<usize, Unwritten>
        requires clean { self.old.is_torn ≡ false }
        requires room { self.old.whole_length + length self.old.waiting < 2 ^ 64 }
        ensures kept { (base told : List ℕ) → IsKept D.held base told self.old → IsKept D.held base told self.new }
        ensures moves { MovesOn self.old self.new }
        ensures less { IfOk result (λ n. length self.new.waiting + n ≡ length self.old.waiting) }
        ensures stays { Stays (D.refusals self.old.device) (D.refusals self.new.device) }
        ensures refused { OnErr result (Rises (D.refusals self.old.device) (D.refusals self.new.device)) }
        ensures short { IfOk result (λ n. n < length self.old.waiting
            → Rises (D.refusals self.old.device) (D.refusals self.new.device)) }
    {
        self.is_torn = true;
        let taken = self.device.append(&self.waiting)?;
        let whole = lines_within(&self.waiting, taken);
        self.is_torn = whole < taken;
        self.whole_length += whole as u64;
        give_up(&mut self.waiting, whole);
        Ok(whole)
    }

    /// Sees that what the device holds outlives a loss of power. What waits is not written.
    pub fn sync(&mut self) -> io::Result<()>
        ensures kept { (base told : List ℕ) → IsKept D.held base told self.old → IsKept D.held base told self.new }
        ensures same { self.new ≡ record self.old { device = self.new.device } }
        ensures bytes { D.held self.new.device ≡ D.held self.old.device }
        ensures saved { OnOk result (D.saved self.new.device ≡ D.held self.new.device) }
        ensures refused { OnErr result (Rises (D.refusals self.old.device) (D.refusals self.new.device)) }
    {
        self.device.sync()
    }
}
