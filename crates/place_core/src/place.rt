ghost use Rattle.std.specs.Prelude.{◌≡◌, ◌++◌, [], ◌∷◌, true, false, if◌then◌else◌, IfOk, OnOk};
ghost use Rattle.definitions.specs.Messages as messages;
ghost use Rattle.definitions.specs.Messages.{open_parts};
ghost use Rattle.definitions.specs.Placing as placing;
ghost use Rattle.place_core.specs.PlaceFaults.{fault_in};
ghost use Rattle.place_core.specs.Cursors.{place_at};
ghost use Rattle.place_core.specs.Placements.{start_of, due};

use crate::cursor::Cursor;
use crate::fault::PlaceFault;
use digest_core::{Fingerprint, WireSummary};
use item_core::Item;
use std::alloc::{AllocError, Global};
use std::marker::Model;
use wire_core::{Part, PartKind};

/// Where the placing of a message stands: the open parts of the own message, of which it keeps a copy, and a cursor in
/// them. Only `after` takes memory.
#[derive(Debug, Drop)]
pub struct Place<F: WireSummary = Fingerprint> {
    first: bool,
    own: Vec<Part<F>>,
    cursor: Cursor,
}

impl<F: WireSummary> Model for Place<F> {
    ghost use Rattle.std.specs.Prelude.{◌≡◌, true, []};
    ghost use Rattle.place_core.specs.Cursors.{place_at};
    ghost use Rattle.place_core.specs.Placements.{Placement};

    ghost Value = { Placement F };

    ghost view = { λ a. record {
      first = a.first;
      cut = F.summary.may_cut;
      own = a.own.items;
      now = place_at a.own.items a.cursor;
    } };

    ghost invariant = { λ a. a.first ≡ true → a.own.items ≡ [] };
}

/// Appends a copy of the part, where it is open.
fn push_open<F: WireSummary>(
    alloc: Global,
    kept: &mut Vec<Part<F>>,
    part: &Part<F>,
) -> Result<(), AllocError>
    ensures { OnOk result (kept.new.items
        ≡ kept.old.items ++ (if messages.is_open part.now then part.now ∷ [] else [])) }
{
    if part.kind() != PartKind::Answer {
        kept.push(part.copy(alloc)?)?;
    }
    Ok(())
}

/// Copies of the open parts.
fn open_of<F: WireSummary>(alloc: Global, parts: &[Part<F>]) -> Result<Vec<Part<F>>, AllocError>
    ensures { IfOk result (λ v. v.items ≡ open_parts parts.now) }
{
    let mut kept = Vec::new(alloc);
    for part in parts {
        push_open(alloc, &mut kept, part)?;
    }
    Ok(kept)
}

impl<F: WireSummary> Place<F> {
    /// Before the first message of all, which answers none.
    pub fn opening(alloc: Global) -> Place<F>
        ensures { result ≡ record {
          first = true;
          cut = F.summary.may_cut;
          own = [];
          now = placing.First F.summary.may_cut;
        } }
    {
        Place {
            first: true,
            own: Vec::new(alloc),
            cursor: Cursor::First(F::may_cut()),
        }
    }

    /// Before a message that answers an own one, of these parts.
    pub fn after(alloc: Global, sent: &[Part<F>]) -> Result<Place<F>, AllocError>
        ensures { IfOk result (λ p. p ≡ record {
          first = false;
          cut = F.summary.may_cut;
          own = open_parts sent.now;
          now = placing.place_after (open_parts sent.now);
        }) }
    {
        Ok(Place {
            first: false,
            own: open_of(alloc, sent)?,
            cursor: Cursor::start::<F>(),
        })
    }

    /// Places the next part. A refusal stays.
    pub fn next(&mut self, part: &Part<F>) -> Result<(), PlaceFault>
        ensures place { self.new ≡ record self.old { now = placing.next self.old.now part.now } }
        ensures fault { fault_in result ≡ placing.refusal self.new.now }
    {
        self.cursor.next(&self.own, part)
    }

    /// Whether the message may end here.
    pub fn finish(&self) -> Result<(), PlaceFault>
        ensures { fault_in result ≡ placing.finish self.now.now }
    {
        self.cursor.finish(&self.own)
    }

    /// As before the first part, after a refusal too.
    pub fn rewind(&mut self)
        ensures { self.new ≡ record self.old { now = start_of self.old } }
    {
        self.cursor = if self.first {
            Cursor::First(F::may_cut())
        } else {
            Cursor::start::<F>()
        };
    }

    /// Where it stands.
    pub fn cursor(&self) -> Cursor
        ensures now { self.now.now ≡ place_at self.now.own result }
        ensures first { self.now.first ≡ true → self.now.own ≡ [] }
    {
        self.cursor
    }

    /// As where it stood before.
    pub fn return_to(&mut self, cursor: &Cursor)
        ensures { self.new ≡ record self.old { now = place_at self.old.own cursor.now } }
    {
        self.cursor = *cursor;
    }

    /// The items of the first List that was open there: the one that an Answer placed from there answers.
    pub fn due(&self, cursor: &Cursor) -> &[Item]
        ensures { result.now ≡ due self.now.own cursor.now }
    {
        cursor.due(&self.own)
    }
}
