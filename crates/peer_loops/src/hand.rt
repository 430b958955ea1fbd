//! Seats at all parts for one who is no loop: it puts items in, and looks at versions.

ghost use Rattle.std.specs.Prelude.{◌≡◌, ◌<◌, ◌≤◌, ◌+◌, [], ◌++◌, Err, IfOk, OnErr, vec_len, vec_capacity};
ghost use Rattle.peer_loops.specs.Hands.{IsElsewhere, PutsAt, PutsUntil, entered_by, entries, place_in};

use crate::common::Common;
use crate::desks::Desks;
use crate::seats::Seats;
use item_core::Item;
use peer_threads::Gate;
use range_tree::Tree;
use shard_core::shard_of;
use std::alloc::{AllocError, Global};
use std::marker::Model;
use std::sync::Wait;
use version_lock::Pin;
use version_log::{Added, LogFault};

/// Why an item is not put in.
#[derive(Clone, Copy, Debug, PartialEq, Eq)]
pub enum HandFault {
    /// It is of a part that is not kept here.
    Elsewhere,
    /// The log of its part does not take it.
    Log(LogFault),
}

/// What came of items that were put in one after the other.
#[derive(Drop)]
pub struct Entered {
    /// Those that their parts lacked, in order.
    pub items: Vec<Item>,
    /// Why one was not put in, if that was so: then none after it was.
    pub fault: Option<HandFault>,
}

/// Seats at all parts for one who is no loop. Contracts see the parts' own shards and the views of the seats.
#[derive(Drop)]
pub struct Hand<'a> {
    pub(crate) seats: &'a Seats,
    pub(crate) desks: Desks,
}

impl<'a> Model for Hand<'a> {
    ghost use Rattle.std.specs.Prelude.{List, map};
    ghost use Rattle.std.specs.Arc.{arc_value};
    ghost use Rattle.peer_loops.specs.Hands.{Held, held};
    ghost use Rattle.peer_loops.specs.declared.desk.Desk.{Desk};

    ghost Value = { List Held };

    ghost view = { λ h. map (λ (d : Desk). held (arc_value d.part).own d.seat.view) h.desks.list.items };
}

/// Appends an item that its part lacked.
fn note(entered: &mut Vec<Item>, added: Added, item: &Item)
    requires room { vec_len entered.old < vec_capacity entered.old }
    ensures items { entered.new.items ≡ entered.old.items ++ entered_by added item.now [] }
    ensures few { vec_len entered.new ≤ vec_len entered.old + 1 }
    ensures capacity { vec_capacity entered.new ≡ vec_capacity entered.old }
{
    match added {
        Added::New(_) => entered.push_reserved(*item),
        Added::Already => {}
    }
}

impl<'a> Hand<'a> {
    /// One with these seats.
    pub(crate) fn with(seats: &'a Seats, desks: Desks) -> Hand<'a> {
        Hand { seats, desks }
    }

    /// Goes over to the parts that were made anew, before items are asked for, and after some were put in.
    pub fn follow<T: Wait, G: Gate>(&mut self, rt: &T, alloc: Global, common: &Common<'_, G>) {
        self.desks.follow(rt, alloc, common, self.seats);
    }

    /// How many parts there are.
    pub fn parts(&self) -> usize {
        self.desks.list.len()
    }

    /// The newest version of the part at this place, if there is one.
    pub fn pin<T: Wait>(
        &mut self,
        rt: &T,
        alloc: Global,
        place: usize,
    ) -> Option<Result<Pin<Tree>, AllocError>>
        ensures nothing { entries self.new ≡ entries self.old }
    {
        let desk = self.desks.list.get_mut(place)?;
        Some(desk.pin(rt, alloc))
    }

    /// The place of the part that may have the item. There may be no part there.
    pub fn place_of(&self, item: &Item) -> Option<usize>
        ensures { result ≡ place_in self.now item.now }
    {
        let desk = self.desks.list.first()?;
        let Some(one) = desk.part.own else {
            return Some(0);
        };
        let number = shard_of(item, one.bits);
        if number < one.number {
            return None;
        }
        Some(usize::from(number - one.number))
    }

    /// Puts an item into its part, if that is kept here and lacks it.
    fn put<T: Wait>(&mut self, rt: &T, alloc: Global, item: &Item) -> Result<Added, HandFault>
        ensures put { PutsAt self.old item.now result self.new }
        ensures elsewhere { result ≡ Err HandFault.Elsewhere → IsElsewhere self.old item.now }
    {
        let Some(place) = self.place_of(item) else {
            return Err(HandFault::Elsewhere);
        };
        let Some(desk) = self.desks.list.get_mut(place) else {
            return Err(HandFault::Elsewhere);
        };
        desk.add(rt, alloc, item)
    }

    /// Puts items into their parts, one after the other, up to the first one that is not put in. Whoever has put in all
    /// that there is tells the news. Else 90, and nothing is put in.
    pub fn put_each<T: Wait>(
        &mut self,
        rt: &T,
        alloc: Global,
        items: &[Item],
    ) -> Result<Entered, AllocError>
        ensures put { IfOk result (λ e. PutsUntil self.old items.now e.items.items e.fault self.new) }
        ensures memory { OnErr result (self.new ≡ self.old) }
    {
        let mut entered = Vec::with_capacity(alloc, items.len())?;
        for item in items {
            match self.put(rt, alloc, item) {
                Ok(added) => note(&mut entered, added, item),
                Err(fault) => {
                    return Ok(Entered {
                        items: entered,
                        fault: Some(fault),
                    });
                }
            }
        }
        Ok(Entered {
            items: entered,
            fault: None,
        })
    }
}
