ghost use Rattle.definitions.specs.Sets.{items_in};
ghost use Rattle.store_core.specs.Flat.{flat_items};

use crate::flat_store::FlatStore;
use crate::hashed_item::HashedItem;
use crate::range_store::{Insertion, RangeStore};
use crate::span::Span;
use crate::{spans, sums};
use digest_core::Fingerprint;
use item_core::{Item, Range};
use std::alloc::{AllocError, Global};

impl RangeStore for FlatStore {
    ghost content = { flat_items };

    ghost rises = { λ s. s.rises };

    ghost are_items = { λ s. s.are_items };

    fn empty(alloc: Global) -> FlatStore {
        FlatStore {
            items: Vec::new(alloc),
            sums: Vec::new(alloc),
        }
    }

    fn from_rising(alloc: Global, items: &[Item]) -> Result<FlatStore, AllocError> {
        Ok(FlatStore {
            items: Vec::from_slice(alloc, items)?,
            sums: sums::running(alloc, items)?,
        })
    }

    fn len(&self) -> usize {
        self.items.len()
    }

    fn span_of(&self, range: &Range) -> Span {
        spans::within(&self.items, range)
    }

    fn sum_before(&self, place: usize) -> Fingerprint {
        let fitted = place.min(self.items.len());
        sums::before(&self.sums, fitted)
    }

    fn items_at(&self, alloc: Global, at: Span) -> Result<Vec<Item>, AllocError> {
        let Span { from, to } = at.fitted(self.items.len());
        Vec::from_slice(alloc, &self.items[from..to])
    }

    fn item_at(&self, place: usize) -> Item {
        self.items[place]
    }

    fn has(&self, item: &Item) -> bool {
        spans::gap_for(&self.items, item).is_none()
    }

    fn with(&self, alloc: Global, item: Item) -> Result<Insertion<FlatStore>, AllocError> {
        match spans::gap_for(&self.items, &item) {
            None => Ok(Insertion::Already),
            Some(place) => {
                let hashed = HashedItem::new(item);
                Ok(Insertion::New(FlatStore {
                    items: spans::with_item(alloc, &self.items, place, item)?,
                    sums: sums::with_hashed(alloc, &self.sums, place, &hashed)?,
                }))
            }
        }
    }

    fn copy(&self, alloc: Global) -> Result<FlatStore, AllocError> {
        Ok(FlatStore {
            items: Vec::from_slice(alloc, &self.items)?,
            sums: Vec::from_slice(alloc, &self.sums)?,
        })
    }
}
