//! The items of a text that comes in pieces, dealt to their shards.

ghost use Rattle.std.specs.Prelude.{◌≡◌, ◌+◌, ◌<◌, ◌≤◌, ◌^◌, ℕ, List, [], ◌∷◌, ◌++◌, length, IfOk, IfErr, OnOk, Ok};
ghost use Rattle.std.specs.Prelude.{Err};
ghost use Rattle.definitions.specs.Items.{Item as Bytes};
ghost use Rattle.shard_core.specs.Shards.{max_bits};
ghost use Rattle.item_files.specs.ItemFiles.{file_items};
ghost use Rattle.item_files.specs.PieceTexts.{feeds, Deals, IsPieceFault, IsDealt, IsStopped, IsLast, IsLastFault};

use crate::load_fault::LoadFault;
use crate::options::LoadOptions;
use crate::piece::{PieceStart, feeds_in, piece_items};
use item_core::Item;
use memchr::memrchr;
use shard_core::{ShardSpan, deal_span, none_dealt, shards_of};
use std::alloc::Global;
use std::thread::Threads;

/// What was read of a text so far.
#[derive(Drop)]
pub struct Dealing {
    /// How it is loaded.
    pub options: LoadOptions,
    /// The items of each shard that is loaded; the lists of the others stay empty.
    pub lists: Vec<Vec<Item>>,
    /// The last line so far, and in front of it the line feed that it follows, if there is one.
    pub waiting: Vec<u8>,
    /// How many line feeds there are in front of what waits.
    pub feeds: usize,
    /// How many bytes were read.
    pub taken: usize,
}

impl Dealing {
    /// Nothing was read.
    pub fn new(alloc: Global, options: LoadOptions) -> Result<Dealing, LoadFault>
        requires { options.bits ≤ max_bits }
        ensures options { IfOk result (λ d. d.options ≡ options) }
        ensures all { IfOk result (λ d. length d.lists.items ≡ 2 ^ options.bits) }
        ensures none { IfOk result (λ d. (d.taken ≡ 0) × (d.feeds ≡ 0) × (d.waiting.items ≡ [])) }
        ensures dealt { IfOk result (λ d.
            IsDealt options [] d.waiting.items d.feeds d.lists.items) }
        ensures memory { IfErr result (λ e. e ≡ LoadFault.Memory) }
    {
        let lists = none_dealt(alloc, options.bits)?;
        let waiting = Vec::new(alloc);
        Ok(Dealing {
            options,
            lists,
            waiting,
            feeds: 0,
            taken: 0,
        })
    }
}

impl Dealing {
    /// Reads what waits as a piece, and deals those of its items that are loaded. What waits stays.
    fn deal_waiting<T: Threads + Sync>(&mut self, rt: &T, alloc: Global) -> Result<(), LoadFault>
        requires low { self.old.options.bits ≤ max_bits }
        requires all { length self.old.lists.items ≡ 2 ^ self.old.options.bits }
        requires few { self.old.feeds + length self.old.waiting.items < 2 ^ 40 }
        ensures dealt { OnOk result ((xs : List Bytes)
            × (file_items self.old.options.form self.old.waiting.items ≡ Ok xs)
            × Deals self.old.options self.old.lists.items self.new.lists.items xs) }
        ensures feeds { OnOk result (self.new.feeds ≡ self.old.feeds + feeds self.old.waiting.items) }
        ensures few { OnOk result (self.new.feeds ≤ self.old.feeds + length self.old.waiting.items) }
        ensures all { OnOk result (length self.new.lists.items ≡ 2 ^ self.old.options.bits) }
        ensures rest { (self.new.options ≡ self.old.options) × (self.new.waiting ≡ self.old.waiting)
            × (self.new.taken ≡ self.old.taken) }
        ensures bad { IfErr result (λ e.
            IsPieceFault self.old.options.form self.old.waiting.items self.old.feeds e) }
    {
        let LoadOptions {
            form,
            bits,
            first,
            last,
            cap: _,
        } = self.options;
        let start = PieceStart {
            form,
            feeds: self.feeds,
        };
        let items = piece_items(rt, alloc, start, &self.waiting)?;
        let numbers = shards_of(rt, alloc, bits, &items)?;
        let span = ShardSpan { bits, first, last };
        deal_span(&mut self.lists, span, &items, &numbers)?;
        self.feeds += feeds_in(&self.waiting);
        Ok(())
    }

    /// Takes the next bytes of the text. Lines that end in them are read, and the last one waits.
    pub fn add<T: Threads + Sync>(
        &mut self,
        rt: &T,
        alloc: Global,
        bytes: &[u8],
    ) -> Result<(), LoadFault>
        requires low { self.old.options.bits ≤ max_bits }
        requires all { length self.old.lists.items ≡ 2 ^ self.old.options.bits }
        requires few { self.old.feeds + length self.old.waiting.items + length bytes.now < 2 ^ 40 }
        ensures dealt { (read : List ℕ) →
            IsDealt self.old.options read self.old.waiting.items self.old.feeds
            self.old.lists.items →
            OnOk result (IsDealt self.old.options (read ++ bytes.now)
            self.new.waiting.items self.new.feeds self.new.lists.items) }
        ensures few { OnOk result (self.new.feeds + length self.new.waiting.items
            ≤ self.old.feeds + length self.old.waiting.items + length bytes.now) }
        ensures all { OnOk result (length self.new.lists.items ≡ 2 ^ self.old.options.bits) }
        ensures rest { (self.new.options ≡ self.old.options) × (self.new.taken ≡ self.old.taken) }
        ensures bad { (read : List ℕ) →
            IsDealt self.old.options read self.old.waiting.items self.old.feeds
            self.old.lists.items →
            IfErr result (λ e. IsStopped self.old.options.form (read ++ bytes.now) e) }
    {
        let Some(end) = memrchr(b'\n', bytes) else {
            self.waiting.extend_from_slice(bytes)?;
            return Ok(());
        };
        let (front, back) = bytes.split_at(end);
        self.waiting.extend_from_slice(front)?;
        self.deal_waiting(rt, alloc)?;
        self.waiting.clear();
        self.waiting.extend_from_slice(back)?;
        Ok(())
    }

    /// The lists of the shards, after the items of the last line are dealt too.
    pub fn into_lists<T: Threads + Sync>(
        mut self,
        rt: &T,
        alloc: Global,
    ) -> Result<Vec<Vec<Item>>, LoadFault>
        requires low { self.options.bits ≤ max_bits }
        requires all { length self.lists.items ≡ 2 ^ self.options.bits }
        requires few { self.feeds + length self.waiting.items < 2 ^ 40 }
        ensures last { (read : List ℕ) →
            IsDealt self.options read self.waiting.items self.feeds self.lists.items →
            IfOk result (λ v. IsLast self.options read v.items) }
        ensures all { IfOk result (λ v. length v.items ≡ 2 ^ self.options.bits) }
        ensures bad { (read : List ℕ) →
            IsDealt self.options read self.waiting.items self.feeds self.lists.items →
            IfErr result (λ e. IsLastFault self.options.form read e) }
    {
        self.deal_waiting(rt, alloc)?;
        let Dealing {
            options: _,
            lists,
            waiting: _,
            feeds: _,
            taken: _,
        } = self;
        Ok(lists)
    }
}
