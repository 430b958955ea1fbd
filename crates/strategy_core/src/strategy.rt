ghost use Rattle.std.specs.Prelude.{◌≡◌, ◌<◌, ◌≤◌, length, sum, take, slice_get, Some, Err, IsOk, option_map};
ghost use Rattle.toml.specs.View.{table_view};
ghost use Rattle.definitions.specs.Strategies.{IsTable, act, shares, width};
ghost use Rattle.strategy_core.specs.Acts.{kind_of, greatest, outline};
ghost use Rattle.strategy_core.specs.Refused.{Gives, Reads};
ghost use Rattle.strategy_core.specs.Rules.{bounds_of, opening_of};
ghost use Rattle.strategy_core.specs.Texts.{rows_at, table_in};

use crate::act::{Act, Cutting};
use crate::bounds::Bounds;
use crate::fault::{StrategyError, StrategyFault};
use crate::opening::Opening;
use crate::reading::{document, strategy_of};
use crate::row::{Row, place};
use std::alloc::Global;
use std::marker::Model;
use toml::value::Table;

/// A strategy table: what is done with a range, by the number of one's items in it.
#[derive(Drop)]
pub struct Strategy {
    pub(crate) cap: u32,
    pub(crate) limit: u32,
    pub(crate) rounds: u32,
    pub(crate) rows: Vec<Row>,
    pub(crate) bounds: Bounds,
    pub(crate) opening: Opening,
}

impl Model for Strategy {
    ghost use Rattle.definitions.specs.Strategies as strategies;
    ghost use Rattle.strategy_core.specs.Rules.{bounds_of, opening_of};

    ghost Value = { strategies.Table };

    ghost view = { λ a. record {
      cap = a.cap;
      limit = a.limit;
      rounds = a.rounds;
      rows = a.rows.items;
      bounds = bounds_of a.bounds;
      opening = opening_of a.opening;
    } };

    ghost invariant = { λ a. strategies.IsTable (record {
      cap = a.cap;
      limit = a.limit;
      rounds = a.rounds;
      rows = a.rows.items;
      bounds = bounds_of a.bounds;
      opening = opening_of a.opening;
    }) };
}

impl Strategy {
    /// The strategy of a TOML text.
    ///
    /// Else 30 where the bytes are no TOML, or the fault of its table, 28, 29 or 31 to 35; memory may run out before
    /// any of these, if the bytes are UTF-8.
    pub fn read(alloc: Global, text: &[u8]) -> Result<Strategy, StrategyError>
        ensures { Reads result text.now }
    {
        let table = document(alloc, text)?;
        Strategy::from_table(alloc, &table)
    }

    /// The strategy of a TOML table. Keys other than the strategy's own are ignored.
    ///
    /// Else the first fault, 28, 29 or 31 to 35; memory may run out before one that is in the rows, or that is found
    /// after them.
    pub fn from_table(alloc: Global, table: &Table) -> Result<Strategy, StrategyError>
        ensures table { Gives (λ strategy. strategy) result (table_in (table_view table.now)) }
        ensures memory { result ≡ Err StrategyError.Memory → IsOk (rows_at (table_view table.now)) }
    {
        strategy_of(alloc, table)
    }

    /// The greatest number of items that the table serves, 1 to 65,536.
    pub fn cap(&self) -> u32
        ensures cap { result ≡ self.now.cap }
        ensures table { IsTable self.now }
    {
        self.cap
    }

    /// The length of the longest list, 0 to the cap.
    pub fn limit(&self) -> u32
        ensures { result ≡ self.now.limit }
    {
        self.limit
    }

    /// The greatest rank that is accepted, 0 to 255.
    pub fn rounds(&self) -> u32
        ensures { result ≡ self.now.rounds }
    {
        self.rounds
    }

    /// What stands between the parts that a range is cut into.
    pub fn bounds(&self) -> Bounds
        ensures { bounds_of result ≡ self.now.bounds }
    {
        self.bounds
    }

    /// What a session that this side begins has first.
    pub fn opening(&self) -> Opening
        ensures { opening_of result ≡ self.now.opening }
    {
        self.opening
    }

    /// The greatest number of parts that a range is cut into, at least 1.
    pub fn width(&self) -> usize
        ensures { result ≡ width self.now }
    {
        let mut widest = 1;
        for row in &self.rows {
            widest = widest.max(row.width());
        }
        widest
    }

    /// The number of rows.
    pub fn rows(&self) -> usize
        ensures { result ≡ length self.now.rows }
    {
        self.rows.len()
    }

    /// The greatest number of items that the row of this index serves, from 0, and what it does.
    pub fn row(&self, index: usize) -> (u32, Act)
        requires { index < length self.now.rows }
        ensures { option_map outline (slice_get self.now.rows index) ≡ Some result }
    {
        let row = &self.rows[index];
        (row.upto(), row.act())
    }

    /// The row that says what is done with n items.
    fn row_of(&self, n: u32) -> &Row
        requires { n ≤ self.now.cap }
        ensures row { result.now.act ≡ act self.now n }
        ensures small { n ≤ 65536 }
    {
        &self.rows[place(&self.rows, n)]
    }

    /// What is done with n items.
    pub fn act(&self, n: u32) -> Act
        requires { n ≤ self.now.cap }
        ensures { result ≡ kind_of (act self.now n) }
    {
        self.row_of(n).act()
    }

    /// How many shares n items are cut into; 0 where they are listed.
    pub fn share_count(&self, n: u32) -> usize
        requires { n ≤ self.now.cap }
        ensures { result ≡ length (shares self.now n) }
    {
        self.cutting(n).count
    }

    /// The number of the shares of n items, and the greatest.
    pub fn cutting(&self, n: u32) -> Cutting
        requires { n ≤ self.now.cap }
        ensures count { result.count ≡ length (shares self.now n) }
        ensures greatest { result.greatest ≡ greatest (shares self.now n) }
    {
        self.row_of(n).cutting(n)
    }

    /// The sum of the first j shares of n items: the place, from 0, where the part after them begins.
    pub fn cut(&self, n: u32, j: usize) -> u32
        requires count { n ≤ self.now.cap }
        requires place { j ≤ length (shares self.now n) }
        ensures { result ≡ sum (take j (shares self.now n)) }
    {
        self.row_of(n).cut(n, j)
    }
}
