ghost use Rattle.std.specs.Prelude.{◌≡◌, ◌≤◌, ◌+◌};
ghost use Rattle.definitions.specs.Strategies.{opening_counts, width};
ghost use Rattle.definitions.specs.Ranks.{greatest, rank_by};
ghost use Rattle.strategy_check.specs.Checked.{IsChecked};

use crate::ranks::Ranks;
use std::marker::Model;
use strategy_core::{Act, Strategy};

/// A strategy that was accepted, with its ranks.
#[derive(Drop)]
pub struct Accepted {
    pub(crate) strategy: Strategy,
    pub(crate) ranks: Ranks,
}

impl Model for Accepted {
    ghost use Rattle.strategy_check.specs.Checked.{Checked, IsChecked};

    ghost Value = { Checked };

    ghost view = { λ a. record { table = a.strategy; steps = a.ranks } };

    ghost invariant = { λ a. IsChecked (record { table = a.strategy; steps = a.ranks }) };
}

impl Accepted {
    /// The strategy.
    pub fn strategy(&self) -> &Strategy
        ensures { result.now ≡ self.now.table }
    {
        &self.strategy
    }

    /// The greatest number of items.
    pub fn cap(&self) -> u32
        ensures cap { result ≡ self.now.table.cap }
        ensures checked { IsChecked self.now }
    {
        self.strategy.cap()
    }

    /// The length of the longest list.
    pub fn limit(&self) -> u32
        ensures { result ≡ self.now.table.limit }
    {
        self.strategy.limit()
    }

    /// The greatest number of parts that a range is cut into, at least 1.
    pub fn width(&self) -> usize
        ensures { result ≡ width self.now.table }
    {
        self.strategy.width()
    }

    /// The ranks as a staircase: the rank of n is the number of the entries below n.
    pub fn steps(&self) -> &[u32]
        ensures { result.now ≡ self.now.steps }
    {
        self.ranks.steps()
    }

    /// The greatest rank of a part of the first message of an initiator with n items: its rank, or that of the greatest
    /// share where the message may cut and the strategy does.
    pub fn opened(&self, n: u32, may_cut: bool) -> u32
        requires { n ≤ self.now.table.cap }
        ensures rank { result ≡ greatest (rank_by self.now.steps) (opening_counts may_cut self.now.table n) }
        ensures small { result ≤ n }
    {
        laws::ranks::shares_are_parts();
        if may_cut && self.strategy.opening().is_cut() && self.strategy.act(n) == Act::Split {
            return self.ranks.of(self.strategy.cutting(n).greatest);
        }
        self.ranks.of(n)
    }

    /// The greatest number of messages that an initiator with n items sends: the greatest rank that it opens, and 2.
    pub fn bound_as_initiator(&self, n: u32, may_cut: bool) -> u32
        requires { n ≤ self.now.table.cap }
        ensures { result ≡ greatest (rank_by self.now.steps) (opening_counts may_cut self.now.table n) + 2 }
    {
        let _ = self.cap(); // proof only: a cap is below 2^17
        self.opened(n, may_cut) + 2
    }

    /// The greatest number of messages that a responder with n items sends: its rank and 1.
    pub fn bound_as_responder(&self, n: u32) -> u32
        requires { n ≤ self.now.table.cap }
        ensures { result ≡ rank_by self.now.steps n + 1 }
    {
        self.ranks.of(n) + 1
    }
}
