ghost use Rattle.std.specs.Prelude.{◌≡◌, ◌≤◌, true, false, length, map, sum, take, nat_lt};
ghost use Rattle.std.specs.List.Sorted.{IsPartitionPoint, IsStrictlyIncreasing};
ghost use Rattle.definitions.specs.Strategies.{shares_by, width_of};
ghost use Rattle.strategy_core.specs.Acts.{kind_of, greatest};
ghost use Rattle.strategy_core.specs.Rules.{act_of};

use crate::act::{Act, Cutting};
use crate::peeling::{peeled, peeled_cut};
use crate::weights::Weights;
use std::marker::Model;

/// What is done with a range of so many items.
#[derive(Drop)]
pub enum Rule {
    /// The items are listed.
    List,
    /// The range is cut by weights.
    Split(Weights),
    /// So many items are cut off the front.
    Peel(u32),
}

/// A row: up to how many items it serves, and what it does.
#[derive(Drop)]
pub struct Row {
    upto: u32,
    rule: Rule,
}

impl Model for Row {
    ghost use Rattle.definitions.specs.Strategies as strategies;
    ghost use Rattle.strategy_core.specs.Rules.{act_of};

    ghost Value = { strategies.Row };

    ghost view = { λ a. record { upto = a.upto; act = act_of a.rule } };
}

/// How many of the rows serve only fewer items than n.
pub fn place(rows: &[Row], n: u32) -> usize
    requires { IsStrictlyIncreasing (map (λ row. row.upto) rows.now) }
    ensures within { result ≤ length rows.now }
    ensures parted { IsPartitionPoint (λ row. nat_lt row.upto n ≡ true) (λ row. nat_lt row.upto n ≡ false) rows.now
        result }
{
    rows.partition_point(|row| row.ends_before(n))
}

impl Row {
    /// The row of this rule up to so many items.
    pub fn new(upto: u32, rule: Rule) -> Row
        ensures { result ≡ record { upto = upto; act = act_of rule } }
    {
        Row { upto, rule }
    }

    /// The greatest number of items that it serves.
    pub fn upto(&self) -> u32
        ensures { result ≡ self.now.upto }
    {
        self.upto
    }

    /// Whether it serves only fewer items than n.
    pub fn ends_before(&self, n: u32) -> bool
        ensures { result ≡ nat_lt self.now.upto n }
    {
        self.upto < n
    }

    /// What it does.
    pub fn act(&self) -> Act
        ensures { result ≡ kind_of self.now.act }
    {
        match self.rule {
            Rule::List => Act::List,
            Rule::Split(_) => Act::Split,
            Rule::Peel(_) => Act::Split,
        }
    }

    /// How many parts it may cut into, 1 where it lists.
    pub fn width(&self) -> usize
        ensures { result ≡ width_of self.now.act }
    {
        match &self.rule {
            Rule::List => 1,
            Rule::Split(weights) => weights.len(),
            Rule::Peel(_) => 2,
        }
    }

    /// The shares of n; none where it lists.
    pub fn cutting(&self, n: u32) -> Cutting
        requires { n ≤ 65536 }
        ensures count { result.count ≡ length (shares_by self.now.act n) }
        ensures greatest { result.greatest ≡ greatest (shares_by self.now.act n) }
    {
        match &self.rule {
            Rule::List => Cutting::none(),
            Rule::Split(weights) => weights.cutting(n),
            Rule::Peel(front) => peeled(*front, n),
        }
    }

    /// The sum of the first j shares of n.
    pub fn cut(&self, n: u32, j: usize) -> u32
        requires many { n ≤ 65536 }
        requires place { j ≤ length (shares_by self.now.act n) }
        ensures { result ≡ sum (take j (shares_by self.now.act n)) }
    {
        match &self.rule {
            Rule::List => 0,
            Rule::Split(weights) => weights.cut(n, j),
            Rule::Peel(front) => peeled_cut(*front, n, j),
        }
    }
}
