ghost use Rattle.std.specs.Prelude.{◌≡◌, ◌<◌, ◌≤◌, ◌*◌, ◌/◌, length, sum, take};
ghost use Rattle.definitions.specs.Strategies.{Split, IsAct, shares_by};
ghost use Rattle.strategy_core.specs.Acts.{greatest};
ghost use Rattle.strategy_core.specs.Weighed.{IsWeighed};

use crate::act::Cutting;
use std::marker::Model;

/// The weights of a row that cuts, with their sum beside them.
#[derive(Drop)]
pub struct Weights {
    weights: Vec<u32>,
    total: u32,
}

impl Model for Weights {
    ghost use Rattle.std.specs.Prelude.{List, ℕ};
    ghost use Rattle.strategy_core.specs.Weighed.{IsWeighed};

    ghost Value = { List ℕ };

    ghost view = { λ a. a.weights.items };

    ghost invariant = { λ a. IsWeighed a.weights.items a.total };
}

/// The part of n that this weight of the total takes, rounded down.
fn portion(n: u32, weight: u32, total: u32) -> u32
    requires many { n ≤ 65536 }
    requires weight { weight ≤ total }
    requires total { 0 < total }
    ensures portion { result ≡ n * weight / total }
    ensures within { result ≤ n }
{
    (u64::from(n) * u64::from(weight) / u64::from(total)) as u32
}

impl Weights {
    /// These weights, whose sum is the total.
    pub fn new(weights: Vec<u32>, total: u32) -> Weights
        requires { IsWeighed weights.items total }
        ensures { result ≡ weights.items }
    {
        Weights { weights, total }
    }

    /// The number of weights.
    pub fn len(&self) -> usize
        ensures { result ≡ length self.now }
    {
        self.weights.len()
    }

    /// The shares of n.
    pub fn cutting(&self, n: u32) -> Cutting
        requires { n ≤ 65536 }
        ensures count { result.count ≡ length (shares_by (Split self.now) n) }
        ensures greatest { result.greatest ≡ greatest (shares_by (Split self.now) n) }
    {
        let mut cutting = Cutting::none();
        let mut reached = 0;
        let mut cut = 0;
        for weight in &self.weights {
            reached += *weight;
            let next = portion(n, reached, self.total);
            cutting = cutting.with_share(next - cut);
            cut = next;
        }
        cutting
    }

    /// The sum of the first j shares of n.
    pub fn cut(&self, n: u32, j: usize) -> u32
        requires many { n ≤ 65536 }
        requires place { j ≤ length (shares_by (Split self.now) n) }
        ensures { result ≡ sum (take j (shares_by (Split self.now) n)) }
    {
        let mut left = j;
        let mut reached = 0;
        let mut cut = 0;
        for weight in &self.weights {
            if left == 0 {
                return cut;
            }
            reached += *weight;
            let next = portion(n, reached, self.total);
            left -= usize::from(next > cut);
            cut = next;
        }
        cut
    }
}
