//! The shares of a row that cuts so many items off the front.

ghost use Rattle.std.specs.Prelude.{◌≡◌, ◌≤◌, ◌+◌, min, length, sum, take};
ghost use Rattle.definitions.specs.Strategies.{Peel, shares_by};
ghost use Rattle.strategy_core.specs.Acts.{greatest};

use crate::act::Cutting;

/// The front that is cut off, and the rest. Either may be 0.
fn front_and_rest(front: u32, n: u32) -> (u32, u32)
    ensures front { result.0 ≡ min front n }
    ensures rest { result.0 + result.1 ≡ n }
{
    let first = front.min(n);
    (first, n - first)
}

/// The shares of n: the front and the rest, neither of them 0.
#[tactic(auto, using(crate::proofs::Peels::two_counted, crate::proofs::Peels::two_greatest))]
pub fn peeled(front: u32, n: u32) -> Cutting
    ensures count { result.count ≡ length (shares_by (Peel front) n) }
    ensures greatest { result.greatest ≡ greatest (shares_by (Peel front) n) }
{
    let (first, rest) = front_and_rest(front, n);
    Cutting::none().with_share(first).with_share(rest)
}

/// The sum of the first j shares of n.
#[tactic(auto, using(crate::proofs::Peels::none_cut, crate::proofs::Peels::many_cut, crate::proofs::Peels::only_cut, crate::proofs::Peels::first_cut))]
pub fn peeled_cut(front: u32, n: u32, j: usize) -> u32
    requires { j ≤ length (shares_by (Peel front) n) }
    ensures { result ≡ sum (take j (shares_by (Peel front) n)) }
{
    let (first, _rest) = front_and_rest(front, n);
    if j == 0 {
        return 0;
    }
    if j > 1 {
        return n;
    }
    if first == 0 {
        return n;
    }
    first
}
