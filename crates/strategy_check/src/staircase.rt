//! Slices of numbers that rise: how many are below a number, and the first that does not rise.

ghost use Rattle.std.specs.Prelude.{◌≡◌, ◌≤◌, length};
ghost use Rattle.std.specs.Option.{option_copied};
ghost use Rattle.std.specs.List.Sorted.{IsStrictlyIncreasing};
ghost use Rattle.definitions.specs.Ranks.{rank_by, steps_fault};

/// How many of the steps are below n.
pub fn rank(steps: &[u32], n: u32) -> u32
    requires { IsStrictlyIncreasing steps.now }
    ensures rank { result ≡ rank_by steps.now n }
    ensures small { result ≤ n }
{
    steps.partition_point(|step| *step < n) as u32
}

/// Why the numbers are no staircase: the first that is not greater than the one before it; 0 where there is none.
pub fn fault(steps: &[u32]) -> Option<u32>
    ensures { result ≡ steps_fault steps.now }
{
    let Some((first, others)) = steps.split_first() else {
        return Some(0);
    };
    let mut before = *first;
    for step in others {
        if *step <= before {
            return Some(*step);
        }
        before = *step;
    }
    None
}
