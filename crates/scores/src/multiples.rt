// Common multiples of many numbers.
ghost use Rattle.std.specs.Prelude.{◌<◌, ◌≤◌, IfSome, SomeIff};
ghost use Rattle.std.specs.Int.{◌∣◌};
ghost use Rattle.std.specs.List.{All};
ghost use Rattle.scores.specs.PlaceScores.{common_multiple, multiple_to};
ghost use Rattle.scores.specs.Scores.{multiple_of_sizes};
ghost use Rattle.weights.specs.declared.TheConstants.{MAX};

use midranks::Tie;
use weights::lcm;

/// The least common multiple of numbers, each at least 1, or None exactly where it passes
/// `weights::MAX`. Each of the numbers divides it.
pub fn common_multiple(numbers: &[u64]) -> Option<u128>
    requires { All (λ number. 0 < number) numbers.now }
    ensures least { SomeIff result (common_multiple numbers.now ≤ MAX)
        (common_multiple numbers.now) }
    ensures whole { IfSome result (λ multiple. All (λ number. number ∣ multiple) numbers.now) }
{
    let mut multiple = 1;
    for number in numbers {
        multiple = lcm(multiple, *number as u128)?;
    }
    Some(multiple)
}

/// The least common multiple of 1 to n, or None exactly where it passes the greatest statistic.
pub(crate) fn multiple_to(n: u64) -> Option<u128>
    ensures { SomeIff result (multiple_to n ≤ MAX) (multiple_to n) }
{
    let mut multiple = 1;
    for i in 0..n {
        multiple = lcm(multiple, i as u128 + 1)?;
    }
    Some(multiple)
}

/// The least common multiple of the sizes of tie groups, or None exactly where it passes the
/// greatest statistic.
pub(crate) fn multiple_of_sizes(ties: &[Tie]) -> Option<u128>
    requires { All (λ tie. 0 < tie.count) ties.now }
    ensures { SomeIff result (multiple_of_sizes ties.now ≤ MAX) (multiple_of_sizes ties.now) }
{
    let mut multiple = 1;
    for tie in ties {
        multiple = lcm(multiple, tie.count as u128)?;
    }
    Some(multiple)
}
