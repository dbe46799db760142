// The tails of a test from its distribution.
ghost use Rattle.std.specs.Prelude.{◌≡◌, IfOk};
ghost use Rattle.weights.specs.Conditional.{numerator};
ghost use Rattle.weights.specs.declared.tails.Tail.TheVariants.{Less, Greater};

use distribution::{above, below};
use networks::Way;
use stage_network::{Prepared, distribution};
use std::alloc::Global;
use weights::NoMemory;

/// The numerators of the two one-sided tails.
#[derive(Clone, Copy, Debug, PartialEq, Eq)]
pub struct OneSided {
    pub less: u128,
    pub greater: u128,
}

/// The numerators of both one-sided tails of any test, from its distribution. Beside the test
/// nothing is asked of the caller.
///
/// # Errors
///
/// [`NoMemory`] where there is no memory for the distribution.
pub fn one_sided<P: Prepared>(alloc: Global, problem: &P, way: Way) -> Result<OneSided, NoMemory>
    ensures less { IfOk result (λ sums. sums.less ≡ numerator (P.test problem.now) Less) }
    ensures greater { IfOk result (λ sums. sums.greater ≡ numerator (P.test problem.now) Greater) }
{
    let frame = problem.frame();
    let spread = distribution(alloc, problem, way)?;
    Ok(OneSided {
        less: below(&spread, frame.statistic),
        greater: above(&spread, frame.statistic),
    })
}
