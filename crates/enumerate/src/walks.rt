// The plain walk through the reference set of a test, member by member.
ghost use Rattle.std.specs.Prelude.{◌≡◌, true, IfOk};
ghost use Rattle.weights.specs.Conditional.{numerator};

use crate::plain::Plain;
use std::alloc::Global;
use weights::{NoMemory, Tail};

/// The summed weight of the members that are at least as extreme as the observed one, by a tail
/// that the test has.
///
/// # Errors
///
/// [`NoMemory`] where there is no memory for a member.
pub fn plain_tail<P: Plain>(alloc: Global, problem: &P, tail: Tail) -> Result<u128, NoMemory>
    requires { (P.test problem.now).has_tail tail ≡ true }
    ensures { IfOk result (λ sum. sum ≡ numerator (P.test problem.now) tail) }
{
    let mut labels = problem.first(alloc)?;
    let mut sum = 0;
    loop {
        if problem.extreme(labels.as_slice(), tail) {
            let weight = problem.weight(labels.as_slice());
            sum += weight;
        }
        if !problem.next(&mut labels) {
            return Ok(sum);
        }
    }
}
