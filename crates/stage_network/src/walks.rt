// The distribution of a test by a walk through its reference set, member by member.
ghost use Rattle.std.specs.Prelude.{IfOk};
ghost use Rattle.networks.specs.Lines.{IsSpreadOf, WeightsFit};
ghost use Rattle.networks.specs.Follows.{statistic_sums};

use enumerate::Plain;
use networks::Spread;
use std::alloc::Global;
use weights::NoMemory;

/// The statistics of the members of a test's reference set by strictly ascending value, each with
/// its summed weight, found by a walk through the members: a value that only members of weight 0
/// have is not among them. All weights sum to at most [`weights::MAX`].
pub fn plain_spread<P: Plain>(alloc: Global, problem: &P) -> Result<Spread, NoMemory>
    ensures sums { IfOk result (IsSpreadOf (statistic_sums (P.test problem.now))) }
    ensures weights { IfOk result WeightsFit }
{
    let mut labels = problem.first(alloc)?;
    let mut spread = Spread::empty(alloc);
    loop {
        let weight = problem.weight(labels.as_slice());
        spread.add(problem.value(labels.as_slice()), weight)?;
        if !problem.next(&mut labels) {
            return Ok(spread);
        }
    }
}
