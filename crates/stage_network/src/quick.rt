// The answer of a prepared test by its quick ways. Their keys are not those that are written down,
// so none is counted.
ghost use Rattle.std.specs.Prelude.{◌≡◌, ◌≤◌, true, IfOk};
ghost use Rattle.weights.specs.declared.tails.Tail.{Tail};
ghost use Rattle.networks.specs.Asked.{asks};
ghost use Rattle.networks.specs.declared.answers.Way.TheVariants as way;
ghost use Rattle.networks.specs.Follows.{AreNumerators, HasTails, answer_of, tail_of, uncounted};
ghost use Rattle.networks.specs.EachTail.{sum_for};

use crate::answering::{sums_of, where_asked};
use crate::prepared::Prepared;
use networks::{Answer, TailSum, TailSums, Way};
use std::alloc::Global;
use weights::{NoMemory, Tails};

// A sum without a count.
fn uncounted(found: TailSum) -> TailSum
    ensures { result ≡ record { sum = found.sum; opened = 0 } }
{
    TailSum {
        sum: found.sum,
        opened: 0,
    }
}

/// The numerators of tails that a test has, by the quick ways, or, where these find no memory, by
/// the networks of `answer`, which need not hold as much at once. How many keys were open is not
/// told.
pub fn quick_numerators<P: Prepared>(
    alloc: Global,
    problem: &P,
    tails: Tails,
) -> Result<TailSums, NoMemory>
    requires { HasTails (P.test problem.now) tails }
    ensures { IfOk result (AreNumerators (P.test problem.now) tails) }
{
    if let Ok(sums) = problem.numerators(alloc, tails) {
        return Ok(sums);
    }
    let sums = sums_of(alloc, problem, tails, Way::Network)?;
    Ok(sums)
}

// The same, with no counts.
fn uncounted_sums<P: Prepared>(
    alloc: Global,
    problem: &P,
    tails: Tails,
) -> Result<TailSums, NoMemory>
    requires { HasTails (P.test problem.now) tails }
    ensures { IfOk result (λ sums. (t : Tail) → asks tails t ≡ true
        → sum_for sums t ≡ tail_of (P.test problem.now) uncounted t way.Plain) }
{
    let sums = quick_numerators(alloc, problem, tails)?;
    Ok(TailSums {
        less: uncounted(sums.less),
        greater: uncounted(sums.greater),
        two: uncounted(sums.two),
    })
}

/// The answer of a test for tails that it has, where no key is to be counted: the numbers of
/// `answer` by the plain way, by the quick ways, or, where these find no memory, by the networks of
/// `answer`.
pub fn quick_answer<P: Prepared>(
    alloc: Global,
    problem: &P,
    tails: Tails,
) -> Result<Answer, NoMemory>
    requires { HasTails (P.test problem.now) tails }
    ensures answer { IfOk result (λ answer. answer
        ≡ answer_of (P.test problem.now) uncounted tails way.Plain) }
    ensures some { IfOk result (λ answer. 1 ≤ answer.total) }
{
    let frame = problem.frame();
    let sums = uncounted_sums(alloc, problem, tails)?;
    Ok(Answer {
        statistic: frame.statistic,
        scale: frame.scale,
        total: frame.total,
        less: where_asked(tails.less, sums.less),
        greater: where_asked(tails.greater, sums.greater),
        two: where_asked(tails.two, sums.two),
    })
}
