// After which assignments the treatments' sums are reflected, and at which numbers.
ghost use Rattle.std.specs.Prelude.{◌≡◌, ◌+◌, ◌-◌, ◌*◌, ◌<◌, ◌≤◌, ◌&&◌, length, nat_eq};
ghost use Rattle.std.specs.Prelude.{nat_le, if◌then◌else◌, IfOk};
ghost use Rattle.rank_assignments.specs.Reflections.{reflections_of};
ghost use Rattle.rank_assignments.specs.Assignments.{AreAhead, AreAssignments, IsSmallAhead, given};

use crate::assignment::{Ahead, Assignment};
use networks::Judge;
use std::alloc::Global;
use weights::NoMemory;

// The number at which the centre is midway between the least that a sum may end at and the most
// that its reflection may.
fn number_after(middle: u64, next: Ahead) -> u64
    requires middle { middle ≤ 21760000 }
    requires next { IsSmallAhead next }
    ensures is { result
        ≡ 2 * middle - ((next.least + next.later_least) + (next.most + next.later_most)) }
    ensures small { result ≤ 43520000 }
{
    let ends = next.least + next.later_least + (next.most + next.later_most);
    (2 * middle).saturating_sub(ends)
}

// Whether it is twice the mean of the sums, of which so much is left to be given.
fn is_mean(treatments: u64, number: u64, left: u64, given: u64) -> bool
    requires narrow { treatments ≤ 8 }
    requires number { number ≤ 43520000 }
    requires left { left ≤ 21760000 }
    requires given { given ≤ 21760000 }
    ensures { result ≡ nat_eq (treatments * number + 2 * left) (2 * given) }
{
    treatments * number + 2 * left == 2 * given
}

// The number, where it is used: where it may be, after an assignment that closes its block, and
// where it is no greater than sums may be and twice their mean.
fn used(may_be: bool, closes: bool, number: u64, most: u64, is_mean: bool) -> u64
    ensures { result
        ≡ (if may_be && closes && nat_le number most && is_mean then number else 0) }
{
    if may_be && closes && number <= most && is_mean {
        number
    } else {
        0
    }
}

/// The numbers at which sums are reflected after assignments from one of them on, or 0.
pub(crate) fn reflections_of(
    alloc: Global,
    treatments: usize,
    items: &[Assignment],
    ahead: &[Ahead],
    all: u64,
    from: usize,
    _judge: Judge,
) -> Result<Vec<u64>, NoMemory>
    requires assignments { AreAssignments treatments items.now _judge }
    requires ahead { AreAhead treatments items.now (length items.now) ahead.now }
    requires all { all ≡ given items.now }
    ensures { IfOk result (λ reflections. reflections.items
        ≡ reflections_of from treatments items.now) }
{
    let count = items.len();
    let middle = all / treatments as u64;
    let mut left = all;
    let mut reflections = Vec::new(alloc);
    for stage in 0..count {
        let assignment = items[stage];
        left -= assignment.value * assignment.count;
        let number = number_after(middle, ahead[count - stage - 1]);
        let is_mean = is_mean(treatments as u64, number, left, all);
        let most = 16 * (stage as u64 + 1);
        let reflection = used(from <= stage, assignment.closes, number, most, is_mean);
        reflections.push(reflection)?;
    }
    Ok(reflections)
}
