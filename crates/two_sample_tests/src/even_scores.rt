// Scores that rise by one step, as ranks without ties do: their sum rises with the number of pairs
// of subjects that rise, the count of Mann and Whitney.
ghost use Rattle.std.specs.Prelude.{◌≡◌, ◌*◌, ◌≤◌, ℤ, pos, length, true, unsigned_abs, IfSome};
ghost use Rattle.two_sample_tests.specs.EvenSteps.{AreEven, RiseBy, least_sum, pairs_of};

use weights::count_times;

/// The first of scores that rise by one step, and the step.
#[derive(Clone, Copy, Debug)]
pub(crate) struct EvenScores {
    pub first: i128,
    pub step: u64,
}

// No first score and no step is greater.
const GREATEST: u64 = 1_000_000_000_000;

// Whether scores rise from a first one by a step.
fn rise_by(scores: &[i128], first: i128, step: u64) -> bool
    requires few { length scores.now ≤ 10000 }
    requires small { unsigned_abs first ≤ 1000000000000 }
    requires small_step { step ≤ 1000000000000 }
    ensures { result ≡ true → RiseBy first step scores.now }
{
    let mut next = first;
    for i in 0..scores.len() {
        if scores[i] != next {
            return false;
        }
        next += step as i128;
    }
    true
}

// The step from a score to the next one, where both are small and it is one.
fn step_between(first: i128, second: i128) -> Option<u64>
    ensures { IfSome result (λ step. step ≤ 1000000000000) }
{
    match u64::try_from(second.checked_sub(first)?) {
        Ok(step) if step <= GREATEST => Some(step),
        Ok(_) | Err(_) => None,
    }
}

/// The first score and the step of scores that rise by one; None where they do not, or where a
/// number is great.
pub(crate) fn even_scores(scores: &[i128]) -> Option<EvenScores>
    requires { length scores.now ≤ 10000 }
    ensures { IfSome result (λ even. AreEven even scores.now) }
{
    if scores.len() < 2 {
        return None;
    }
    let first = scores[0];
    let step = step_between(first, scores[1])?;
    if first.unsigned_abs() <= GREATEST as u128 && rise_by(scores, first, step) {
        Some(EvenScores { first, step })
    } else {
        None
    }
}

// The pairs of so many subjects.
fn pairs_of(subjects: u64) -> u64
    requires { subjects ≤ 10000 }
    ensures is { result ≡ pairs_of subjects }
    ensures few { result ≤ 100000000 }
{
    let mut pairs = 0;
    for i in 0..subjects {
        pairs += i;
    }
    pairs
}

/// The sum of the first so many scores.
pub(crate) fn least_sum(even: EvenScores, subjects: u64) -> i128
    requires small { unsigned_abs even.first ≤ 1000000000000 }
    requires small_step { even.step ≤ 1000000000000 }
    requires few { subjects ≤ 10000 }
    ensures is { result ≡ least_sum even subjects }
    ensures small { unsigned_abs result ≤ 1000000000000000000000000000000 }
{
    let firsts = count_times(subjects, even.first);
    let steps = even.step as u128 * pairs_of(subjects) as u128;
    firsts + steps as i128
}
