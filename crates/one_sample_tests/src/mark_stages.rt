// The stages of a network of marks.
ghost use Rattle.std.specs.Prelude.{◌≡◌, ◌≤◌, ◌^◌, ◌*ℤ◌, pos, nat_abs};
ghost use Rattle.weights.specs.Numbers.{binomial};
ghost use Rattle.weights.specs.declared.TheConstants.{MAX};
ghost use Rattle.one_sample_tests.specs.SampleSteps.{AreStages};

use midranks::Ties;
use networks::{Additive, Interval, Judge, SumValue};
use weights::binomial;

/// Subjects who share a score are a stage, and a choice says how many of them are plus.
#[derive(Drop)]
pub struct MarkStages {
    pub(crate) groups: Ties,
    pub(crate) judge: Judge,
    ghost sound: { AreStages groups judge },
}

// So many times a score.
fn times(count: u64, score: i128) -> i128
    requires { nat_abs (pos count *ℤ score) ≤ MAX }
    ensures { result ≡ pos count *ℤ score }
{
    count as i128 * score
}

// How many ways there are to choose the plus marks.
fn ways(subjects: u64, plus: u64) -> u128
    requires { binomial subjects plus ≤ MAX }
    ensures { result ≡ binomial subjects plus }
{
    match binomial(subjects, plus) {
        Some(ways) => ways,
        None => unreachable!(),
    }
}

impl Additive for MarkStages {
    ghost use Rattle.one_sample_tests.specs.SignNetwork.{mark_addends};

    ghost addends = { λ s. mark_addends s.groups s.judge };

    fn stages(&self) -> usize {
        self.groups.len()
    }

    fn slots(&self) -> usize {
        1
    }

    fn choice_width(&self) -> usize {
        1
    }

    fn first_choice(&self, _stage: usize, choice: &mut [u64]) {
        choice[0] = 0;
    }

    fn next_choice(&self, stage: usize, choice: &mut [u64]) -> bool {
        if choice[0] < self.groups.as_slice()[stage].count {
            choice[0] += 1;
            true
        } else {
            false
        }
    }

    fn adds(&self, stage: usize, choice: &[u64], added: &mut [i128]) -> u128 {
        let group = self.groups.as_slice()[stage];
        added[0] = times(choice[0], group.value);
        ways(group.count, choice[0])
    }

    fn total(&self, stage: usize) -> u128 {
        1 << self.groups.as_slice()[stage].count
    }

    fn range(&self, stage: usize) -> Interval {
        let group = self.groups.as_slice()[stage];
        Interval {
            low: 0,
            high: times(group.count, group.value),
        }
    }

    fn is_sorted(&self) -> bool {
        false
    }

    fn value(&self) -> SumValue {
        SumValue::First
    }

    fn judge(&self) -> Judge {
        self.judge
    }
}
