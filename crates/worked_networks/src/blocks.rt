// Two worked blocks, by a network whose sums are kept ascending.
ghost use Rattle.std.specs.Prelude.{◌≡◌, ◌+◌, ◌*◌, ◌<◌, pos};

use networks::{Additive, CentredSquares, Interval, Judge, SumValue};
use weights::Rule;

/// Each block is a stage, and its ranks the choice.
#[derive(Drop)]
pub struct Blocks;

fn doubled(rank: u64) -> i128
    requires { rank < 2 }
    ensures { result ≡ pos (2 * rank + 2) }
{
    (2 * rank + 2) as i128
}

impl Additive for Blocks {
    ghost use Rattle.worked_networks.specs.Blocks.{worked_blocks};

    ghost addends = { λ _. worked_blocks };

    fn stages(&self) -> usize {
        2
    }

    fn slots(&self) -> usize {
        2
    }

    fn choice_width(&self) -> usize {
        2
    }

    fn first_choice(&self, _stage: usize, choice: &mut [u64]) {
        choice[0] = 0;
        choice[1] = 1;
    }

    fn next_choice(&self, _stage: usize, choice: &mut [u64]) -> bool {
        if choice[0] == 0 {
            choice[0] = 1;
            choice[1] = 0;
            true
        } else {
            false
        }
    }

    fn adds(&self, _stage: usize, choice: &[u64], added: &mut [i128]) -> u128 {
        added[0] = doubled(choice[0]);
        added[1] = doubled(choice[1]);
        1
    }

    fn total(&self, _stage: usize) -> u128 {
        2
    }

    fn range(&self, _stage: usize) -> Interval {
        Interval { low: 2, high: 4 }
    }

    fn is_sorted(&self) -> bool {
        true
    }

    fn value(&self) -> SumValue {
        SumValue::Squares(CentredSquares::from_zero(144))
    }

    fn judge(&self) -> Judge {
        Judge {
            less: Rule::AtMost(80),
            greater: Rule::AtLeast(80),
            two: Rule::Far(1, 76, 4),
        }
    }
}
