// Two samples of three subjects without ties, by labels: a measure of one number, as it is asked of
// whoever has a statistic of labellings.
ghost use Rattle.std.specs.Prelude.{◌≡◌, ◌+◌, ◌*◌, ◌<◌, ◌≤◌, pos, IfOk};
ghost use Rattle.weights.specs.Conditional.{numerator};
ghost use Rattle.networks.specs.Judged.{judge_of};
ghost use Rattle.worked_networks.specs.LabelRanks.{first_ranks, last_ranks, rank_test};

use label_network::{ByIntervals, LabelStages, label_stages, read_sizes};
use networks::{Interval, Judge, TailSum};
use room_network::{FromScalar, Operation, ScalarMeasure};
use stage_network::tail_sum;
use std::alloc::Global;
use weights::{NoMemory, Rule, Tail};

/// The sum of the second sample's doubled ranks.
#[derive(Drop)]
pub struct LabelRanks {
    judge: Judge,
    ghost ruled: { judge ≡ judge_of rank_test },
}

// What the subject of a stage adds.
fn rank(stage: usize, second: u64) -> i128
    requires stage { stage < 6 }
    requires second { second < 2 }
    ensures { result ≡ pos (2 * (stage + 1) * second) }
{
    if second == 0 {
        0
    } else {
        2 * (stage as i128 + 1)
    }
}

// What the first subjects from a stage on add, where so many are left to the second sample.
fn first_ranks(stage: usize, left: u64) -> u64
    requires stage { stage ≤ 6 }
    requires left { left ≤ 3 }
    ensures { result ≡ first_ranks stage left }
{
    left * (2 * stage as u64 + left + 1)
}

// What the last subjects add.
fn last_ranks(left: u64) -> u64
    requires { left ≤ 3 }
    ensures { result ≡ last_ranks left }
{
    left * (13 - left)
}

impl ScalarMeasure for LabelRanks {
    ghost use Rattle.label_network.specs.LabelNetwork.{over_sizes};
    ghost use Rattle.label_network.specs.LabelRooms.{label_floor};
    ghost use Rattle.worked_networks.specs.LabelRanks.{rank_numbers, samples, six};

    ghost floor = { λ m. label_floor six samples };

    ghost numbers = { λ m. over_sizes (rank_numbers m.judge) };

    fn judge(&self) -> &Judge {
        &self.judge
    }

    fn operation(&self) -> Operation {
        Operation::Sum
    }

    fn number(&self, stage: usize, _room: &[i128], choice: &[u64]) -> i128 {
        rank(stage, choice[1])
    }

    fn later(&self, stage: usize, room: &[i128]) -> Interval {
        let mut sizes = [0u64; 2];
        read_sizes(room, &mut sizes);
        Interval {
            low: first_ranks(stage, sizes[1]) as i128,
            high: last_ranks(sizes[1]) as i128,
        }
    }
}

// The measure, with the rules of the test.
fn rank_measure() -> FromScalar<LabelRanks>
    ensures { result.judge ≡ judge_of rank_test }
{
    FromScalar::new(LabelRanks {
        judge: Judge {
            less: Rule::AtMost(30),
            greater: Rule::AtLeast(30),
            two: Rule::Far(6, 126, 54),
        },
    })
}

/// A tail of the test whose second sample has the three greatest ranks: what the network of labels
/// sums is the numerator.
///
/// # Errors
///
/// [`NoMemory`] where there is no memory for the network.
pub fn tail_by_labels(alloc: Global, tail: Tail) -> Result<TailSum, NoMemory>
    ensures { IfOk result (λ found. found.sum ≡ numerator rank_test tail) }
{
    let stages = label_stages(alloc, &[1; 6], &[3, 3], rank_measure())?;
    tail_sum(alloc, &stages, tail)
}

/// The same, by a network that knows of the measure no more than that its verdicts are sound.
///
/// # Errors
///
/// [`NoMemory`] where there is no memory for the measure or the network.
pub fn tail_by_measure(alloc: Global, tail: Tail) -> Result<TailSum, NoMemory>
    ensures { IfOk result (λ found. found.sum ≡ numerator rank_test tail) }
{
    let columns = Vec::from_array(alloc, [1; 6])?;
    let rows = Vec::from_array(alloc, [3, 3])?;
    let measure = ByIntervals::new(columns, rows, rank_measure());
    let stages = LabelStages::new(alloc, &[1; 6], &[3, 3], measure)?;
    tail_sum(alloc, &stages, tail)
}
