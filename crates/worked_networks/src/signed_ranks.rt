// A signed rank test from end to end.
ghost use Rattle.std.specs.Prelude.{◌≡◌, ◌+◌, ◌*◌, ◌<◌, pos, length, All};
ghost use Rattle.networks.specs.Judged.{JudgeFits};
ghost use Rattle.worked_networks.specs.SignedRanks.{rank_sum};

use enumerate::{Framed, Plain, is_extreme_by, next_signs};
use networks::{Additive, AdditiveStages, Interval, Judge, SumValue};
use stage_network::Prepared;
use std::alloc::Global;
use weights::{Bytes, Frame, NoMemory, Rule, Tail};

/// Each difference is a stage, and its sign the choice.
#[derive(Drop)]
pub struct RankStages {
    judge: Judge,
    ghost least: { JudgeFits judge (pos 0) },
    ghost most: { JudgeFits judge (pos 12) },
}

fn addend(stage: usize, sign: u64) -> i128
    requires stage { stage < 3 }
    requires sign { sign < 2 }
    ensures { result ≡ pos (2 * (stage + 1) * sign) }
{
    if sign == 0 {
        0
    } else {
        2 * (stage as i128 + 1)
    }
}

impl Additive for RankStages {
    ghost use Rattle.worked_networks.specs.SignedRanks.{worked_addends};

    ghost addends = { λ s. worked_addends s.judge };

    fn stages(&self) -> usize {
        3
    }

    fn slots(&self) -> usize {
        1
    }

    fn choice_width(&self) -> usize {
        1
    }

    fn first_choice(&self, _stage: usize, choice: &mut [u64]) {
        choice[0] = 0;
    }

    fn next_choice(&self, _stage: usize, choice: &mut [u64]) -> bool {
        if choice[0] == 0 {
            choice[0] = 1;
            true
        } else {
            false
        }
    }

    fn adds(&self, stage: usize, choice: &[u64], added: &mut [i128]) -> u128 {
        added[0] = addend(stage, choice[0]);
        1
    }

    fn total(&self, _stage: usize) -> u128 {
        2
    }

    fn range(&self, stage: usize) -> Interval {
        Interval {
            low: 0,
            high: 2 * (stage as i128 + 1),
        }
    }

    fn is_sorted(&self) -> bool {
        false
    }

    fn value(&self) -> SumValue {
        SumValue::First
    }

    fn judge(&self) -> Judge {
        self.judge
    }
}

/// The signed rank test of the differences 1, -2 and 3.
#[derive(Drop)]
pub struct SignedRanks;

fn rank_sum(signs: &[u8]) -> i128
    requires three { length signs.now ≡ 3 }
    requires signs { All (λ sign. sign < 2) signs.now }
    ensures { result ≡ pos (rank_sum signs.now) }
{
    (2 * signs[0] as u64 + 4 * signs[1] as u64 + 6 * signs[2] as u64) as i128
}

impl Plain for SignedRanks {
    ghost use Rattle.worked_networks.specs.SignedRanks.{worked_test};

    ghost test = { λ _. worked_test };

    fn first(&self, alloc: Global) -> Result<Bytes, NoMemory> {
        let mut signs = Bytes::empty(alloc);
        signs.push(0)?;
        signs.push(0)?;
        signs.push(0)?;
        Ok(signs)
    }

    fn next(&self, labels: &mut Bytes) -> bool {
        next_signs(labels.as_mut_slice())
    }

    fn weight(&self, _labels: &[u8]) -> u128 {
        1
    }

    fn extreme(&self, labels: &[u8], tail: Tail) -> bool {
        is_extreme_by(&self.frame(), self.measure(labels, tail), tail)
    }

    fn value(&self, labels: &[u8]) -> i128 {
        rank_sum(labels)
    }
}

impl Framed for SignedRanks {
    fn frame(&self) -> Frame {
        Frame {
            statistic: 8,
            scale: 2,
            total: 8,
            two: Rule::Far(2, 12, 4),
        }
    }

    fn measure(&self, labels: &[u8], _tail: Tail) -> i128 {
        self.value(labels)
    }
}

impl Prepared for SignedRanks {
    ghost use Rattle.worked_networks.specs.SignedRanks.{worked_network};

    type Built = AdditiveStages<RankStages>;

    ghost network = { λ _. worked_network };

    ghost running = { λ _. worked_network };

    fn has_tail(&self, _tail: Tail) -> bool {
        true
    }

    fn is_shared(&self) -> bool {
        true
    }

    fn stages_of(&self, alloc: Global, _tail: Tail) -> Result<Self::Built, NoMemory> {
        let judge = Judge::of(&self.frame());
        AdditiveStages::new(alloc, RankStages { judge })
    }
}
