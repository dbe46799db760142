// Two samples without ties, subject by subject, for the sum of the second sample's doubled ranks.
ghost use Rattle.std.specs.Prelude.{◌≡◌, ◌+◌, ◌≤◌, []};
ghost use Rattle.weights.specs.Numbers.{binomial};
ghost use Rattle.worked_networks.specs.SampleRanks.{rank_network, rank_step};

use networks::{Roomed, Stages, Verdict, write_key};
use weights::{Tail, binomial};

/// The sizes of the two samples, at most 126 in all, and the greatest sum that is extreme.
#[derive(Drop)]
pub struct Ranks {
    pub first: u64,
    pub second: u64,
    pub observed: i128,
    ghost few: { first + second ≤ 126 },
}

// In how many ways the subjects that are left can be put in order.
fn ways(first: u64, second: u64) -> u128
    requires { first + second ≤ 126 }
    ensures { result ≡ binomial (first + second) second }
{
    match binomial(first + second, second) {
        Some(ways) => ways,
        None => unreachable!(),
    }
}

impl Stages for Ranks {
    ghost network = { λ s. rank_network s.first s.second s.observed };

    fn stages(&self) -> usize {
        (self.first + self.second) as usize
    }

    fn width(&self) -> usize {
        3
    }

    fn choice_width(&self) -> usize {
        1
    }

    fn first_key(&self, key: &mut [i128]) {
        key[0] = self.first as i128;
        key[1] = self.second as i128;
        key[2] = 0;
    }

    fn first_choice(&self, stage: usize, key: &[i128], choice: &mut [u64]) -> bool {
        if stage as u64 >= self.first + self.second {
            false
        } else if key[0] > 0 {
            choice[0] = 0;
            true
        } else if key[1] > 0 {
            choice[0] = 1;
            true
        } else {
            false
        }
    }

    fn next_choice(&self, _stage: usize, key: &[i128], choice: &mut [u64]) -> bool {
        if choice[0] == 0 && key[1] > 0 {
            choice[0] = 1;
            true
        } else {
            false
        }
    }

    fn apply(&self, stage: usize, key: &[i128], choice: &[u64], next: &mut [i128]) -> u128 {
        if choice[0] == 0 {
            next[0] = key[0] - 1;
            next[1] = key[1];
            next[2] = key[2];
        } else {
            next[0] = key[0];
            next[1] = key[1] - 1;
            next[2] = key[2] + 2 * (stage as i128 + 1);
        }
        1
    }

    fn rest(&self, _stage: usize, key: &[i128]) -> u128 {
        ways(key[0] as u64, key[1] as u64)
    }

    fn verdict(&self, _stage: usize, key: &[i128], _tail: Tail) -> Verdict {
        if key[2] > self.observed {
            Verdict::Outside
        } else if key[1] <= 0 {
            Verdict::Inside
        } else {
            Verdict::Undecided
        }
    }

    fn value(&self, key: &[i128]) -> i128 {
        key[2]
    }
}

impl Roomed for Ranks {
    ghost room_width = { λ s. 2 };

    ghost step_width = { λ s. 1 };

    ghost step_of = { λ s stage room choice. rank_step stage choice };

    ghost outlook_width = { λ s. 0 };

    ghost outlook_of = { λ s stage room. [] };

    fn room_width(&self) -> usize {
        2
    }

    fn step_width(&self) -> usize {
        1
    }

    fn step(&self, stage: usize, _room: &[i128], choice: &[u64], step: &mut [i128]) {
        if choice[0] == 0 {
            step[0] = 0;
        } else {
            step[0] = 2 * (stage as i128 + 1);
        }
    }

    fn advance(
        &self,
        _stage: usize,
        _room: &[i128],
        _choice: &[u64],
        step: &[i128],
        partial: &[i128],
        next: &mut [i128],
    ) {
        next[0] = partial[0] + step[0];
    }

    fn outlook_width(&self) -> usize {
        0
    }

    fn outlook(&self, _stage: usize, _room: &[i128], _outlook: &mut [i128]) {}

    fn verdict_by(
        &self,
        stage: usize,
        room: &[i128],
        _outlook: &[i128],
        partial: &[i128],
        tail: Tail,
    ) -> Verdict {
        let mut key = [0i128; 3];
        write_key(room, partial, &mut key);
        self.verdict(stage, &key, tail)
    }
}
