// A network of a stranger's own.
ghost use Rattle.std.specs.Prelude.{[], ◌∷◌, ◌≡◌, IfOk, length, pos, slice_index};
ghost use Rattle.networks.specs.Completions.{extreme_weight};
ghost use Rattle.worked_surface.specs.OneToss.{one_toss};

use crate::label_network_calls::write;
use stage_network::{Stages, TailSum, Verdict};
use std::alloc::Global;
use weights::{NoMemory, Tail};

/// One toss of a coin, of which heads is extreme.
pub struct OneToss;

fn write_side(side: u64, choice: &mut [u64])
    requires { length choice.old ≡ 1 }
    ensures { choice.new ≡ side ∷ [] }
{
    choice[0] = side;
}

fn side_of(choice: &[u64]) -> i128
    requires { length choice.now ≡ 1 }
    ensures { result ≡ pos (slice_index choice.now 0) }
{
    choice[0] as i128
}

impl Stages for OneToss {
    ghost use Rattle.worked_surface.specs.OneToss.{one_toss};

    ghost network = { λ _. one_toss };

    fn stages(&self) -> usize {
        1
    }

    fn width(&self) -> usize {
        1
    }

    fn choice_width(&self) -> usize {
        1
    }

    fn first_key(&self, key: &mut [i128]) {
        write(0, key);
    }

    fn first_choice(&self, stage: usize, _key: &[i128], choice: &mut [u64]) -> bool {
        write_side(0, choice);
        stage == 0
    }

    fn next_choice(&self, _stage: usize, _key: &[i128], choice: &mut [u64]) -> bool {
        let is_tails = choice[0] == 0;
        write_side(1, choice);
        is_tails
    }

    fn apply(&self, _stage: usize, _key: &[i128], choice: &[u64], next: &mut [i128]) -> u128 {
        write(side_of(choice), next);
        1
    }

    fn rest(&self, stage: usize, _key: &[i128]) -> u128 {
        if stage == 0 { 2 } else { 1 }
    }

    fn verdict(&self, stage: usize, key: &[i128], _tail: Tail) -> Verdict {
        if stage == 0 {
            Verdict::Undecided
        } else if 1 <= key[0] {
            Verdict::Inside
        } else {
            Verdict::Outside
        }
    }

    fn value(&self, key: &[i128]) -> i128 {
        key[0]
    }
}

/// In how many ways a toss is heads.
pub fn heads(alloc: Global, tail: Tail) -> Result<TailSum, NoMemory>
    ensures { IfOk result (λ found. found.sum ≡ extreme_weight one_toss tail 0 one_toss.first) }
{
    stage_network::tail_sum(alloc, &OneToss, tail)
}
