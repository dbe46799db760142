// Two draws from a box of two black balls and a white one, by rooms of their own.
ghost use Rattle.std.specs.Prelude.{◌≡◌, IfOk, filter, length};
ghost use Rattle.weights.specs.Rules.{passes};
ghost use Rattle.networks.specs.Judged.{rule_in};
ghost use Rattle.worked_networks.specs.Draws.{GivesDraws, draws, first_colour, some_white, whites};

use networks::{Interval, Judge, TailSum};
use room_network::{FromScalar, Operation, RoomNetwork, Rooms, ScalarMeasure};
use stage_network::tail_sum;
use std::alloc::Global;
use weights::{NoMemory, Rule, Tail};

/// What is drawn: how many balls of either colour are left, and in how many ways one is drawn.
#[derive(Drop)]
pub struct DrawRooms;

// The first colour that can be drawn where so many black balls are left.
fn first_colour(black: i128) -> u64
    ensures { result ≡ first_colour black }
{
    if black > 0 { 0 } else { 1 }
}

impl Rooms for DrawRooms {
    ghost use Rattle.worked_networks.specs.Draws.{box};

    ghost plan = { λ _. box };

    fn stages(&self) -> usize {
        2
    }

    fn width(&self) -> usize {
        2
    }

    fn choice_width(&self) -> usize {
        1
    }

    fn first(&self, room: &mut [i128]) {
        room[0] = 2;
        room[1] = 1;
    }

    fn first_choice(&self, _stage: usize, room: &[i128], choice: &mut [u64]) {
        choice[0] = first_colour(room[0]);
    }

    fn next_choice(&self, _stage: usize, room: &[i128], choice: &mut [u64]) -> bool {
        if choice[0] == 0 && room[1] > 0 {
            choice[0] = 1;
            true
        } else {
            false
        }
    }

    fn cross(&self, _stage: usize, room: &[i128], choice: &[u64], next: &mut [i128]) -> u128 {
        if choice[0] == 0 {
            next[0] = room[0] - 1;
            next[1] = room[1];
            room[0] as u128
        } else {
            next[0] = room[0];
            next[1] = room[1] - 1;
            room[1] as u128
        }
    }

    fn rest(&self, stage: usize, _room: &[i128]) -> u128 {
        if stage == 0 {
            6
        } else if stage == 1 {
            2
        } else {
            1
        }
    }
}

/// The six ways to draw two of three balls are the ways through the rooms.
pub fn drawing_law()
    ensures { GivesDraws }
{}

/// How many white balls are drawn.
#[derive(Drop)]
pub struct WhiteBalls {
    judge: Judge,
    ghost ruled: { judge ≡ some_white },
}

impl ScalarMeasure for WhiteBalls {
    ghost use Rattle.worked_networks.specs.Draws.{box, white_numbers};

    ghost floor = { λ _. box.floor };

    ghost numbers = { λ m. white_numbers m.judge };

    fn judge(&self) -> &Judge {
        &self.judge
    }

    fn operation(&self) -> Operation {
        Operation::Sum
    }

    fn number(&self, _stage: usize, _room: &[i128], choice: &[u64]) -> i128 {
        choice[0] as i128
    }

    fn later(&self, stage: usize, room: &[i128]) -> Interval {
        Interval {
            low: 0,
            high: if stage < 2 { room[1] } else { 0 },
        }
    }
}

/// Of the six ways, those that draw a white ball, or none.
///
/// # Errors
///
/// [`NoMemory`] where there is no memory for the network.
pub fn white_draws(alloc: Global, tail: Tail) -> Result<TailSum, NoMemory>
    ensures { IfOk result (λ found. found.sum
        ≡ length (filter (λ balls. passes (rule_in some_white tail) (whites balls)) draws)) }
{
    let judge = Judge {
        less: Rule::AtMost(0),
        greater: Rule::AtLeast(1),
        two: Rule::AtLeast(1),
    };
    drawing_law();
    let stages = RoomNetwork::new(DrawRooms, FromScalar::new(WhiteBalls { judge }));
    tail_sum(alloc, &stages, tail)
}
