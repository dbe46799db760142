// One of two kinds of networks, or of tests.

use crate::stages::{Roomed, Stages, Verdict};
use enumerate::{Framed, Plain};
use std::alloc::Global;
use weights::{Bytes, Frame, NoMemory, Tail};

/// A value of one kind or of another: a network, where the tails of a test have networks of
/// different kinds, or a test.
#[derive(Drop)]
pub enum OneOf<A, B> {
    /// Of the one kind.
    First(A),
    /// Of the other.
    Second(B),
}

impl<A: Stages, B: Stages> Stages for OneOf<A, B> {
    ghost use Rattle.networks.specs.OneOf.{of_either};

    ghost network = { of_either A.network B.network };

    fn stages(&self) -> usize {
        match self {
            OneOf::First(a) => a.stages(),
            OneOf::Second(b) => b.stages(),
        }
    }

    fn width(&self) -> usize {
        match self {
            OneOf::First(a) => a.width(),
            OneOf::Second(b) => b.width(),
        }
    }

    fn choice_width(&self) -> usize {
        match self {
            OneOf::First(a) => a.choice_width(),
            OneOf::Second(b) => b.choice_width(),
        }
    }

    fn first_key(&self, key: &mut [i128]) {
        match self {
            OneOf::First(a) => a.first_key(key),
            OneOf::Second(b) => b.first_key(key),
        }
    }

    fn first_choice(&self, stage: usize, key: &[i128], choice: &mut [u64]) -> bool {
        match self {
            OneOf::First(a) => a.first_choice(stage, key, choice),
            OneOf::Second(b) => b.first_choice(stage, key, choice),
        }
    }

    fn next_choice(&self, stage: usize, key: &[i128], choice: &mut [u64]) -> bool {
        match self {
            OneOf::First(a) => a.next_choice(stage, key, choice),
            OneOf::Second(b) => b.next_choice(stage, key, choice),
        }
    }

    fn apply(&self, stage: usize, key: &[i128], choice: &[u64], next: &mut [i128]) -> u128 {
        match self {
            OneOf::First(a) => a.apply(stage, key, choice, next),
            OneOf::Second(b) => b.apply(stage, key, choice, next),
        }
    }

    fn rest(&self, stage: usize, key: &[i128]) -> u128 {
        match self {
            OneOf::First(a) => a.rest(stage, key),
            OneOf::Second(b) => b.rest(stage, key),
        }
    }

    fn verdict(&self, stage: usize, key: &[i128], tail: Tail) -> Verdict {
        match self {
            OneOf::First(a) => a.verdict(stage, key, tail),
            OneOf::Second(b) => b.verdict(stage, key, tail),
        }
    }

    fn value(&self, key: &[i128]) -> i128 {
        match self {
            OneOf::First(a) => a.value(key),
            OneOf::Second(b) => b.value(key),
        }
    }
}

impl<A: Roomed, B: Roomed> Roomed for OneOf<A, B> {
    ghost use Rattle.networks.specs.OneOf.{of_either};

    ghost room_width = { of_either A.room_width B.room_width };

    ghost step_width = { of_either A.step_width B.step_width };

    ghost step_of = { of_either A.step_of B.step_of };

    ghost outlook_width = { of_either A.outlook_width B.outlook_width };

    ghost outlook_of = { of_either A.outlook_of B.outlook_of };

    fn room_width(&self) -> usize {
        match self {
            OneOf::First(a) => a.room_width(),
            OneOf::Second(b) => b.room_width(),
        }
    }

    fn cross(&self, stage: usize, key: &[i128], choice: &[u64], room: &mut [i128]) -> u128 {
        match self {
            OneOf::First(a) => a.cross(stage, key, choice, room),
            OneOf::Second(b) => b.cross(stage, key, choice, room),
        }
    }

    fn step_width(&self) -> usize {
        match self {
            OneOf::First(a) => a.step_width(),
            OneOf::Second(b) => b.step_width(),
        }
    }

    fn step(&self, stage: usize, room: &[i128], choice: &[u64], step: &mut [i128]) {
        match self {
            OneOf::First(a) => a.step(stage, room, choice, step),
            OneOf::Second(b) => b.step(stage, room, choice, step),
        }
    }

    #[inline(always)]
    fn advance(
        &self,
        stage: usize,
        room: &[i128],
        choice: &[u64],
        step: &[i128],
        partial: &[i128],
        next: &mut [i128],
    ) {
        match self {
            OneOf::First(a) => a.advance(stage, room, choice, step, partial, next),
            OneOf::Second(b) => b.advance(stage, room, choice, step, partial, next),
        }
    }

    fn outlook_width(&self) -> usize {
        match self {
            OneOf::First(a) => a.outlook_width(),
            OneOf::Second(b) => b.outlook_width(),
        }
    }

    fn outlook(&self, stage: usize, room: &[i128], outlook: &mut [i128]) {
        match self {
            OneOf::First(a) => a.outlook(stage, room, outlook),
            OneOf::Second(b) => b.outlook(stage, room, outlook),
        }
    }

    #[inline(always)]
    fn verdict_by(
        &self,
        stage: usize,
        room: &[i128],
        outlook: &[i128],
        partial: &[i128],
        tail: Tail,
    ) -> Verdict {
        match self {
            OneOf::First(a) => a.verdict_by(stage, room, outlook, partial, tail),
            OneOf::Second(b) => b.verdict_by(stage, room, outlook, partial, tail),
        }
    }

    fn is_shift(&self) -> bool {
        match self {
            OneOf::First(a) => a.is_shift(),
            OneOf::Second(b) => b.is_shift(),
        }
    }

    fn same_for(
        &self,
        stage: usize,
        room: &[i128],
        outlook: &[i128],
        partial: i128,
        tail: Tail,
    ) -> u128 {
        match self {
            OneOf::First(a) => a.same_for(stage, room, outlook, partial, tail),
            OneOf::Second(b) => b.same_for(stage, room, outlook, partial, tail),
        }
    }
}

impl<A: Plain, B: Plain> Plain for OneOf<A, B> {
    ghost use Rattle.networks.specs.OneOf.{of_either};

    ghost test = { of_either A.test B.test };

    fn first(&self, alloc: Global) -> Result<Bytes, NoMemory> {
        match self {
            OneOf::First(a) => a.first(alloc),
            OneOf::Second(b) => b.first(alloc),
        }
    }

    fn next(&self, labels: &mut Bytes) -> bool {
        match self {
            OneOf::First(a) => a.next(labels),
            OneOf::Second(b) => b.next(labels),
        }
    }

    fn weight(&self, labels: &[u8]) -> u128 {
        match self {
            OneOf::First(a) => a.weight(labels),
            OneOf::Second(b) => b.weight(labels),
        }
    }

    fn extreme(&self, labels: &[u8], tail: Tail) -> bool {
        match self {
            OneOf::First(a) => a.extreme(labels, tail),
            OneOf::Second(b) => b.extreme(labels, tail),
        }
    }

    fn value(&self, labels: &[u8]) -> i128 {
        match self {
            OneOf::First(a) => a.value(labels),
            OneOf::Second(b) => b.value(labels),
        }
    }
}

impl<A: Framed, B: Framed> Framed for OneOf<A, B> {
    fn frame(&self) -> Frame {
        match self {
            OneOf::First(a) => a.frame(),
            OneOf::Second(b) => b.frame(),
        }
    }

    fn measure(&self, labels: &[u8], tail: Tail) -> i128 {
        match self {
            OneOf::First(a) => a.measure(labels, tail),
            OneOf::Second(b) => b.measure(labels, tail),
        }
    }
}
