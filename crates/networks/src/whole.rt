// Any network as one whose rooms are its whole keys.
ghost use Rattle.std.specs.Prelude.{◌≡◌, []};

use crate::stages::{Roomed, Stages, Verdict};
use weights::Tail;

/// A network each of whose keys is a room of its own.
#[derive(Clone, Copy)]
pub struct Whole<'a, S: Stages> {
    stages: &'a S,
}

impl<'a, S: Stages> Whole<'a, S> {
    /// The same keys, choices and verdicts.
    pub fn new(stages: &'a S) -> Whole<'a, S>
        ensures { result.stages.now ≡ stages.now }
    {
        Whole { stages }
    }
}

impl<'a, S: Stages> Stages for Whole<'a, S> {
    ghost network = { λ whole. S.network whole.stages.now };

    fn stages(&self) -> usize {
        self.stages.stages()
    }

    fn width(&self) -> usize {
        self.stages.width()
    }

    fn choice_width(&self) -> usize {
        self.stages.choice_width()
    }

    fn first_key(&self, key: &mut [i128]) {
        self.stages.first_key(key);
    }

    fn first_choice(&self, stage: usize, key: &[i128], choice: &mut [u64]) -> bool {
        self.stages.first_choice(stage, key, choice)
    }

    fn next_choice(&self, stage: usize, key: &[i128], choice: &mut [u64]) -> bool {
        self.stages.next_choice(stage, key, choice)
    }

    fn apply(&self, stage: usize, key: &[i128], choice: &[u64], next: &mut [i128]) -> u128 {
        self.stages.apply(stage, key, choice, next)
    }

    fn rest(&self, stage: usize, key: &[i128]) -> u128 {
        self.stages.rest(stage, key)
    }

    fn verdict(&self, stage: usize, key: &[i128], tail: Tail) -> Verdict {
        self.stages.verdict(stage, key, tail)
    }

    fn value(&self, key: &[i128]) -> i128 {
        self.stages.value(key)
    }
}

impl<'a, S: Stages> Roomed for Whole<'a, S> {
    ghost room_width = { λ whole. (S.network whole.stages.now).width };

    ghost step_width = { λ whole. 0 };

    ghost step_of = { λ whole stage room choice. [] };

    ghost outlook_width = { λ whole. 0 };

    ghost outlook_of = { λ whole stage room. [] };

    fn room_width(&self) -> usize {
        let _lawful = self.stages.stages();
        self.stages.width()
    }

    fn step_width(&self) -> usize {
        0
    }

    fn step(&self, _stage: usize, _room: &[i128], _choice: &[u64], _step: &mut [i128]) {}

    fn advance(
        &self,
        _stage: usize,
        _room: &[i128],
        _choice: &[u64],
        _step: &[i128],
        _partial: &[i128],
        _next: &mut [i128],
    ) {
        let _lawful = self.stages.stages();
    }

    fn outlook_width(&self) -> usize {
        0
    }

    fn outlook(&self, _stage: usize, _room: &[i128], _outlook: &mut [i128]) {}

    fn verdict_by(
        &self,
        stage: usize,
        room: &[i128],
        _outlook: &[i128],
        _partial: &[i128],
        tail: Tail,
    ) -> Verdict {
        let _lawful = self.stages.stages();
        self.stages.verdict(stage, room, tail)
    }
}
