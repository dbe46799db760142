// A test whose rearrangements all weigh 1, that can be answered.
ghost use Rattle.std.specs.Prelude.{◌≡◌};
ghost use Rattle.weights.specs.Frames.{IsFrameOf};

use crate::unweighted::UnweightedTest;
use enumerate::{Framed, Plain, is_extreme_by};
use networks::{Judge, TailSums};
use stage_network::Prepared;
use std::alloc::Global;
use std::marker::Model;
use weights::{Bytes, Frame, NoMemory, Tail, Tails};

/// A test of lists of labels that all weigh 1, with what is said of it. It is seen as the test.
#[derive(Drop)]
pub struct Unweighted<T: UnweightedTest> {
    pub(crate) test: T,
    pub(crate) frame: Frame,
}

impl<T: UnweightedTest> Model for Unweighted<T> {
    ghost use Rattle.weights.specs.Frames.{IsFrameOf};

    ghost Value = { T };

    ghost view = { λ u. u.test };

    ghost invariant = { λ u. IsFrameOf (T.test u.test) u.frame };
}

impl<T: UnweightedTest> Unweighted<T> {
    /// A test, of which this is to be said.
    pub fn of(test: T, frame: Frame) -> Unweighted<T>
        requires { IsFrameOf (T.test test) frame }
        ensures { result ≡ test }
    {
        Unweighted { test, frame }
    }
}

impl<T: UnweightedTest> Plain for Unweighted<T> {
    ghost test = { λ u. T.test u };

    fn first(&self, alloc: Global) -> Result<Bytes, NoMemory> {
        self.test.sound();
        self.test.first(alloc)
    }

    fn next(&self, labels: &mut Bytes) -> bool {
        self.test.next(labels)
    }

    fn weight(&self, _labels: &[u8]) -> u128 {
        self.test.sound();
        1
    }

    fn extreme(&self, labels: &[u8], tail: Tail) -> bool {
        is_extreme_by(&self.frame(), self.measure(labels, tail), tail)
    }

    fn value(&self, labels: &[u8]) -> i128 {
        self.test.value(labels)
    }
}

impl<T: UnweightedTest> Framed for Unweighted<T> {
    fn frame(&self) -> Frame {
        self.test.sound();
        self.frame
    }

    fn measure(&self, labels: &[u8], _tail: Tail) -> i128 {
        self.test.sound();
        self.test.value(labels)
    }
}

impl<T: UnweightedTest> Prepared for Unweighted<T> {
    type Built = T::Built;

    ghost network = { λ u tail. T.network u };

    ghost running = { λ u tail. T.running u };

    fn has_tail(&self, tail: Tail) -> bool {
        self.test.sound();
        self.test.has_tail(tail)
    }

    fn is_shared(&self) -> bool {
        true
    }

    fn stages_of(&self, alloc: Global, _tail: Tail) -> Result<Self::Built, NoMemory> {
        self.test.sound();
        self.test.stages_of(alloc, Judge::of(&self.frame))
    }

    fn quick_stages_of(&self, alloc: Global, _tail: Tail) -> Result<Self::Built, NoMemory> {
        self.test.quick_stages_of(alloc, Judge::of(&self.frame))
    }

    fn numerators(&self, alloc: Global, tails: Tails) -> Result<TailSums, NoMemory> {
        self.test.numerators(alloc, Judge::of(&self.frame), tails)
    }

    fn sum_onward(
        &self,
        alloc: Global,
        tail: Tail,
        stage: usize,
        keys: &[i128],
        weights: &[u128],
    ) -> Result<u128, NoMemory> {
        let judge = Judge::of(&self.frame);
        self.test
            .sum_onward(alloc, judge, tail, stage, keys, weights)
    }
}
