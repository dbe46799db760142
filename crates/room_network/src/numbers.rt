// What a statistic of one number offers to the network of its rooms.
ghost use Rattle.std.specs.Prelude.{◌≡◌, ℤ, List, [], ◌∷◌, length, pos};
ghost use Rattle.room_network.specs.Meanings.{AreReached, IsRoom, IsStep};
ghost use Rattle.room_network.specs.Numbers.{Fits, IsScalar, Numbers, scalar_meaning, put, start};
ghost use Rattle.room_network.specs.Plans.{Floor};

use crate::measure::Measure;
use networks::{Interval, Judge, Verdict};
use std::marker::Model;
use weights::{Tail, only, plus, times};

/// How the numbers of a measure are put together.
#[derive(Clone, Copy, Debug, PartialEq, Eq)]
pub enum Operation {
    /// They are added.
    Sum,
    /// They are multiplied; none is negative.
    Product,
}

impl Operation {
    // What comes first.
    #[inline(always)]
    fn start(self) -> i128
        ensures { result ≡ start self }
    {
        match self {
            Operation::Sum => 0,
            Operation::Product => 1,
        }
    }

    // Two numbers put together.
    #[inline(always)]
    fn put(self, a: i128, b: i128) -> i128
        requires { Fits self a b }
        ensures { result ≡ put self a b }
    {
        match self {
            Operation::Sum => plus(a, b),
            Operation::Product => times(a, b),
        }
    }
}

/// What is measured of the ways through rooms, where it is one number, a sum or a product over the
/// choices: [`FromScalar`] is then a [`Measure`] whose partial is what they come to so far. Its
/// interval puts to a partial what the later choices can come to, at least and at most.
pub trait ScalarMeasure {
    /// The rooms whose ways are measured.
    ghost floor: { Self → Floor };

    /// What choices come to.
    ghost numbers: { Self → Numbers (List ℤ) };

    /// The rules that verdicts go by. The intervals narrow along every choice, and no number on the
    /// way passes a limit, nor one that the rules compute of what it comes to.
    fn judge(&self) -> &Judge
        ensures judge { result.now ≡ (numbers self.now).judge }
        ensures sound { IsScalar (floor self.now) (numbers self.now) };

    /// How its numbers are put together.
    fn operation(&self) -> Operation
        ensures { result ≡ (numbers self.now).operation };

    /// What a choice at a room puts to the number so far.
    fn number(&self, stage: usize, room: &[i128], choice: &[u64]) -> i128
        requires { let m = scalar_meaning (floor self.now) (numbers self.now) in
            IsStep m stage room.now choice.now }
        ensures { result ≡ (numbers self.now).step stage room.now choice.now };

    /// What the choices from a room on put to it, at least and at most.
    fn later(&self, stage: usize, room: &[i128]) -> Interval
        requires { IsRoom (scalar_meaning (floor self.now) (numbers self.now)) stage room.now }
        ensures low { result.low ≡ (numbers self.now).least stage room.now }
        ensures high { result.high ≡ (numbers self.now).greatest stage room.now };

    /// Whether sums are best held as rows of counts. It may be anything.
    fn has_rows(&self) -> bool {
        true
    }
}

// Between which numbers a partial of a measure ends, by the outlook of its room.
#[inline(always)]
fn ends_of<N: ScalarMeasure>(
    measure: &N,
    _stage: usize,
    _room: &[i128],
    outlook: &[i128],
    partial: &[i128],
) -> Interval
    requires reached { let m = scalar_meaning (N.floor measure.now) (N.numbers measure.now) in
        AreReached m _stage _room.now partial.now }
    requires outlook { let m = scalar_meaning (N.floor measure.now) (N.numbers measure.now) in
        outlook.now ≡ m.outlook _stage _room.now }
    ensures low { let m = scalar_meaning (N.floor measure.now) (N.numbers measure.now) in
        result.low ≡ m.low _stage _room.now partial.now }
    ensures high { let m = scalar_meaning (N.floor measure.now) (N.numbers measure.now) in
        result.high ≡ m.high _stage _room.now partial.now }
{
    let _judge = measure.judge();
    let operation = measure.operation();
    let number = only(partial);
    Interval {
        low: operation.put(number, outlook[0]),
        high: operation.put(number, outlook[1]),
    }
}

/// A measure of one number as a [`Measure`]. It is seen as the measure of one number.
#[derive(Drop)]
pub struct FromScalar<N: ScalarMeasure> {
    inner: N,
}

impl<N: ScalarMeasure> Model for FromScalar<N> {
    ghost Value = { N };

    ghost view = { λ numbered. numbered.inner };
}

impl<N: ScalarMeasure> FromScalar<N> {
    /// The measure, with a partial.
    pub fn new(inner: N) -> FromScalar<N>
        ensures { result ≡ inner }
    {
        FromScalar { inner }
    }
}

impl<N: ScalarMeasure> Measure for FromScalar<N> {
    ghost meaning = { λ n. scalar_meaning (N.floor n) (N.numbers n) };

    fn slots(&self) -> usize {
        let _judge = self.inner.judge();
        1
    }

    fn step_width(&self) -> usize {
        1
    }

    fn outlook_width(&self) -> usize {
        2
    }

    fn first(&self, partial: &mut [i128]) {
        partial[0] = self.inner.operation().start();
    }

    #[inline(always)]
    fn step(&self, stage: usize, room: &[i128], choice: &[u64], step: &mut [i128]) {
        step[0] = self.inner.number(stage, room, choice);
    }

    #[inline(always)]
    fn follow(
        &self,
        _stage: usize,
        _room: &[i128],
        _choice: &[u64],
        step: &[i128],
        partial: &[i128],
        next: &mut [i128],
    ) {
        let _judge = self.inner.judge();
        next[0] = self.inner.operation().put(only(partial), only(step));
    }

    #[inline(always)]
    fn outlook(&self, stage: usize, room: &[i128], outlook: &mut [i128]) {
        let later = self.inner.later(stage, room);
        outlook[0] = later.low;
        outlook[1] = later.high;
    }

    #[inline(always)]
    fn verdict_by(
        &self,
        stage: usize,
        room: &[i128],
        outlook: &[i128],
        partial: &[i128],
        tail: Tail,
    ) -> Verdict {
        let ends = ends_of(&self.inner, stage, room, outlook, partial);
        self.inner.judge().verdict(tail, ends)
    }

    fn is_shift(&self) -> bool {
        self.inner.operation() == Operation::Sum && self.inner.has_rows()
    }

    fn same_for(
        &self,
        stage: usize,
        room: &[i128],
        outlook: &[i128],
        partial: i128,
        tail: Tail,
    ) -> u128 {
        match self.inner.operation() {
            Operation::Sum => {
                let ends = ends_of(&self.inner, stage, room, outlook, [partial].as_slice());
                self.inner.judge().same_for(tail, ends)
            }
            Operation::Product => 0,
        }
    }

    #[inline(always)]
    fn value(&self, partial: &[i128]) -> i128 {
        let _judge = self.inner.judge();
        only(partial)
    }
}
