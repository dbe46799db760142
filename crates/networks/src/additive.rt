// Stages whose choices do not depend on the key: each adds to the sums of the key.
ghost use Rattle.std.specs.Prelude.{◌≡◌, ◌≤◌, ◌<◌, ◌∷◌, length};
ghost use Rattle.std.specs.List.{Contains};
ghost use Rattle.networks.specs.Addends.{Addends, choices_left, from_mean, from_zero, stage_total};
ghost use Rattle.networks.specs.Distances.{correction_limit, sum_limit};
ghost use Rattle.networks.specs.SoundAddends.{IsAdditive};

use crate::distances::correction;
use crate::verdicts::{Interval, Judge};

/// Squares of sums, which are told by the distances of the sums from a centre: what the squares
/// have beside those of the distances, and what they are at most.
#[derive(Clone, Copy, Debug, PartialEq, Eq)]
pub struct CentredSquares {
    pub centre: u64,
    pub beside: u64,
    pub bound: u128,
}

impl CentredSquares {
    /// From 0, where the distances are the sums.
    pub fn from_zero(bound: u128) -> CentredSquares
        ensures { result ≡ from_zero bound }
    {
        CentredSquares {
            centre: 0,
            beside: 0,
            bound,
        }
    }

    /// From the mean, rounded down, of so many sums that add up to a total.
    pub fn from_mean(sums: u64, total: u64, bound: u128) -> CentredSquares
        requires some { 1 ≤ sums }
        requires total { total ≤ sum_limit }
        ensures is { result ≡ from_mean sums total bound }
        ensures centre_small { result.centre ≤ sum_limit }
        ensures beside_small { result.beside ≤ correction_limit }
    {
        let centre = total / sums;
        CentredSquares {
            centre,
            beside: correction(sums, centre, total),
            bound,
        }
    }
}

/// What is measured of the sums after the last stage.
#[derive(Clone, Copy, Debug, PartialEq, Eq)]
pub enum SumValue {
    /// The first sum, which is the only one.
    First,
    /// The sum of the squares of all sums.
    Squares(CentredSquares),
}

/// A test whose rearrangements are made part by part: each stage has the same choices for every
/// key, and a choice adds a number to each of 1 to 16 sums, which begin at 0. The value is measured
/// of the last sums. [`AdditiveStages`](crate::AdditiveStages) makes the network of it.
pub trait Additive {
    /// Its choices, what they weigh and add, and what is measured.
    ghost addends: { Self → Addends };

    /// How many stages there are.
    fn stages(&self) -> usize
        ensures count { result ≡ (addends self.now).count }
        ensures sound { IsAdditive (addends self.now) };

    /// How many sums there are.
    fn slots(&self) -> usize
        ensures { result ≡ (addends self.now).slots };

    /// How many numbers a choice has.
    fn choice_width(&self) -> usize
        ensures { result ≡ (addends self.now).choice_width };

    /// Writes the first choice of a stage.
    fn first_choice(&self, stage: usize, choice: &mut [u64])
        requires before { stage < (addends self.now).count }
        requires room { length choice.old ≡ (addends self.now).choice_width }
        ensures { let left = (addends self.now).later stage choice.new in
            (addends self.now).choices stage ≡ choice.new ∷ left };

    /// Moves on to the next choice, where there is one.
    fn next_choice(&self, stage: usize, choice: &mut [u64]) -> bool
        requires before { stage < (addends self.now).count }
        requires allowed { Contains ((addends self.now).choices stage) choice.old }
        requires wide { length choice.old ≡ (addends self.now).choice_width }
        ensures { let left = choices_left (addends self.now) stage result choice.new in
            (addends self.now).later stage choice.old ≡ left };

    /// Writes what a choice adds to each sum, and answers its weight.
    fn adds(&self, stage: usize, choice: &[u64], added: &mut [i128]) -> u128
        requires before { stage < (addends self.now).count }
        requires allowed { Contains ((addends self.now).choices stage) choice.now }
        requires wide { length choice.now ≡ (addends self.now).choice_width }
        requires room { length added.old ≡ (addends self.now).slots }
        ensures added { added.new ≡ (addends self.now).adds stage choice.now }
        ensures weight { result ≡ (addends self.now).weight stage choice.now };

    /// The summed weight of a stage's choices.
    fn total(&self, stage: usize) -> u128
        requires { stage < (addends self.now).count }
        ensures { result ≡ stage_total (addends self.now) stage };

    /// The least and the greatest that a choice of a stage adds to a sum.
    fn range(&self, stage: usize) -> Interval
        requires { stage < (addends self.now).count }
        ensures low { result.low ≡ (addends self.now).least stage }
        ensures high { result.high ≡ (addends self.now).most stage };

    /// Whether the sums are kept ascending. They may be where the order of the sums changes
    /// nothing, and then fewer keys differ.
    fn is_sorted(&self) -> bool
        ensures { result ≡ (addends self.now).sorted };

    /// What is measured of the last sums.
    fn value(&self) -> SumValue
        ensures { result ≡ (addends self.now).value };

    /// The rules that the verdicts go by.
    fn judge(&self) -> Judge
        ensures { result ≡ (addends self.now).judge };
}
