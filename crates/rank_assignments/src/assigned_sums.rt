// Who is assigned, as rooms, and the treatments' sums, as what is measured of them.
ghost use Rattle.std.specs.Prelude.{◌≡◌, ◌+◌, ◌*◌, ◌<◌, ◌≤◌, length, map, nat_abs, pos};
ghost use Rattle.std.specs.Prelude.{slice_index_or, All, if◌then◌else◌, true};
ghost use Rattle.std.specs.List.{sum_by};
ghost use Rattle.weights.specs.Grouped.{fits, minus};
ghost use Rattle.networks.specs.Distances.{correction_limit, far_square, near_square, square_limit};
ghost use Rattle.networks.specs.Distances.{squared};
ghost use Rattle.label_network.specs.LabelSteps.{AreSizes};
ghost use Rattle.label_network.specs.Meanings.{sizes_in};
ghost use Rattle.rank_assignments.specs.Assignments.{AreMarks, AreSums, IsSmallAhead};
ghost use Rattle.rank_assignments.specs.Assignments.{gained, over_ends, raises, unassigned};
ghost use Rattle.rank_assignments.specs.BoundSteps.{AreSmallBounds, IsSmall};
ghost use Rattle.rank_assignments.specs.Upright.{upright};

use crate::assignment::Ahead;
use crate::assignments::Assignments;
use crate::leaning::write_upright;
use label_network::{first_counts, next_counts, take_away};
use networks::{Interval, SquareBounds, Verdict, far_square, near_square};
use room_network::{Measure, Rooms};
use weights::Tail;

/// Who is assigned, number by number: a room marks the treatments that have no number of the block
/// yet, and a choice marks those that get the stage's number.
#[derive(Drop)]
pub struct AssignmentRooms {
    pub assignments: Assignments,
}

/// The treatments' sums, of which the squares are added.
#[derive(Drop)]
pub struct AssignedSums {
    pub assignments: Assignments,
}

/// Writes the treatments that are left after a choice: all of them where the block is closed.
#[inline(always)]
pub(crate) fn write_left(closes: bool, room: &[i128], choice: &[u64], left: &mut [i128])
    requires sizes { AreSizes room.now }
    requires fitting { fits choice.now (sizes_in room.now) ≡ true }
    requires long { length left.old ≡ length room.now }
    ensures { left.new
        ≡ (if closes then unassigned (length room.now)
        else map pos (minus (sizes_in room.now) choice.now)) }
{
    if closes {
        left.fill(1);
    } else {
        take_away(room, choice, left);
    }
}

// A treatment's sum, raised by a number as often as a choice says.
#[inline(always)]
fn gained_sum(value: u64, choice: &[u64], partial: &[i128], place: usize) -> i128
    requires place { place < length partial.now }
    requires sums { AreSums partial.now }
    requires value { value ≤ 16 }
    requires counts { All (λ c. c ≤ 1) choice.now }
    requires as_many { length choice.now ≡ length partial.now }
    ensures { result
        ≡ pos (nat_abs (slice_index_or partial.now place (pos 0))
        + value * slice_index_or choice.now place 0) }
{
    partial[place] + (value * choice[place]) as i128
}

// Writes what is added to the sums.
fn write_raises(value: u64, choice: &[u64], step: &mut [i128])
    requires value { value ≤ 16 }
    requires counts { All (λ c. c ≤ 1) choice.now }
    requires room { length step.old ≡ length choice.now }
    ensures { step.new ≡ raises value choice.now }
{
    for i in 0..choice.len() {
        step[i] = (value * choice[i]) as i128;
    }
}

// Writes the sums, raised by a number where a choice says so.
#[inline(always)]
fn write_gained(value: u64, choice: &[u64], partial: &[i128], next: &mut [i128])
    requires sums { AreSums partial.now }
    requires value { value ≤ 16 }
    requires counts { All (λ c. c ≤ 1) choice.now }
    requires as_many { length choice.now ≡ length partial.now }
    requires room { length next.old ≡ length partial.now }
    ensures { next.new ≡ map pos (gained value choice.now (sizes_in partial.now)) }
{
    for i in 0..partial.len() {
        next[i] = gained_sum(value, choice, partial, i);
    }
}

// Writes the sums, raised by a number where a choice says so, and reflected where they lean.
fn write_reflected(number: u64, value: u64, choice: &[u64], partial: &[i128], next: &mut [i128])
    requires few { length partial.now ≤ 8 }
    requires some { 0 < number }
    requires number { number ≤ 2720000 }
    requires sums { AreSums partial.now }
    requires value { value ≤ 16 }
    requires counts { All (λ c. c ≤ 1) choice.now }
    requires as_many { length choice.now ≡ length partial.now }
    requires room { length next.old ≡ length partial.now }
    ensures { next.new
        ≡ map pos (upright number (gained value choice.now (sizes_in partial.now))) }
{
    let mut numbers = [0i128; 8];
    let sums = &mut numbers[..partial.len()];
    write_gained(value, choice, partial, sums);
    write_upright(number, sums, next);
}

// A treatment's sum, raised where it is left, and for later blocks.
#[inline(always)]
fn raised_sum(room: &[i128], partial: &[i128], place: usize, here: u64, later: u64) -> u64
    requires place { place < length partial.now }
    requires as_many { length room.now ≡ length partial.now }
    requires marks { AreMarks room.now }
    requires sums { AreSums partial.now }
    requires here { here ≤ 16 }
    requires later { later ≤ 2720000 }
    ensures { result
        ≡ nat_abs (slice_index_or partial.now place (pos 0))
        + nat_abs (slice_index_or room.now place (pos 0)) * here + later }
{
    partial[place] as u64 + room[place] as u64 * here + later
}

// The bounds of sums.
#[inline(always)]
fn bounds(room: &[i128], partial: &[i128], ahead: Ahead, centre: u64) -> SquareBounds
    requires as_many { length room.now ≡ length partial.now }
    requires few { length partial.now ≤ 8 }
    requires marks { AreMarks room.now }
    requires sums { AreSums partial.now }
    requires ahead { IsSmallAhead ahead }
    requires centre { centre ≤ 21760000 }
    ensures near { result.near
        ≡ over_ends (near_square centre) ahead (sizes_in room.now) (sizes_in partial.now) }
    ensures far { result.far
        ≡ over_ends (far_square centre) ahead (sizes_in room.now) (sizes_in partial.now) }
    ensures small { AreSmallBounds result }
    ensures level { length room.now ≡ length partial.now }
{
    let mut near = 0;
    let mut far = 0;
    for i in 0..partial.len() {
        let least = raised_sum(room, partial, i, ahead.least, ahead.later_least);
        let most = raised_sum(room, partial, i, ahead.most, ahead.later_most);
        near += near_square(centre, least, most);
        far += far_square(centre, least, most);
    }
    SquareBounds { near, far }
}

// The squares of sums, added.
fn squares(partial: &[i128]) -> u64
    requires few { length partial.now ≤ 8 }
    requires sums { AreSums partial.now }
    ensures { result ≡ sum_by squared (sizes_in partial.now) }
{
    let marks = [0i128; 8];
    let none = Ahead {
        owed: 0,
        ways: 1,
        least: 0,
        most: 0,
        later_least: 0,
        later_most: 0,
    };
    bounds(&marks[..partial.len()], partial, none, 0).near
}

// What the squares of the sums are, beside those of their distances from the centre.
#[inline(always)]
fn squares_with(base: u64, distances: u64) -> u64
    requires base { base ≤ correction_limit }
    requires distances { distances ≤ 8 * square_limit }
    ensures is { result ≡ base + distances }
    ensures small { result ≤ 16 * square_limit }
{
    base + distances
}

// The interval between two ends.
#[inline(always)]
fn interval_of(low: u64, high: u64) -> Interval
    requires low { low ≤ 16 * square_limit }
    requires high { high ≤ 16 * square_limit }
    ensures low { result.low ≡ pos low }
    ensures high { result.high ≡ pos high }
    ensures low_small { IsSmall result.low }
    ensures high_small { IsSmall result.high }
{
    Interval {
        low: low as i128,
        high: high as i128,
    }
}

impl Rooms for AssignmentRooms {
    ghost use Rattle.rank_assignments.specs.Assignments.{assignment_plan};

    ghost plan = { λ s. assignment_plan s.assignments.treatments s.assignments.items.items };

    #[inline(always)]
    fn stages(&self) -> usize {
        self.assignments.items.len()
    }

    #[inline(always)]
    fn width(&self) -> usize {
        self.assignments.treatments
    }

    #[inline(always)]
    fn choice_width(&self) -> usize {
        self.assignments.treatments
    }

    fn first(&self, room: &mut [i128]) {
        room.fill(1);
    }

    #[inline(always)]
    fn first_choice(&self, stage: usize, room: &[i128], choice: &mut [u64]) {
        first_counts(self.assignments.assignment(stage).count, room, choice);
    }

    #[inline(always)]
    fn next_choice(&self, stage: usize, room: &[i128], choice: &mut [u64]) -> bool {
        next_counts(self.assignments.assignment(stage).count, room, choice)
    }

    #[inline(always)]
    fn cross(&self, stage: usize, room: &[i128], choice: &[u64], next: &mut [i128]) -> u128 {
        write_left(
            self.assignments.assignment(stage).closes,
            room,
            choice,
            next,
        );
        1
    }

    #[inline(always)]
    fn rest(&self, stage: usize, _room: &[i128]) -> u128 {
        self.assignments.ahead(stage).ways
    }
}

impl Measure for AssignedSums {
    ghost use Rattle.rank_assignments.specs.Assignments.{assigned_sums};

    ghost meaning = { λ s. assigned_sums s.assignments.treatments s.assignments.items.items
        s.assignments.reflections.items s.assignments.judge };

    fn slots(&self) -> usize {
        self.assignments.treatments
    }

    fn step_width(&self) -> usize {
        self.assignments.treatments
    }

    fn outlook_width(&self) -> usize {
        0
    }

    fn first(&self, partial: &mut [i128]) {
        partial.fill(0);
    }

    fn step(&self, stage: usize, _room: &[i128], choice: &[u64], step: &mut [i128]) {
        write_raises(self.assignments.assignment(stage).value, choice, step);
    }

    #[inline(always)]
    fn follow(
        &self,
        stage: usize,
        _room: &[i128],
        choice: &[u64],
        _step: &[i128],
        partial: &[i128],
        next: &mut [i128],
    ) {
        let value = self.assignments.assignment(stage).value;
        let reflection = self.assignments.reflection(stage);
        if reflection == 0 {
            write_gained(value, choice, partial, next);
        } else {
            write_reflected(reflection, value, choice, partial, next);
        }
    }

    fn outlook(&self, _stage: usize, _room: &[i128], _outlook: &mut [i128]) {}

    #[inline(always)]
    fn verdict_by(
        &self,
        stage: usize,
        room: &[i128],
        _outlook: &[i128],
        partial: &[i128],
        tail: Tail,
    ) -> Verdict {
        let ahead = self.assignments.ahead(stage);
        let bounds = bounds(room, partial, ahead, self.assignments.middle);
        let low = squares_with(self.assignments.base, bounds.near);
        let high = squares_with(self.assignments.base, bounds.far);
        self.assignments.judge.verdict(tail, interval_of(low, high))
    }

    fn value(&self, partial: &[i128]) -> i128 {
        squares(partial) as i128
    }
}
