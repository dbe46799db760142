// The assignments of blocks, with what is ahead of each.
ghost use Rattle.std.specs.Prelude.{◌≡◌, ◌-◌, ◌*◌, ◌<◌, ◌≤◌, ◌++◌, length};
ghost use Rattle.std.specs.Prelude.{IfOk, OnOk};
ghost use Rattle.std.specs.List.{sum};
ghost use Rattle.weights.specs.Numbers.{binomial};
ghost use Rattle.weights.specs.declared.TheConstants.{MAX};
ghost use Rattle.networks.specs.Distances.{correction};
ghost use Rattle.rank_assignments.specs.Reflections.{AreReflections, reflections_of};
ghost use Rattle.rank_assignments.specs.Assignments.{AreAhead, AreAssignments, IsSmallAhead, ahead_at};
ghost use Rattle.rank_assignments.specs.Assignments.{before, centre, given};
ghost use Rattle.rank_assignments.specs.Assignments.{assignment_at, assignment_of, assignments};
ghost use Rattle.rank_assignments.specs.Upright.{reflection_at};

use crate::assignment::{Ahead, Assignment};
use crate::reflecting::reflections_of;
use networks::{Judge, correction};
use std::alloc::Global;
use weights::{NoMemory, binomial, total_of};

/// The assignments of blocks of so many treatments, and what is ahead of each, the last one first.
#[derive(Drop)]
pub struct Assignments {
    pub treatments: usize,
    pub items: Vec<Assignment>,
    pub ahead: Vec<Ahead>,
    pub judge: Judge,
    // What the sums are around, and what the squares of their distances from it want of theirs.
    pub middle: u64,
    pub base: u64,
    // At which numbers the sums are reflected after each assignment, or 0.
    pub reflections: Vec<u64>,
    ghost right: { AreAssignments treatments items.items judge },
    ghost table: { AreAhead treatments items.items (length items.items) ahead.items },
    ghost middle_is: { middle ≡ centre treatments items.items },
    ghost base_is: { base ≡ correction treatments (centre treatments items.items)
        (given items.items) },
    ghost reflections_are: { AreReflections treatments items.items reflections.items },
}

// Adds a number, if it occurs.
fn add_assignment(
    value: u64,
    count: u64,
    closes: bool,
    items: &mut Vec<Assignment>,
) -> Result<(), NoMemory>
    ensures { OnOk result (items.new.items ≡ items.old.items ++ assignment_of value count closes) }
{
    if count == 0 {
        return Ok(());
    }
    items.push(Assignment {
        value,
        count,
        closes,
    })?;
    Ok(())
}

/// Adds the numbers that occur in a block of at most eight.
pub fn add_block(counts: &[u64], items: &mut Vec<Assignment>) -> Result<(), NoMemory>
    requires { sum counts.now ≤ 8 }
    ensures { OnOk result (items.new.items ≡ items.old.items ++ assignments 0 counts.now) }
{
    let mut left = total_of(counts);
    for value in 0..counts.len() {
        let count = counts[value];
        left -= count;
        add_assignment(value as u64, count, left == 0, items)?;
    }
    Ok(())
}

// How many ways there are where so many of those that are owed are assigned first.
fn ways_before(owed: u64, count: u64, ways: u128) -> u128
    requires some { 1 ≤ ways }
    requires fits { binomial owed count * ways ≤ MAX }
    ensures { result ≡ binomial owed count * ways }
{
    match binomial(owed, count) {
        Some(choices) => choices * ways,
        None => unreachable!(),
    }
}

// What is ahead of an assignment and of what follows it.
fn before(assignment: Assignment, next: Ahead) -> Ahead
    requires next { IsSmallAhead next }
    requires here { IsSmallAhead (before assignment.closes assignment next) }
    ensures { result ≡ before assignment.closes assignment next }
{
    if assignment.closes {
        Ahead {
            owed: assignment.count,
            ways: next.ways,
            least: assignment.value,
            most: assignment.value,
            later_least: next.least + next.later_least,
            later_most: next.most + next.later_most,
        }
    } else {
        let owed = assignment.count + next.owed;
        Ahead {
            owed,
            ways: ways_before(owed, assignment.count, next.ways),
            least: assignment.value.min(next.least),
            most: assignment.value.max(next.most),
            later_least: next.later_least,
            later_most: next.later_most,
        }
    }
}

// What is ahead of the last assignments: of none, of the last one, and so on.
fn ahead_of(
    alloc: Global,
    treatments: usize,
    items: &[Assignment],
    _judge: Judge,
) -> Result<Vec<Ahead>, NoMemory>
    requires { AreAssignments treatments items.now _judge }
    ensures { IfOk result (λ table.
        AreAhead treatments items.now (length items.now) table.items) }
{
    let count = items.len();
    let mut table = Vec::new(alloc);
    table.push(Ahead {
        owed: treatments as u64,
        ways: 1,
        least: 0,
        most: 0,
        later_least: 0,
        later_most: 0,
    })?;
    for done in 0..count {
        let here = before(items[count - done - 1], table[done]);
        table.push(here)?;
    }
    Ok(table)
}

// What all treatments get of assignments.
fn given(treatments: usize, items: &[Assignment], _judge: Judge) -> u64
    requires { AreAssignments treatments items.now _judge }
    ensures is { result ≡ given items.now }
    ensures small { result ≤ 21760000 }
{
    let mut all = 0;
    for i in 0..items.len() {
        all += items[i].value * items[i].count;
    }
    all
}

impl Assignments {
    /// These assignments of so many treatments, whose sums may be reflected from one of them on.
    pub(crate) fn new(
        alloc: Global,
        treatments: usize,
        items: Vec<Assignment>,
        from: usize,
        judge: Judge,
    ) -> Result<Assignments, NoMemory>
        requires { AreAssignments treatments items.items judge }
        ensures treatments { IfOk result (λ s. s.treatments ≡ treatments) }
        ensures items { IfOk result (λ s. s.items.items ≡ items.items) }
        ensures judge { IfOk result (λ s. s.judge ≡ judge) }
        ensures reflections { IfOk result (λ s.
            s.reflections.items ≡ reflections_of from treatments items.items) }
    {
        let ahead = ahead_of(alloc, treatments, items.as_slice(), judge)?;
        let given = given(treatments, items.as_slice(), judge);
        let middle = given / treatments as u64;
        let base = correction(treatments as u64, middle, given);
        let reflections = reflections_of(
            alloc,
            treatments,
            items.as_slice(),
            ahead.as_slice(),
            given,
            from,
            judge,
        )?;
        Ok(Assignments {
            treatments,
            items,
            ahead,
            judge,
            middle,
            base,
            reflections,
        })
    }

    /// The assignment of a stage.
    #[inline(always)]
    pub(crate) fn assignment(&self, stage: usize) -> Assignment
        requires { stage < length self.now.items.items }
        ensures { result ≡ assignment_at self.now.items.items stage }
    {
        self.items[stage]
    }

    /// At which number the sums are reflected after it, or 0.
    #[inline(always)]
    pub(crate) fn reflection(&self, stage: usize) -> u64
        requires { stage < length self.now.items.items }
        ensures is { result ≡ reflection_at self.now.reflections.items stage }
        ensures small { result ≤ 2720000 }
    {
        self.reflections[stage]
    }

    /// What is ahead of it, or after the last one.
    #[inline(always)]
    pub(crate) fn ahead(&self, stage: usize) -> Ahead
        requires { stage ≤ length self.now.items.items }
        ensures is { result ≡ ahead_at self.now.treatments self.now.items.items stage }
        ensures small { IsSmallAhead result }
    {
        self.ahead[self.items.len() - stage]
    }
}
