// What the networks and the tests come to, by hand.
use crate::{
    Blocks, OneSided, RankStages, Ranks, SignedRanks, one_sided, tail_by_labels, tail_by_measure,
    white_draws,
};
use distribution::{above, below, far};
use networks::{AdditiveStages, Answer, OneOf, Roomed, Spread, Stages, TailSum, TailSums, Way};
use stage_network::{
    Line, Prepared, answer, distribution, plain_spread, row_sums, spread, spread_by_rooms,
    tail_sum, tail_sum_by_rooms,
};
use std::alloc::Global;
use std::fmt::Debug;
use std::process::Abort;
use std::test::Fail;
use weights::{NoMemory, Tail, Tails, Wide};

pub(crate) const EVERY_TAIL: Tails = Tails {
    less: true,
    greater: true,
    two: true,
};

// The value is the one that is wanted.
pub(crate) fn same<T: PartialEq + Debug>(rt: &impl Abort, found: &T, wanted: &T) {
    assert_eq!(rt; *found, *wanted);
}

fn line(value: i128, weight: u128) -> Line {
    Line { value, weight }
}

// The lines are those that are wanted.
pub(crate) fn same_lines(rt: &impl Abort, found: &[Line], wanted: &[Line]) {
    assert_eq!(rt; *found, *wanted);
}

// A tail has this sum, for which so many keys are opened.
fn comes_to(rt: &impl Abort, found: Result<TailSum, NoMemory>, sum: u128, opened: u128) {
    match found {
        Ok(found) => same(rt, &found, &TailSum { sum, opened }),
        Err(NoMemory) => panic!(rt; "no memory"),
    }
}

// Of the six ways to give the second sample two of the ranks 1 to 4, four sum to at most 5. Two
// keys close before the last stage, as their second sample is placed.
#[test]
fn two_and_two_subjects(rt: HostRuntime) -> Result<(), Fail> {
    let ranks = Ranks {
        first: 2,
        second: 2,
        observed: 10,
    };
    comes_to(&rt, tail_sum(rt.alloc(), &ranks, Tail::Less), 4, 9);
    comes_to(&rt, tail_sum_by_rooms(rt.alloc(), &ranks, Tail::Less), 4, 9);
    let lines = [
        line(6, 1),
        line(8, 1),
        line(10, 2),
        line(12, 1),
        line(14, 1),
    ];
    same_lines(&rt, spread(rt.alloc(), &ranks)?.as_slice(), &lines);
    Ok(())
}

// Of the 20 labellings one has the greatest sum, 30, and one the least. A key stays open as long as
// the first sample may still get all that come first; on both sides also while the second may.
#[test]
fn three_and_three_labels(rt: HostRuntime) {
    comes_to(&rt, tail_by_labels(rt.alloc(), Tail::Greater), 1, 3);
    comes_to(&rt, tail_by_labels(rt.alloc(), Tail::Two), 2, 5);
    comes_to(&rt, tail_by_measure(rt.alloc(), Tail::Greater), 1, 3);
    comes_to(&rt, tail_by_measure(rt.alloc(), Tail::Two), 2, 5);
}

// Of the six ways to draw two balls four draw the white one. The key after it is closed.
#[test]
fn white_balls(rt: HostRuntime) {
    comes_to(&rt, white_draws(rt.alloc(), Tail::Greater), 4, 2);
}

type Both = OneOf<AdditiveStages<Blocks>, AdditiveStages<Blocks>>;

fn greater_of(alloc: Global, stages: &Both) -> Result<TailSum, NoMemory> {
    tail_sum_by_rooms(alloc, stages, Tail::Greater)
}

fn lines_of(alloc: Global, stages: &Both) -> Result<Spread, NoMemory> {
    spread_by_rooms(alloc, stages)
}

// The two keys after the first block are one, since the sums are kept ascending.
#[test]
fn sums_in_order(rt: HostRuntime) -> Result<(), Fail> {
    let alloc = rt.alloc();
    let one = OneOf::First(AdditiveStages::new(alloc, Blocks)?);
    comes_to(&rt, greater_of(alloc, &one), 2, 2);
    let lines = lines_of(alloc, &one)?;
    same_lines(&rt, lines.as_slice(), &[line(72, 2), line(80, 2)]);
    Ok(())
}

#[test]
fn sums_in_order_of_the_other(rt: HostRuntime) -> Result<(), Fail> {
    let alloc = rt.alloc();
    let other = OneOf::Second(AdditiveStages::new(alloc, Blocks)?);
    comes_to(&rt, greater_of(alloc, &other), 2, 2);
    Ok(())
}

fn signs_by(alloc: Global, way: Way) -> Result<Answer, NoMemory> {
    answer(alloc, &SignedRanks, EVERY_TAIL, way)
}

// Of the eight lists of signs the sums are 0, 2, 4, 6, 6, 8, 10 and 12, with the observed 8.
#[test]
fn signs_by_both_ways(rt: HostRuntime) -> Result<(), Fail> {
    let known = Answer {
        statistic: 8,
        scale: 2,
        total: 8,
        less: Some(TailSum { sum: 6, opened: 5 }),
        greater: Some(TailSum { sum: 3, opened: 6 }),
        two: Some(TailSum { sum: 6, opened: 7 }),
    };
    same(&rt, &signs_by(rt.alloc(), Way::Network)?, &known);
    let walked = signs_by(rt.alloc(), Way::Plain)?;
    same(&rt, &walked.two, &Some(TailSum { sum: 6, opened: 0 }));
    Ok(())
}

// The same sums by rows of cells: each sign shifts every sum.
#[test]
fn signs_by_rows(rt: HostRuntime) -> Result<(), Fail> {
    let alloc = rt.alloc();
    let known = TailSums {
        less: TailSum { sum: 6, opened: 5 },
        greater: TailSum { sum: 3, opened: 6 },
        two: TailSum { sum: 6, opened: 7 },
    };
    let stages = SignedRanks.stages_of(alloc, Tail::Two)?;
    let _lawful = stages.stages();
    assert!(rt; stages.is_shift());
    let found = row_sums::<Wide, AdditiveStages<RankStages>>(alloc, &stages, EVERY_TAIL)?;
    same(&rt, &found, &Some(known));
    Ok(())
}

// Each list of signs by itself.
pub(crate) fn walked(alloc: Global) -> Result<Spread, NoMemory> {
    plain_spread(alloc, &SignedRanks)
}

#[test]
fn tails_of_lines(rt: HostRuntime) -> Result<(), Fail> {
    let known = OneSided {
        less: 6,
        greater: 3,
    };
    let sums = one_sided(rt.alloc(), &SignedRanks, Way::Network)?;
    same(&rt, &sums, &known);
    Ok(())
}

#[test]
fn lines_of_the_walk(rt: HostRuntime) -> Result<(), Fail> {
    let spread = distribution(rt.alloc(), &SignedRanks, Way::Plain)?;
    same(&rt, &far(&spread, 2, 12, 4), &6);
    same_lines(&rt, walked(rt.alloc())?.as_slice(), spread.as_slice());
    Ok(())
}

#[test]
fn lines_are_pushed(rt: HostRuntime) -> Result<(), Fail> {
    let mut spread = Spread::empty(rt.alloc());
    same(&rt, &(below(&spread, 2), above(&spread, 2)), &(0, 0));
    spread.push(Line {
        value: -4,
        weight: 1,
    })?;
    spread.add(2, 2)?;
    spread.add(-4, 0)?;
    spread.add(-4, 3)?;
    same_lines(&rt, spread.as_slice(), &[line(-4, 4), line(2, 2)]);
    Ok(())
}
