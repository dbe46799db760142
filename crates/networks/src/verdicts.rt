// What an interval that holds a value says of the value's rule.
ghost use Rattle.std.specs.Prelude.{◌≡◌, ◌≤◌};
ghost use Rattle.weights.specs.Conditional.{ConditionalTest};
ghost use Rattle.weights.specs.declared.TheConstants.{MAX};
ghost use Rattle.weights.specs.Frames.{IsFrameOf};
ghost use Rattle.weights.specs.Rules.{RuleFits};
ghost use Rattle.networks.specs.Judged.{far_inside, far_outside, far_verdict, judge_of};
ghost use Rattle.networks.specs.Judged.{rule_in, settled, verdict_of};

use crate::stages::Verdict;
use weights::{Frame, Rule, Tail, from_centre};

/// Two numbers between which the value of each completion of a key lies; both may be reached.
#[derive(Clone, Copy, Debug, PartialEq, Eq)]
pub struct Interval {
    pub low: i128,
    pub high: i128,
}

/// Gives verdicts by the rule of each tail.
#[derive(Clone, Copy, Debug, PartialEq, Eq)]
pub struct Judge {
    pub less: Rule,
    pub greater: Rule,
    pub two: Rule,
}

fn settled(inside: bool, outside: bool) -> Verdict
    ensures { result ≡ settled inside outside }
{
    if inside {
        Verdict::Inside
    } else if outside {
        Verdict::Outside
    } else {
        Verdict::Undecided
    }
}

// Whether all numbers from a to b are at least so far from 0.
fn far_inside(distance: u128, a: i128, b: i128) -> bool
    requires { distance ≤ MAX }
    ensures { result ≡ far_inside distance a b }
{
    let far = distance as i128;
    distance == 0 || far <= a || b <= -far
}

// Whether none of them is.
fn far_outside(distance: u128, a: i128, b: i128) -> bool
    requires { distance ≤ MAX }
    ensures { result ≡ far_outside distance a b }
{
    let far = distance as i128;
    b < far && -far < a
}

fn far_verdict(distance: u128, a: i128, b: i128) -> Verdict
    requires { distance ≤ MAX }
    ensures { result ≡ far_verdict distance a b }
{
    settled(far_inside(distance, a, b), far_outside(distance, a, b))
}

// The verdict of a distance from a centre.
fn verdict_from_centre(factor: u128, centre: i128, distance: u128, low: i128, high: i128) -> Verdict
    requires low { RuleFits (Rule.Far factor centre distance) low }
    requires high { RuleFits (Rule.Far factor centre distance) high }
    ensures { result ≡ verdict_of (Rule.Far factor centre distance) low high }
{
    let a = from_centre(factor, centre, low, distance);
    let b = from_centre(factor, centre, high, distance);
    far_verdict(distance, a, b)
}

// The verdict of a rule over the numbers from one to another.
#[inline(always)]
fn verdict_of(rule: &Rule, low: i128, high: i128) -> Verdict
    requires low { RuleFits rule.now low }
    requires high { RuleFits rule.now high }
    ensures { result ≡ verdict_of rule.now low high }
{
    match *rule {
        Rule::AtMost(most) => settled(high <= most, most < low),
        Rule::AtLeast(least) => settled(least <= low, high < least),
        Rule::Far(factor, centre, distance) => {
            verdict_from_centre(factor, centre, distance, low, high)
        }
    }
}

impl Judge {
    /// The rules of a test, of which a frame is said.
    pub fn of(frame: &Frame) -> Judge
        ensures { (test : ConditionalTest) → IsFrameOf test frame.now → result ≡ judge_of test }
    {
        Judge {
            less: frame.rule(Tail::Less),
            greater: frame.rule(Tail::Greater),
            two: frame.rule(Tail::Two),
        }
    }

    /// The verdict for a tail over an interval, decided by its ends: Inside where every value in it
    /// passes the tail's rule, with both ends on one side of the rule's bounds; Outside where none
    /// does; else Undecided. It needs that the numbers which the rule computes of the two ends pass
    /// no limit.
    pub fn verdict(&self, tail: Tail, interval: Interval) -> Verdict
        requires low { RuleFits (rule_in self.now tail) interval.low }
        requires high { RuleFits (rule_in self.now tail) interval.high }
        ensures { result ≡ verdict_of (rule_in self.now tail) interval.low interval.high }
    {
        match tail {
            Tail::Less => verdict_of(&self.less, interval.low, interval.high),
            Tail::Greater => verdict_of(&self.greater, interval.low, interval.high),
            Tail::Two => verdict_of(&self.two, interval.low, interval.high),
        }
    }
}
