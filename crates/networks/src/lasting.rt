// How far both ends of an interval can grow with the same verdict.
ghost use Rattle.std.specs.Prelude.{◌≡◌, ℕ, ◌≤◌, ◌*◌, ◌+ℤ◌, ◌-ℤ◌, pos, int_le, int_lt};
ghost use Rattle.weights.specs.declared.TheConstants.{MAX};
ghost use Rattle.weights.specs.Rules.{RuleFits};
ghost use Rattle.networks.specs.Judged.{far_verdict, rule_in, verdict_of};

use crate::verdicts::{Interval, Judge};
use weights::{Rule, Tail, from_centre};

// By how much a number can grow and lie on the same side of a bound, which belongs to the greater.
fn same_below(number: i128, bound: i128) -> u128
    ensures reached { (d : ℕ) → d ≤ result
        → int_le bound (number +ℤ pos d) ≡ int_le bound number }
    ensures below { (d : ℕ) → d ≤ result
        → int_lt (number +ℤ pos d) bound ≡ int_lt number bound }
{
    if number < bound {
        number.abs_diff(bound) - 1
    } else {
        u128::MAX
    }
}

// The same for a bound that belongs to the lesser.
fn same_within(number: i128, bound: i128) -> u128
    ensures passed { (d : ℕ) → d ≤ result
        → int_lt bound (number +ℤ pos d) ≡ int_lt bound number }
    ensures within { (d : ℕ) → d ≤ result
        → int_le (number +ℤ pos d) bound ≡ int_le number bound }
{
    if number <= bound {
        number.abs_diff(bound)
    } else {
        u128::MAX
    }
}

fn signed(distance: u128) -> i128
    requires { distance ≤ MAX }
    ensures { result ≡ pos distance }
{
    distance as i128
}

fn negated(distance: u128) -> i128
    requires { distance ≤ MAX }
    ensures { result ≡ pos 0 -ℤ pos distance }
{
    -(distance as i128)
}

// The same for both bounds at this distance from 0.
fn same_side(distance: u128, a: i128) -> u128
    requires { distance ≤ MAX }
    ensures reached { (d : ℕ) → d ≤ result
        → int_le (pos distance) (a +ℤ pos d) ≡ int_le (pos distance) a }
    ensures below { (d : ℕ) → d ≤ result
        → int_lt (a +ℤ pos d) (pos distance) ≡ int_lt a (pos distance) }
    ensures passed { (d : ℕ) → d ≤ result
        → int_lt (pos 0 -ℤ pos distance) (a +ℤ pos d) ≡ int_lt (pos 0 -ℤ pos distance) a }
    ensures within { (d : ℕ) → d ≤ result
        → int_le (a +ℤ pos d) (pos 0 -ℤ pos distance) ≡ int_le a (pos 0 -ℤ pos distance) }
{
    let above = same_below(a, signed(distance));
    let beneath = same_within(a, negated(distance));
    above.min(beneath)
}

// By how much both ends of what lies so far from a centre can grow with the same verdict.
fn same_far(distance: u128, a: i128, b: i128) -> u128
    requires { distance ≤ MAX }
    ensures { (d : ℕ) → d ≤ result
        → far_verdict distance (a +ℤ pos d) (b +ℤ pos d) ≡ far_verdict distance a b }
{
    let of_a = same_side(distance, a);
    let of_b = same_side(distance, b);
    of_a.min(of_b)
}

// The same, where the ends are a factor times what grows.
fn same_apart(factor: u128, distance: u128, a: i128, b: i128) -> u128
    requires { distance ≤ MAX }
    ensures { (d : ℕ) → d ≤ result
        → far_verdict distance (a +ℤ pos (factor * d)) (b +ℤ pos (factor * d))
        ≡ far_verdict distance a b }
{
    if factor == 0 {
        u128::MAX
    } else {
        same_far(distance, a, b) / factor
    }
}

fn same_at_most(most: i128, low: i128, high: i128) -> u128
    ensures { (d : ℕ) → d ≤ result
        → verdict_of (Rule.AtMost most) (low +ℤ pos d) (high +ℤ pos d)
        ≡ verdict_of (Rule.AtMost most) low high }
{
    let of_low = same_within(low, most);
    let of_high = same_within(high, most);
    of_low.min(of_high)
}

fn same_at_least(least: i128, low: i128, high: i128) -> u128
    ensures { (d : ℕ) → d ≤ result
        → verdict_of (Rule.AtLeast least) (low +ℤ pos d) (high +ℤ pos d)
        ≡ verdict_of (Rule.AtLeast least) low high }
{
    let of_low = same_below(low, least);
    let of_high = same_below(high, least);
    of_low.min(of_high)
}

// By how much both ends of an interval can grow with the same verdict of a rule.
fn same_for(rule: Rule, interval: Interval) -> u128
    requires low { RuleFits rule interval.low }
    requires high { RuleFits rule interval.high }
    ensures { (d : ℕ) → d ≤ result
        → verdict_of rule (interval.low +ℤ pos d) (interval.high +ℤ pos d)
        ≡ verdict_of rule interval.low interval.high }
{
    match rule {
        Rule::AtMost(most) => same_at_most(most, interval.low, interval.high),
        Rule::AtLeast(least) => same_at_least(least, interval.low, interval.high),
        Rule::Far(factor, centre, distance) => {
            let a = from_centre(factor, centre, interval.low, distance);
            let b = from_centre(factor, centre, interval.high, distance);
            same_apart(factor, distance, a, b)
        }
    }
}

impl Judge {
    /// How far both ends of an interval can grow together with the same verdict for a tail.
    pub fn same_for(&self, tail: Tail, interval: Interval) -> u128
        requires low { RuleFits (rule_in self.now tail) interval.low }
        requires high { RuleFits (rule_in self.now tail) interval.high }
        ensures { let rule = rule_in self.now tail in
            (d : ℕ) → d ≤ result
            → verdict_of rule (interval.low +ℤ pos d) (interval.high +ℤ pos d)
            ≡ verdict_of rule interval.low interval.high }
    {
        match tail {
            Tail::Less => same_for(self.less, interval),
            Tail::Greater => same_for(self.greater, interval),
            Tail::Two => same_for(self.two, interval),
        }
    }
}
