// Which values pass a rule, by bounds for them.
ghost use Rattle.std.specs.Prelude.{◌≡◌, ℤ, ◌*ℤ◌, ◌+ℤ◌, ◌-ℤ◌, ◌<ℤ◌, ◌<◌, pos, int_le, is_some};
ghost use Rattle.std.specs.Prelude.{true};
ghost use Rattle.std.specs.Prelude.{FitsSigned, IfSome, SomeIff};
ghost use Rattle.std.specs.Int.{w128};
ghost use Rattle.weights.specs.declared.tails.Tail.{Tail};
ghost use Rattle.networks.specs.Judged.{rule_in};
ghost use Rattle.score_convolution.specs.Sides.{AreOrdered, AreSidesOf, has_sides, have_sides, is_beyond};
ghost use Rattle.score_convolution.specs.Sides.{is_in, sides_for};

use networks::Judge;
use weights::{Rule, Tail};

/// Which values pass.
#[derive(Clone, Copy, Debug, Drop, PartialEq, Eq)]
pub(crate) enum Sides {
    /// All.
    Every,
    /// Those up to a number.
    UpTo(i128),
    /// Those above a number.
    Above(i128),
    /// Those up to the first number, and those above the second one, which is no less.
    Apart(i128, i128),
}

/// Those of each tail.
#[derive(Clone, Copy, Debug, Drop, PartialEq, Eq)]
pub(crate) struct TailSides {
    pub less: Sides,
    pub greater: Sides,
    pub two: Sides,
}

// The greatest number that a factor takes to at most a bound.
fn quotient(bound: i128, factor: u128) -> i128
    requires { 0 < factor }
    ensures { (v : ℤ) → int_le v result ≡ int_le (pos factor *ℤ v) bound }
{
    let size = bound.unsigned_abs();
    if bound >= 0 {
        (size / factor) as i128
    } else {
        -1 - ((size - 1) / factor) as i128
    }
}

fn signed(number: u128) -> Option<i128>
    ensures { SomeIff result (FitsSigned w128 (pos number)) (pos number) }
{
    i128::try_from(number).ok()
}

fn sum_of(one: i128, other: i128) -> Option<i128>
    ensures { SomeIff result (FitsSigned w128 (one +ℤ other)) (one +ℤ other) }
{
    one.checked_add(other)
}

fn difference_of(one: i128, other: i128) -> Option<i128>
    ensures { SomeIff result (FitsSigned w128 (one -ℤ other)) (one -ℤ other) }
{
    one.checked_sub(other)
}

// Which values a factor takes to at most one number, or to at least another.
fn apart(factor: u128, below: i128, above: i128) -> Option<Sides>
    requires { 0 < factor }
    ensures pass { IfSome result (λ sides. (v : ℤ)
        → is_in sides v ≡ is_beyond (pos factor *ℤ v) below above) }
    ensures ordered { below <ℤ above → IfSome result AreOrdered }
    ensures when { below <ℤ above → is_some result ≡ true }
{
    let last = difference_of(above, 1)?;
    Some(Sides::Apart(quotient(below, factor), quotient(last, factor)))
}

// Which values are so far from a centre; None where a number is too great.
fn far_sides(factor: u128, centre: i128, distance: u128) -> Option<Sides>
    ensures sides { IfSome result (AreSidesOf (Rule.Far factor centre distance)) }
    ensures when { is_some result ≡ has_sides (Rule.Far factor centre distance) }
{
    if distance == 0 {
        return Some(Sides::Every);
    }
    if factor == 0 {
        return None;
    }
    let far = signed(distance)?;
    let below = difference_of(centre, far)?;
    let above = sum_of(centre, far)?;
    apart(factor, below, above)
}

/// Which values pass a rule; None where a number is too great.
fn sides_of(rule: Rule) -> Option<Sides>
    ensures sides { IfSome result (AreSidesOf rule) }
    ensures when { is_some result ≡ has_sides rule }
{
    match rule {
        Rule::AtMost(most) => Some(Sides::UpTo(most)),
        Rule::AtLeast(least) => least.checked_sub(1).map(Sides::Above),
        Rule::Far(factor, centre, distance) => far_sides(factor, centre, distance),
    }
}

impl TailSides {
    /// Which values pass the rule of each tail. None exactly where a number of a rule, or one next
    /// to it, passes 128 bits.
    pub(crate) fn of(judge: &Judge) -> Option<TailSides>
        ensures sides { IfSome result (λ sides. (t : Tail)
            → AreSidesOf (rule_in judge.now t) (sides_for sides t)) }
        ensures when { is_some result ≡ have_sides judge.now }
    {
        Some(TailSides {
            less: sides_of(judge.less)?,
            greater: sides_of(judge.greater)?,
            two: sides_of(judge.two)?,
        })
    }
    /// Those of a tail.
    pub(crate) fn of_tail(&self, tail: Tail) -> Sides
        ensures { result ≡ sides_for self.now tail }
    {
        match tail {
            Tail::Less => self.less,
            Tail::Greater => self.greater,
            Tail::Two => self.two,
        }
    }
}
