// The weight of the lines whose values are extreme.
ghost use Rattle.std.specs.Prelude.{◌≡◌, ◌*◌, ◌-◌, ◌^◌, ◌-ℤ◌, pos, int_le, min, nat_abs, nat_le};
ghost use Rattle.weights.specs.Conditional.{ConditionalTest, by_distance, distance, distribution};
ghost use Rattle.weights.specs.Conditional.{numerator, observed_statistic};
ghost use Rattle.weights.specs.declared.tails.Tail.TheVariants.{Less, Greater, Two};
ghost use Rattle.weights.specs.Rules.{passes};
ghost use Rattle.networks.specs.Lines.{RuleFitsLines, WeightsFit, line_sum};

use networks::Spread;
use weights::{Line, Rule};

// The weight of the lines whose values pass a rule.
pub(crate) fn weight_of(lines: &[Line], rule: Rule) -> u128
    requires total { WeightsFit lines.now }
    requires fits { RuleFitsLines rule lines.now }
    ensures { result ≡ line_sum (passes rule) lines.now }
{
    let mut sum = 0;
    for line in lines {
        if rule.passes(line.value) {
            sum += line.weight;
        }
    }
    sum
}

/// The weight of the lines with a value of at most this one, where the weights of all lines sum to
/// at most [`weights::MAX`], as those of a test's distribution do. Of the distribution of a test,
/// at the observed statistic, it is the numerator of the tail `Less`. It takes no memory, and looks
/// at each line once.
pub fn below(spread: &Spread, value: i128) -> u128
    requires { WeightsFit spread.now }
    ensures sum { result ≡ line_sum (λ v. int_le v value) spread.now }
    ensures law { (test : ConditionalTest) → spread.now ≡ distribution test
        → value ≡ observed_statistic test → result ≡ numerator test Less }
{
    weight_of(spread.as_slice(), Rule::AtMost(value))
}

/// The weight of the lines with a value of at least this one, where the weights of all lines sum to
/// at most [`weights::MAX`], as those of a test's distribution do. Of the distribution of a test,
/// at the observed statistic, it is the numerator of the tail `Greater`. It takes no memory, and
/// looks at each line once.
pub fn above(spread: &Spread, value: i128) -> u128
    requires { WeightsFit spread.now }
    ensures sum { result ≡ line_sum (λ v. int_le value v) spread.now }
    ensures law { (test : ConditionalTest) → spread.now ≡ distribution test
        → value ≡ observed_statistic test → result ≡ numerator test Greater }
{
    weight_of(spread.as_slice(), Rule::AtLeast(value))
}

// How far a product is from a size on the same side of 0. Past 128 bits it is held at the greatest
// number of these: then the product is the greater, and is counted from the first multiple of the
// factor above the size.
fn away(factor: u128, times: u128, size: u128) -> u128
    ensures { result ≡ min (nat_abs (pos (factor * times) -ℤ pos size)) (2 ^ 128 - 1) }
{
    let Some(whole) = size.checked_div(factor) else {
        return size;
    };
    if times <= whole {
        return size - factor * times;
    }
    let above = factor - size % factor;
    factor
        .saturating_mul(times - whole - 1)
        .saturating_add(above)
}

// Whether a value times a factor is at least so far apart from a centre.
fn is_far(factor: u128, centre: i128, value: i128, apart: u128) -> bool
    ensures { result ≡ nat_le apart (distance factor centre value) }
{
    let times = value.unsigned_abs();
    let size = centre.unsigned_abs();
    if (value < 0) == (centre < 0) {
        return apart <= away(factor, times, size);
    }
    apart <= factor.saturating_mul(times).saturating_add(size)
}

// The weight of the lines with such values.
fn weight_far(lines: &[Line], factor: u128, centre: i128, apart: u128) -> u128
    requires { WeightsFit lines.now }
    ensures { result ≡ line_sum (λ v. nat_le apart (distance factor centre v)) lines.now }
{
    let mut weight = 0;
    for line in lines {
        if is_far(factor, centre, line.value, apart) {
            weight += line.weight;
        }
    }
    weight
}

/// The weight of the lines with a value that, times a factor, is at least so far apart from a
/// centre, where the weights of all lines sum to at most [`weights::MAX`]. Every factor, centre and
/// distance will do: no product passes a limit. Of the distribution of a test that goes by
/// distance, with the test's factor and centre and as far apart as the observed statistic, it is
/// the numerator of the tail `Two`. It takes no memory, and looks at each line once.
pub fn far(spread: &Spread, factor: u128, centre: i128, apart: u128) -> u128
    requires { WeightsFit spread.now }
    ensures sum { result ≡ line_sum (λ v. nat_le apart (distance factor centre v)) spread.now }
    ensures law { (test : ConditionalTest) → spread.now ≡ distribution test
        → test.two_sided ≡ by_distance factor centre
        → apart ≡ distance factor centre (observed_statistic test)
        → result ≡ numerator test Two }
{
    weight_far(spread.as_slice(), factor, centre, apart)
}
