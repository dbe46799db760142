// Quotients with six decimals.
ghost use Rattle.std.specs.Prelude.{◌≡◌, ◌+◌, ◌*◌, ◌/◌, ◌%◌, ◌≤◌, ◌<◌};
ghost use Rattle.weights.specs.declared.TheConstants.{MAX};
ghost use Rattle.report.specs.DecimalSteps.{IsTenth};
ghost use Rattle.report.specs.Decimals.{millionths, six_decimals as six_decimals_of};

// Ten times a remainder, divided.
#[derive(Clone, Copy)]
struct Tenth {
    digit: u64,
    rest: u128,
}

// The next decimal digit of a quotient whose remainder is below the denominator.
fn next_digit(rest: u128, denominator: u128) -> Tenth
    requires rest { rest < denominator }
    requires denominator { denominator ≤ MAX }
    ensures { IsTenth rest denominator result.digit result.rest }
{
    let mut digit = 0;
    let mut sum = 0;
    for _turn in 0..10u64 {
        sum += rest;
        if denominator <= sum {
            sum -= denominator;
            digit += 1;
        }
    }
    Tenth { digit, rest: sum }
}

// A quotient of at most 1 in millionths, rounded half up.
fn millionths_of(numerator: u128, denominator: u128) -> u64
    requires part { numerator ≤ denominator }
    requires some { 0 < denominator }
    requires denominator { denominator ≤ MAX }
    ensures value { result ≡ millionths numerator denominator }
    ensures most { result ≤ 1000000 }
{
    let mut whole = 0;
    let mut rest = numerator;
    if rest == denominator {
        whole = 1;
        rest = 0;
    }
    for _turn in 0..6u64 {
        let tenth = next_digit(rest, denominator);
        whole = 10 * whole + tenth.digit;
        rest = tenth.rest;
    }
    if denominator - rest <= rest {
        whole + 1
    } else {
        whole
    }
}

// The decimal digit at the place of a power of ten, as a character.
fn digit(n: u64, power: u64) -> u8
    requires { 0 < power }
    ensures { result ≡ 48 + (n / power) % 10 }
{
    (n / power % 10) as u8 + b'0'
}

/// A quotient of at most 1 as a digit, a point and six decimals, rounded half up. It takes no
/// memory.
pub fn six_decimals(numerator: u128, denominator: u128) -> [u8; 8]
    requires part { numerator ≤ denominator }
    requires some { 0 < denominator }
    requires denominator { denominator ≤ MAX }
    ensures { result ≡ six_decimals_of numerator denominator }
{
    let n = millionths_of(numerator, denominator);
    [
        digit(n, 1_000_000),
        b'.',
        digit(n, 100_000),
        digit(n, 10_000),
        digit(n, 1_000),
        digit(n, 100),
        digit(n, 10),
        digit(n, 1),
    ]
}
