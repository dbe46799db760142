//! Whole numbers without the zeros at their end.

ghost use Rattle.std.specs.Prelude.{◌≡◌, ◌-◌, ◌<◌, ◌≤◌, ◌++◌, IfSome, IsTrue, length};
ghost use Rattle.number_text.specs.Numerals.{all_digits, decimal_value};
ghost use Rattle.number_text.specs.Significands.{DropsZeros, IsSignificand, scaled};

use crate::digits::{CAP, capped_value};

/// A whole number: `digits` times 10 to the power `zeros`. The last one of the digits is not 0,
/// unless the number is 0. Digits above the cap stand as the cap.
#[derive(Clone, Copy)]
pub(crate) struct Significand {
    /// The number without the zeros at its end.
    pub(crate) digits: u128,
    /// How many zeros there are.
    pub(crate) zeros: usize,
}

impl Significand {
    /// The whole number that the digits of both texts write together.
    pub(crate) fn of(whole: &[u8], fraction: &[u8]) -> Significand
        requires whole { IsTrue (all_digits whole.now) }
        requires fraction { IsTrue (all_digits fraction.now) }
        ensures { IsSignificand CAP
            (decimal_value (whole.now ++ fraction.now)) result.digits result.zeros }
    {
        let kept = without_last_zeros(fraction);
        if !kept.is_empty() {
            return Significand {
                digits: capped_value(capped_value(0, whole), kept),
                zeros: fraction.len() - kept.len(),
            };
        }
        let kept = without_last_zeros(whole);
        Significand {
            digits: capped_value(0, kept),
            zeros: whole.len() - kept.len() + fraction.len(),
        }
    }
}

/// The digits up to the last one that is not 0.
fn without_last_zeros(mut digits: &[u8]) -> &[u8]
    ensures bound { length result.now ≤ length digits.now }
    ensures dropped { DropsZeros digits.now result.now (length digits.now - length result.now) }
{
    while let Some((b'0', rest)) = digits.split_last() {
        digits = rest;
    }
    digits
}

/// `digits` times 10 to the power `power`, where that is a whole number below the cap. The last one
/// of the digits is not 0.
pub(crate) fn scale(digits: u128, power: i128) -> Option<u128>
    requires { 0 < digits }
    ensures scaled { result ≡ scaled CAP digits power }
    ensures in_range { IfSome result (λ units. units < CAP) }
{
    let power = u32::try_from(power).ok()?;
    let units = 10u128.checked_pow(power)?.checked_mul(digits)?;
    if units < CAP { Some(units) } else { None }
}
