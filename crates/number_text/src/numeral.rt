//! The parts of a number text.

ghost use Rattle.std.specs.Prelude.{◌≡◌, ◌<◌, ◌++◌, IfSome, IsTrue, option_map};
ghost use Rattle.std.specs.List.{after_first, before_first};
ghost use Rattle.number_text.specs.NumberTexts.{exponent_of, is_exponent_mark, is_point, magnitude_of, numeral_of};
ghost use Rattle.number_text.specs.Numerals.{all_digits, integer_from, is_numeral};
ghost use Rattle.number_text.specs.NumeralTexts.{numeral_in};

use crate::digits::{CAP, all_digits};
use crate::integer::{SignedText, split_sign};
use crate::significand::{Significand, scale};

/// The parts of a number text. The exponent is 0 where the text has none.
#[derive(Clone, Copy)]
pub(crate) struct NumeralText<'a> {
    /// Whether its sign is a minus.
    pub(crate) negative: bool,
    /// The digits before the point.
    pub(crate) whole: &'a [u8],
    /// The digits behind the point.
    pub(crate) fraction: &'a [u8],
    /// The exponent, as a text with its sign taken off.
    pub(crate) exponent: SignedText<'a>,
}

impl<'a> NumeralText<'a> {
    /// Cuts a text into its parts, where it is a number text.
    pub(crate) fn read(text: &'a [u8]) -> Option<NumeralText<'a>>
        ensures parts { option_map numeral_in result ≡ numeral_of text.now }
        ensures whole { IfSome result (λ n. IsTrue (all_digits n.whole.now)) }
        ensures fraction { IfSome result (λ n. IsTrue (all_digits n.fraction.now)) }
        ensures exponent { IfSome result (λ n. IsTrue (is_numeral n.exponent.unsigned.now)) }
    {
        let SignedText { negative, unsigned } = split_sign(text);
        let (decimal, exponent) = split_exponent(unsigned);
        let (whole, fraction) = split_point(decimal);
        if !is_decimal(whole, fraction) || !exponent.is_integer() {
            return None;
        }
        Some(NumeralText {
            negative,
            whole,
            fraction,
            exponent,
        })
    }

    /// The magnitude of the value in units of 10^-18, where it is a whole number of them below
    /// 10^36.
    pub(crate) fn units(&self) -> Option<u128>
        requires whole { IsTrue (all_digits self.now.whole.now) }
        requires fraction { IsTrue (all_digits self.now.fraction.now) }
        requires exponent { IsTrue (is_numeral self.now.exponent.unsigned.now) }
        ensures units { result ≡ magnitude_of (numeral_in self.now) }
        ensures in_range { IfSome result (λ units. units < CAP) }
    {
        let significand = Significand::of(self.whole, self.fraction);
        if significand.digits == 0 {
            return Some(0);
        }
        let exponent = self.exponent.capped_value() - self.fraction.len() as i128;
        scale(
            significand.digits,
            18 + exponent + significand.zeros as i128,
        )
    }
}

/// The text before the first exponent mark, and the exponent behind it, which is 0 where there is
/// no mark.
fn split_exponent(text: &[u8]) -> (&[u8], SignedText<'_>)
    ensures decimal { result.0.now ≡ before_first is_exponent_mark text.now }
    ensures exponent { integer_from result.1.negative result.1.unsigned.now ≡ exponent_of text.now }
{
    match text.iter().position(|byte| matches!(*byte, b'e' | b'E')) {
        Some(mark) => (&text[..mark], split_sign(&text[mark + 1..])),
        None => {
            let zero = SignedText {
                negative: false,
                unsigned: b"0",
            };
            (text, zero)
        }
    }
}

/// The texts before and behind the first point. Where there is none, nothing stands behind it.
fn split_point(decimal: &[u8]) -> (&[u8], &[u8])
    ensures whole { result.0.now ≡ before_first is_point decimal.now }
    ensures fraction { result.1.now ≡ after_first is_point decimal.now }
{
    match decimal.iter().position(|byte| *byte == b'.') {
        Some(point) => (&decimal[..point], &decimal[point + 1..]),
        None => (decimal, &[]),
    }
}

/// Whether the two texts together are one digit or more, and nothing else.
fn is_decimal(whole: &[u8], fraction: &[u8]) -> bool
    ensures { result ≡ is_numeral (whole.now ++ fraction.now) }
{
    !(whole.is_empty() && fraction.is_empty()) && all_digits(whole) && all_digits(fraction)
}
