//! Texts of decimal digits.

ghost use Rattle.std.specs.Prelude.{◌≡◌, ◌≤◌, min, IsTrue};
ghost use Rattle.number_text.specs.Numerals.{all_digits, is_numeral, decimal_value, decimal_value_after};

/// Whether the text is one digit or more, and nothing else.
pub(crate) fn is_numeral(text: &[u8]) -> bool
    ensures { result ≡ is_numeral text.now }
{
    !text.is_empty() && all_digits(text)
}

/// Whether each byte of the text is a digit.
pub(crate) fn all_digits(text: &[u8]) -> bool
    ensures { result ≡ all_digits text.now }
{
    text.iter().all(|byte| byte.is_ascii_digit())
}

/// The greatest value that `capped_value` gives, 10^36.
pub(crate) const CAP: u128 = 1_000_000_000_000_000_000_000_000_000_000_000_000;

/// The number that the digits write behind those of `start`, or the cap where it is greater.
pub(crate) fn capped_value(start: u128, digits: &[u8]) -> u128
    requires is_capped { start ≤ CAP }
    requires are_digits { IsTrue (all_digits digits.now) }
    ensures { result ≡ min (decimal_value_after start digits.now) CAP }
{
    let mut value = start;
    for digit in digits {
        value = CAP.min(value * 10 + u128::from(*digit - b'0'));
    }
    value
}
