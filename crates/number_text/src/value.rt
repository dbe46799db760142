//! Values.

ghost use Rattle.std.specs.Prelude.{◌≡◌, ◌^◌, ◌<ℤ◌, IfOk, neg_ℤ, pos};
ghost use Rattle.number_text.specs.NumberTexts.{value_of};

use crate::NumberFault;
use crate::blanks::trim;
use crate::numeral::NumeralText;

/// Reads a value as its number of units of 10^-18. Spaces and tabs at both ends are ignored.
///
/// A number text is an optional `+` or `-`, then digits with at most one point before, among or
/// behind them and at least one digit, and then perhaps `e` or `E`, an optional sign and at least
/// one digit. Zero is in range whatever its exponent.
///
/// # Errors
///
/// The first that holds: [`NumberFault::Missing`] for a text that is empty or exactly `NA`,
/// [`NumberFault::NotNumber`] for another that is no number text, and [`NumberFault::OutOfRange`]
/// for a value that is no whole number of units, or has 10^36 units or more.
#[tactic(auto, unfolding(crate::specs::NumberTexts::value_of))]
pub fn read_value(text: &[u8]) -> Result<i128, NumberFault>
    ensures value { result ≡ value_of text.now }
    ensures above { IfOk result (λ units. neg_ℤ (pos (10 ^ 36)) <ℤ units) }
    ensures below { IfOk result (λ units. units <ℤ pos (10 ^ 36)) }
{
    let text = trim(text);
    if text.is_empty() || text == b"NA".as_slice() {
        return Err(NumberFault::Missing);
    }
    let Some(numeral) = NumeralText::read(text) else {
        return Err(NumberFault::NotNumber);
    };
    let Some(units) = numeral.units() else {
        return Err(NumberFault::OutOfRange);
    };
    let magnitude = units as i128;
    Ok(if numeral.negative {
        -magnitude
    } else {
        magnitude
    })
}
