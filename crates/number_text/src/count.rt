//! Counts.

ghost use Rattle.std.specs.Prelude.{◌≡◌, ◌≤◌, IfSome};
ghost use Rattle.number_text.specs.CountTexts.{count_of};

use crate::blanks::trim;
use crate::digits::{capped_value, is_numeral};

/// Reads a count: one digit or more, and no sign, whose value is at most `most`. Leading zeros are
/// allowed, and spaces and tabs around the digits are ignored. `None` comes exactly where the text
/// is not one.
#[tactic(auto, unfolding(crate::specs::CountTexts::count_of))]
pub fn read_count(text: &[u8], most: u64) -> Option<u64>
    ensures count { result ≡ count_of most text.now }
    ensures at_most { IfSome result (λ count. count ≤ most) }
{
    let digits = trim(text);
    if !is_numeral(digits) {
        return None;
    }
    let value = capped_value(0, digits);
    if value > u128::from(most) {
        return None;
    }
    Some(value as u64)
}
