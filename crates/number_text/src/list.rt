//! Lists of whole numbers.

ghost use Rattle.std.specs.Prelude.{◌≡◌, ◌≤◌, ◌++◌, All, IfSome, drop, length, option_map, take};
ghost use Rattle.number_text.specs.ListTexts.{IsWithin, item_of, list_of};

use crate::blanks::trim;
use crate::integer::split_sign;

/// Reads a list: one item or more, separated by commas. An item is an optional `+` or `-` and at
/// least one digit; spaces and tabs around it are ignored.
///
/// The items are written into the front of `out`, whose rest stays, and their number is the answer.
/// `None` comes exactly where the text is not a list, an item is outside `low` to `high`, or there
/// are more items than `out` has places. Then any item of `out` may have changed.
pub fn read_list(text: &[u8], low: i64, high: i64, out: &mut [i64]) -> Option<usize>
    ensures listed { result ≡ option_map length (list_of low high (length out.old) text.now) }
    ensures written { IfSome (list_of low high (length out.old) text.now)
        (λ items. out.new ≡ items ++ drop (length items) out.old) }
    ensures room { IfSome result (λ count. count ≤ length out.old) }
    ensures within { IfSome result (λ count. All (IsWithin low high) (take count out.new)) }
{
    let mut count = 0;
    for part in text.split(|byte| *byte == b',') {
        let item = read_item(part, low, high)?;
        if count == out.len() {
            return None;
        }
        out[count] = item;
        count += 1;
    }
    Some(count)
}

/// Reads one item.
fn read_item(text: &[u8], low: i64, high: i64) -> Option<i64>
    ensures { result ≡ item_of low high text.now }
{
    let item = split_sign(trim(text));
    if !item.is_integer() {
        return None;
    }
    let value = item.capped_value();
    if value < i128::from(low) || i128::from(high) < value {
        return None;
    }
    Some(value as i64)
}
