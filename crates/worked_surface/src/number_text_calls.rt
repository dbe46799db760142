// The public calls of `number_text`.
ghost use Rattle.std.specs.Prelude.{◌++◌, ◌<ℤ◌, ◌^◌, ◌↔◌, ◌≡◌, IfOk, IfSome, IsTrue, drop, length, neg_ℤ, option_map, pos};
ghost use Rattle.number_text.specs.CountTexts.{count_of};
ghost use Rattle.number_text.specs.ListTexts.{list_of};
ghost use Rattle.number_text.specs.NumberTexts.{value_of};

use number_text::NumberFault;

/// The three faults of a number text, and no other.
pub fn is_missing(fault: NumberFault) -> bool
    ensures { IsTrue result ↔ (fault ≡ NumberFault.Missing) }
{
    match fault {
        NumberFault::Missing => true,
        NumberFault::NotNumber | NumberFault::OutOfRange => false,
    }
}

/// The number of units of a value, or its fault.
pub fn read_value(text: &[u8]) -> Result<i128, NumberFault>
    ensures value { result ≡ value_of text.now }
    ensures above { IfOk result (λ units. neg_ℤ (pos (10 ^ 36)) <ℤ units) }
    ensures below { IfOk result (λ units. units <ℤ pos (10 ^ 36)) }
{
    number_text::read_value(text)
}

/// A count, or None exactly where the text is none.
pub fn read_count(text: &[u8], most: u64) -> Option<u64>
    ensures { result ≡ count_of most text.now }
{
    number_text::read_count(text, most)
}

/// A list in the front of `out`, or None exactly where the text is none that fits.
pub fn read_list(text: &[u8], low: i64, high: i64, out: &mut [i64]) -> Option<usize>
    ensures listed { result ≡ option_map length (list_of low high (length out.old) text.now) }
    ensures written { IfSome (list_of low high (length out.old) text.now)
        (λ items. out.new ≡ items ++ drop (length items) out.old) }
{
    number_text::read_list(text, low, high, out)
}
