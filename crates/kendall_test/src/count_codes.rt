// Counts in a row, kept as one number.
ghost use Rattle.std.specs.Prelude.{◌≡◌, ◌^◌, ◌<◌, ◌≤◌, length, pos};
ghost use Rattle.std.specs.List.{sum};
ghost use Rattle.kendall_test.specs.CountCodes.{code, counts_of_code, first_count, last_mark};
ghost use Rattle.kendall_test.specs.CountCodes.{later_bits, with_count_bits};

use weights::total_of;

// The bit of the last of some units.
fn last_mark(units: u64) -> u128
    requires { units ≤ 120 }
    ensures { result ≡ last_mark units }
{
    if units == 0 { 0 } else { 1 << (units - 1) }
}

// The bits of the units of a count, before those of later counts.
fn with_count(count: u64, later: u128) -> u128
    requires few { count ≤ 120 }
    requires small { with_count_bits count later < 2 ^ 120 }
    ensures { result ≡ with_count_bits count later }
{
    if count == 0 {
        later
    } else {
        (2 * later + 1) << (count - 1)
    }
}

// The bits of all units but the last.
fn code_bits(counts: &[u64]) -> u128
    requires { sum counts.now ≤ 120 }
    ensures code { result ≡ code counts.now }
    ensures small { result < 2 ^ 120 }
{
    let mut bits: u128 = 0;
    let mut i = counts.len();
    while i > 0 {
        i -= 1;
        bits = with_count(counts[i], bits);
    }
    bits - last_mark(total_of(counts))
}

/// The code of some counts of at most 120 units in all: the counts that are not 0 in their order,
/// as bits.
pub(crate) fn code_of(counts: &[u64]) -> i128
    requires { sum counts.now ≤ 120 }
    ensures { result ≡ pos (code counts.now) }
{
    code_bits(counts) as i128
}

// The first count in some bits.
fn first_count(bits: u128) -> u64
    ensures { result ≡ first_count bits }
{
    if bits == 0 {
        0
    } else {
        u64::from(bits.trailing_zeros()) + 1
    }
}

// The bits behind it.
fn later_bits(bits: u128) -> u128
    ensures { result ≡ later_bits bits }
{
    if bits == 0 {
        0
    } else {
        (bits >> bits.trailing_zeros()) / 2
    }
}

/// Writes the counts of a code of so many units in all, those that are 0 last.
pub(crate) fn read_code(units: u64, code: u128, counts: &mut [u64])
    requires few { units ≤ 120 }
    requires small { code < 2 ^ 120 }
    ensures { counts.new ≡ counts_of_code (length counts.old) units code }
{
    let mut bits = code + last_mark(units);
    for i in 0..counts.len() {
        counts[i] = first_count(bits);
        bits = later_bits(bits);
    }
}
