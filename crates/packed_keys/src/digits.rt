// Small numbers as the digits of one. Of a digit's bits, which are no more than 63, the rest of a
// division by 64 is taken where numbers are shifted: so the compiler sees that they are few.
ghost use Rattle.std.specs.Prelude.{◌≡◌, ◌+◌, ◌*◌, ◌/◌, ◌%◌, ◌^◌, ◌≤◌, length, map, nat_abs, pos};
ghost use Rattle.weights.specs.declared.TheConstants.{MAX};
ghost use Rattle.packed_keys.specs.PackedKeys.{digits, numeral};
ghost use Rattle.packed_keys.specs.PackedSteps.{AreDigits};

/// How many bits each of so many digits of one number has.
pub fn bits_for(slots: usize) -> u32
    requires { 1 ≤ slots }
    ensures { result ≡ 127 / slots }
{
    (127 / slots) as u32
}

// A number with one more digit below it.
#[inline(always)]
fn digit_below(number: u128, bits: u32, digit: i128) -> u128
    requires narrow { bits ≤ 63 }
    requires fits { nat_abs digit + 2 ^ bits * number ≤ MAX }
    ensures { result ≡ nat_abs digit + 2 ^ bits * number }
{
    (number << (bits % 64)) + digit.unsigned_abs()
}

// The number that has these digits, the least first.
#[inline(always)]
fn number_of(bits: u32, partial: &[i128]) -> u128
    requires { AreDigits bits partial.now }
    ensures is { result ≡ numeral (2 ^ bits) (map nat_abs partial.now) }
    ensures small { result ≤ MAX }
{
    let mut number = 0;
    let mut i = partial.len();
    while i > 0 {
        i -= 1;
        number = digit_below(number, bits, partial[i]);
    }
    number
}

/// A partial as one number.
#[inline(always)]
pub fn packed_number(bits: u32, partial: &[i128]) -> i128
    requires { AreDigits bits partial.now }
    ensures { result ≡ pos (numeral (2 ^ bits) (map nat_abs partial.now)) }
{
    number_of(bits, partial) as i128
}

// A number's least digit.
#[inline(always)]
fn least_digit(number: u128, bits: u32) -> i128
    requires { bits ≤ 63 }
    ensures { result ≡ pos (number % 2 ^ bits) }
{
    (number % (1 << (bits % 64))) as i128
}

// The digits above it.
#[inline(always)]
fn other_digits(number: u128, bits: u32) -> u128
    requires { bits ≤ 63 }
    ensures { result ≡ number / 2 ^ bits }
{
    number >> (bits % 64)
}

/// Writes the digits of a number.
#[inline(always)]
pub fn unpack(bits: u32, packed: i128, partial: &mut [i128])
    requires { bits ≤ 63 }
    ensures { let d = digits (2 ^ bits) (length partial.old) (nat_abs packed) in
        partial.new ≡ map pos d }
{
    let mut number = packed.unsigned_abs();
    for i in 0..partial.len() {
        partial[i] = least_digit(number, bits);
        number = other_digits(number, bits);
    }
}
