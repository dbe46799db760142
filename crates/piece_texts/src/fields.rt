// The fields of a line: numbers in their shortest form, names, and the sums of a tail.
ghost use Rattle.std.specs.Prelude.{◌≡◌, ◌≤◌, SomeIff};
ghost use Rattle.weights.specs.declared.TheConstants.{MAX};
ghost use Rattle.piece_texts.specs.PieceTexts.{is_digit, all_digits, IsName};
ghost use Rattle.piece_texts.specs.FieldSteps.{BothRead, IsIn, RestAfter, NumberRead, NumberAfter, NameAfter, SumsRead, SumsAfter, TailRead};

use crate::lines::place_of;
use crate::piece::PieceSum;
use itoa::Buffer;
use std::str;
use weights::MAX;

// A number, where it is in the range and the text is its shortest form.
fn shortest(n: u128, least: u128, most: u128, text: &[u8]) -> Option<u128>
    ensures { SomeIff result (IsIn least most n text.now) n }
{
    if least <= n && n <= most && text == Buffer::new().format(n).as_bytes() {
        Some(n)
    } else {
        None
    }
}

// The number in the range of which the text is the shortest form.
fn number(least: u128, most: u128, text: &[u8]) -> Option<u128>
    requires { most ≤ MAX }
    ensures { NumberRead least most text.now result }
{
    match str::from_utf8(text) {
        Ok(digits) => match digits.parse::<u128>() {
            Ok(n) => shortest(n, least, most, text),
            Err(_) => None,
        },
        Err(_) => None,
    }
}

// What stands behind words.
fn after<'a>(words: &[u8], line: &'a [u8]) -> Option<&'a [u8]>
    ensures { RestAfter words.now line.now result }
{
    line.strip_prefix(words)
}

// The number of a range behind words.
pub(crate) fn number_after(words: &[u8], least: u128, most: u128, line: &[u8]) -> Option<u128>
    requires { most ≤ MAX }
    ensures { NumberAfter words.now least most line.now result }
{
    match after(words, line) {
        Some(rest) => number(least, most, rest),
        None => None,
    }
}

// Whether a byte is a lower-case hexadecimal digit.
fn is_digit(byte: u8) -> bool
    ensures { result ≡ is_digit byte }
{
    matches!(byte, b'0'..=b'9' | b'a'..=b'f')
}

fn all_digits(text: &[u8]) -> bool
    ensures { result ≡ all_digits text.now }
{
    text.iter().all(|byte| is_digit(*byte))
}

// The name that the text is.
fn name(text: &[u8]) -> Option<[u8; 64]>
    ensures { SomeIff result (IsName text.now) text.now }
{
    if text.len() == 64 && all_digits(text) {
        let mut name = [0; 64];
        name.copy_from_slice(text);
        Some(name)
    } else {
        None
    }
}

// The name behind words.
pub(crate) fn name_after(words: &[u8], line: &[u8]) -> Option<[u8; 64]>
    ensures { NameAfter words.now line.now result }
{
    match after(words, line) {
        Some(rest) => name(rest),
        None => None,
    }
}

// The sums that two texts are.
fn both(closed: &[u8], sum: &[u8]) -> Option<PieceSum>
    ensures { BothRead closed.now sum.now result }
{
    match number(0, MAX, closed) {
        Some(closed) => match number(0, MAX, sum) {
            Some(sum) => Some(PieceSum { closed, sum }),
            None => None,
        },
        None => None,
    }
}

// The sums of a tail, with a space between them.
fn sums(text: &[u8]) -> Option<PieceSum>
    ensures { SumsRead text.now result }
{
    match place_of(b' ', text) {
        Some(space) => both(&text[..space], &text[space + 1..]),
        None => None,
    }
}

fn sums_after(words: &[u8], line: &[u8]) -> Option<PieceSum>
    ensures { SumsAfter words.now line.now result }
{
    match after(words, line) {
        Some(rest) => sums(rest),
        None => None,
    }
}

// The tail of a line and its sums. Tails are counted in the order of their lines, and those before
// a place are not read.
pub(crate) fn tail_from(from: u64, line: &[u8]) -> Option<(u64, PieceSum)>
    ensures { TailRead from line.now result }
{
    if from == 0
        && let Some(sums) = sums_after(b"less ", line)
    {
        return Some((0, sums));
    }
    if from <= 1
        && let Some(sums) = sums_after(b"greater ", line)
    {
        return Some((1, sums));
    }
    if from <= 2
        && let Some(sums) = sums_after(b"two ", line)
    {
        return Some((2, sums));
    }
    None
}
