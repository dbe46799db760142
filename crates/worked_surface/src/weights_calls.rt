// The public calls of `weights`.
ghost use Rattle.std.specs.Prelude.{[], ◌*◌, ◌++◌, ◌+◌, ◌-◌, ◌<◌, ◌^◌, ◌↔◌, ◌∷◌, ◌≡◌, ◌≤◌, IfOk, IsTrue, OnErr, OnOk, SomeIff, length, slice_set};
ghost use Rattle.std.specs.Int.{IsGcd};
ghost use Rattle.std.specs.List.{sum};
ghost use Rattle.weights.specs.Counts.{IsExactUpTo};
ghost use Rattle.weights.specs.Labellings.{number_of_labellings};
ghost use Rattle.weights.specs.Numbers.{binomial, lcm};

use std::alloc::Global;
use weights::{Bytes, Count, Ints, Limits, MAX, Narrow, NoMemory, Nums, Odds, Tail, Tails, Wide};

/// The greatest weight.
pub fn greatest_weight() -> u128
    ensures { result ≡ 2 ^ 127 - 1 }
{
    MAX
}

/// The one value of want of memory.
pub fn want_of_memory() -> NoMemory {
    NoMemory
}

/// The three tails, and no other.
pub fn is_two_sided(tail: Tail) -> bool
    ensures { IsTrue result ↔ (tail ≡ Tail.Two) }
{
    match tail {
        Tail::Less | Tail::Greater => false,
        Tail::Two => true,
    }
}

/// A choice of tails, of its three parts.
pub fn tails(less: bool, greater: bool, two: bool) -> Tails
    ensures { result ≡ record { less = less; greater = greater; two = two } }
{
    Tails { less, greater, two }
}

/// Odds, of their two parts.
pub fn odds(above: u64, below: u64) -> Odds
    ensures { result ≡ record { above = above; below = below } }
{
    Odds { above, below }
}

/// The limits of a shift, of their seven parts.
pub fn without_limits(differences: u64, places: u128, middle: i128, total: u128) -> Limits
    ensures { result ≡ record {
      differences = differences;
      places = places;
      middle = middle;
      lower = None;
      upper = None;
      total = total;
      missed = 0;
    } }
{
    Limits {
        differences,
        places,
        middle,
        lower: None,
        upper: None,
        total,
        missed: 0,
    }
}

/// The limit of narrow counts.
pub fn narrow_limit() -> u128
    ensures { result ≡ 2 ^ 64 - 1 }
{
    Narrow::LIMIT
}

/// The limit of wide counts.
pub fn wide_limit() -> u128
    ensures { result ≡ MAX }
{
    Wide::LIMIT
}

/// A count of a value, or None exactly where the value passes the limit.
pub fn count_of<C: Count>(value: u128) -> Option<C>
    ensures { IsExactUpTo C.LIMIT C.number result value }
{
    C::of(value)
}

/// The value of a count.
pub fn count_value<C: Count>(count: C) -> u128
    ensures value { result ≡ C.number count }
    ensures within { result ≤ C.LIMIT }
{
    count.value()
}

/// The sum of two counts, or None exactly where it passes the limit.
pub fn count_sum<C: Count>(count: C, other: C) -> Option<C>
    ensures { IsExactUpTo C.LIMIT C.number result (C.number count + C.number other) }
{
    count.checked_add(other)
}

/// The product of two counts, or None exactly where it passes the limit.
pub fn count_product<C: Count>(count: C, other: C) -> Option<C>
    ensures { IsExactUpTo C.LIMIT C.number result (C.number count * C.number other) }
{
    count.checked_mul(other)
}

/// No item of `Ints`.
pub fn no_ints(alloc: Global) -> Ints
    ensures { result ≡ [] }
{
    Ints::empty(alloc)
}

/// One more item of `Ints`.
pub fn push_int(list: &mut Ints, item: i128) -> Result<(), NoMemory>
    ensures ok { OnOk result (list.new ≡ list.old ++ item ∷ []) }
    ensures err { OnErr result (list.new ≡ list.old) }
{
    list.push(item)
}

/// How many items there are of `Ints`.
pub fn ints_len(list: &Ints) -> usize
    ensures { result ≡ length list.now }
{
    list.len()
}

/// The items of `Ints`.
pub fn ints_slice(list: &Ints) -> &[i128]
    ensures { result.now ≡ list.now }
{
    list.as_slice()
}

/// Another item of `Ints` at a place.
pub fn set_int(list: &mut Ints, i: usize, item: i128)
    requires { i < length list.old }
    ensures { list.new ≡ slice_set list.old i item }
{
    let items = list.as_mut_slice();
    items[i] = item;
}

/// The same items of `Ints`.
pub fn copy_ints(list: &Ints) -> Result<Ints, NoMemory>
    ensures { IfOk result (λ copy. copy ≡ list.now) }
{
    list.copy()
}

/// No item of `Nums`.
pub fn no_nums(alloc: Global) -> Nums
    ensures { result ≡ [] }
{
    Nums::empty(alloc)
}

/// One more item of `Nums`.
pub fn push_num(list: &mut Nums, item: u64) -> Result<(), NoMemory>
    ensures ok { OnOk result (list.new ≡ list.old ++ item ∷ []) }
    ensures err { OnErr result (list.new ≡ list.old) }
{
    list.push(item)
}

/// How many items there are of `Nums`.
pub fn nums_len(list: &Nums) -> usize
    ensures { result ≡ length list.now }
{
    list.len()
}

/// The items of `Nums`.
pub fn nums_slice(list: &Nums) -> &[u64]
    ensures { result.now ≡ list.now }
{
    list.as_slice()
}

/// Another item of `Nums` at a place.
pub fn set_num(list: &mut Nums, i: usize, item: u64)
    requires { i < length list.old }
    ensures { list.new ≡ slice_set list.old i item }
{
    let items = list.as_mut_slice();
    items[i] = item;
}

/// The same items of `Nums`.
pub fn copy_nums(list: &Nums) -> Result<Nums, NoMemory>
    ensures { IfOk result (λ copy. copy ≡ list.now) }
{
    list.copy()
}

/// No item of `Bytes`.
pub fn no_bytes(alloc: Global) -> Bytes
    ensures { result ≡ [] }
{
    Bytes::empty(alloc)
}

/// One more item of `Bytes`.
pub fn push_byte(list: &mut Bytes, item: u8) -> Result<(), NoMemory>
    ensures ok { OnOk result (list.new ≡ list.old ++ item ∷ []) }
    ensures err { OnErr result (list.new ≡ list.old) }
{
    list.push(item)
}

/// How many items there are of `Bytes`.
pub fn bytes_len(list: &Bytes) -> usize
    ensures { result ≡ length list.now }
{
    list.len()
}

/// The items of `Bytes`.
pub fn bytes_slice(list: &Bytes) -> &[u8]
    ensures { result.now ≡ list.now }
{
    list.as_slice()
}

/// Another item of `Bytes` at a place.
pub fn set_byte(list: &mut Bytes, i: usize, item: u8)
    requires { i < length list.old }
    ensures { list.new ≡ slice_set list.old i item }
{
    let items = list.as_mut_slice();
    items[i] = item;
}

/// The same items of `Bytes`.
pub fn copy_bytes(list: &Bytes) -> Result<Bytes, NoMemory>
    ensures { IfOk result (λ copy. copy ≡ list.now) }
{
    list.copy()
}

/// The greatest common divisor.
pub fn divisor(a: u128, b: u128) -> u128
    ensures { IsGcd a b result }
{
    weights::gcd(a, b)
}

/// The least common multiple, or None exactly where it passes the greatest weight.
pub fn multiple(a: u128, b: u128) -> Option<u128>
    ensures { SomeIff result (lcm a b ≤ MAX) (lcm a b) }
{
    weights::lcm(a, b)
}

/// A power, or None exactly where it passes the greatest weight.
pub fn raised(base: u128, exponent: u64) -> Option<u128>
    ensures { SomeIff result (base ^ exponent ≤ MAX) (base ^ exponent) }
{
    weights::power(base, exponent)
}

/// How many choices there are, or None exactly where they pass the greatest weight.
pub fn choices(n: u64, k: u64) -> Option<u128>
    ensures { SomeIff result (binomial n k ≤ MAX) (binomial n k) }
{
    weights::binomial(n, k)
}

/// How many labellings there are, or None exactly where they pass the greatest weight.
pub fn labelling_count(counts: &[u64]) -> Option<u128>
    requires { sum counts.now < 2 ^ 64 }
    ensures { let number = number_of_labellings counts.now in SomeIff result (number ≤ MAX) number }
{
    weights::multinomial(counts)
}

/// A count of up to 255.
#[derive(Clone, Copy)]
pub struct Small(u8);

impl Count for Small {
    const LIMIT: u128 = 255;

    ghost LIMIT = { 255 };

    ghost number = { λ count. count.0 };

    fn of(value: u128) -> Option<Small> {
        match u8::try_from(value) {
            Ok(value) => Some(Small(value)),
            Err(_) => None,
        }
    }

    fn value(self) -> u128 {
        self.0 as u128
    }

    fn checked_add(self, other: Small) -> Option<Small> {
        let sum = self.0.checked_add(other.0)?;
        Some(Small(sum))
    }

    fn checked_mul(self, other: Small) -> Option<Small> {
        let product = self.0.checked_mul(other.0)?;
        Some(Small(product))
    }
}

/// The sum of two of them.
pub fn small_sum(count: Small, other: Small) -> Option<Small>
    ensures { let number = ⟦<Small as Count>⟧.number in
        IsExactUpTo 255 number result (number count + number other) }
{
    count_sum(count, other)
}
