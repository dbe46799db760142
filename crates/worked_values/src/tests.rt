// Worked values from outside, and each call once.
ghost use Rattle.std.specs.Prelude.{◌≡◌, ◌+◌, ◌≤◌, length, OnOk};
ghost use Rattle.midranks.specs.declared.TheConstants.{MOST_VALUES};
ghost use Rattle.node_pool.specs.Nodes.{weighted};

use crate::tail_of_six;
use completion_bounds::{Later, Part, box_bounds, greatest_linear, least_linear, weight_bounds};
use enumerate::{first_labelling, next_labelling, next_signs};
use midranks::{MOST_VALUES, Tie, doubled, group_of, tie_groups};
use node_pool::{NodeList, NodePool};
use number_text::NumberFault::{Missing, NotNumber, OutOfRange};
use number_text::{NumberFault, read_count, read_list, read_value};
use row_products::{RowBounds, RowProducts};
use scores::ScoreKind::{Ansari, Median, Mood, Raw, Savage, Wilcoxon};
use scores::{ScoreFault, ScoreKind, labelled_sum, scored};
use std::alloc::Global;
use std::fmt::Debug;
use std::process::Abort;
use std::test::Fail;
use weights::{
    Bytes, Count, Frame, Ints, MAX, Narrow, NoMemory, Nums, Rule, Tail, Wide, binomial,
    bounded_product, gcd, lcm, multinomial, power,
};

// The value is the one that is wanted.
fn same<T: PartialEq + Debug>(rt: &impl Abort, found: &T, wanted: &T) {
    assert_eq!(rt; *found, *wanted);
}

// The list is the one that is wanted.
fn same_list<T: PartialEq + Debug>(rt: &impl Abort, found: &[T], wanted: &[T]) {
    assert_eq!(rt; *found, *wanted);
}

fn chooses(rt: &impl Abort, n: u64, k: u64, ways: Option<u128>) {
    assert!(rt; binomial(n, k) == ways, "{k} of {n}");
}

#[test]
fn choices(rt: HostRuntime) {
    chooses(&rt, 130, 65, Some(95067625827960698145584333020095113100));
    chooses(&rt, 131, 65, None);
    chooses(&rt, 3, 5, Some(0));
    let most = 42535295865117307928310139910543638528;
    chooses(&rt, 1 << 63, 2, Some(most));
    chooses(&rt, u64::MAX, 1 << 63, None);
    same(&rt, &multinomial(&[2, 1, 1]), &Some(12));
    same(&rt, &multinomial(&[5_000, 5_000]), &None);
}

#[test]
fn multiples_and_powers(rt: HostRuntime) {
    same(&rt, &(gcd(0, 0), gcd(12, 18)), &(0, 6));
    same(&rt, &(lcm(4, 6), lcm(MAX, 2)), &(Some(12), None));
    same(&rt, &bounded_product(1 << 64, 1 << 63), &None);
    same(
        &rt,
        &power(2, 126),
        &Some(85070591730234615865843651857942052864),
    );
    same(&rt, &(power(2, 127), power(1, u64::MAX)), &(None, Some(1)));
}

fn sum_and_product<C: Count>(a: u128, b: u128) -> Option<(u128, u128)> {
    let a = C::of(a)?;
    let b = C::of(b)?;
    Some((a.checked_add(b)?.value(), a.checked_mul(b)?.value()))
}

#[test]
fn counts(rt: HostRuntime) {
    same(&rt, &sum_and_product::<Narrow>(4, 6), &Some((10, 24)));
    same(&rt, &sum_and_product::<Narrow>(1 << 63, 1 << 63), &None);
    same(
        &rt,
        &sum_and_product::<Wide>(1 << 64, 5),
        &Some(((1 << 64) + 5, 5 << 64)),
    );
    same(&rt, &sum_and_product::<Wide>(MAX, 1), &None);
}

#[test]
fn lists_of_scores(rt: HostRuntime) -> Result<(), Fail> {
    let mut ints = Ints::empty(rt.alloc());
    ints.push(7)?;
    let mut copy = ints.copy()?;
    for item in copy.as_mut_slice().iter_mut() {
        *item = -8;
    }
    same_list(&rt, copy.as_slice(), &[-8]);
    same_list(&rt, ints.as_slice(), &[7]);
    Ok(())
}

#[test]
fn lists_of_zeros(rt: HostRuntime) -> Result<(), Fail> {
    same_list(&rt, Ints::zeros(rt.alloc(), 2)?.as_slice(), &[0, 0]);
    Ok(())
}

#[test]
fn lists_of_numbers(rt: HostRuntime) -> Result<(), Fail> {
    let mut nums = Nums::empty(rt.alloc());
    nums.append(&[u64::MAX, 1])?;
    same_list(&rt, nums.as_slice(), &[u64::MAX, 1]);
    Ok(())
}

#[test]
fn lists_of_bytes(rt: HostRuntime) -> Result<(), Fail> {
    let mut bytes = Bytes::empty(rt.alloc());
    bytes.push(255)?;
    same_list(&rt, bytes.as_slice(), &[255]);
    Ok(())
}

// The rank sum of six values, 30 by doubled ranks: six times it is 54 above the centre 126.
#[test]
fn equality_belongs_to_the_tail(rt: HostRuntime) {
    let frame = Frame {
        statistic: 30,
        scale: 2,
        total: 20,
        two: Rule::far(6, 126, 30),
    };
    same(&rt, &frame.rule(Tail::Two), &Rule::Far(6, 126, 54));
    same(&rt, &frame.rule(Tail::Less), &Rule::AtMost(30));
    let greater = frame.rule(Tail::Greater);
    same(&rt, &greater, &Rule::AtLeast(30));
    for (rule, value, passes) in [
        (Rule::AtMost(30), 30, true),
        (Rule::AtLeast(30), 29, false),
        (Rule::Far(6, 126, 54), 12, true),
        (Rule::Far(6, 126, 54), 13, false),
    ] {
        assert!(rt; rule.passes(value) == passes, "{value}");
    }
}

#[test]
fn walks_labels_in_order(rt: HostRuntime) -> Result<(), Fail> {
    let mut labels = first_labelling(rt.alloc(), &[2, 1])?;
    same_list(&rt, labels.as_slice(), &[0, 0, 1]);
    let steps = [
        next_labelling(labels.as_mut_slice()),
        next_labelling(labels.as_mut_slice()),
        next_labelling(labels.as_mut_slice()),
    ];
    same(&rt, &steps, &[true, true, false]);
    same_list(&rt, labels.as_slice(), &[1, 0, 0]);
    Ok(())
}

#[test]
fn walks_signs_in_order(rt: HostRuntime) {
    let mut signs = [0, 1];
    assert!(rt; next_signs(&mut signs));
    same(&rt, &signs, &[1, 0]);
}

fn tails_of_six(alloc: Global) -> Result<[u128; 3], NoMemory> {
    let less = tail_of_six(alloc, Tail::Less)?;
    let greater = tail_of_six(alloc, Tail::Greater)?;
    Ok([less, greater, tail_of_six(alloc, Tail::Two)?])
}

#[test]
fn tails_in_order(rt: HostRuntime) -> Result<(), Fail> {
    same(&rt, &tails_of_six(rt.alloc())?, &[20, 1, 2]);
    Ok(())
}

// Each text has its value or its fault.
fn reads(rt: &impl Abort, texts: &[(&str, Result<i128, NumberFault>)]) {
    for (text, value) in texts {
        assert!(rt; read_value(text.as_bytes()) == *value, "at {text}");
    }
}

#[test]
fn texts_of_values(rt: HostRuntime) {
    let least = -999_999_999_999_999_999_999_999_999_999_999_999;
    reads(
        &rt,
        &[
            ("+.5", Ok(500_000_000_000_000_000)),
            ("-1e-18", Ok(-1)),
            ("-0.0E+999999999999999999999999999999", Ok(0)),
            ("0.0000000000000000000000000000000000000001e22", Ok(1)),
            ("-999999999999999999.999999999999999999", Ok(least)),
            ("\t \t", Err(Missing)),
            (" NA ", Err(Missing)),
            ("1e5.", Err(NotNumber)),
            ("1\r", Err(NotNumber)),
            ("é", Err(NotNumber)),
            ("1e18", Err(OutOfRange)),
            ("-1.5e-18", Err(OutOfRange)),
            ("1e999999999999999999999999999999", Err(OutOfRange)),
        ],
    );
}

#[test]
fn texts_of_counts_and_lists(rt: HostRuntime) {
    same(&rt, &read_count(b"1000000", 1_000_000), &Some(1_000_000));
    same(&rt, &read_count(b"1000001", 1_000_000), &None);
    let mut out = [7; 3];
    same(
        &rt,
        &read_list(b" 05 ,\t-006\t", -9, 9, out.as_mut_slice()),
        &Some(2),
    );
    same(&rt, &out, &[5, -6, 7]);
    same(
        &rt,
        &read_list(b"1,2,3,4", -9, 9, out.as_mut_slice()),
        &None,
    );
}

// Ten thousand digits are read without a number of that size.
#[test]
fn long_texts_of_numbers(rt: HostRuntime) {
    let mut text = [b'0'; 10_000];
    text[9_999] = b'9';
    same(
        &rt,
        &read_value(text.as_slice()),
        &Ok(9_000_000_000_000_000_000),
    );
    same(&rt, &read_count(text.as_slice(), 9), &Some(9));
    text[0] = b'9';
    same(&rt, &read_value(text.as_slice()), &Err(OutOfRange));
    same(&rt, &read_count(text.as_slice(), u64::MAX), &None);
    text[1] = b'e';
    same(
        &rt,
        &read_value(text.as_slice()),
        &Ok(9_000_000_000_000_000_000_000_000_000),
    );
}

fn tie(value: i128, count: u64) -> Tie
    ensures { result ≡ record { value = value; count = count } }
{
    Tie { value, count }
}

// So many values, from the greatest down.
fn many(alloc: Global, number: usize) -> Result<Ints, NoMemory> {
    let mut values = Ints::empty(alloc);
    for i in 0..number {
        values.push((i as i128).wrapping_neg())?;
    }
    Ok(values)
}

#[test]
fn place_of_a_group(rt: HostRuntime) -> Result<(), Fail> {
    same(&rt, &group_of(&[tie(-1, 1), tie(5, 4)], 5), &1);
    Ok(())
}

#[test]
fn ranks_of_ties(rt: HostRuntime) -> Result<(), Fail> {
    let six = doubled(rt.alloc(), &[1, 2, 2, 2, 3, 3])?;
    same_list(&rt, six.as_slice(), &[2, 6, 6, 6, 11, 11]);
    Ok(())
}

#[test]
fn groups_of_ties(rt: HostRuntime) -> Result<(), Fail> {
    let groups = tie_groups(rt.alloc(), &[3, 2, 1, 2, 3, 2])?;
    same_list(&rt, groups.as_slice(), &[tie(1, 1), tie(2, 3), tie(3, 2)]);
    Ok(())
}

// As many as there may be.
#[test]
fn ranks_of_many_values(rt: HostRuntime) -> Result<(), Fail> {
    let values = many(rt.alloc(), MOST_VALUES)?;
    assert!(rt; values.len() <= MOST_VALUES);
    let ranks = doubled(rt.alloc(), values.as_slice())?;
    same(&rt, &ranks.as_slice().first().copied(), &Some(20_000));
    same(&rt, &ranks.as_slice().last().copied(), &Some(2));
    Ok(())
}

// The sum of the scores of so many distinct values; none where it is too wide.
fn score_sum(rt: &impl Abort, alloc: Global, kind: ScoreKind, values: &[i128]) -> Option<u128> {
    assert!(rt; values.len() <= MOST_VALUES);
    match scored(alloc, kind, values) {
        Ok(scored) => Some(scored.sum),
        Err(ScoreFault::TooWide) => None,
        Err(ScoreFault::NoMemory) => panic!(rt; "no memory"),
    }
}

fn tied_scores(rt: &impl Abort, alloc: Global, kind: ScoreKind, sum: u128) {
    let tied = [5, -3, 5, -3, 0];
    assert!(rt; score_sum(rt, alloc, kind, &tied) == Some(sum), "{kind:?}");
}

#[test]
fn scores_of_ties(rt: HostRuntime) {
    tied_scores(&rt, rt.alloc(), Wilcoxon, 30);
    tied_scores(&rt, rt.alloc(), Ansari, 18);
    tied_scores(&rt, rt.alloc(), Mood, 80);
    tied_scores(&rt, rt.alloc(), Savage, 600);
    tied_scores(&rt, rt.alloc(), Median, 4);
    tied_scores(&rt, rt.alloc(), Raw, 16);
    same(&rt, &labelled_sum(&[2, -5, 11], &[1, 0, 1], 1), &13);
}

// Whether the scores of so many distinct values have a sum within the limit.
fn fits(
    rt: &impl Abort,
    alloc: Global,
    kind: ScoreKind,
    number: usize,
    fits: bool,
) -> Result<(), NoMemory> {
    let values = many(alloc, number)?;
    let sum = score_sum(rt, alloc, kind, values.as_slice());
    assert!(rt; sum.is_some() == fits, "{kind:?} of {number}");
    Ok(())
}

#[test]
fn scores_of_many_values(rt: HostRuntime) -> Result<(), Fail> {
    fits(&rt, rt.alloc(), Wilcoxon, 10_000, true)?;
    fits(&rt, rt.alloc(), Mood, 10_000, true)?;
    fits(&rt, rt.alloc(), Savage, 82, true)?;
    fits(&rt, rt.alloc(), Savage, 83, false)?;
    Ok(())
}

// Adds a weight, with room for it.
fn put<C: Count>(pool: &mut NodePool<C>, key: &[i128], weight: u128) -> Result<(), NoMemory>
    requires wide { length key.now ≡ pool.old.width }
    requires limit { weighted (λ k. 1) pool.old.nodes + weight ≤ C.LIMIT }
    ensures width { OnOk result (pool.new.width ≡ pool.old.width) }
    ensures total { OnOk result
        (weighted (λ k. 1) pool.new.nodes ≡ weighted (λ k. 1) pool.old.nodes + weight) }
{
    pool.reserve(1)?;
    match C::of(weight) {
        Some(weight) => pool.add(key, weight),
        None => unreachable!(),
    }
    Ok(())
}

// The weight at a key's place, or 0 where it has none.
fn weight_of<C: Count>(pool: &NodePool<C>, key: &[i128]) -> u128 {
    for i in 0..pool.len() {
        if pool.key(i) == key {
            return pool.weight(i).value();
        }
    }
    0
}

// A pool of two keys, to one of which was added twice.
fn two_keys(alloc: Global) -> Result<NodePool<Wide>, NoMemory> {
    let mut pool = NodePool::<Wide>::new(alloc, 2)?;
    put(&mut pool, &[1, 5], 3)?;
    put(&mut pool, &[1, 6], 1 << 100)?;
    put(&mut pool, &[1, 5], 4)?;
    Ok(pool)
}

// Equal keys are one, and a pool that is refused memory stays as it was.
#[test]
fn pools_of_nodes(rt: HostRuntime) -> Result<(), Fail> {
    let mut pool = two_keys(rt.alloc())?;
    same(&rt, &pool.len(), &2);
    let spare = pool.spare();
    assert!(rt; pool.reserve(1 << 40).is_err());
    same(&rt, &pool.spare(), &spare);
    same(&rt, &weight_of(&pool, &[1, 5]), &7);
    same(&rt, &weight_of(&pool, &[1, 6]), &(1 << 100));
    pool.clear();
    same(&rt, &pool.len(), &0);
    Ok(())
}

// A pool that is refused an allocation keeps its keys, and takes more of them afterwards. So many
// keys of 16 numbers are more than half a terabyte, which the allocator does not have.
#[test]
fn pools_are_filled_after_a_refusal(rt: HostRuntime) -> Result<(), Fail> {
    let mut pool = NodePool::<Wide>::new(rt.alloc(), 16)?;
    put(&mut pool, &[1; 16], 3)?;
    let spare = pool.spare();
    assert!(rt; pool.reserve(2_147_000_000).is_err());
    same(&rt, &(pool.len(), pool.spare()), &(1, spare));
    for more in 0..8usize {
        put(&mut pool, &[more as i128 + 2; 16], 5)?;
    }
    put(&mut pool, &[1; 16], 4)?;
    same(&rt, &pool.len(), &9);
    same(&rt, &weight_of(&pool, &[1; 16]), &7);
    same(&rt, &weight_of(&pool, &[9; 16]), &5);
    Ok(())
}

// Equal keys are one, at no number too.
#[test]
fn pools_of_empty_keys(rt: HostRuntime) -> Result<(), Fail> {
    let mut empty = NodePool::<Narrow>::new(rt.alloc(), 0)?;
    put(&mut empty, &[], 3)?;
    put(&mut empty, &[], 4)?;
    same(&rt, &(empty.len(), weight_of(&empty, &[])), &(1, 7));
    Ok(())
}

#[test]
fn lists_of_nodes(rt: HostRuntime) -> Result<(), Fail> {
    let one = Narrow::of(1).ok_or("within the limit")?;
    let mut list = NodeList::<Narrow>::new(rt.alloc(), 0);
    list.push(&[], one)?;
    same(&rt, &(list.len(), list.weight(0).value()), &(1, 1));
    list.clear();
    same(&rt, &list.len(), &0);
    Ok(())
}

fn later(score: i128, count: u64, stage: u64) -> Later
    ensures { result ≡ record { score = score; count = count; stage = stage } }
{
    Later {
        score,
        count,
        stage,
    }
}

// A column of a stage that is past, tied units, scores below 0, and a row without units. Of the
// twelve orders of -4, 3, 3 and 9 beside -3, -3, 2 and 5 the sums lie from -50 to 54.
#[test]
fn bounds_of_completions(rt: HostRuntime) {
    let rows = [
        Part {
            score: -3,
            count: 2,
        },
        Part {
            score: -1,
            count: 0,
        },
        Part { score: 2, count: 1 },
        Part { score: 5, count: 1 },
    ];
    let columns = [
        later(-7, 1, 1),
        later(-4, 1, 2),
        later(3, 2, 3),
        later(9, 1, 4),
    ];
    same(&rt, &least_linear(&rows, &columns, 2), &-50);
    same(&rt, &greatest_linear(&rows, &columns, 2), &54);
    same(&rt, &box_bounds(&[-2, 1], &[3, 4], &[5, 2], MAX), &(2, 77));
    same(
        &rt,
        &box_bounds(&[4, 4], &[12, 12], &[1, 1], 200),
        &(32, 200),
    );
    same(&rt, &weight_bounds(3, 21, &[0, 5, 2], &[6, 1]), &(18, 63));
}

// The tables weigh from 4 to 12, and from 4 to 288; where a product passes the limit there are no
// bounds.
#[test]
fn bounds_by_rows(rt: HostRuntime) -> Result<(), Fail> {
    let products = RowProducts::new(rt.alloc())?;
    let of_six = RowBounds {
        least: 2,
        greatest: 12,
    };
    same(&rt, &products.bounds(&[2, 4], &[3, 3]), &Some(of_six));
    let of_ten = RowBounds {
        least: 4,
        greatest: 288,
    };
    same(&rt, &products.bounds(&[2, 4, 4], &[5, 3, 2]), &Some(of_ten));
    same(&rt, &products.bounds(&[21, 21], &[40, 2]), &None);
    Ok(())
}
