// The numerators of a statistic that rises evenly with the number of concordant pairs.
ghost use Rattle.std.specs.Prelude.{◌≡◌, ℕ, ◌*◌, ◌<◌, ◌≤◌, pos, cond, List, length, get_or};
ghost use Rattle.std.specs.Prelude.{unsigned_abs, Contains, IfOk};
ghost use Rattle.std.specs.List.{sum, sum_by};
ghost use Rattle.weights.specs.Labellings.{labellings, labels, number_of_labellings};
ghost use Rattle.weights.specs.Rules.{RuleFits, passes};
ghost use Rattle.weights.specs.declared.TheConstants.{MAX};
ghost use Rattle.weights.specs.declared.tails.Tail.{Tail};
ghost use Rattle.networks.specs.Judged.{rule_in};
ghost use Rattle.networks.specs.EachTail.{sum_for};
ghost use Rattle.concordant_pairs.specs.ConcordantPairs.{SumsAlike, concordant_count, concordant_pairs};
ghost use Rattle.concordant_pairs.specs.ConcordantTails.{FitLabellings, even_value, passing_labellings};

use crate::counts::concordant_counts;
use networks::{Judge, TailSum, TailSums};
use std::alloc::Global;
use weights::{NoMemory, Rule};

// What so many steps come to.
#[inline(always)]
fn steps(step: u64, pairs: usize) -> i128
    requires { pairs ≤ 100000000 }
    ensures { result ≡ pos (step * pairs) }
{
    step as i128 * pairs as i128
}

// The value of so many concordant pairs.
#[inline(always)]
fn value_of(base: i128, step: u64, pairs: usize) -> i128
    requires base { unsigned_abs base ≤ 1000000000000000000000000000000 }
    requires few { pairs ≤ 100000000 }
    ensures { result ≡ even_value base step pairs }
{
    base + steps(step, pairs)
}

// The count of a number of pairs, where its value passes a rule. Of a number that no labelling has
// the rule is not asked.
#[inline(always)]
fn count_passing(count: u128, base: i128, step: u64, pairs: usize, rule: Rule) -> u128
    requires base { unsigned_abs base ≤ 1000000000000000000000000000000 }
    requires few { pairs ≤ 100000000 }
    requires fits { 1 ≤ count → RuleFits rule (even_value base step pairs) }
    ensures { result ≡ count * cond (passes rule (even_value base step pairs)) 1 0 }
{
    if count != 0 && rule.passes(value_of(base, step, pairs)) {
        count
    } else {
        0
    }
}

// The counts of the numbers of pairs whose value passes a rule.
fn passing(counts: &[u128], base: i128, step: u64, rule: Rule) -> u128
    requires light { sum_by (λ u. get_or counts.now u 0 * 1) (labels (length counts.now)) ≤ MAX }
    requires few { length counts.now ≤ 100000001 }
    requires base { unsigned_abs base ≤ 1000000000000000000000000000000 }
    requires fits { (u : ℕ) → u < length counts.now → 1 ≤ get_or counts.now u 0
        → RuleFits rule (even_value base step u) }
    ensures { result ≡ sum_by (λ u.
        get_or counts.now u 0 * cond (passes rule (even_value base step u)) 1 0)
        (labels (length counts.now)) }
{
    let mut weight = 0;
    for pairs in 0..counts.len() {
        weight += count_passing(counts[pairs], base, step, pairs, rule);
    }
    weight
}

// How many labellings have a value that passes a rule. No key was open.
fn found(sizes: &[u64], counts: &[u128], base: i128, step: u64, rule: Rule) -> TailSum
    requires alike { SumsAlike sizes.now counts.now }
    requires each { (u : ℕ) → get_or counts.now u 0 ≡ concordant_count sizes.now u }
    requires few { length counts.now ≤ 100000001 }
    requires total { number_of_labellings sizes.now ≤ MAX }
    requires base { unsigned_abs base ≤ 1000000000000000000000000000000 }
    requires fits { (xs : List ℕ) → Contains (labellings sizes.now) xs
        → RuleFits rule (even_value base step (concordant_pairs xs)) }
    ensures { result.sum ≡ passing_labellings rule base step sizes.now }
{
    TailSum {
        sum: passing(counts, base, step, rule),
        opened: 0,
    }
}

/// How many labellings of groups of these sizes have a value that passes the rule of each tail,
/// where the value is the base and a step for each concordant pair. No key was open.
pub fn concordant_sums(
    alloc: Global,
    sizes: &[u64],
    base: i128,
    step: u64,
    judge: &Judge,
) -> Result<TailSums, NoMemory>
    requires few { sum sizes.now ≤ 10000 }
    requires total { number_of_labellings sizes.now ≤ MAX }
    requires base { unsigned_abs base ≤ 1000000000000000000000000000000 }
    requires fits { FitLabellings judge.now base step sizes.now }
    ensures { IfOk result (λ sums. (t : Tail) → (sum_for sums t).sum
        ≡ passing_labellings (rule_in judge.now t) base step sizes.now) }
{
    let counts = concordant_counts(alloc, sizes)?;
    let all = counts.as_slice();
    Ok(TailSums {
        less: found(sizes, all, base, step, judge.less),
        greater: found(sizes, all, base, step, judge.greater),
        two: found(sizes, all, base, step, judge.two),
    })
}
