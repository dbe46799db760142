// The public calls of `stage_network`.
ghost use Rattle.std.specs.Prelude.{[], ◌++◌, ◌<◌, ◌^◌, ◌↔◌, ◌∷◌, ◌≡◌, ◌≤◌, ◌*◌, IfOk, IsTrue, OnErr, OnOk, length, map, nat_abs};
ghost use Rattle.std.specs.List.{AllByRecursion, Contains, IsDistinct};
ghost use Rattle.networks.specs.Completions.{extreme_weight, total_weight, value_weights};
ghost use Rattle.networks.specs.Follows.{statistic_sums};
ghost use Rattle.networks.specs.Laws.{IsLawful};
ghost use Rattle.networks.specs.Lines.{IsAboveLast, IsAscending, IsSpreadOf, WeightsFit};
ghost use Rattle.networks.specs.Network.{IsReached, pending};
ghost use Rattle.networks.specs.Opened.{opened_below};
ghost use Rattle.node_pool.specs.Nodes.{key_eq, keys as keys_in, weighted};
ghost use Rattle.node_pool.specs.PoolSteps.{nodes_of};
ghost use Rattle.weights.specs.declared.TheConstants.{MAX};
ghost use Rattle.worked_surface.specs.TwoSigns.{two_signs};

use crate::enumerate_calls::TwoSigns;
use enumerate::Plain;
use stage_network::{
    Answer, Line, PrepareFault, Spread, Stages, TailSum, Verdict, Way, WideOf, Width,
};
use std::alloc::Global;
use weights::{Ints, NoMemory, Tail};

/// How many stages there are, of a network that is lawful.
pub fn stage_count<S: Stages>(stages: &S) -> usize
    ensures count { result ≡ (S.network stages.now).count }
    ensures lawful { IsLawful (S.network stages.now) }
{
    stages.stages()
}

/// How many numbers a key has.
pub fn key_width<S: Stages>(stages: &S) -> usize
    ensures { result ≡ (S.network stages.now).width }
{
    stages.width()
}

/// How many numbers a choice has.
pub fn choice_width<S: Stages>(stages: &S) -> usize
    ensures { result ≡ (S.network stages.now).choice_width }
{
    stages.choice_width()
}

/// The key of stage 0.
pub fn first_key<S: Stages>(stages: &S, key: &mut [i128])
    requires { length key.old ≡ (S.network stages.now).width }
    ensures { key.new ≡ (S.network stages.now).first }
{
    stages.first_key(key);
}

/// The first choice at a key, or false exactly where there is none.
pub fn first_choice<S: Stages>(stages: &S, stage: usize, key: &[i128], choice: &mut [u64]) -> bool
    requires reached { IsReached (S.network stages.now) stage key.now }
    requires wide { length choice.old ≡ (S.network stages.now).choice_width }
    ensures { let n = S.network stages.now in
        n.choices stage key.now ≡ pending n stage key.now result choice.new }
{
    stages.first_choice(stage, key, choice)
}

/// The next choice at a key, or false exactly where none is left.
pub fn next_choice<S: Stages>(stages: &S, stage: usize, key: &[i128], choice: &mut [u64]) -> bool
    requires reached { IsReached (S.network stages.now) stage key.now }
    requires before { stage < (S.network stages.now).count }
    requires allowed { Contains ((S.network stages.now).choices stage key.now) choice.old }
    requires wide { length choice.old ≡ (S.network stages.now).choice_width }
    ensures { let n = S.network stages.now in
        n.later stage key.now choice.old ≡ pending n stage key.now result choice.new }
{
    stages.next_choice(stage, key, choice)
}

/// The key that a choice reaches, and the weight of its arc.
pub fn apply<S: Stages>(
    stages: &S,
    stage: usize,
    key: &[i128],
    choice: &[u64],
    next: &mut [i128],
) -> u128
    requires reached { IsReached (S.network stages.now) stage key.now }
    requires before { stage < (S.network stages.now).count }
    requires allowed { Contains ((S.network stages.now).choices stage key.now) choice.now }
    requires wide { length choice.now ≡ (S.network stages.now).choice_width }
    requires room { length next.old ≡ (S.network stages.now).width }
    ensures next { next.new ≡ (S.network stages.now).next stage key.now choice.now }
    ensures weight { result ≡ (S.network stages.now).weight stage key.now choice.now }
{
    stages.apply(stage, key, choice, next)
}

/// The summed weight of all completions of a key.
pub fn rest<S: Stages>(stages: &S, stage: usize, key: &[i128]) -> u128
    requires { IsReached (S.network stages.now) stage key.now }
    ensures { result ≡ total_weight (S.network stages.now) stage key.now }
{
    stages.rest(stage, key)
}

/// What is known of the completions of a key.
pub fn verdict<S: Stages>(stages: &S, stage: usize, key: &[i128], tail: Tail) -> Verdict
    requires { IsReached (S.network stages.now) stage key.now }
    ensures { result ≡ (S.network stages.now).verdict tail stage key.now }
{
    stages.verdict(stage, key, tail)
}

/// The value of a key of the last stage.
pub fn value<S: Stages>(stages: &S, key: &[i128]) -> i128
    requires { IsReached (S.network stages.now) (S.network stages.now).count key.now }
    ensures { result ≡ (S.network stages.now).value key.now }
{
    stages.value(key)
}

/// The summed weight of the extreme completions, and the number of open keys.
pub fn tail_sum<S: Stages>(alloc: Global, stages: &S, tail: Tail) -> Result<TailSum, NoMemory>
    ensures sum { let n = S.network stages.now in
        IfOk result (λ found. found.sum ≡ extreme_weight n tail 0 n.first) }
    ensures opened { let n = S.network stages.now in
        IfOk result (λ found. found.opened ≡ opened_below n tail n.count) }
{
    stage_network::tail_sum(alloc, stages, tail)
}

/// Each attained value with its weight.
pub fn spread<S: Stages>(alloc: Global, stages: &S) -> Result<Spread, NoMemory>
    ensures { IfOk result (IsSpreadOf (value_weights (S.network stages.now))) }
{
    stage_network::spread(alloc, stages)
}

/// Each value of a member with its weight.
pub fn plain_spread<P: Plain>(alloc: Global, problem: &P) -> Result<Spread, NoMemory>
    ensures sums { IfOk result (IsSpreadOf (statistic_sums (P.test problem.now))) }
    ensures weights { IfOk result WeightsFit }
{
    stage_network::plain_spread(alloc, problem)
}

/// Each number of plus signs with how many lists of two signs have it.
pub fn spread_of_two_signs(alloc: Global) -> Result<Spread, NoMemory>
    ensures sums { IfOk result (IsSpreadOf (statistic_sums two_signs)) }
    ensures weights { IfOk result WeightsFit }
{
    plain_spread(alloc, &TwoSigns)
}

/// No line.
pub fn no_line(alloc: Global) -> Spread
    ensures { result ≡ [] }
{
    Spread::empty(alloc)
}

/// One more line.
pub fn push_line(spread: &mut Spread, line: Line) -> Result<(), NoMemory>
    requires { IsAboveLast line.value spread.old }
    ensures ok { OnOk result (spread.new ≡ spread.old ++ line ∷ []) }
    ensures err { OnErr result (spread.new ≡ spread.old) }
{
    spread.push(line)
}

/// The lines, by strictly ascending value.
pub fn lines_of(spread: &Spread) -> &[Line]
    ensures lines { result.now ≡ spread.now }
    ensures ascending { IsAscending spread.now }
{
    spread.as_slice()
}

/// Whether a total fits the narrow count.
pub fn width_of(total: u128) -> Width
    ensures { (result ≡ Width.Narrow) ↔ (total < 2 ^ 64) }
{
    stage_network::width_of(total)
}

/// A line, of its two parts.
pub fn line(value: i128, weight: u128) -> Line
    ensures { result ≡ record { value = value; weight = weight } }
{
    Line { value, weight }
}

/// A tail sum, of its two parts.
pub fn tail_sum_parts(sum: u128, opened: u128) -> TailSum
    ensures { result ≡ record { sum = sum; opened = opened } }
{
    TailSum { sum, opened }
}

/// An answer with the tail of greater values alone.
pub fn answer_of_greater(statistic: i128, scale: u128, total: u128, greater: TailSum) -> Answer
    ensures { result ≡ record {
      statistic = statistic;
      scale = scale;
      total = total;
      less = None;
      greater = Some greater;
      two = None;
    } }
{
    Answer {
        statistic,
        scale,
        total,
        less: None,
        greater: Some(greater),
        two: None,
    }
}

/// Whether nothing is known. Verdicts are three, and no other.
pub fn is_undecided(verdict: Verdict) -> bool
    ensures { IsTrue result ↔ (verdict ≡ Verdict.Undecided) }
{
    match verdict {
        Verdict::Inside | Verdict::Outside => false,
        Verdict::Undecided => true,
    }
}

/// Whether the slow way is asked. Ways are two, and no other.
pub fn is_plain(way: Way) -> bool
    ensures { IsTrue result ↔ (way ≡ Way.Plain) }
{
    match way {
        Way::Network => false,
        Way::Plain => true,
    }
}

/// Whether a total is too wide. Faults are want of memory or one of two numbers.
pub fn is_wide_total(fault: PrepareFault) -> bool
    ensures { IsTrue result ↔ (fault ≡ PrepareFault.TooWide WideOf.Total) }
{
    match fault {
        PrepareFault::TooWide(WideOf::Total) => true,
        PrepareFault::TooWide(WideOf::Statistic) | PrepareFault::NoMemory => false,
    }
}

/// The sum over keys, laid flat, that differ and are reached at a stage, each with a weight of at
/// least 1: of each one's weight times the summed weight of its extreme completions.
pub fn tail_sum_from<S: Stages>(
    alloc: Global,
    stages: &S,
    tail: Tail,
    at: usize,
    keys: &Ints,
    weights: &Ints,
) -> Result<u128, NoMemory>
    requires within { at ≤ (S.network stages.now).count }
    requires flat { length keys.now ≡ length weights.now * (S.network stages.now).width }
    requires reached { let n = S.network stages.now in
        AllByRecursion (λ node. IsReached n at node.key)
        (nodes_of n.width keys.now (map nat_abs weights.now)) }
    requires weighty { let n = S.network stages.now in
        AllByRecursion (λ node. 1 ≤ node.weight)
        (nodes_of n.width keys.now (map nat_abs weights.now)) }
    requires distinct { let n = S.network stages.now in
        IsDistinct key_eq (keys_in (nodes_of n.width keys.now (map nat_abs weights.now))) }
    requires fits { let n = S.network stages.now in
        weighted (total_weight n at) (nodes_of n.width keys.now (map nat_abs weights.now)) ≤ MAX }
    ensures { let n = S.network stages.now in
        let nodes = nodes_of n.width keys.now (map nat_abs weights.now) in
        IfOk result (λ sum. sum ≡ weighted (extreme_weight n tail at) nodes) }
{
    stage_network::tail_sum_from(alloc, stages, tail, at, keys, weights)
}
