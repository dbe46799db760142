// The answer of a prepared test, by its network or by the plain walk.
ghost use Rattle.std.specs.Prelude.{◌≡◌, ◌≤◌, true, IfOk};
ghost use Rattle.weights.specs.Conditional.{distribution};
ghost use Rattle.weights.specs.Frames.{IsShown, first_tail};
ghost use Rattle.weights.specs.declared.tails.Tail.{Tail};
ghost use Rattle.networks.specs.Asked.{asks};
ghost use Rattle.networks.specs.Follows.{AreShared, HasTails};
ghost use Rattle.networks.specs.Follows.{answer_of, asked_tail, open_keys, tail_of};
ghost use Rattle.networks.specs.Lines.{TailsFit, WeightsFit};
ghost use Rattle.networks.specs.EachTail.{sum_for};

use crate::first_tails::{first_among, first_asked};
use crate::prepared::{Prepared, network_of};
use crate::spreads::spread_by_rooms;
use crate::sums::{tail_sum_by_rooms, tail_sums_by_rooms};
use crate::walks::plain_spread;
use enumerate::plain_tail;
use networks::{Answer, Roomed, Spread, Stages, TailSum, TailSums, Way};
use std::alloc::Global;
use weights::{NoMemory, Tail, Tails};

// The sums of the asked tails by one sweep of the network that serves them all.
fn by_one_sweep<P: Prepared>(alloc: Global, problem: &P, tails: Tails) -> Result<TailSums, NoMemory>
    requires has { HasTails (P.test problem.now) tails }
    requires shared { AreShared (P.test problem.now) (P.running problem.now) }
    ensures { let opened = open_keys (P.network problem.now) in
        IfOk result (λ sums. (t : Tail) → asks tails t ≡ true
        → sum_for sums t ≡ tail_of (P.test problem.now) opened t Way.Network) }
{
    let tail = match first_asked(tails) {
        Some(tail) => tail,
        None => return Ok(TailSums::none()),
    };
    let stages = network_of(alloc, problem, tail)?;
    let sums = tail_sums_by_rooms(alloc, &stages, tails)?;
    Ok(sums)
}

fn by_network<P: Prepared>(alloc: Global, problem: &P, tail: Tail) -> Result<TailSum, NoMemory>
    requires { (P.test problem.now).has_tail tail ≡ true }
    ensures { let opened = open_keys (P.network problem.now) in
        IfOk result (λ sum. sum ≡ tail_of (P.test problem.now) opened tail Way.Network) }
{
    let stages = network_of(alloc, problem, tail)?;
    let sum = tail_sum_by_rooms(alloc, &stages, tail)?;
    Ok(sum)
}

fn by_walk<P: Prepared>(alloc: Global, problem: &P, tail: Tail) -> Result<TailSum, NoMemory>
    requires { (P.test problem.now).has_tail tail ≡ true }
    ensures { let opened = open_keys (P.network problem.now) in
        IfOk result (λ sum. sum ≡ tail_of (P.test problem.now) opened tail Way.Plain) }
{
    let sum = plain_tail(alloc, problem, tail)?;
    Ok(TailSum { sum, opened: 0 })
}

// The sum of one tail; of one that is not asked nothing.
fn by_itself<P: Prepared>(
    alloc: Global,
    problem: &P,
    asked: bool,
    tail: Tail,
    way: Way,
) -> Result<TailSum, NoMemory>
    requires { asked ≡ true → (P.test problem.now).has_tail tail ≡ true }
    ensures { let opened = open_keys (P.network problem.now) in
        asked ≡ true → IfOk result (λ sum. sum ≡ tail_of (P.test problem.now) opened tail way) }
{
    if !asked {
        return Ok(TailSum { sum: 0, opened: 0 });
    }
    match way {
        Way::Network => by_network(alloc, problem, tail),
        Way::Plain => by_walk(alloc, problem, tail),
    }
}

// The sums of the asked tails, one after another.
fn one_by_one<P: Prepared>(
    alloc: Global,
    problem: &P,
    tails: Tails,
    way: Way,
) -> Result<TailSums, NoMemory>
    requires { HasTails (P.test problem.now) tails }
    ensures { let opened = open_keys (P.network problem.now) in
        IfOk result (λ sums. (t : Tail) → asks tails t ≡ true
        → sum_for sums t ≡ tail_of (P.test problem.now) opened t way) }
{
    let less = by_itself(alloc, problem, tails.less, Tail::Less, way)?;
    let greater = by_itself(alloc, problem, tails.greater, Tail::Greater, way)?;
    let two = by_itself(alloc, problem, tails.two, Tail::Two, way)?;
    Ok(TailSums { less, greater, two })
}

/// The sums of the asked tails.
pub(crate) fn sums_of<P: Prepared>(
    alloc: Global,
    problem: &P,
    tails: Tails,
    way: Way,
) -> Result<TailSums, NoMemory>
    requires { HasTails (P.test problem.now) tails }
    ensures { let opened = open_keys (P.network problem.now) in
        IfOk result (λ sums. (t : Tail) → asks tails t ≡ true
        → sum_for sums t ≡ tail_of (P.test problem.now) opened t way) }
{
    let shared = problem.is_shared();
    match way {
        Way::Network if shared => by_one_sweep(alloc, problem, tails),
        Way::Network | Way::Plain => one_by_one(alloc, problem, tails, way),
    }
}

/// What is asked.
pub fn where_asked(asked: bool, sum: TailSum) -> Option<TailSum>
    ensures { result ≡ asked_tail asked sum }
{
    if asked { Some(sum) } else { None }
}

/// The answer of a test for tails that it has, which may be none: the observed statistic, its
/// scale, the total and each asked tail's numerator, exactly by the definitions of the test, by
/// either way. The open keys that are counted are those of the test's networks.
pub fn answer<P: Prepared>(
    alloc: Global,
    problem: &P,
    tails: Tails,
    way: Way,
) -> Result<Answer, NoMemory>
    requires { HasTails (P.test problem.now) tails }
    ensures answer { let opened = open_keys (P.network problem.now) in
        IfOk result (λ answer. answer ≡ answer_of (P.test problem.now) opened tails way) }
    ensures some { IfOk result (λ answer. 1 ≤ answer.total) }
{
    let frame = problem.frame();
    let sums = sums_of(alloc, problem, tails, way)?;
    Ok(Answer {
        statistic: frame.statistic,
        scale: frame.scale,
        total: frame.total,
        less: where_asked(tails.less, sums.less),
        greater: where_asked(tails.greater, sums.greater),
        two: where_asked(tails.two, sums.two),
    })
}

// The first of the tails that a test has.
fn first_tail<P: Prepared>(problem: &P) -> Tail
    ensures first { result ≡ first_tail (P.test problem.now) }
    ensures shown { IsShown (P.test problem.now) }
{
    first_among(
        problem.has_tail(Tail::Less),
        problem.has_tail(Tail::Greater),
    )
}

fn spread_by_walk<P: Prepared>(alloc: Global, problem: &P) -> Result<Spread, NoMemory>
    ensures lines { IfOk result (λ spread. spread ≡ distribution (P.test problem.now)) }
    ensures weights { IfOk result WeightsFit }
    ensures rules { IfOk result (TailsFit (P.test problem.now)) }
{
    let _frame = problem.frame();
    let _tail = first_tail(problem);
    let found = plain_spread(alloc, problem)?;
    Ok(found)
}

// By the network that runs for the first tail.
fn spread_by_network<P: Prepared>(alloc: Global, problem: &P) -> Result<Spread, NoMemory>
    ensures lines { IfOk result (λ spread. spread ≡ distribution (P.test problem.now)) }
    ensures weights { IfOk result WeightsFit }
    ensures rules { IfOk result (TailsFit (P.test problem.now)) }
{
    let _frame = problem.frame();
    let tail = first_tail(problem);
    let stages = network_of(alloc, problem, tail)?;
    let _lawful = stages.stages();
    let found = spread_by_rooms(alloc, &stages)?;
    Ok(found)
}

// By the quick network, or, where this finds no memory, by that one.
fn spread_of<P: Prepared>(alloc: Global, problem: &P) -> Result<Spread, NoMemory>
    ensures lines { IfOk result (λ spread. spread ≡ distribution (P.test problem.now)) }
    ensures weights { IfOk result WeightsFit }
    ensures rules { IfOk result (TailsFit (P.test problem.now)) }
{
    match problem.quick_distribution(alloc) {
        Ok(spread) => Ok(spread),
        Err(NoMemory) => spread_by_network(alloc, problem),
    }
}

/// The distribution of a test: each value that its statistic takes, by strictly ascending value,
/// with the summed weight of the rearrangements that have it, by either way. Its weights sum to at
/// most [`weights::MAX`], and the rule of no tail computes a number of a value that passes a limit.
pub fn distribution<P: Prepared>(alloc: Global, problem: &P, way: Way) -> Result<Spread, NoMemory>
    ensures lines { IfOk result (λ spread. spread ≡ distribution (P.test problem.now)) }
    ensures weights { IfOk result WeightsFit }
    ensures rules { IfOk result (TailsFit (P.test problem.now)) }
{
    match way {
        Way::Network => spread_of(alloc, problem),
        Way::Plain => spread_by_walk(alloc, problem),
    }
}
