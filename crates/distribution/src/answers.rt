// The answer of a prepared test whose whole distribution is known.
ghost use Rattle.std.specs.Prelude.{◌≡◌, ◌≤◌, true, false, IfOk};
ghost use Rattle.weights.specs.declared.tails.Tail.TheVariants.{Two};
ghost use Rattle.weights.specs.Conditional.{distribution, numerator};
ghost use Rattle.weights.specs.Frames.{IsShown, first_tail};
ghost use Rattle.networks.specs.declared.answers.Way.TheVariants as way;
ghost use Rattle.networks.specs.Follows.{HasTails, answer_of, asked_tail, tail_of, uncounted};
ghost use Rattle.networks.specs.Lines.{WeightsFit};
ghost use Rattle.distribution.specs.ByStatistic.{GoesByStatistic};

use crate::filtered::weight_of;
use networks::{Answer, Spread, TailSum};
use stage_network::{Prepared, quick_numerators};
use std::alloc::Global;
use weights::{NoMemory, Rule, Tail, Tails};

// The tail of both sides alone.
const TWO: Tails = Tails {
    less: false,
    greater: false,
    two: true,
};

// Whether a test has a tail of one side.
fn has_one_side<P: Prepared>(problem: &P) -> bool
    ensures first { result ≡ false → first_tail (P.test problem.now) ≡ Two }
    ensures shown { IsShown (P.test problem.now) }
{
    if problem.has_tail(Tail::Less) {
        return true;
    }
    problem.has_tail(Tail::Greater)
}

// Whether both sides go by the statistic: where they go by a distance, or are the only tail.
fn both_by_statistic<P: Prepared>(problem: &P) -> bool
    ensures { result ≡ true → GoesByStatistic (P.test problem.now) Two }
{
    if !has_one_side(problem) {
        return true;
    }
    match problem.frame().two {
        Rule::Far(_, _, _) => true,
        Rule::AtMost(_) | Rule::AtLeast(_) => false,
    }
}

// The weight of the lines whose values pass the rule of a tail that goes by the statistic.
fn weight_for<P: Prepared>(problem: &P, tail: Tail, spread: &Spread) -> u128
    requires goes { GoesByStatistic (P.test problem.now) tail }
    requires lines { spread.now ≡ distribution (P.test problem.now) }
    requires weights { WeightsFit spread.now }
    ensures { result ≡ numerator (P.test problem.now) tail }
{
    let rule = problem.frame().rule(tail);
    weight_of(spread.as_slice(), rule)
}

// The numerator of a tail that goes by the statistic, where it is asked.
fn asked_weight<P: Prepared>(
    problem: &P,
    asked: bool,
    tail: Tail,
    spread: &Spread,
) -> Option<TailSum>
    requires goes { GoesByStatistic (P.test problem.now) tail }
    requires lines { spread.now ≡ distribution (P.test problem.now) }
    requires weights { WeightsFit spread.now }
    ensures { let sum = tail_of (P.test problem.now) uncounted tail way.Plain in
        result ≡ asked_tail asked sum }
{
    if !asked {
        return None;
    }
    let sum = weight_for(problem, tail, spread);
    Some(TailSum { sum, opened: 0 })
}

// The numerator of both sides, where it is asked: of the lines, where these tell it, else by the
// quick ways.
fn asked_on_both<P: Prepared>(
    alloc: Global,
    problem: &P,
    asked: bool,
    spread: &Spread,
) -> Result<Option<TailSum>, NoMemory>
    requires has { asked ≡ true → (P.test problem.now).has_tail Two ≡ true }
    requires lines { spread.now ≡ distribution (P.test problem.now) }
    requires weights { WeightsFit spread.now }
    ensures { let sum = tail_of (P.test problem.now) uncounted Two way.Plain in
        IfOk result (λ found. found ≡ asked_tail asked sum) }
{
    if both_by_statistic(problem) {
        return Ok(asked_weight(problem, asked, Tail::Two, spread));
    }
    if !asked {
        return Ok(None);
    }
    let sums = quick_numerators(alloc, problem, TWO)?;
    let sum = sums.two.sum;
    Ok(Some(TailSum { sum, opened: 0 }))
}

/// The answer of a test for tails that it has, where its whole distribution is known and no key is
/// to be counted: the numbers of [`stage_network::quick_answer`]. A tail that goes by the statistic
/// is a sum of weights of lines; only both sides of a test by rarity that has one-sided tails too
/// go by [`stage_network::quick_numerators`].
pub fn answer_from<P: Prepared>(
    alloc: Global,
    problem: &P,
    tails: Tails,
    spread: &Spread,
) -> Result<Answer, NoMemory>
    requires has { HasTails (P.test problem.now) tails }
    requires lines { spread.now ≡ distribution (P.test problem.now) }
    requires weights { WeightsFit spread.now }
    ensures answer { IfOk result (λ answer. answer
        ≡ answer_of (P.test problem.now) uncounted tails way.Plain) }
    ensures some { IfOk result (λ answer. 1 ≤ answer.total) }
{
    let frame = problem.frame();
    let less = asked_weight(problem, tails.less, Tail::Less, spread);
    let greater = asked_weight(problem, tails.greater, Tail::Greater, spread);
    let two = asked_on_both(alloc, problem, tails.two, spread)?;
    Ok(Answer {
        statistic: frame.statistic,
        scale: frame.scale,
        total: frame.total,
        less,
        greater,
        two,
    })
}
