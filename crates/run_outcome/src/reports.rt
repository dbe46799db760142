// The report of a prepared problem: the same for all tests.
ghost use Rattle.std.specs.Prelude.{◌≡◌, ◌≤◌, None, Some, IfOk, IfSome, OnOk};
ghost use Rattle.std.specs.Option.{option_copied};
ghost use Rattle.weights.specs.Conditional.{distribution};
ghost use Rattle.weights.specs.Wide.{too_wide};
ghost use Rattle.settings.specs.Usable.{IsPieceOf};
ghost use Rattle.networks.specs.Follows.{HasTails, answer_of, open_keys};
ghost use Rattle.networks.specs.Lines.{WeightsFit};
ghost use Rattle.run_outcome.specs.CauseSteps.{AnswersPrepared, IsDivided, MeetsAnd, prepared_outcome};
ghost use Rattle.run_outcome.specs.Divided.{IsDivisible};
ghost use Rattle.run_outcome.specs.Outcome.{HasParts, asked, asking_of, asking_of_made, only, report_for, spread_of, tails_in, text_for, way_of};
ghost use Rattle.run_outcome.specs.Question.{question_about};

use crate::parts::{PartOf, piece_for};
use crate::refusing::prepare_refusal;
use distribution::answer_from;
use networks::{Answer, Spread, Way};
use report::{Extra, Refusal, Sizes, Title, compose};
use settings::{OptionName, Settings, TailChoice};
use stage_network::{Prepared, answer, distribution, quick_answer};
use std::alloc::Global;
use weights::{Bytes, NoMemory, PrepareFault, Tails};

// These tails, where the test has them.
fn only(has: bool, tails: Tails) -> Option<Tails>
    ensures { result ≡ only has tails }
{
    if has { Some(tails) } else { None }
}

const NONE: Tails = Tails {
    less: false,
    greater: false,
    two: false,
};

/// All tails.
pub const ALL: Tails = Tails {
    less: true,
    greater: true,
    two: true,
};

/// The tails of one side each.
pub const ONE_SIDED: Tails = Tails { two: false, ..ALL };

/// The tail of great values alone.
pub const GREATER: Tails = Tails {
    greater: true,
    ..NONE
};

/// The tail of both sides alone.
pub const TWO: Tails = Tails { two: true, ..NONE };

// The tails that are asked of those that a test has.
fn asked(choice: TailChoice, has: Tails) -> Option<Tails>
    ensures { result ≡ asked choice has }
{
    match choice {
        TailChoice::All => Some(has),
        TailChoice::Less => only(has.less, Tails { less: true, ..NONE }),
        TailChoice::Greater => only(has.greater, GREATER),
        TailChoice::Two => only(has.two, TWO),
    }
}

fn way_of(counts: bool) -> Way
    ensures { result ≡ way_of counts }
{
    if counts { Way::Network } else { Way::Plain }
}

// The distribution, where it is asked.
fn spread_of<P: Prepared>(
    alloc: Global,
    shown: bool,
    way: Way,
    problem: &P,
) -> Result<Option<Spread>, NoMemory>
    ensures lines { IfOk result (λ spread. spread ≡ spread_of shown (P.test problem.now)) }
    ensures weights { IfOk result (λ spread. IfSome spread WeightsFit) }
{
    if !shown {
        return Ok(None);
    }
    let spread = distribution(alloc, problem, way)?;
    Ok(Some(spread))
}

/// What is asked of a report.
#[derive(Clone, Copy)]
pub struct Asking {
    pub title: Title,
    pub tail: TailChoice,
    pub distribution: bool,
    pub plain: bool,
    pub nodes: bool,
    pub piece: Option<PartOf>,
}

impl Asking {
    /// What the settings ask of the data of a file.
    pub(crate) fn of(settings: &Settings, file: &[u8]) -> Asking
        requires { IfSome settings.now.piece IsPieceOf }
        ensures asked { result ≡ asking_of settings.now file.now }
        ensures parts { HasParts result }
    {
        Asking {
            title: Title::Test(settings.test),
            tail: settings.tail,
            distribution: settings.distribution,
            plain: settings.plain,
            nodes: settings.nodes,
            piece: settings.piece.as_ref().map(|piece| PartOf::of(piece, file)),
        }
    }

    /// What is asked of made data.
    pub fn of_made(number: u64) -> Asking
        ensures asked { result ≡ asking_of_made number }
        ensures parts { HasParts result }
    {
        Asking {
            title: Title::Drill(number),
            tail: TailChoice::All,
            distribution: false,
            plain: false,
            nodes: false,
            piece: None,
        }
    }
}

/// What a report says of the data.
#[derive(Drop)]
pub struct Heading {
    pub sizes: Sizes,
    pub dropped: Option<u64>,
    pub extra: Extra,
}

// The answer of a problem, whose open keys are counted where they are shown. Where they are not,
// and the walk is not asked, its distribution tells the tails, if it is known.
fn answer_for<P: Prepared>(
    alloc: Global,
    asking: Asking,
    tails: Tails,
    problem: &P,
    spread: Option<&Spread>,
) -> Result<Answer, NoMemory>
    requires has { HasTails (P.test problem.now) tails }
    requires lines { let whole = distribution (P.test problem.now) in
        IfSome (option_copied spread) (λ lines. lines ≡ whole) }
    requires weights { IfSome (option_copied spread) WeightsFit }
    ensures answer { let opened = open_keys (P.network problem.now) in
        IfOk result (λ answer.
        answer ≡ answer_of (P.test problem.now) opened tails (way_of asking.nodes)) }
    ensures some { IfOk result (λ answer. 1 ≤ answer.total) }
{
    match spread {
        Some(_) | None if asking.nodes => answer(alloc, problem, tails, Way::Network),
        Some(_) | None if asking.plain => answer(alloc, problem, tails, Way::Plain),
        Some(spread) => answer_from(alloc, problem, tails, spread),
        None => quick_answer(alloc, problem, tails),
    }
}

// The report of a problem, for tails that it has.
fn report_for<P: Prepared>(
    alloc: Global,
    asking: Asking,
    heading: &Heading,
    tails: Tails,
    problem: &P,
) -> Result<Bytes, NoMemory>
    requires has { HasTails (P.test problem.now) tails }
    requires fits { too_wide (P.test problem.now) ≡ None }
    ensures { let about = question_about P.test P.network P.running problem.now in
        let question = about heading.now.sizes heading.now.dropped heading.now.extra in
        IfOk result (λ text. text ≡ report_for asking tails question) }
{
    let spread = spread_of(alloc, asking.distribution, way_of(!asking.plain), problem)?;
    let lines = spread.as_ref();
    let answer = answer_for(alloc, asking, tails, problem, lines)?;
    let text = compose(
        alloc,
        asking.title,
        &heading.sizes,
        heading.extra,
        heading.dropped,
        &answer,
        asking.nodes,
        lines,
    )?;
    Ok(text)
}

// The report of a problem, or the text of the part that is asked.
fn text_for<P: Prepared>(
    alloc: Global,
    asking: Asking,
    heading: &Heading,
    tails: Tails,
    problem: &P,
) -> Result<Bytes, NoMemory>
    requires parts { HasParts asking }
    requires asked { asked asking.tail (tails_in (P.test problem.now)) ≡ Some tails }
    requires has { HasTails (P.test problem.now) tails }
    requires fits { too_wide (P.test problem.now) ≡ None }
    ensures text { let about = question_about P.test P.network P.running problem.now in
        let question = about heading.now.sizes heading.now.dropped heading.now.extra in
        IfOk result (λ text. text ≡ text_for asking tails question) }
    ensures divisible { let divisible = IsDivisible (P.test problem.now) (P.running problem.now) in
        OnOk result (IfSome asking.piece (λ part. divisible (P.network problem.now) tails)) }
{
    match asking.piece {
        None => report_for(alloc, asking, heading, tails, problem),
        Some(part) => piece_for(alloc, asking, heading, tails, part, problem),
    }
}

// The report of a test that has these tails, where it is prepared and has the asked ones, or the
// refusal.
fn report_on<P: Prepared + Drop>(
    alloc: Global,
    asking: Asking,
    heading: &Heading,
    has: Tails,
    prepared: Result<P, PrepareFault>,
) -> Result<Bytes, Refusal>
    requires parts { HasParts asking }
    requires has { IfOk prepared (λ problem. has ≡ tails_in (P.test problem)) }
    requires fits { IfOk prepared (λ problem. too_wide (P.test problem) ≡ None) }
    ensures { let tails = asked asking.tail has in
        let outcome = prepared_outcome P.test P.network P.running asking in
        let told = outcome heading.now.sizes heading.now.dropped heading.now.extra in
        let divides = IsDivided P.test P.network P.running tails prepared in
        let divided = IfSome asking.piece (λ part. divides) in
        MeetsAnd divided (told tails prepared) result }
{
    let Some(tails) = asked(asking.tail, has) else {
        return Err(Refusal::Unfit(OptionName::Tail));
    };
    let problem = match prepared {
        Ok(problem) => problem,
        Err(fault) => return Err(prepare_refusal(fault)),
    };
    match text_for(alloc, asking, heading, tails, &problem) {
        Ok(text) => Ok(text),
        Err(NoMemory) => Err(Refusal::NoMemory),
    }
}

/// The report of a test that has these tails and is prepared of the data under this heading, or the
/// refusal. It answers the question about those data, whatever test it is. A call at a type of
/// problems is proved for all that the type is made of: make one such call a type, in a function
/// that does nothing else.
pub fn report_prepared<P: Prepared + Drop>(
    alloc: Global,
    asking: Asking,
    heading: &Heading,
    has: Tails,
    prepared: Result<P, PrepareFault>,
) -> Result<Bytes, Refusal>
    requires parts { HasParts asking }
    requires has { IfOk prepared (λ problem. has ≡ tails_in (P.test problem)) }
    requires fits { IfOk prepared (λ problem. too_wide (P.test problem) ≡ None) }
    ensures { let answers = AnswersPrepared P.test P.network P.running asking in
        let about = answers heading.now.sizes heading.now.dropped heading.now.extra in
        about has prepared result }
{
    report_on(alloc, asking, heading, has, prepared)
}
