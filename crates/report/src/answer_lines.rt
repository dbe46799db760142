// The lines of a report that tell the answer.
ghost use Rattle.std.specs.Prelude.{◌≡◌, ◌<◌, ◌≤◌, ◌++◌, OnOk};
ghost use Rattle.std.specs.Option.{option_copied};
ghost use Rattle.weights.specs.declared.TheConstants.{MAX};
ghost use Rattle.report.specs.Report.{AreQuotients, HasQuotients, IsPart, answer_lines, node_line, node_lines, numerator_in, spread_lines, statistic_line, tail_line, tail_lines, tail_word, total_line, value_line};

use crate::decimals::six_decimals;
use crate::pieces::{end_line, push_number};
use networks::{Answer, Spread, TailSum};
use weights::{Bytes, Line, NoMemory, Tail};

// Adds the line of the observed statistic.
#[tactic(auto, unfolding(crate::specs::Report::statistic_line))]
pub(crate) fn push_statistic(text: &mut Bytes, statistic: i128, scale: u128) -> Result<(), NoMemory>
    ensures { OnOk result (text.new ≡ text.old ++ statistic_line statistic scale) }
{
    push_number(text, "statistic ", statistic)?;
    end_line(text, "/", scale)
}

// Adds the line of the total.
#[tactic(auto, unfolding(crate::specs::Report::total_line))]
pub(crate) fn push_total(text: &mut Bytes, total: u128) -> Result<(), NoMemory>
    ensures { OnOk result (text.new ≡ text.old ++ total_line total) }
{
    end_line(text, "total ", total)
}

// The word for a tail.
fn word_of(tail: Tail) -> &'static str
    ensures { result.now ≡ tail_word tail }
{
    match tail {
        Tail::Less => "less",
        Tail::Greater => "greater",
        Tail::Two => "two",
    }
}

// Adds the line of a tail, where it is asked.
#[tactic(auto, unfolding(crate::specs::Report::tail_line))]
fn push_tail(
    text: &mut Bytes,
    total: u128,
    tail: Tail,
    numerator: Option<u128>,
) -> Result<(), NoMemory>
    requires part { IsPart total numerator }
    requires some { 0 < total }
    requires fits { total ≤ MAX }
    ensures { OnOk result (text.new ≡ text.old ++ tail_line total tail numerator) }
{
    let Some(numerator) = numerator else {
        return Ok(());
    };
    text.append(word_of(tail).as_bytes())?;
    push_number(text, " ", numerator)?;
    push_number(text, "/", total)?;
    text.append(b" ")?;
    text.append(&six_decimals(numerator, total))?;
    text.append(b"\n")
}

// Adds the lines of the asked tails.
#[tactic(auto, unfolding(crate::specs::Report::tail_lines))]
pub(crate) fn push_tails(
    text: &mut Bytes,
    total: u128,
    less: Option<u128>,
    greater: Option<u128>,
    two: Option<u128>,
) -> Result<(), NoMemory>
    requires { AreQuotients total less greater two }
    ensures { OnOk result (text.new ≡ text.old ++ tail_lines total less greater two) }
{
    push_tail(text, total, Tail::Less, less)?;
    push_tail(text, total, Tail::Greater, greater)?;
    push_tail(text, total, Tail::Two, two)
}

// The numerator of a tail, where it is asked.
fn numerator_in(tail: Option<TailSum>) -> Option<u128>
    ensures { result ≡ numerator_in tail }
{
    match tail {
        Some(found) => Some(found.sum),
        None => None,
    }
}

// Adds the lines of the asked tails of an answer.
pub(crate) fn push_answer(text: &mut Bytes, answer: &Answer) -> Result<(), NoMemory>
    requires { HasQuotients answer.now }
    ensures { OnOk result (text.new ≡ text.old ++ answer_lines answer.now) }
{
    let less = numerator_in(answer.less);
    let greater = numerator_in(answer.greater);
    let two = numerator_in(answer.two);
    push_tails(text, answer.total, less, greater, two)
}

// Adds the line of a tail's open keys, where it is asked.
#[tactic(auto, unfolding(crate::specs::Report::node_line))]
fn push_node(text: &mut Bytes, tail: Tail, sum: Option<TailSum>) -> Result<(), NoMemory>
    ensures { OnOk result (text.new ≡ text.old ++ node_line tail sum) }
{
    let Some(found) = sum else {
        return Ok(());
    };
    text.append(b"nodes ")?;
    text.append(word_of(tail).as_bytes())?;
    end_line(text, " ", found.opened)
}

// Adds the lines of the open keys.
#[tactic(auto, unfolding(crate::specs::Report::node_lines))]
pub(crate) fn push_nodes(text: &mut Bytes, answer: &Answer) -> Result<(), NoMemory>
    ensures { OnOk result (text.new ≡ text.old ++ node_lines answer.now) }
{
    push_node(text, Tail::Less, answer.less)?;
    push_node(text, Tail::Greater, answer.greater)?;
    push_node(text, Tail::Two, answer.two)
}

// Adds the line of an attained value.
#[tactic(auto, unfolding(crate::specs::Report::value_line))]
fn push_value(text: &mut Bytes, attained: &Line) -> Result<(), NoMemory>
    ensures { OnOk result (text.new ≡ text.old ++ value_line attained.now) }
{
    push_number(text, "at ", attained.value)?;
    end_line(text, " ", attained.weight)
}

// Adds the lines of a distribution, where it is asked.
#[tactic(auto, unfolding(crate::specs::Report::spread_lines))]
pub(crate) fn push_spread(text: &mut Bytes, spread: Option<&Spread>) -> Result<(), NoMemory>
    ensures { OnOk result (text.new ≡ text.old ++ spread_lines (option_copied spread.entry)) }
{
    let Some(spread) = spread else {
        return Ok(());
    };
    for attained in spread.as_slice() {
        push_value(text, attained)?;
    }
    Ok(())
}
