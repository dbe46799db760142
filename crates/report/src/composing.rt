// The text of a report.
ghost use Rattle.std.specs.Prelude.{◌≡◌, IfOk};
ghost use Rattle.std.specs.Option.{option_copied};
ghost use Rattle.report.specs.Report.{AreQuotients, HasQuotients, head_text, merged_text, report_text};

use crate::answer_lines::{
    push_answer, push_nodes, push_spread, push_statistic, push_tails, push_total,
};
use crate::heading_lines::{push_dropped, push_extra, push_sizes, push_title};
use crate::headings::{Extra, Sizes, Title};
use networks::{Answer, Spread};
use std::alloc::Global;
use weights::{Bytes, NoMemory};

/// The report of an answer: what was run, the sizes of the data, how many rows were left out if
/// that is told, what else the test has, the observed statistic over its scale, the total, and a
/// line for each asked tail; then, if asked, the open keys of these tails, and the lines of a
/// distribution.
///
/// Each numerator is at most the total, which is from 1 to [`weights::MAX`]. The only error is want
/// of memory.
pub fn compose(
    alloc: Global,
    title: Title,
    sizes: &Sizes,
    extra: Extra,
    dropped: Option<u64>,
    answer: &Answer,
    nodes: bool,
    spread: Option<&Spread>,
) -> Result<Bytes, NoMemory>
    requires { HasQuotients answer.now }
    ensures { let lines = option_copied spread.entry in IfOk result (λ text.
        text ≡ report_text title sizes.now dropped extra answer.now nodes lines) }
{
    let statistic = answer.statistic;
    let scale = answer.scale;
    let total = answer.total;
    let mut text = compose_head(alloc, title, sizes, extra, dropped, statistic, scale, total)?;
    push_answer(&mut text, answer)?;
    if nodes {
        push_nodes(&mut text, answer)?;
    }
    push_spread(&mut text, spread)?;
    Ok(text)
}

/// The lines of a report down to its total: what was run, the sizes of the data, how many rows were
/// left out if that is told, what else the test has, the observed statistic over its scale, and the
/// total. The only error is want of memory.
#[tactic(auto, unfolding(crate::specs::Report::head_text))]
pub fn compose_head(
    alloc: Global,
    title: Title,
    sizes: &Sizes,
    extra: Extra,
    dropped: Option<u64>,
    statistic: i128,
    scale: u128,
    total: u128,
) -> Result<Bytes, NoMemory>
    ensures { IfOk result (λ text.
        text ≡ head_text title sizes.now dropped extra statistic scale total) }
{
    let mut text = Bytes::empty(alloc);
    push_title(&mut text, title)?;
    push_sizes(&mut text, sizes)?;
    push_dropped(&mut text, dropped)?;
    push_extra(&mut text, extra)?;
    push_statistic(&mut text, statistic, scale)?;
    push_total(&mut text, total)?;
    Ok(text)
}

/// The report of a divided run: its lines down to the total, and a line for each asked tail by its
/// numerator.
///
/// Each numerator is at most the total, which is from 1 to [`weights::MAX`]. The only error is want
/// of memory.
#[tactic(auto, unfolding(crate::specs::Report::merged_text))]
pub fn compose_merged(
    alloc: Global,
    head: &Bytes,
    total: u128,
    less: Option<u128>,
    greater: Option<u128>,
    two: Option<u128>,
) -> Result<Bytes, NoMemory>
    requires { AreQuotients total less greater two }
    ensures { IfOk result (λ text. text ≡ merged_text head.now total less greater two) }
{
    let mut text = Bytes::empty(alloc);
    text.append(head.as_slice())?;
    push_tails(&mut text, total, less, greater, two)?;
    Ok(text)
}
