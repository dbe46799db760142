// The text of a report of a shift.
ghost use Rattle.std.specs.Prelude.{◌≡◌, ◌≤◌, ◌<◌, ◌^◌, ◌++◌, codes, IfOk, OnOk};
ghost use Rattle.weights.specs.declared.TheConstants.{MAX};
ghost use Rattle.report.specs.Report.{line};
ghost use Rattle.report.specs.Shift.{IsShowable, differences_line, estimate_line, limit_line, limits_lines, miss_line, shift_text};

use crate::answer_lines::push_total;
use crate::decimals::six_decimals;
use crate::heading_lines::{push_dropped, push_sizes};
use crate::headings::Sizes;
use crate::pieces::{end_line, push_number};
use std::alloc::Global;
use weights::{Bytes, Limits, NoMemory};

// Adds the line of how many differences there are.
#[tactic(auto, unfolding(crate::specs::Shift::differences_line))]
fn push_differences(text: &mut Bytes, differences: u64) -> Result<(), NoMemory>
    ensures { OnOk result (text.new ≡ text.old ++ differences_line differences) }
{
    end_line(text, "differences ", differences)
}

// Adds the line of the estimate, which is half the sum of the two middle differences.
#[tactic(auto, unfolding(crate::specs::Shift::estimate_line))]
fn push_estimate(text: &mut Bytes, middle: i128, places: u128) -> Result<(), NoMemory>
    requires { places ≤ 10 ^ 18 }
    ensures { OnOk result (text.new ≡ text.old ++ estimate_line middle places) }
{
    push_number(text, "estimate ", middle)?;
    end_line(text, "/", 2 * places)
}

// Adds the line of a limit.
#[tactic(auto, unfolding(crate::specs::Shift::limit_line))]
fn push_limit(
    text: &mut Bytes,
    word: &str,
    limit: Option<i128>,
    places: u128,
) -> Result<(), NoMemory>
    ensures { OnOk result (text.new ≡ text.old ++ limit_line word.now limit places) }
{
    text.append(word.as_bytes())?;
    match limit {
        Some(limit) => {
            push_number(text, " ", limit)?;
            end_line(text, "/", places)
        }
        None => text.append(b" none\n"),
    }
}

// Adds the line of how many labellings the limits miss.
#[tactic(auto, unfolding(crate::specs::Shift::miss_line))]
fn push_miss(text: &mut Bytes, missed: u128, total: u128) -> Result<(), NoMemory>
    requires some { 0 < total }
    requires fits { total ≤ MAX }
    requires part { missed ≤ total }
    ensures { OnOk result (text.new ≡ text.old ++ miss_line missed total) }
{
    push_number(text, "miss ", missed)?;
    push_number(text, "/", total)?;
    text.append(b" ")?;
    text.append(&six_decimals(missed, total))?;
    text.append(b"\n")
}

// Adds the lines of what is said of a shift.
#[tactic(auto, unfolding(crate::specs::Shift::limits_lines))]
fn push_limits(text: &mut Bytes, limits: &Limits) -> Result<(), NoMemory>
    requires { IsShowable limits.now }
    ensures { OnOk result (text.new ≡ text.old ++ limits_lines limits.now) }
{
    push_differences(text, limits.differences)?;
    push_estimate(text, limits.middle, limits.places)?;
    push_limit(text, "lower", limits.lower, limits.places)?;
    push_limit(text, "upper", limits.upper, limits.places)?;
    push_total(text, limits.total)?;
    push_miss(text, limits.missed, limits.total)
}

/// The report of a shift: the sizes of the data, how many rows were left out if that is told, how
/// many differences there are, the estimate and the limits as quotients, how many labellings there
/// are, and how many of them the limits miss.
///
/// What is missed is at most the total, which is from 1 to [`weights::MAX`], and the places are at
/// most 10^18. The only error is want of memory.
#[tactic(auto, unfolding(crate::specs::Shift::shift_text))]
pub fn compose_shift(
    alloc: Global,
    sizes: &Sizes,
    dropped: Option<u64>,
    limits: &Limits,
) -> Result<Bytes, NoMemory>
    requires { IsShowable limits.now }
    ensures { IfOk result (λ text. text ≡ shift_text sizes.now dropped limits.now) }
{
    let mut text = Bytes::empty(alloc);
    text.append(b"shift\n")?;
    push_sizes(&mut text, sizes)?;
    push_dropped(&mut text, dropped)?;
    push_limits(&mut text, limits)?;
    Ok(text)
}
