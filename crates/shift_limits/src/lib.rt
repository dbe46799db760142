//! The estimate of the shift between two samples, and its exact limits.
#![tactic(auto)]

ghost use Rattle.std.specs.Prelude.{◌≡◌, ◌≤◌, length, IfOk};
ghost use Rattle.weights.specs.Labellings.{number_of_labellings};
ghost use Rattle.weights.specs.declared.TheConstants.{MAX};
ghost use Rattle.sample_reader.specs.Data.{data_of};
ghost use Rattle.weights.specs.Odds.{IsMiss};
ghost use Rattle.shift_limits.specs.Limits.{AreShown, LimitsDivide, MeetsLimits, limits_of};

mod differences;
mod faults;
mod lines;
mod places;
mod samples;

use differences::{differences_of, limits_at, middle_of};
pub use faults::ShiftFault;
use lines::rank_lines;
use places::{labellings_below, place_of_limits};
use sample_reader::Groups;
use std::alloc::Global;
use weights::{Limits, NoMemory, Odds, multinomial};

// The estimate and the limits, where there are so many labellings.
fn told(alloc: Global, groups: &Groups, miss: Odds, total: u128) -> Result<Limits, NoMemory>
    requires two { length groups.now.labels ≡ 2 }
    requires miss { IsMiss miss }
    requires total { total ≡ number_of_labellings groups.now.sizes }
    requires fits { total ≤ MAX }
    ensures { IfOk result (λ limits. limits ≡ limits_of (data_of groups.now) miss) }
{
    let lines = rank_lines(alloc, groups)?;
    let made = differences_of(alloc, groups)?;
    let sizes = groups.sizes.as_slice();
    let list = made.list.as_slice();
    let place = place_of_limits(&lines, sizes, total, miss, list.len() as u64);
    let (lower, upper) = limits_at(list, place as usize);
    Ok(Limits {
        differences: list.len() as u64,
        places: made.places,
        middle: middle_of(list),
        lower,
        upper,
        total,
        missed: 2 * labellings_below(&lines, sizes, place),
    })
}

/// The estimate of the shift of the second sample from the first, and its exact limits (Hodges and
/// Lehmann, Annals of Mathematical Statistics 34, 1963; Hollander and Wolfe, Nonparametric
/// Statistical Methods, chapter 4). The estimate is half the sum of the two middle differences. The
/// limits stand at the same place from either end of the ascending differences, the greatest at
/// which they miss at most this part of the labellings, on both sides together; there are none
/// where no place is so far out. A labelling says which of the subjects' places, without ties, the
/// second sample has.
///
/// # Errors
/// `TooWide` exactly where there are more labellings than [`weights::MAX`]; `NoMemory` where memory
/// runs out.
pub fn limits(alloc: Global, groups: &Groups, miss: Odds) -> Result<Limits, ShiftFault>
    requires two { length groups.now.labels ≡ 2 }
    requires miss { IsMiss miss }
    ensures limits { MeetsLimits (data_of groups.now) miss result }
    ensures between { IfOk result (LimitsDivide (data_of groups.now) miss) }
    ensures shown { IfOk result AreShown }
{
    let Some(total) = multinomial(groups.sizes.as_slice()) else {
        return Err(ShiftFault::TooWide);
    };
    Ok(told(alloc, groups, miss, total)?)
}
